ghost use Rattle.std.specs.Prelude.{◌≡◌, ◌∷◌, ◌<◌, length, slice_index_or, OnOk, OnErr};
ghost use Rattle.heap_meaning.specs.Run.{without};
ghost use Rattle.heap_meaning.specs.Deeds.{no_frame, running, below, settled, handed};

use crate::states::{Frame, Frames};
use crate::values::{Value, Values};
use c_tree::Memory;
use flow_graph::Numbers;

impl Values {
    /// Makes these places Unset.
    fn clear(&mut self, places: &Numbers)
        ensures { self.new ≡ without self.old places.now }
    {
        for place in places.items.iter() {
            self.put(*place, Value::Unset);
        }
    }
}

impl Frame {
    /// Goes on at a place, with a value in one of the slots where one is named.
    fn settle(&mut self, to: u32, slot: Option<u32>, value: Value)
        ensures { self.new ≡ settled self.old to slot value }
    {
        self.place = to;
        self.waiting = None;
        if let Some(slot) = slot {
            self.slots.put(slot, value);
        }
    }

    /// Hands over the values of these slots, and waits for a result in a slot where one is named.
    fn hand_over(&mut self, waiting: Option<u32>, args: &Numbers)
        ensures { self.new ≡ handed self.old waiting args.now }
    {
        self.waiting = waiting;
        self.slots.clear(args);
    }
}

impl Frames {
    pub(crate) fn count(&self) -> usize
        ensures { result ≡ length self.now }
    {
        self.items.len()
    }

    /// A frame by how many frames stand on it: 0 for the running one.
    pub(crate) fn under(&self, depth: usize) -> &Frame
        requires { depth < length self.now }
        ensures { result.now ≡ slice_index_or self.now depth no_frame }
    {
        &self.items[self.items.len() - 1 - depth]
    }

    /// Leads the running frame to a place, and puts a value into one of its slots where one is named.
    pub(crate) fn settle(&mut self, to: u32, slot: Option<u32>, value: Value)
        requires { 0 < length self.old }
        ensures { self.new ≡ settled (running self.old) to slot value ∷ below self.old }
    {
        let top = self.items.len() - 1;
        self.items[top].settle(to, slot, value);
    }

    /// Takes the values of these slots from the running frame.
    pub(crate) fn hand_over(&mut self, waiting: Option<u32>, args: &Numbers)
        requires { 0 < length self.old }
        ensures { self.new ≡ handed (running self.old) waiting args.now ∷ below self.old }
    {
        let top = self.items.len() - 1;
        self.items[top].hand_over(waiting, args);
    }

    /// Puts a new frame on the running one, which hands over the values of these slots and waits. No change for want
    /// of memory.
    pub(crate) fn call(
        &mut self,
        waiting: Option<u32>,
        args: &Numbers,
        frame: Frame,
    ) -> Result<(), Memory>
        requires { 0 < length self.old }
        ensures called { OnOk result
            (self.new ≡ frame ∷ handed (running self.old) waiting args.now ∷ below self.old) }
        ensures memory { OnErr result (self.new ≡ self.old) }
    {
        let top = self.items.len() - 1;
        self.items.push(frame)?;
        self.items[top].hand_over(waiting, args);
        Ok(())
    }

    /// Takes the running frame away.
    pub(crate) fn leave(&mut self)
        requires { 0 < length self.old }
        ensures { self.new ≡ below self.old }
    {
        let _ = self.items.pop();
    }
}
