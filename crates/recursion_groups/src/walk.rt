ghost use Rattle.std.specs.Prelude.{◌≡◌, ◌<◌, ◌≤◌, ◌^◌, ◌∷◌, [], List, length, reverse, MatchOption, OnOk, IfOk};
ghost use Rattle.std.specs.List.{All};
ghost use Rattle.recursion_groups.specs.Walks.{mark_of, at_first, with_pending, added, entered, unbound, joined, AreMarked, IsClosed, IsFirst, NoneAbove, IsAbove, IsWalk, KeepsMet, Advances, AreWithin, IsMet, Meets, class_of, classed, AreClasses};
ghost use Rattle.recursion_groups.specs.declared.walk.Pending.{Pending};

use c_tree::Memory;
use flow_graph::Numbers;
use std::alloc::Global;
use std::marker::Model;

/// How far a walk has come with a procedure.
#[derive(Clone, Copy, Drop)]
pub(crate) enum Mark {
    /// It was not met yet.
    New,
    /// It stands at this place of the stack.
    Open(usize),
    /// It is in the class of this number.
    Done(u32),
}

/// A call that was not followed yet.
#[derive(Clone, Copy, Drop)]
pub(crate) struct Pending {
    /// The place of its caller in the stack.
    pub place: usize,
    pub to: u32,
}

/// A walk along calls that finds the classes of procedures that reach one another.
#[derive(Drop)]
pub(crate) struct Walk {
    marks: Vec<Mark>,
    /// The procedures that were met and are in no class yet: each reaches those behind it.
    stack: Vec<u32>,
    /// The places of the stack where a segment begins. Those of one segment reach one another.
    bounds: Vec<usize>,
    /// The calls of those of the stack that were not followed yet.
    pending: Vec<Pending>,
    /// A procedure of each class.
    firsts: Vec<u32>,
}

impl Model for Walk {
    ghost use Rattle.recursion_groups.specs.Walks.{Walked};
    ghost use Rattle.std.specs.Prelude.{reverse};

    ghost Value = { Walked };

    ghost view = { λ w. record {
      marks = w.marks.items;
      stack = w.stack.items;
      bounds = reverse w.bounds.items;
      pending = reverse w.pending.items;
      firsts = w.firsts.items;
    } };
}

/// Puts these procedures into a class.
fn mark_done(marks: &mut [Mark], members: &[u32], class: u32)
    requires { All (λ p. p < length marks.old) members.now }
    ensures { AreMarked members.now class marks.old marks.new }
{
    for proc in members {
        marks[*proc as usize] = Mark::Done(class);
    }
}

/// Adds the calls of the procedure at a place of the stack.
fn add_calls(pending: &mut Vec<Pending>, place: usize, calls: &[u32]) -> Result<(), Memory>
    ensures { OnOk result (reverse pending.new.items ≡ added place calls.now (reverse pending.old.items)) }
{
    for to in calls {
        pending.push(Pending { place, to: *to })?;
    }
    Ok(())
}

/// Takes away the bounds above a place.
fn unbind(bounds: &mut Vec<usize>, place: usize)
    ensures { reverse bounds.new.items ≡ unbound place (reverse bounds.old.items) }
{
    while let Some(bound) = bounds.last() {
        if *bound <= place {
            return;
        }
        let _ = bounds.pop();
    }
}

impl Walk {
    /// A walk that has not begun.
    fn new(alloc: Global, count: usize) -> Result<Walk, Memory>
        ensures { IfOk result (λ w. w ≡ at_first count) }
    {
        let marks = vec![in alloc; Mark::New; count]?;
        Ok(Walk {
            marks,
            stack: Vec::new(alloc),
            bounds: Vec::new(alloc),
            pending: Vec::new(alloc),
            firsts: Vec::new(alloc),
        })
    }

    /// How far the walk has come with a procedure.
    fn mark(&self, proc: u32) -> Mark
        requires { proc < length self.now.marks }
        ensures { result ≡ mark_of self.now.marks proc }
    {
        self.marks[proc as usize]
    }

    /// Where the last segment begins.
    fn bound(&self) -> Option<usize>
        ensures { MatchOption result (self.now.bounds ≡ []) (IsFirst self.now.bounds) }
    {
        let bound = self.bounds.last()?;
        Some(*bound)
    }

    /// The call that was met last and not followed.
    fn call(&self) -> Option<Pending>
        ensures { MatchOption result (self.now.pending ≡ []) (IsFirst self.now.pending) }
    {
        let call = self.pending.last()?;
        Some(*call)
    }

    /// The same, where its caller is in the last segment, which begins there.
    fn call_above(&self, bound: usize) -> Option<Pending>
        ensures { MatchOption result (NoneAbove self.now.pending bound) (IsAbove self.now.pending bound) }
    {
        let call = self.call()?;
        if call.place < bound {
            return None;
        }
        Some(call)
    }

    /// Takes away that call.
    fn drop_call(&mut self)
        ensures { (call : Pending) → (rest : List Pending) → self.old.pending ≡ call ∷ rest → self.new ≡ with_pending self.old rest }
    {
        let _ = self.pending.pop();
    }

    /// Meets a procedure: it is a segment of its own for now.
    fn enter(&mut self, proc: u32, calls: &[u32]) -> Result<(), Memory>
        requires { proc < length self.old.marks }
        ensures { OnOk result (self.new ≡ entered self.old proc calls.now) }
    {
        let place = self.stack.len();
        self.marks[proc as usize] = Mark::Open(place);
        self.stack.push(proc)?;
        self.bounds.push(place)?;
        add_calls(&mut self.pending, place, calls)
    }

    /// Joins the segments from this place on.
    fn join(&mut self, place: usize)
        ensures { self.new ≡ joined self.old place }
    {
        unbind(&mut self.bounds, place);
    }

    /// Makes a class of the last segment, which begins there.
    fn close(&mut self, bound: usize) -> Result<(), Memory>
        requires bound { bound < length self.old.stack }
        requires within { All (λ p. p < length self.old.marks) self.old.stack }
        requires few { length self.old.firsts < 2 ^ 32 }
        ensures { OnOk result (IsClosed bound self.old self.new) }
    {
        let class = self.firsts.len() as u32;
        self.firsts.push(self.stack[bound])?;
        mark_done(&mut self.marks, &self.stack[bound..], class);
        self.stack.truncate(bound);
        let _ = self.bounds.pop();
        Ok(())
    }

    /// Follows a call, or makes a class of the last segment, which begins at this bound, where its calls were followed.
    fn advance(&mut self, calls: &[Numbers], bound: usize) -> Result<(), Memory>
        requires within { AreWithin calls.now }
        requires few { length calls.now < 2 ^ 32 }
        requires walk { IsWalk calls.now self.old }
        requires bound { IsFirst self.old.bounds bound }
        ensures { OnOk result (Advances calls.now self.old self.new) }
    {
        let Some(call) = self.call_above(bound) else {
            return self.close(bound);
        };
        self.drop_call();
        match self.mark(call.to) {
            Mark::New => {
                let called = &calls[call.to as usize];
                self.enter(call.to, &called.items)?;
            }
            Mark::Open(place) => self.join(place),
            Mark::Done(_) => {}
        }
        Ok(())
    }

    /// Walks on until all that was met is in a class.
    fn finish(&mut self, calls: &[Numbers]) -> Result<(), Memory>
        requires within { AreWithin calls.now }
        requires few { length calls.now < 2 ^ 32 }
        requires walk { IsWalk calls.now self.old }
        ensures walk { OnOk result (IsWalk calls.now self.new) }
        ensures end { OnOk result (self.new.bounds ≡ []) }
        ensures done { OnOk result (KeepsMet self.old self.new) }
    {
        while let Some(bound) = self.bound() {
            self.advance(calls, bound)?;
        }
        Ok(())
    }

    /// Meets a procedure unless it was met, where nothing is open.
    fn enter_new(&mut self, calls: &[Numbers], root: u32) -> Result<(), Memory>
        requires walk { IsWalk calls.now self.old }
        requires rest { self.old.bounds ≡ [] }
        requires root { root < length calls.now }
        ensures { OnOk result (Meets calls.now root self.old self.new) }
    {
        let Mark::New = self.mark(root) else {
            return Ok(());
        };
        let called = &calls[root as usize];
        self.enter(root, &called.items)
    }

    /// Walks from a procedure where it was not met.
    fn walk_from(&mut self, calls: &[Numbers], root: u32) -> Result<(), Memory>
        requires within { AreWithin calls.now }
        requires few { length calls.now < 2 ^ 32 }
        requires walk { IsWalk calls.now self.old }
        requires rest { self.old.bounds ≡ [] }
        requires root { root < length calls.now }
        ensures walk { OnOk result (IsWalk calls.now self.new) }
        ensures end { OnOk result (self.new.bounds ≡ []) }
        ensures met { OnOk result (KeepsMet self.old self.new) }
        ensures root { OnOk result (IsMet self.new root) }
    {
        self.enter_new(calls, root)?;
        self.finish(calls)
    }

    /// The classes, where each procedure is in one.
    fn into_classes(self, alloc: Global) -> Result<Classes, Memory>
        ensures { IfOk result (λ classes. classes ≡ classed self) }
    {
        let of = self.marks.iter().map(|mark| number(*mark)).collect(alloc)?;
        Ok(Classes {
            of,
            count: self.firsts.len(),
        })
    }
}

/// The number of a class; 0 where there is none.
fn number(mark: Mark) -> u32
    ensures { result ≡ class_of mark }
{
    match mark {
        Mark::New | Mark::Open(_) => 0,
        Mark::Done(class) => class,
    }
}

/// The classes of procedures that reach one another.
#[derive(Drop)]
pub(crate) struct Classes {
    /// The class of each procedure.
    pub of: Vec<u32>,
    pub count: usize,
}

impl Model for Classes {
    ghost use Rattle.recursion_groups.specs.Walks.{Classed};

    ghost Value = { Classed };

    ghost view = { λ c. record { of = c.of.items; count = c.count } };
}

/// The classes of the procedures that have these lists of what they call. A called class has the lower number.
pub(crate) fn find_classes(alloc: Global, calls: &[Numbers]) -> Result<Classes, Memory>
    requires within { AreWithin calls.now }
    requires few { length calls.now < 2 ^ 32 }
    ensures { IfOk result (AreClasses calls.now) }
{
    let mut walk = Walk::new(alloc, calls.len())?;
    for root in 0..calls.len() as u32 {
        walk.walk_from(calls, root)?;
    }
    walk.into_classes(alloc)
}
