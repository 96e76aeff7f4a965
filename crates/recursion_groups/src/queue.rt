ghost use Rattle.std.specs.Prelude.{◌≡◌, ◌+◌, ◌<◌, ◌≤◌, ◌∷◌, ◌++◌, ◌^◌, [], length, drop, replicate, false, slice_index, slice_index_or, slice_set, MatchOption, OnOk, IfOk};
ghost use Rattle.std.specs.List.{All, Contains};
ghost use Rattle.std.specs.BTreeSet.{insert_key};
ghost use Rattle.std.specs.Ordering.{nat_cmp};
ghost use Rattle.recursion_groups.specs.Walks.{list_at};
ghost use Rattle.recursion_groups.specs.Orders.{IsClassOrder, AreOuts, watched, readied, with_placed, next_at, IsQueue, IsNextOpen, IsLeast, Settles, at_first, AreBelow};

use c_tree::Memory;
use flow_graph::Numbers;
use std::alloc::Global;
use std::collections::BTreeSet;
use std::marker::Model;
use std::mem;

/// The classes that are not placed yet.
#[derive(Drop)]
pub(crate) struct Queue {
    placed: Vec<bool>,
    /// Up to where the classes that each one calls are known to be placed.
    next: Vec<usize>,
    /// For each class those that wait for it.
    watchers: Vec<Numbers>,
    /// The first procedures of those that could stand next.
    ready: BTreeSet<u32>,
}

impl Model for Queue {
    ghost use Rattle.recursion_groups.specs.Orders.{Queued};

    ghost Value = { Queued };

    ghost view = { λ q. record { placed = q.placed.items; next = q.next.items; watchers = q.watchers.items; ready = q.ready.keys } };
}

/// The first place from this one on whose class is not placed.
fn next_open(list: &[u32], placed: &[bool], from: usize) -> usize
    requires within { All (λ d. d < length placed.now) list.now }
    requires from { from ≤ length list.now }
    ensures { IsNextOpen list.now placed.now from result }
{
    for at in from..list.len() {
        if !placed[list[at] as usize] {
            return at;
        }
    }
    list.len()
}

/// One of these lists.
pub(crate) fn list_of(lists: &[Numbers], at: u32) -> &[u32]
    requires { at < length lists.now }
    ensures { result.now ≡ list_at lists.now at }
{
    let list = &lists[at as usize];
    list.items.as_slice()
}

/// Lists of nothing.
pub(crate) fn empty_lists(alloc: Global, count: usize) -> Result<Vec<Numbers>, Memory>
    ensures { IfOk result (λ lists. lists.items ≡ replicate count []) }
{
    let mut lists = Vec::new(alloc);
    for _ in 0..count {
        lists.push(Numbers {
            items: Vec::new(alloc),
        })?;
    }
    Ok(lists)
}

/// Adds a number to one of these lists.
pub(crate) fn push_at(lists: &mut [Numbers], at: u32, number: u32) -> Result<(), Memory>
    requires { at < length lists.old }
    ensures { OnOk result (lists.new ≡ slice_set lists.old at (list_at lists.old at ++ number ∷ [])) }
{
    let list = &mut lists[at as usize];
    list.items.push(number)?;
    Ok(())
}

/// Takes one of these lists out, and leaves it empty.
fn take_at(alloc: Global, lists: &mut [Numbers], at: u32) -> Numbers
    requires { at < length lists.old }
    ensures list { result ≡ list_at lists.old at }
    ensures rest { lists.new ≡ slice_set lists.old at [] }
{
    let none = Numbers {
        items: Vec::new(alloc),
    };
    mem::replace(&mut lists[at as usize], none)
}

/// Adds a number to a set.
fn add_key(keys: &mut BTreeSet<u32>, key: u32) -> Result<(), Memory>
    ensures { OnOk result (keys.new.keys ≡ insert_key nat_cmp keys.old.keys key) }
{
    match keys.insert(key) {
        Ok(_) => Ok(()),
        Err(_) => Err(Memory),
    }
}

/// The numbers below this one.
fn all_below(alloc: Global, count: u32) -> Result<Numbers, Memory>
    ensures { IfOk result (AreBelow count) }
{
    let mut items = Vec::new(alloc);
    for number in 0..count {
        items.push(number)?;
    }
    Ok(Numbers { items })
}

impl Queue {
    /// None is placed.
    fn new(alloc: Global, count: usize) -> Result<Queue, Memory>
        ensures { IfOk result (λ q. q ≡ at_first count) }
    {
        let placed = vec![in alloc; false; count]?;
        let next = vec![in alloc; 0; count]?;
        let watchers = empty_lists(alloc, count)?;
        Ok(Queue {
            placed,
            next,
            watchers,
            ready: BTreeSet::new(alloc),
        })
    }

    /// Lets a class wait for another, the one at this place among those that it calls.
    fn watch(&mut self, class: u32, place: usize, on: u32) -> Result<(), Memory>
        requires class { class < length self.old.next }
        requires on { on < length self.old.watchers }
        ensures { OnOk result (self.new ≡ watched self.old class place on) }
    {
        self.next[class as usize] = place;
        push_at(&mut self.watchers, on, class)
    }

    /// Lets a class stand next, all of those that it calls being placed.
    fn make_ready(&mut self, class: u32, end: usize, first: u32) -> Result<(), Memory>
        requires { class < length self.old.next }
        ensures { OnOk result (self.new ≡ readied self.old class end first) }
    {
        self.next[class as usize] = end;
        add_key(&mut self.ready, first)
    }

    /// The first place whose class is not placed, among those that a class calls.
    fn next_of(&self, list: &[u32], class: u32) -> usize
        requires within { All (λ d. d < length self.now.placed) list.now }
        requires class { class < length self.now.next }
        requires from { next_at self.now class ≤ length list.now }
        ensures { IsNextOpen list.now self.now.placed (next_at self.now class) result }
    {
        let from = self.next[class as usize];
        next_open(list, self.placed.as_slice(), from)
    }

    /// Sees what the class at this place waits for, which waits for nothing.
    fn settle(
        &mut self,
        outs: &[Numbers],
        firsts: &[u32],
        waiting: &[u32],
        at: usize,
    ) -> Result<(), Memory>
        requires at { at < length waiting.now }
        requires below { All (λ ds. All (λ d. d < length outs.now) ds) outs.now }
        requires firsts { length firsts.now ≡ length outs.now }
        requires queue { IsQueue outs.now firsts.now self.old (drop at waiting.now) }
        ensures { OnOk result (Settles outs.now firsts.now self.old self.new (drop (at + 1) waiting.now)) }
    {
        let class = waiting[at];
        let list = list_of(outs, class);
        let next = self.next_of(list, class);
        if next < list.len() {
            self.watch(class, next, list[next])
        } else {
            self.make_ready(class, next, firsts[class as usize])
        }
    }

    /// The same for all of these.
    fn settle_all(
        &mut self,
        outs: &[Numbers],
        firsts: &[u32],
        waiting: &[u32],
    ) -> Result<(), Memory>
        requires below { All (λ ds. All (λ d. d < length outs.now) ds) outs.now }
        requires firsts { length firsts.now ≡ length outs.now }
        requires queue { IsQueue outs.now firsts.now self.old waiting.now }
        ensures { OnOk result (Settles outs.now firsts.now self.old self.new []) }
    {
        for at in 0..waiting.len() {
            self.settle(outs, firsts, waiting, at)?;
        }
        Ok(())
    }

    /// The first procedure of the class that stands next.
    fn take_least(&mut self) -> Option<u32>
        ensures { MatchOption result (self.old.ready ≡ []) (λ first. IsLeast first self.old self.new) }
    {
        self.ready.pop_first()
    }

    /// Places a class. Gives those that waited for it.
    fn place(&mut self, alloc: Global, class: u32) -> Numbers
        requires placed { class < length self.old.placed }
        requires watchers { class < length self.old.watchers }
        ensures queue { self.new ≡ with_placed self.old class }
        ensures waiting { result ≡ list_at self.old.watchers class }
    {
        self.placed[class as usize] = true;
        take_at(alloc, &mut self.watchers, class)
    }
}

/// The classes in order, of each of which these say what others it calls, and its first procedure.
pub(crate) fn class_order(
    alloc: Global,
    outs: &[Numbers],
    firsts: &[u32],
    of: &[u32],
) -> Result<Vec<u32>, Memory>
    requires outs { AreOuts outs.now firsts.now of.now }
    requires few { length outs.now < 2 ^ 32 }
    ensures { IfOk result (λ order. IsClassOrder outs.now firsts.now order.items) }
{
    let mut queue = Queue::new(alloc, outs.len())?;
    let all = all_below(alloc, outs.len() as u32)?;
    queue.settle_all(outs, firsts, &all.items)?;
    let mut order = Vec::new(alloc);
    while let Some(first) = queue.take_least() {
        let class = of[first as usize];
        let waiting = queue.place(alloc, class);
        order.push(class)?;
        queue.settle_all(outs, firsts, &waiting.items)?;
    }
    Ok(order)
}
