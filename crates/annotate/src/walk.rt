ghost use Rattle.std.specs.Prelude.{◌≡◌, ◌∷◌, [], ℕ, List, ◌<◌, ◌-◌, ◌^◌, length, reverse, slice_index_or, slice_get, cond, IsSome, MatchOption, OnOk, IfOk, false};
ghost use Rattle.annotate.specs.Reach.{Steps, AreWithin};
ghost use Rattle.annotate.specs.Walks.{Walked, IsSeen, taken_at, at_first, entered, with_taken, left, IsLast, IsWalk, IsWholeOrder, GoesOn, Advances, list_at};

use c_tree::Memory;
use flow_graph::Numbers;
use std::alloc::Global;
use std::marker::Model;

/// A walk in depth along steps: how far it has come.
#[derive(Drop)]
struct Walk {
    seen: Vec<bool>,
    /// How many steps from each number were taken.
    taken: Vec<usize>,
    /// The numbers that were entered and not left, in order.
    path: Vec<u32>,
    /// Those that were left, in order.
    done: Vec<u32>,
}

impl Model for Walk {
    ghost use Rattle.annotate.specs.Walks.{Walked};
    ghost use Rattle.std.specs.Prelude.{reverse};

    ghost Value = { Walked };

    ghost view = { λ w. record { seen = w.seen.items; taken = w.taken.items; path = reverse w.path.items; done = reverse w.done.items } };
}

impl Walk {
    /// A walk that has not begun.
    fn new(alloc: Global, count: usize) -> Result<Walk, Memory>
        ensures { IfOk result (λ w. w ≡ at_first count) }
    {
        let seen = vec![in alloc; false; count]?;
        let taken = vec![in alloc; 0; count]?;
        let path = Vec::new(alloc);
        let done = Vec::new(alloc);
        Ok(Walk {
            seen,
            taken,
            path,
            done,
        })
    }

    /// Whether a number was entered.
    fn is_seen(&self, number: u32) -> bool
        requires { number < length self.now.seen }
        ensures { result ≡ slice_index_or self.now.seen number false }
    {
        self.seen[number as usize]
    }

    /// The number that was entered last and not left.
    fn last(&self) -> Option<u32>
        ensures { MatchOption result (self.now.path ≡ []) (IsLast self.now) }
    {
        let last = self.path.last()?;
        Some(*last)
    }

    /// How many steps from a number were taken.
    fn taken(&self, number: u32) -> usize
        requires { number < length self.now.taken }
        ensures { result ≡ taken_at self.now number }
    {
        self.taken[number as usize]
    }

    /// Enters a number.
    fn enter(&mut self, number: u32) -> Result<(), Memory>
        requires { number < length self.old.seen }
        ensures { OnOk result (self.new ≡ entered self.old number) }
    {
        self.seen[number as usize] = true;
        self.path.push(number)?;
        Ok(())
    }

    /// Takes one step more from a number.
    fn take(&mut self, number: u32)
        requires number { number < length self.old.taken }
        requires few { taken_at self.old number < 2 ^ 64 - 1 }
        ensures { self.new ≡ with_taken self.old number }
    {
        self.taken[number as usize] += 1;
    }

    /// Leaves the number that was entered last.
    fn leave(&mut self) -> Result<(), Memory>
        ensures { OnOk result ((p : ℕ) → (rest : List ℕ) → self.old.path ≡ p ∷ rest → self.new ≡ left self.old p rest) }
    {
        if let Some(number) = self.path.pop() {
            self.done.push(number)?;
        }
        Ok(())
    }

    /// The numbers in the order in which they were left.
    fn into_done(self) -> Vec<u32>
        ensures { reverse result.items ≡ self.done }
    {
        let Walk {
            seen: _,
            taken: _,
            path: _,
            done,
        } = self;
        done
    }
}

/// Enters a number where it was not entered.
fn enter_new(walk: &mut Walk, number: u32) -> Result<(), Memory>
    requires { number < length walk.old.seen }
    ensures { OnOk result (walk.new ≡ cond (slice_index_or walk.old.seen number false) walk.old (entered walk.old number)) }
{
    if walk.is_seen(number) {
        return Ok(());
    }
    walk.enter(number)
}

/// The number to which a step leads.
fn target(lists: &[Numbers], from: u32, place: usize) -> Option<u32>
    requires { from < length lists.now }
    ensures number { result ≡ slice_get (list_at lists.now from) place }
    ensures few { IsSome result → place < 2 ^ 64 - 1 }
{
    let list = &lists[from as usize];
    let number = list.items.get(place)?;
    Some(*number)
}

/// Takes the next step from the number that was entered last, or leaves it where there is none.
fn advance(walk: &mut Walk, lists: &[Numbers], from: u32) -> Result<(), Memory>
    requires within { AreWithin lists.now }
    requires walk { IsWalk lists.now walk.old }
    requires last { IsLast walk.old from }
    ensures { OnOk result (Advances lists.now walk.old walk.new) }
{
    let place = walk.taken(from);
    match target(lists, from, place) {
        Some(to) => {
            enter_new(walk, to)?;
            walk.take(from);
        }
        None => walk.leave()?,
    }
    Ok(())
}

/// Walks on until all that was entered is left.
fn finish(walk: &mut Walk, lists: &[Numbers]) -> Result<(), Memory>
    requires within { AreWithin lists.now }
    requires walk { IsWalk lists.now walk.old }
    ensures on { OnOk result (GoesOn lists.now walk.old walk.new) }
    ensures end { OnOk result (walk.new.path ≡ []) }
{
    while let Some(from) = walk.last() {
        advance(walk, lists, from)?;
    }
    Ok(())
}

/// Walks from a number where it was not entered.
fn walk_from(walk: &mut Walk, lists: &[Numbers], start: u32) -> Result<(), Memory>
    requires within { AreWithin lists.now }
    requires walk { IsWalk lists.now walk.old }
    requires path { walk.old.path ≡ [] }
    requires start { start < length lists.now }
    ensures on { OnOk result (GoesOn lists.now walk.old walk.new) }
    ensures end { OnOk result (walk.new.path ≡ []) }
    ensures seen { OnOk result (IsSeen walk.new start) }
{
    enter_new(walk, start)?;
    finish(walk, lists)
}

/// All numbers, in the order in which a walk in depth leaves them.
pub(crate) fn order(alloc: Global, lists: &[Numbers]) -> Result<Vec<u32>, Memory>
    requires within { AreWithin lists.now }
    requires few { length lists.now < 2 ^ 32 }
    ensures { IfOk result (λ order. IsWholeOrder lists.now (reverse order.items)) }
{
    let mut walk = Walk::new(alloc, lists.len())?;
    for start in 0..lists.len() as u32 {
        walk_from(&mut walk, lists, start)?;
    }
    Ok(walk.into_done())
}
