//! The lines of a derivation, and looking a clause up among them.

ghost use Rattle.std.specs.Prelude.{◌≡◌, ◌+◌, ◌-◌, ◌%◌, ◌<◌, ◌≤◌, ◌^◌, ◌++◌, [], ◌∷◌, length, map, Some, IfOk, IfSome, IfNone, IsTrue, false};
ghost use Rattle.zo_solver.specs.Clauses.{numbered, cost};
ghost use Rattle.zo_solver.specs.Stores.{picked, AreNumbers};
ghost use Rattle.zo_solver.specs.Derived.{Ledger, IsNew, AreApart, AreClosed, renumbered_origin, new_number};
ghost use Rattle.std.specs.Vec.{vec_len, vec_capacity};
ghost use Rattle.zo_solver.specs.Buckets.{hash_of, AreLinked};

use crate::answers::Origin;
use crate::store::Store;
use c_tree::Memory;
use std::alloc::Global;
use std::marker::Model;
use zo_core::Lit;

/// Lines, numbered from 1. No two have one clause.
#[derive(Drop)]
pub(crate) struct Lines {
    store: Store,
    origins: Vec<Origin>,
    /// For each bucket its last line, or 0.
    heads: Vec<u32>,
    /// For each line the last line before it in its bucket, or 0.
    links: Vec<u32>,
}

impl Model for Lines {
    ghost use Rattle.std.specs.Vec.{vec_len, vec_capacity};
    ghost use Rattle.zo_solver.specs.Derived.{Ledger, ledger_code};
    ghost use Rattle.zo_solver.specs.Buckets.{AreLines};

    ghost Value = { Ledger };

    ghost coded = { ledger_code };

    ghost view = { λ l. record { clauses = l.store.clauses; origins = l.origins.items; words = l.store.words } };

    ghost invariant = { λ l. AreLines l.store l.origins.items (vec_len l.origins) (vec_capacity l.origins) l.heads.items (vec_len l.heads) l.links.items (vec_len l.links) (vec_capacity l.links) };
}

/// A number that depends on the clause alone.
fn hash(lits: &[Lit]) -> u64
    ensures { result ≡ hash_of lits.now }
{
    let mut hash = 0;
    for lit in lits {
        let code = 2 * lit.var().number() as u64 + lit.sign() as u64;
        hash = (hash * 1_000_003 + code) % 4_294_967_291;
    }
    hash
}

/// Whether two clauses are one.
fn same_lits(a: &[Lit], b: &[Lit]) -> bool
    ensures same { IsTrue result → a.now ≡ b.now }
    ensures other { result ≡ false → a.now ≡ b.now → ⊥ }
{
    if a.len() != b.len() {
        return false;
    }
    for at in 0..a.len() {
        if a[at] != b[at] {
            return false;
        }
    }
    true
}

impl Lines {
    /// No lines, and room for this many words of them. All but one cost two words at least.
    pub(crate) fn reserve(alloc: Global, words: usize) -> Result<Lines, Memory>
        ensures { IfOk result (λ l. l ≡ record { clauses = []; origins = []; words = words }) }
    {
        let store = Store::reserve(alloc, words)?;
        let most = words / 2 + 1;
        let origins = Vec::with_capacity(alloc, most)?;
        let links = Vec::with_capacity(alloc, most)?;
        let mut heads = Vec::with_capacity(alloc, words / 4 + 64)?;
        heads.push(0)?;
        Ok(Lines {
            store,
            origins,
            heads,
            links,
        })
    }

    /// How many lines there are.
    pub(crate) fn len(&self) -> u32
        ensures len { result ≡ length self.now.clauses }
        ensures small { length self.now.clauses + self.now.words < 2 ^ 32 }
        ensures apart { AreApart self.now.clauses }
        ensures origins { length self.now.origins ≡ length self.now.clauses }
    {
        self.store.len()
    }

    /// How many words are left.
    pub(crate) fn words_left(&self) -> usize
        ensures { result ≡ self.now.words }
    {
        self.store.words_left()
    }

    /// The clause of a line.
    pub(crate) fn get(&self, number: u32) -> &[Lit]
        requires some { 0 < number }
        requires there { number ≤ length self.now.clauses }
        ensures { numbered self.now.clauses number ≡ Some result.now }
    {
        self.store.get(number)
    }

    /// Where a line comes from.
    pub(crate) fn origin(&self, number: u32) -> Origin
        requires some { 0 < number }
        requires there { number ≤ length self.now.clauses }
        ensures { numbered self.now.origins number ≡ Some result }
    {
        self.origins[number as usize - 1]
    }

    /// The line of this clause.
    pub(crate) fn find(&self, lits: &[Lit]) -> Option<u32>
        ensures some { IfSome result (λ n. numbered self.now.clauses n ≡ Some lits.now) }
        ensures none { IfNone result (IsNew self.now.clauses lits.now) }
    {
        let bucket = (hash(lits) % self.heads.len() as u64) as usize;
        let mut number = self.heads[bucket];
        while number > 0 {
            if same_lits(self.store.get(number), lits) {
                return Some(number);
            }
            number = self.links[number as usize - 1];
        }
        None
    }

    /// Adds a line; false, and no change, where it costs more than is left.
    pub(crate) fn push(&mut self, lits: &[Lit], origin: Origin) -> bool
        requires { IsNew self.old.clauses lits.now }
        ensures clauses { IsTrue result → self.new.clauses ≡ self.old.clauses ++ lits.now ∷ [] }
        ensures origins { IsTrue result → self.new.origins ≡ self.old.origins ++ origin ∷ [] }
        ensures words { IsTrue result → self.new.words + (length lits.now + 1) ≡ self.old.words }
        ensures full { result ≡ false → (self.new ≡ self.old) × (self.old.words < length lits.now + 1) }
    {
        if !self.store.push(lits) {
            return false;
        }
        let _small = self.store.len();
        self.origins.push(origin).unwrap();
        link(&self.store, self.heads.as_mut_slice(), &mut self.links);
        grow(&self.store, &mut self.heads, &mut self.links);
        true
    }

    /// Keeps the lines of these numbers alone, which ascend: the k-th of them is line k from then on.
    pub(crate) fn keep(&mut self, numbers: &[u32])
        requires numbers { AreNumbers 0 (length self.old.clauses) numbers.now }
        requires closed { AreClosed self.old.origins numbers.now }
        ensures clauses { self.new.clauses ≡ picked [] self.old.clauses numbers.now }
        ensures origins { self.new.origins ≡ map (renumbered_origin numbers.now) (picked Origin.Lemma self.old.origins numbers.now) }
        ensures words { self.new.words + cost self.new.clauses ≡ self.old.words + cost self.old.clauses }
    {
        let _small = self.store.len();
        for at in 0..numbers.len() {
            self.origins[at] = renumbered(self.origins[numbers[at] as usize - 1], numbers);
        }
        self.origins.truncate(numbers.len());
        self.store.keep(numbers);
        relink(&self.store, self.heads.as_mut_slice(), &mut self.links);
    }
}

/// Puts the line that is next into its bucket.
fn link(store: &Store, heads: &mut [u32], links: &mut Vec<u32>)
    requires small { length store.now.clauses < 2 ^ 32 }
    requires there { length links.old.items < length store.now.clauses }
    requires some { 0 < length heads.old }
    requires linked { AreLinked store.now.clauses (length links.old.items) heads.old links.old.items }
    requires room { vec_len links.old < vec_capacity links.old }
    ensures linked { AreLinked store.now.clauses (length links.new.items) heads.new links.new.items }
    ensures count { length links.new.items ≡ length links.old.items + 1 }
    ensures room { vec_capacity links.old ≤ vec_capacity links.new }
{
    let number = links.len() as u32 + 1;
    let bucket = (hash(store.get(number)) % heads.len() as u64) as usize;
    links.push(heads[bucket]).unwrap();
    heads[bucket] = number;
}

/// Puts all lines into their buckets anew.
fn relink(store: &Store, heads: &mut [u32], links: &mut Vec<u32>)
    requires small { length store.now.clauses < 2 ^ 32 }
    requires some { 0 < length heads.old }
    requires room { length store.now.clauses ≤ vec_capacity links.old }
    ensures linked { AreLinked store.now.clauses (length store.now.clauses) heads.new links.new.items }
    ensures count { length links.new.items ≡ length store.now.clauses }
    ensures room { vec_capacity links.old ≤ vec_capacity links.new }
{
    links.clear();
    for head in heads.iter_mut() {
        *head = 0;
    }
    for _ in 0..store.len() {
        link(store, heads, links);
    }
}

/// Doubles the buckets where there are no more of them than lines, and room for it.
fn grow(store: &Store, heads: &mut Vec<u32>, links: &mut Vec<u32>)
    requires small { length store.now.clauses < 2 ^ 32 }
    requires some { 0 < length heads.old.items }
    requires linked { AreLinked store.now.clauses (length store.now.clauses) heads.old.items links.old.items }
    requires count { length links.old.items ≡ length store.now.clauses }
    requires room { length store.now.clauses ≤ vec_capacity links.old }
    ensures some { 0 < length heads.new.items }
    ensures linked { AreLinked store.now.clauses (length store.now.clauses) heads.new.items links.new.items }
    ensures count { length links.new.items ≡ length store.now.clauses }
    ensures room { vec_capacity links.old ≤ vec_capacity links.new }
{
    let count = heads.len();
    if count <= links.len() && count <= heads.capacity() / 2 {
        for _ in 0..count {
            heads.push(0).unwrap();
        }
        relink(store, heads.as_mut_slice(), links);
    }
}

/// How many of these numbers, which ascend, are at most this one.
fn place(numbers: &[u32], number: u32) -> u32
    requires order { AreNumbers 0 (2 ^ 32 - 1) numbers.now }
    ensures { result ≡ new_number numbers.now number }
{
    let mut low = 0;
    let mut high = numbers.len();
    while low < high {
        let middle = low + (high - low) / 2;
        if numbers[middle] <= number {
            low = middle + 1;
        } else {
            high = middle;
        }
    }
    low as u32
}

/// An origin with the new numbers of the lines that it names.
fn renumbered(origin: Origin, numbers: &[u32]) -> Origin
    requires order { AreNumbers 0 (2 ^ 32 - 1) numbers.now }
    ensures { result ≡ renumbered_origin numbers.now origin }
{
    match origin {
        Origin::Given(number) => Origin::Given(number),
        Origin::Lemma => Origin::Lemma,
        Origin::Resolved(a, b) => Origin::Resolved(place(numbers, a), place(numbers, b)),
    }
}
