ghost use Rattle.std.specs.Prelude.{◌≡◌, ◌<◌, ◌≤◌, ◌-◌, ◌++◌, [], ◌∷◌, length, take, drop, slice_index_or, IfOk, OnOk};
ghost use Rattle.transfer_rules.specs.Table.{cut, start, spread, AreEnds, ArePlaces, IsGrown, no_clause, no_name};

use crate::scope::is_name;
use c_tree::Memory;
use conflict_proof::ConstraintName;
use std::alloc::Global;
use std::marker::Model;
use zo_core::{Clause, Lit};

/// Clauses, each with the name of its constraint, in flat memory. Contracts see it as a list of named clauses.
#[derive(Drop)]
pub struct ClauseTable {
    // each name once, in place of one for each clause
    names: Vec<ConstraintName>,
    // for each clause the place of its name
    owners: Vec<u32>,
    // for each clause how many literals there are up to its end
    ends: Vec<usize>,
    lits: Vec<Lit>,
}

impl Model for ClauseTable {
    ghost use Rattle.std.specs.Prelude.{List};
    ghost use Rattle.transfer_rules.specs.Names.{NamedClause};
    ghost use Rattle.transfer_rules.specs.Table.{rows, spread, IsSpread};

    ghost Value = { List NamedClause };

    ghost view = { λ t. rows (spread t.names.items t.owners.items) t.ends.items t.lits.items };

    ghost invariant = { λ t. IsSpread t.names.items t.owners.items t.ends.items t.lits.items };
}

impl ClauseTable {
    /// No clauses.
    pub(crate) fn new(alloc: Global) -> ClauseTable
        ensures { result ≡ [] }
    {
        ClauseTable {
            names: Vec::new(alloc),
            owners: Vec::new(alloc),
            ends: Vec::new(alloc),
            lits: Vec::new(alloc),
        }
    }

    /// The table with a clause more.
    pub(crate) fn with(self, name: ConstraintName, clause: &Clause) -> Result<ClauseTable, Memory>
        ensures { IfOk result (λ t. t ≡ self ++ record { name = name; lits = clause.now } ∷ []) }
    {
        let ClauseTable {
            mut names,
            mut owners,
            mut ends,
            mut lits,
        } = self;
        let owner = place_of(&mut names, name)?;
        owners.push(owner)?;
        lits.extend_from_slice(clause.lits())?;
        let last = lits.as_slice().len();
        ends.push(last)?;
        Ok(ClauseTable {
            names,
            owners,
            ends,
            lits,
        })
    }

    /// How many clauses there are.
    pub fn len(&self) -> usize
        ensures { result ≡ length self.now }
    {
        self.ends.as_slice().len()
    }

    /// The name of the constraint of a clause, by the clause's number from 0.
    pub fn name(&self, number: usize) -> ConstraintName
        requires { number < length self.now }
        ensures { result ≡ (slice_index_or self.now number no_clause).name }
    {
        name_at(&self.names, &self.owners, number)
    }

    /// The literals of a clause, by the clause's number from 0.
    pub fn lits(&self, number: usize) -> &[Lit]
        requires { number < length self.now }
        ensures { result.now ≡ (slice_index_or self.now number no_clause).lits }
    {
        piece(&self.ends, &self.lits, number)
    }
}

/// The place of a name that is the last of these, or becomes it.
fn place_of(names: &mut Vec<ConstraintName>, name: ConstraintName) -> Result<u32, Memory>
    ensures place { IfOk result (λ i. i < length names.new.items) }
    ensures is { IfOk result (λ i. slice_index_or names.new.items i no_name ≡ name) }
    ensures grown { OnOk result (IsGrown names.old.items names.new.items) }
{
    let count = names.as_slice().len();
    if count > 0 && is_name(&names[count - 1], &name) {
        return place(count - 1);
    }
    names.push(name)?;
    place(count)
}

/// The place as a number of four bytes. Where it is no such number there are more than four thousand million names, which
/// is more than memory.
fn place(index: usize) -> Result<u32, Memory>
    ensures { IfOk result (λ i. i ≡ index) }
{
    match u32::try_from(index) {
        Ok(place) => Ok(place),
        Err(_) => Err(Memory),
    }
}

fn name_at(names: &[ConstraintName], owners: &[u32], number: usize) -> ConstraintName
    requires owners { number < length owners.now }
    requires places { ArePlaces names.now owners.now }
    ensures { result ≡ slice_index_or (spread names.now owners.now) number no_name }
{
    names[owners[number] as usize]
}

/// The piece of a list that ends where the ends say.
fn piece<'a>(ends: &[usize], lits: &'a [Lit], number: usize) -> &'a [Lit]
    requires ends { AreEnds 0 ends.now lits.now }
    requires within { number < length ends.now }
    ensures { result.now ≡ slice_index_or (cut 0 ends.now lits.now) number [] }
{
    let from = begin(ends, number);
    part(lits, from, ends[number])
}

/// Where a piece begins.
fn begin(ends: &[usize], number: usize) -> usize
    requires { number < length ends.now }
    ensures { result ≡ start 0 ends.now number }
{
    if number == 0 {
        return 0;
    }
    ends[number - 1]
}

fn part(lits: &[Lit], from: usize, to: usize) -> &[Lit]
    requires ordered { from ≤ to }
    requires within { to ≤ length lits.now }
    ensures { result.now ≡ take (to - from) (drop from lits.now) }
{
    &lits[from..to]
}
