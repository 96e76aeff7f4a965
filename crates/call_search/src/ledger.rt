//! The lines of a search.

ghost use Rattle.std.specs.Prelude.{◌≡◌, ◌<◌, ◌≤◌, ◌+◌, ◌^◌, ◌++◌, ◌∷◌, List, [], IfOk, OnOk, OnErr, length};
ghost use Rattle.conflict_proof.specs.declared.derivation.Line.{Line};
ghost use Rattle.verdict_meaning.specs.Derivations.{line_cost};
ghost use Rattle.call_search.specs.Indexes.{ArePlaces, AreSame, IsPlaced};

use c_tree::Memory;
use conflict_proof::{Line, Lines};
use std::alloc::Global;
use std::marker::Model;

/// The places of a group's lines among all lines, ascending.
#[derive(Drop)]
pub(crate) struct Places {
    items: Vec<u32>,
}

impl Model for Places {
    ghost use Rattle.std.specs.Prelude.{List, ℕ};

    ghost Value = { List ℕ };

    ghost view = { λ p. p.items.items };
}

/// Lines of a derivation so far, and the words that are left for more.
#[derive(Drop)]
pub struct Ledger {
    lines: Lines,
    words: u64,
    /// For each group the places of its lines; groups behind the last that has one may be wanting.
    groups: Vec<Places>,
}

impl Model for Ledger {
    ghost use Rattle.call_search.specs.Indexes.{Ledger, AreIndexed};

    ghost Value = { Ledger };

    ghost view = { λ l. record { lines = l.lines; words = l.words } };

    ghost invariant = { λ l. AreIndexed l.lines l.groups.items };
}

/// Makes sure that there is a list for a group.
fn reach(alloc: Global, groups: &mut Vec<Places>, group: u32) -> Result<(), Memory>
    ensures there { OnOk result (group < length groups.new.items) }
    ensures same { AreSame groups.old.items groups.new.items }
{
    let missing = (group as usize + 1).saturating_sub(groups.len());
    for _ in 0..missing {
        groups.push(Places {
            items: Vec::new(alloc),
        })?;
    }
    Ok(())
}

/// Adds a place to those of a group.
fn add_place(alloc: Global, groups: &mut Vec<Places>, group: u32, place: u32) -> Result<(), Memory>
    ensures ok { OnOk result (IsPlaced group place groups.old.items groups.new.items) }
    ensures err { OnErr result (AreSame groups.old.items groups.new.items) }
{
    reach(alloc, groups, group)?;
    groups[group as usize].items.push(place)?;
    Ok(())
}

impl Ledger {
    /// A ledger of these lines, with so many words left for more.
    pub(crate) fn new(alloc: Global, lines: Lines, words: u64) -> Result<Ledger, Memory>
        requires { length lines < 2 ^ 32 }
        ensures lines { IfOk result (λ l. l.lines ≡ lines) }
        ensures words { IfOk result (λ l. l.words ≡ words) }
    {
        let mut groups = Vec::new(alloc);
        for place in 0..lines.items.len() {
            add_place(alloc, &mut groups, lines.items[place].group, place as u32)?;
        }
        Ok(Ledger {
            lines,
            words,
            groups,
        })
    }

    /// The lines.
    pub fn lines(&self) -> &[Line]
        ensures { result.now ≡ self.now.lines }
    {
        self.lines.items.as_slice()
    }

    /// How many words are left.
    pub fn words(&self) -> u64
        ensures { result ≡ self.now.words }
    {
        self.words
    }

    /// The places of a group's lines, counted from 0, ascending.
    pub fn of_group(&self, group: u32) -> &[u32]
        ensures { ArePlaces self.now.lines group 0 result.now }
    {
        match self.groups.get(group as usize) {
            Some(places) => places.items.as_slice(),
            None => &[],
        }
    }

    /// Adds a line and pays for it.
    pub fn push(&mut self, alloc: Global, line: Line) -> Result<(), Memory>
        requires words { line_cost line ≤ self.old.words }
        requires few { length self.old.lines < 2 ^ 32 }
        ensures lines { OnOk result (self.new.lines ≡ self.old.lines ++ line ∷ []) }
        ensures words { OnOk result (self.new.words + line_cost line ≡ self.old.words) }
    {
        let cost = line.lits.lits().len() as u64 + 1;
        let place = self.lines().len() as u32;
        let group = line.group;
        self.lines.items.push(line)?;
        if let Err(error) = add_place(alloc, &mut self.groups, group, place) {
            let _ = self.lines.items.pop();
            return Err(error);
        }
        self.words -= cost;
        Ok(())
    }

    /// The lines, and no ledger any more.
    pub(crate) fn into_lines(self) -> Lines
        ensures { result ≡ self.lines }
    {
        let Ledger { lines, .. } = self;
        lines
    }
}

/// The last line.
pub fn last_line(ledger: &Ledger) -> &Line
    requires { 0 < length ledger.now.lines }
    ensures { (before : List Line) (last : Line) → ledger.now.lines ≡ before ++ last ∷ [] → result.now ≡ last }
{
    let lines = ledger.lines();
    &lines[lines.len() - 1]
}
