ghost use Rattle.std.specs.Prelude.{◌≡◌, ◌+◌, ◌*◌, ◌<◌, ◌≤◌, ◌^◌, length, slice_get, List, ℕ, Some, cond, IfOk};
ghost use Rattle.unit_answers.specs.declared.findings.Finding.{Finding};
ghost use Rattle.unit_refutation.specs.Room.{HasRoomFor};
ghost use Rattle.unit_refutation.specs.Numbers.{code_of, HasRoom, number_of, with_number};

use c_tree::Memory;
use std::alloc::Global;
use std::marker::Model;
use unit_answers::{Closures, Finding};
use zo_core::Lit;

/// The numbers of one group's literals.
#[derive(Drop)]
pub(crate) struct Row {
    pub items: Vec<u32>,
}

impl Model for Row {
    ghost Value = { List ℕ };

    ghost view = { λ r. r.items.items };
}

/// A number for each literal of each group.
#[derive(Drop)]
pub(crate) struct LitNumbers {
    pub rows: Vec<Row>,
}

impl Model for LitNumbers {
    ghost Value = { List (List ℕ) };

    ghost view = { λ n. n.rows.items };
}

/// The greatest unknown of what was found.
fn most_unknown(findings: &[Finding]) -> u32
    ensures most { (k : ℕ) (f : Finding) → slice_get findings.now k ≡ Some f → f.lit.var ≤ result }
    ensures small { result < 2 ^ 31 }
{
    let mut most = 0;
    for finding in findings {
        most = most.max(finding.lit.var().number());
    }
    most
}

/// A row with room for what was found in a group.
fn room_for(alloc: Global, findings: &[Finding]) -> Result<Row, Memory>
    ensures { IfOk result (λ r. (k : ℕ) (f : Finding) → slice_get findings.now k ≡ Some f → code_of f.lit < length r) }
{
    let most = most_unknown(findings) as usize;
    let items = vec![in alloc; 0; 2 * most + 2]?;
    Ok(Row { items })
}

/// The place of a literal in its group's row.
fn code(lit: Lit) -> usize
    ensures code { result ≡ code_of lit }
    ensures some { 0 < lit.var }
{
    let var = lit.var().number() as usize;
    if lit.sign() { 2 * var + 1 } else { 2 * var }
}

impl LitNumbers {
    /// A number for each literal that was found in the groups up to one.
    pub fn new(alloc: Global, closures: &Closures, last: u32) -> Result<LitNumbers, Memory>
        requires { last < length closures.now }
        ensures { IfOk result (HasRoomFor closures.now last) }
    {
        let mut rows = Vec::new(alloc);
        for group in 0..last as usize + 1 {
            let findings = closures.findings(group as u32);
            rows.push(room_for(alloc, findings)?)?;
        }
        Ok(LitNumbers { rows })
    }

    /// The number of a literal of a group.
    pub fn get(&self, group: u32, lit: Lit) -> u32
        requires { HasRoom self.now group lit }
        ensures number { result ≡ number_of self.now group lit }
        ensures some { 0 < lit.var }
    {
        let row = &self.rows[group as usize];
        row.items[code(lit)]
    }

    /// Puts a number in place of that of a literal of a group.
    pub fn set(&mut self, group: u32, lit: Lit, number: u32)
        requires { HasRoom self.old group lit }
        ensures { self.new ≡ with_number self.old group lit number }
    {
        let row = &mut self.rows[group as usize];
        row.items[code(lit)] = number;
    }
}
