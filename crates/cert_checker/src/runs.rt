ghost use Rattle.std.specs.Prelude.{◌≡◌, ◌<◌, ◌≤◌, ◌++◌, length, MatchBool};
ghost use Rattle.verdict_meaning.specs.Certificates.{bit_at};
ghost use Rattle.cert_checker.specs.Tables.{run_line, line_in, IsRunEnd, HasFalse, IsFalseRun};
ghost use Rattle.cert_checker.specs.Finding.{IsFirstBelow, IsEarlier};

use crate::lines::is_below;
use crate::marks::Marks;
use transfer_rules::ClauseTable;

/// Of the constraints with a false clause the first line before the bound up to which all unknowns of one stand.
pub(crate) fn first_false(
    table: &ClauseTable,
    phi: &[bool],
    marks: &Marks,
    bound: Option<u64>,
) -> Option<u64>
    ensures { IsFirstBelow bound
        (IsFalseRun table.now (bit_at (phi.now ++ marks.now.bits.items)) (line_in marks.now.fields marks.now.lines.items marks.now.after)) result }
{
    let mut found = None;
    let mut from = 0;
    while from < table.len() {
        let to = run_end(table, from);
        if !are_true(table, phi, marks, from, to) {
            found = earlier(found, bound, last_line(table, marks, from, to));
        }
        from = to;
    }
    found
}

/// The line where it is before both bounds, and else the first of these.
fn earlier(found: Option<u64>, bound: Option<u64>, line: u64) -> Option<u64>
    ensures { IsEarlier found bound line result }
{
    if !is_below(bound, line) {
        return found;
    }
    if !is_below(found, line) {
        return found;
    }
    Some(line)
}

/// Where the clauses end that have the name of this one.
fn run_end(table: &ClauseTable, from: usize) -> usize
    requires { from < length table.now }
    ensures { IsRunEnd table.now from result }
{
    let name = table.name(from);
    let len = table.len();
    for k in from + 1..len {
        if table.name(k) != name {
            return k;
        }
    }
    len
}

/// Whether these clauses are true.
fn are_true(table: &ClauseTable, phi: &[bool], marks: &Marks, from: usize, to: usize) -> bool
    requires { to ≤ length table.now }
    ensures { MatchBool result (HasFalse table.now (bit_at (phi.now ++ marks.now.bits.items)) from to → ⊥)
        (HasFalse table.now (bit_at (phi.now ++ marks.now.bits.items)) from to) }
{
    for k in from..to {
        if !marks.is_true(phi, table.lits(k)) {
            return false;
        }
    }
    true
}

/// The greatest line of the unknowns of these clauses.
fn last_line(table: &ClauseTable, marks: &Marks, from: usize, to: usize) -> u64
    requires ordered { from ≤ to }
    requires within { to ≤ length table.now }
    ensures { result ≡ run_line (line_in marks.now.fields marks.now.lines.items marks.now.after) table.now from to }
{
    let mut last = 0;
    for k in from..to {
        last = marks.last_line(table.lits(k)).max(last);
    }
    last
}
