//! The lines on which the last one stands.

ghost use Rattle.std.specs.Prelude.{◌≡◌, IfOk};
ghost use Rattle.used_names.specs.Marks.{with_mark, with_premises, AreNeeded, LeadBack};

use c_tree::Memory;
use conflict_proof::{How, Line};
use std::alloc::Global;

/// For each line whether the last one is it, or stands on it directly or through others.
pub fn needed_lines(alloc: Global, lines: &[Line]) -> Result<Vec<bool>, Memory>
    requires { LeadBack lines.now }
    ensures { IfOk result (λ marks. AreNeeded lines.now marks.items) }
{
    let mut marks = vec![in alloc; false; lines.len()]?;
    mark(&mut marks, lines.len());
    for done in 0..lines.len() {
        let index = lines.len() - 1 - done;
        if marks[index] {
            mark_premises(&mut marks, lines[index].how);
        }
    }
    Ok(marks)
}

/// Marks the lines that a line of this origin names.
fn mark_premises(marks: &mut Vec<bool>, how: How)
    ensures { marks.new.items ≡ with_premises marks.old.items how }
{
    match how {
        How::Axiom(_) => (),
        How::Resolve(first, second) => {
            mark(marks, first as usize);
            mark(marks, second as usize);
        }
        How::Inst(line, _) => mark(marks, line as usize),
    }
}

/// Marks the line of this number, which counts from 1, where there is one.
fn mark(marks: &mut Vec<bool>, number: usize)
    ensures { marks.new.items ≡ with_mark marks.old.items number }
{
    if number > 0 && number <= marks.len() {
        marks[number - 1] = true;
    }
}
