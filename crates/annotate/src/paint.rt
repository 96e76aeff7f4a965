ghost use Rattle.std.specs.Prelude.{◌≡◌, ◌+◌, ◌<◌, ◌^◌, length, slice_index, OnOk};
ghost use Rattle.std.specs.List.{All, Contains};
ghost use Rattle.annotate.specs.Reach.{AreWithin};
ghost use Rattle.annotate.specs.Paint.{marks_with, numbers_with, Marks, AreClosed, Paints};

use c_tree::Memory;
use flow_graph::Numbers;
use std::alloc::Global;

/// Marks a number that has no mark, and adds it to the list.
fn mark_new(marks: &mut [u32], found: &mut Vec<u32>, number: u32, mark: u32) -> Result<(), Memory>
    requires { number < length marks.old }
    ensures marks { OnOk result (marks.new ≡ marks_with marks.old number mark) }
    ensures found { OnOk result (found.new.items ≡ numbers_with marks.old found.old.items number) }
{
    if marks[number as usize] != 0 {
        return Ok(());
    }
    marks[number as usize] = mark;
    found.push(number)?;
    Ok(())
}

/// Marks those of these numbers that have no mark, and adds them to the list.
fn mark_all(
    marks: &mut [u32],
    found: &mut Vec<u32>,
    numbers: &[u32],
    mark: u32,
) -> Result<(), Memory>
    requires some { 0 < mark }
    requires within { All (λ q. q < length marks.old) numbers.now }
    ensures { OnOk result (Marks marks.old found.old.items mark (Contains numbers.now) marks.new found.new.items) }
{
    for number in numbers {
        mark_new(marks, found, *number, mark)?;
    }
    Ok(())
}

/// A number of a list.
fn number_at(numbers: &[u32], place: usize) -> u32
    requires { place < length numbers.now }
    ensures { result ≡ slice_index numbers.now place }
{
    numbers[place]
}

/// Marks all that a root reaches and that has no mark.
pub(crate) fn paint(
    alloc: Global,
    lists: &[Numbers],
    marks: &mut [u32],
    root: u32,
) -> Result<(), Memory>
    requires within { AreWithin lists.now }
    requires count { length marks.old ≡ length lists.now }
    requires root { root < length lists.now }
    requires few { length lists.now < 2 ^ 32 }
    requires closed { AreClosed lists.now marks.old }
    ensures { OnOk result (Paints lists.now marks.old root marks.new) }
{
    let mark = root + 1;
    let mut found = Vec::new(alloc);
    mark_new(marks, &mut found, root, mark)?;
    let mut done = 0;
    while done < found.len() {
        let next = &lists[number_at(&found, done) as usize];
        mark_all(marks, &mut found, &next.items, mark)?;
        done += 1;
    }
    Ok(())
}
