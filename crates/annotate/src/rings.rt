//! Rings of steps.

ghost use Rattle.std.specs.Prelude.{◌<◌, ◌^◌, length, IfOk};
ghost use Rattle.annotate.specs.Reach.{AreWithin};
ghost use Rattle.annotate.specs.Rings.{AreRings};

use crate::backwards::backwards;
use crate::paint::paint;
use crate::walk::order;
use c_tree::Memory;
use flow_graph::Numbers;
use std::alloc::Global;

/// A mark for each number, of which two are equal exactly where steps lead from each of the two numbers to the other. One walk
/// in depth gives an order in which what leads to a number, and is in no ring with it, is in a ring with a later one; then marks
/// spread backwards from each number, the last one first. It takes time in proportion to the numbers and the steps.
pub(crate) fn rings(alloc: Global, lists: &[Numbers]) -> Result<Vec<u32>, Memory>
    requires within { AreWithin lists.now }
    requires few { length lists.now < 2 ^ 32 }
    ensures { IfOk result (λ marks. AreRings lists.now marks.items) }
{
    let mut left = order(alloc, lists)?;
    let back = backwards(alloc, lists)?;
    let mut marks = vec![in alloc; 0; lists.len()]?;
    while let Some(root) = left.pop() {
        paint(alloc, &back, &mut marks, root)?;
    }
    Ok(marks)
}
