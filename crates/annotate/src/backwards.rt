ghost use Rattle.std.specs.Prelude.{◌<◌, ◌^◌, length, IfOk, OnOk};
ghost use Rattle.std.specs.List.{All};
ghost use Rattle.annotate.specs.Reach.{AreWithin};
ghost use Rattle.annotate.specs.Rings.{AddsBack, AreBackwards};

use crate::lists::{add, no_lists};
use c_tree::Memory;
use flow_graph::Numbers;
use std::alloc::Global;

/// Adds a number to all of these lists.
fn add_to_all(back: &mut Vec<Numbers>, numbers: &[u32], from: u32) -> Result<(), Memory>
    requires { All (λ q. q < length back.old.items) numbers.now }
    ensures { OnOk result (AddsBack back.old.items numbers.now from back.new.items) }
{
    for number in numbers {
        add(back, *number, from)?;
    }
    Ok(())
}

/// The same steps backwards.
pub(crate) fn backwards(alloc: Global, lists: &[Numbers]) -> Result<Vec<Numbers>, Memory>
    requires within { AreWithin lists.now }
    requires few { length lists.now < 2 ^ 32 }
    ensures { IfOk result (λ back. AreBackwards lists.now back.items) }
{
    let count = lists.len() as u32;
    let mut back = no_lists(alloc, count)?;
    for from in 0..count {
        let list = &lists[from as usize];
        add_to_all(&mut back, &list.items, from)?;
    }
    Ok(back)
}
