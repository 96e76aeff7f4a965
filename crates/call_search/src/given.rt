//! Literals that say what values are.

ghost use Rattle.std.specs.Prelude.{◌≡◌, ◌<◌, ◌≤◌, ◌+◌, ◌++◌, ◌^◌, OnOk, IfOk, length};
ghost use Rattle.call_search.specs.Shapes.{stated};

use c_tree::Memory;
use std::alloc::Global;
use zo_core::{Lit, Var};

/// Adds the literals that say that unknowns from this number on have these values.
pub fn state(out: &mut Vec<Lit>, first: u32, bits: &[bool]) -> Result<(), Memory>
    requires first { 0 < first }
    requires range { first + length bits.now ≤ 2 ^ 31 }
    ensures { OnOk result (out.new.items ≡ out.old.items ++ stated first bits.now) }
{
    for i in 0..bits.len() {
        out.push(Var(first + i as u32).literal(bits[i]))?;
    }
    Ok(())
}

/// A copy of some bits.
pub fn copied(alloc: Global, bits: &[bool]) -> Result<Vec<bool>, Memory>
    ensures { IfOk result (λ v. v.items ≡ bits.now) }
{
    let out = bits.to_vec(alloc)?;
    Ok(out)
}
