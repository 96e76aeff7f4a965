//! The values that a solver found.

ghost use Rattle.std.specs.Prelude.{◌≡◌, ◌<◌, ◌≤◌, ◌^◌, IfOk};
ghost use Rattle.std.specs.List.{All};
ghost use Rattle.zo_core.specs.Literals.{Literal};
ghost use Rattle.zo_solver.specs.Values.{assignment};
ghost use Rattle.group_solver.specs.Values.{AreValues};

use c_tree::Memory;
use own_cert::Bits;
use std::alloc::Global;
use zo_core::{Lit, Var};
use zo_solver::Solver;

/// The values of the unknowns up to a number.
pub(crate) fn values(alloc: Global, solver: &Solver, vars: u32) -> Result<Bits, Memory>
    requires there { vars ≤ solver.now.vars }
    requires few { vars < 2 ^ 31 }
    ensures { IfOk result (AreValues (assignment solver.now.values) vars) }
{
    let mut items = Vec::new(alloc);
    for index in 0..vars {
        let value = solver.value(Var(index + 1));
        items.push(value)?;
    }
    Ok(Bits { items })
}

/// That the unknowns of literals have numbers from 1; it changes nothing.
pub(crate) fn are_numbered(lits: &[Lit])
    ensures { All (λ (l : Literal). 0 < l.var) lits.now }
{
    for lit in lits {
        let _number = lit.var();
    }
}
