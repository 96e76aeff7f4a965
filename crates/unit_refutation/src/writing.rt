ghost use Rattle.std.specs.Prelude.{◌≡◌, ◌+◌, ◌≤◌, [], length, IfOk};
ghost use Rattle.zo_core.specs.Order.{Ascends};
ghost use Rattle.zo_core.specs.Resolvents.{without};

use c_tree::Memory;
use conflict_proof::{How, Line};
use std::alloc::Global;
use zo_core::{Clause, Lit};

/// Lines of a derivation, their cost in words, and the budget.
#[derive(Drop)]
pub(crate) struct Writer {
    pub lines: Vec<Line>,
    pub words: u64,
    pub budget: u32,
}

impl Writer {
    ghost use Rattle.unit_refutation.specs.Lines.{IsWithin, Puts};

    /// No lines yet.
    pub fn new(alloc: Global, budget: u32) -> Writer
        ensures lines { result.lines.items ≡ [] }
        ensures words { result.words ≡ 0 }
        ensures budget { result.budget ≡ budget }
    {
        Writer {
            lines: Vec::new(alloc),
            words: 0,
            budget,
        }
    }

    /// Puts a line after the others. Its number, or None where the cost went over the budget with it.
    pub fn put(
        &mut self,
        alloc: Global,
        group: u32,
        how: How,
        lits: &[Lit],
    ) -> Result<Option<u32>, Memory>
        requires canonical { Ascends 0 lits.now }
        requires few { length lits.now ≤ 3 }
        requires within { IsWithin self.old }
        ensures { IfOk result (λ n. Puts group how lits.now self.old self.new n) }
    {
        let clause = Clause::of(alloc, lits)?;
        self.lines.push(Line {
            group,
            how,
            lits: clause,
        })?;
        self.words += lits.len() as u64 + 1;
        if self.words > self.budget as u64 {
            return Ok(None);
        }
        Ok(Some(self.lines.len() as u32))
    }
}

/// The literals but for one.
pub(crate) fn without(alloc: Global, lits: &[Lit], lit: Lit) -> Result<Vec<Lit>, Memory>
    ensures { IfOk result (λ v. v.items ≡ without lit lits.now) }
{
    let mut out = Vec::new(alloc);
    for l in lits {
        if *l != lit {
            out.push(*l)?;
        }
    }
    Ok(out)
}
