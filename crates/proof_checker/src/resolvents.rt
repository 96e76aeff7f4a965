ghost use Rattle.std.specs.Prelude.{◌≡◌, ◌<◌, ℕ, length, slice_index_or, IfOk, MatchBool, MatchOption};
ghost use Rattle.zo_core.specs.Literals.{Literal};
ghost use Rattle.zo_core.specs.Order.{Ascends};
ghost use Rattle.zo_core.specs.Resolvents.{IsResolvent};
ghost use Rattle.proof_checker.specs.Checking.{IsPivot};

use crate::literals::same;
use c_tree::Memory;
use zo_core::{Lit, resolve_into};

/// Whether the clause of these literals is the resolvent of two others. It is made in the lent list.
pub(crate) fn is_resolvent(
    made: &mut Vec<Lit>,
    a: &[Lit],
    b: &[Lit],
    lits: &[Lit],
) -> Result<bool, Memory>
    requires first { Ascends 0 a.now }
    requires second { Ascends 0 b.now }
    ensures { IfOk result (λ yes. MatchBool yes (IsResolvent a.now b.now lits.now) (IsResolvent a.now b.now lits.now → ⊥)) }
{
    let Some(on) = pivot(a, b) else {
        return Ok(false);
    };
    made.clear();
    made.reserve(a.len() + b.len())?;
    if !resolve_into(made, on, a, b) {
        return Ok(false);
    }
    Ok(same(made.as_slice(), lits))
}

/// The first literal of `a` whose opposite is in `b`; none where there is none.
fn pivot(a: &[Lit], b: &[Lit]) -> Option<Lit>
    requires first { Ascends 0 a.now }
    requires second { Ascends 0 b.now }
    ensures { MatchOption result ((x : Literal) → IsPivot a.now b.now x → ⊥) (IsPivot a.now b.now) }
{
    let (mut i, mut j) = (0, 0);
    while i < a.len() && j < b.len() {
        let (l, m) = (a[i], b[j]);
        if l.var().number() < m.var().number() {
            i += 1;
            continue;
        }
        if m.var().number() < l.var().number() {
            j += 1;
            continue;
        }
        if l.sign() != m.sign() {
            return Some(l);
        }
        i += 1;
        j += 1;
    }
    None
}
