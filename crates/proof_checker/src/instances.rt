ghost use Rattle.std.specs.Prelude.{◌≡◌, ◌<◌, ◌≤◌, length, Some, MatchBool};
ghost use Rattle.verdict_meaning.specs.Systems.{root, callees};
ghost use Rattle.verdict_meaning.specs.Derivations.{at_site, carried, carried_number};

use crate::constraints::Constraints;
use zo_core::Lit;

/// Whether the literals are those that stand at a site for these.
pub(crate) fn are_carried<C: Constraints>(
    constraints: &C,
    group: u32,
    site: u32,
    from: &[Lit],
    lits: &[Lit],
) -> bool
    requires group { group ≤ root (C.system constraints.now) }
    requires site { site < length (callees (C.system constraints.now) group) }
    ensures { MatchBool result (carried (at_site (C.system constraints.now) group site) from.now ≡ Some lits.now)
        (carried (at_site (C.system constraints.now) group site) from.now ≡ Some lits.now → ⊥) }
{
    if from.len() != lits.len() {
        return false;
    }
    for i in 0..from.len() {
        if !is_carried(constraints, group, site, from[i], lits[i]) {
            return false;
        }
    }
    true
}

/// Whether a literal stands at a site for another.
fn is_carried<C: Constraints>(constraints: &C, group: u32, site: u32, from: Lit, lit: Lit) -> bool
    requires group { group ≤ root (C.system constraints.now) }
    requires site { site < length (callees (C.system constraints.now) group) }
    ensures { MatchBool result ((from.sign ≡ lit.sign) × (carried_number (at_site (C.system constraints.now) group site) from.var ≡ Some lit.var))
        ((from.sign ≡ lit.sign) × (carried_number (at_site (C.system constraints.now) group site) from.var ≡ Some lit.var) → ⊥) }
{
    if from.sign() != lit.sign() {
        return false;
    }
    let Some(to) = constraints.carried(group, site, from.var()) else {
        return false;
    };
    to == lit.var().number()
}
