ghost use Rattle.std.specs.Prelude.{◌≡◌, IfOk, MatchBool};
ghost use Rattle.verdict_meaning.specs.Systems.{root};
ghost use Rattle.cert_checker.specs.Finding.{IsGroupMissing};

use crate::groups::Groups;
use c_tree::Memory;
use own_cert::Instance;
use std::alloc::Global;

/// Whether some group has no instance.
pub(crate) fn is_missing<G: Groups>(
    alloc: Global,
    groups: &G,
    instances: &[Instance],
) -> Result<bool, Memory>
    ensures { IfOk result (λ yes. MatchBool yes (IsGroupMissing (G.system groups.now) instances.now) (IsGroupMissing (G.system groups.now) instances.now → ⊥)) }
{
    let mut seen = vec![in alloc; false; groups.count() as usize]?;
    for instance in instances {
        let group = instance.group as usize;
        if group < seen.len() {
            seen[group] = true;
        }
    }
    for has in &seen {
        if !*has {
            return Ok(true);
        }
    }
    Ok(false)
}
