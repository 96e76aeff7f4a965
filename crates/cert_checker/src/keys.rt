ghost use Rattle.std.specs.Prelude.{◌≡◌, ◌<◌, ◌⊎◌, ◌↔◌, List, ℕ, IfOk, OnOk, MatchBool};
ghost use Rattle.std.specs.List.{Contains};
ghost use Rattle.verdict_meaning.specs.Systems.{root, members};
ghost use Rattle.cert_checker.specs.Tables.{key_of};
ghost use Rattle.cert_checker.specs.Keys.{keys_in};

use crate::bits::entry_bits;
use crate::groups::Groups;
use c_tree::Memory;
use own_cert::Instance;
use std::alloc::Global;
use std::collections::BTreeSet;

/// What tells an instance from others: its group, its entry and the entry's interface.
pub(crate) fn key_of<G: Groups>(
    alloc: Global,
    groups: &G,
    instance: &Instance,
) -> Result<Vec<u32>, Memory>
    requires group { instance.now.group < root (G.system groups.now) }
    requires entry { Contains (members (G.system groups.now) instance.now.group) instance.now.entry }
    ensures { IfOk result (λ k. k.items ≡ key_of (G.system groups.now) instance.now) }
{
    let mut key = Vec::new(alloc);
    key.push(instance.group)?;
    key.push(instance.entry)?;
    let bits = entry_bits(groups, instance);
    for bit in bits {
        key.push(u32::from(*bit))?;
    }
    Ok(key)
}

/// Adds a key, and answers whether it is new.
pub(crate) fn add(keys: &mut BTreeSet<Vec<u32>>, key: Vec<u32>) -> Result<bool, Memory>
    ensures new { IfOk result (λ new. MatchBool new (Contains (keys_in keys.old) key.items → ⊥) (Contains (keys_in keys.old) key.items)) }
    ensures added { OnOk result ((q : List ℕ) → Contains (keys_in keys.new) q ↔ (Contains (keys_in keys.old) q ⊎ (key.items ≡ q))) }
{
    Ok(keys.insert(key)?)
}
