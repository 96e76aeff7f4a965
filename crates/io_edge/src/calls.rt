// The calls of a model in memory: their numbers, and which of them fail.
ghost use Rattle.std.specs.Prelude.{◌≡◌, ◌≤◌, ◌↔◌, IsErr, OnOk, OnErr};
ghost use Rattle.std.specs.List.{Contains};
ghost use Rattle.io_edge.specs.Faults.{Rose, raised};

use crate::{Failed, Numbers};

// Counts a call, and fails with one more fault where its number is one of those that fail.
#[tactic(auto, using(crate::proofs::Counts::raised_rose))]
pub fn count_call(failing: &Numbers, calls: &mut u64, faults: &mut u64) -> Result<(), Failed>
    ensures counted { calls.new ≡ raised calls.old }
    ensures fails { IsErr result ↔ Contains failing.now (raised calls.old) }
    ensures later { faults.old ≤ faults.new }
    ensures cause { OnErr result (Rose faults.old faults.new) }
    ensures fault { OnErr result (faults.new ≡ raised faults.old) }
    ensures no_fault { OnOk result (faults.new ≡ faults.old) }
{
    *calls = calls.saturating_add(1);
    let number = *calls;
    if failing.items.iter().any(|n| u64::from(*n) == number) {
        *faults = faults.saturating_add(1);
        return Err(Failed);
    }
    Ok(())
}
