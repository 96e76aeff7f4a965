ghost use Rattle.std.specs.Prelude.{◌≡◌, ◌<◌, ◌+◌, IfOk};
ghost use Rattle.conflict_proof.specs.declared.faults.Reason.TheVariants.{Range, Twice};
ghost use Rattle.verdict_meaning.specs.CertificateFaults.{HasFault};
ghost use Rattle.cert_checker.specs.Tables.{AreStarts};
ghost use Rattle.cert_checker.specs.Finding.{IsFirstBelow, IsCleanBelow};

use crate::groups::Groups;
use crate::keys::{add, key_of};
use crate::lines::{is_below, sum};
use c_tree::Memory;
use own_cert::Certificate;
use std::alloc::Global;
use std::collections::BTreeSet;

/// The first line before the bound on which an instance is one that came before. Up to there all shapes are right.
pub(crate) fn first_twice<G: Groups>(
    alloc: Global,
    groups: &G,
    certificate: &Certificate,
    starts: &[u64],
    bound: Option<u64>,
) -> Result<Option<u64>, Memory>
    requires starts { AreStarts certificate.now.instances starts.now }
    requires shapes { IsCleanBelow bound (HasFault (G.system groups.now) (G.scope groups.now) certificate.now Range) }
    ensures { IfOk result (IsFirstBelow bound (HasFault (G.system groups.now) (G.scope groups.now) certificate.now Twice)) }
{
    let instances = certificate.instances.items.as_slice();
    let mut keys = BTreeSet::new(alloc);
    for n in 0..instances.len() {
        let line = sum(starts[n], 1)?;
        if !is_below(bound, line) {
            return Ok(None);
        }
        let key = key_of(alloc, groups, &instances[n])?;
        if !add(&mut keys, key)? {
            return Ok(Some(line));
        }
    }
    Ok(None)
}
