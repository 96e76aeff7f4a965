ghost use Rattle.std.specs.Prelude.{◌≡◌, ◌<◌, ◌≤◌, length, slice_get, Some, IfOk, MatchBool};
ghost use Rattle.conflict_proof.specs.declared.faults.Reason.TheVariants.{Range, Site};
ghost use Rattle.own_cert.specs.declared.certificate.Instance.{Instance};
ghost use Rattle.verdict_meaning.specs.Systems.{System, root, callees};
ghost use Rattle.verdict_meaning.specs.Certificates.{IsSite};
ghost use Rattle.verdict_meaning.specs.CertificateFaults.{HasFault};
ghost use Rattle.cert_checker.specs.Tables.{AreStarts};
ghost use Rattle.cert_checker.specs.Finding.{IsFirstBelow, IsCleanBelow, HasWrongSite};

use crate::groups::Groups;
use crate::lines::{is_below, sum};
use c_tree::Memory;
use own_cert::{Certificate, Instance};
use verdict_meaning::Callee;

/// The first line before the bound with a site that does not name an earlier instance which is entered through the called
/// procedure. Up to there all shapes are right.
pub(crate) fn first_site_fault<G: Groups>(
    groups: &G,
    certificate: &Certificate,
    starts: &[u64],
    bound: Option<u64>,
) -> Result<Option<u64>, Memory>
    requires starts { AreStarts certificate.now.instances starts.now }
    requires shapes { IsCleanBelow bound (HasFault (G.system groups.now) (G.scope groups.now) certificate.now Range) }
    ensures { IfOk result (IsFirstBelow bound (HasFault (G.system groups.now) (G.scope groups.now) certificate.now Site)) }
{
    let instances = certificate.instances.items.as_slice();
    for n in 0..instances.len() {
        let line = sum(starts[n], 2)?;
        if !is_below(bound, line) {
            return Ok(None);
        }
        if !are_sites(groups, instances, n, &instances[n]) {
            return Ok(Some(line));
        }
    }
    Ok(None)
}

/// Whether each site of an instance names what it may.
fn are_sites<G: Groups>(groups: &G, instances: &[Instance], n: usize, instance: &Instance) -> bool
    requires there { slice_get instances.now n ≡ Some instance.now }
    requires group { instance.now.group < root (G.system groups.now) }
    requires count { length instance.now.sites ≡ length (callees (G.system groups.now) instance.now.group) }
    ensures { MatchBool result (HasWrongSite (G.system groups.now) instances.now n → ⊥) (HasWrongSite (G.system groups.now) instances.now n) }
{
    let callees = groups.callees(instance.group);
    let sites = instance.sites.items.as_slice();
    for k in 0..sites.len() {
        if !is_site(instances, n, callees[k], sites[k]) {
            return false;
        }
    }
    true
}

/// Whether a site that calls this names an earlier instance which is entered there.
fn is_site(instances: &[Instance], n: usize, callee: Callee, number: u32) -> bool
    requires { n ≤ length instances.now }
    ensures { (s : System) → MatchBool result (IsSite s instances.now n callee number) (IsSite s instances.now n callee number → ⊥) }
{
    if number as usize >= n {
        return false;
    }
    let named = &instances[number as usize];
    if named.group != callee.group {
        return false;
    }
    named.entry == callee.proc
}
