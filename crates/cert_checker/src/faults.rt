ghost use Rattle.std.specs.Prelude.{◌≡◌, IfOk, IfErr, OnOk, Option, Some, None};
ghost use Rattle.conflict_proof.specs.declared.faults.Reason.TheVariants.{Range, Missing};
ghost use Rattle.verdict_meaning.specs.Certificates.{IsGoodIn};
ghost use Rattle.verdict_meaning.specs.CertificateFaults.{HasFault};
ghost use Rattle.cert_checker.specs.Tables.{AreStarts};
ghost use Rattle.cert_checker.specs.Finding.{IsFirstBelow};
ghost use Rattle.cert_checker.specs.Checking.{IsFirstAmong, IsRefused, IsVerdict, bound_of, nearer};

use crate::broken::first_broken;
use crate::groups::Groups;
use crate::lines::{is_below, starts};
use crate::missing::is_missing;
use crate::shapes::first_shape_fault;
use crate::sites::first_site_fault;
use crate::twice::first_twice;
use c_tree::Memory;
use conflict_proof::{BadLine, CheckError, Reason};
use own_cert::Certificate;
use std::alloc::Global;
use verdict_meaning::{faultless_is_good, faulty_is_not_good};

/// Decides whether a certificate is good with the constraints that count. Invalid names the first faulty line of the text that
/// has a line for each place, the header being line 1, and the first of its faults: a wrong shape (Range), an instance that is
/// one before (Twice), a site that names what it may not (Site), a false constraint (Broken), a group without an instance
/// (Missing). It takes time in proportion to the certificate and to the clauses of its groups.
///
/// # Errors
///
/// Invalid exactly where it is not good; Memory at any time.
pub fn check<G: Groups>(
    alloc: Global,
    groups: &G,
    certificate: &Certificate,
) -> Result<(), CheckError>
    ensures ok { OnOk result (IsGoodIn (G.system groups.now) (G.scope groups.now) certificate.now) }
    ensures err { IfErr result (IsRefused (G.system groups.now) (G.scope groups.now) certificate.now) }
{
    faulty_is_not_good();
    match first_fault(alloc, groups, certificate) {
        Ok(None) => Ok(()),
        Ok(Some(bad)) => Err(CheckError::Invalid(bad)),
        Err(Memory) => Err(CheckError::Memory),
    }
}

/// The first faulty line; none where the certificate is good.
fn first_fault<G: Groups>(
    alloc: Global,
    groups: &G,
    certificate: &Certificate,
) -> Result<Option<BadLine>, Memory>
    ensures { IfOk result (IsVerdict (G.system groups.now) (G.scope groups.now) certificate.now) }
{
    faultless_is_good();
    let starts = starts(alloc, &certificate.instances.items)?;
    let first = first_of_shape(alloc, groups, certificate, &starts)?;
    let broken = first_broken(alloc, groups, certificate, &starts, bound_of(first))?;
    let first = nearer(Reason::Broken, broken, first);
    let missing = missing_line(alloc, groups, certificate, &starts, bound_of(first))?;
    Ok(nearer(Reason::Missing, missing, first))
}

/// The first line with a fault other than a false constraint or a group without an instance.
fn first_of_shape<G: Groups>(
    alloc: Global,
    groups: &G,
    certificate: &Certificate,
    starts: &[u64],
) -> Result<Option<BadLine>, Memory>
    requires { AreStarts certificate.now.instances starts.now }
    ensures { IfOk result (IsFirstAmong 3 (G.system groups.now) (G.scope groups.now) certificate.now) }
{
    let shape = first_shape_fault(alloc, groups, certificate, starts)?;
    let first = nearer(Reason::Range, shape, None);
    let twice = first_twice(alloc, groups, certificate, starts, bound_of(first))?;
    let first = nearer(Reason::Twice, twice, first);
    let site = first_site_fault(groups, certificate, starts, bound_of(first))?;
    Ok(nearer(Reason::Site, site, first))
}

/// The last line, where it is before the bound and some group has no instance.
fn missing_line<G: Groups>(
    alloc: Global,
    groups: &G,
    certificate: &Certificate,
    starts: &[u64],
    bound: Option<u64>,
) -> Result<Option<u64>, Memory>
    requires { AreStarts certificate.now.instances starts.now }
    ensures { IfOk result (IsFirstBelow bound (HasFault (G.system groups.now) (G.scope groups.now) certificate.now Missing)) }
{
    let instances = certificate.instances.items.as_slice();
    let line = starts[instances.len()];
    if !is_below(bound, line) {
        return Ok(None);
    }
    if is_missing(alloc, groups, instances)? {
        return Ok(Some(line));
    }
    Ok(None)
}

/// The line of a fault; none where there is none.
fn bound_of(first: Option<BadLine>) -> Option<u64>
    ensures { result ≡ bound_of first }
{
    match first {
        Some(bad) => Some(bad.line),
        None => None,
    }
}

/// The fault on this line, where there is one, and else the first one before.
fn nearer(reason: Reason, line: Option<u64>, first: Option<BadLine>) -> Option<BadLine>
    ensures { result ≡ nearer reason line first }
{
    match line {
        Some(line) => Some(BadLine { line, reason }),
        None => first,
    }
}
