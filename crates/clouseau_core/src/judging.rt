//! The verdict on a program.

ghost use Rattle.std.specs.Prelude.{◌≡◌, ◌≤◌, [], IfOk, OnOk};
ghost use Rattle.verdict_meaning.specs.Solutions.{all_names};
ghost use Rattle.verdict_meaning.specs.Certificates.{IsGoodCertificate};
ghost use Rattle.verdict_meaning.specs.Derivations.{IsValidIn, Refutes};
ghost use Rattle.verdict_meaning.specs.Programs.{system_in};
ghost use Rattle.cert_checker.specs.Owned.{RunsHaveOwners};
ghost use Rattle.proof_checker.specs.Checking.{IsAccepted};
ghost use Rattle.clouseau_core.specs.Judged.{IsToTest, IsChecked, IsTested, IsJudged, verdict_of};

use crate::answers::Answer;
use crate::report::{Conflict, Conflicts, Verdict};
use crate::texts::text_by;
use crate::way::Way;
use c_tree::Memory;
use call_summary::{Inferred, infer};
use cert_checker::check_certificate;
use conflict_proof::{CheckError, Derivation};
use own_cert::Certificate;
use proof_checker::check_derivation;
use std::alloc::Global;
use transfer_rules::Program;
use verdict_meaning::good_is_satisfiable;

/// The verdict on a program, told in this way.
pub(crate) fn judged(
    alloc: Global,
    way: Way,
    program: &Program,
    budget: u64,
) -> Result<Answer, Memory>
    requires { budget ≤ 100000000 }
    ensures { IfOk result (λ a. IsJudged way budget program.now a.verdict a.out.items × (a.err.items ≡ [])) }
{
    let inferred = tested(alloc, program, budget)?;
    let out = text_by(alloc, way, program, &inferred, budget)?;
    let verdict = verdict_of(alloc, inferred)?;
    Ok(Answer {
        verdict,
        out,
        err: Vec::new(alloc),
    })
}

/// What is inferred of a program: a certificate is tested before it is answered, and so is a derivation that refutes.
fn tested(alloc: Global, program: &Program, budget: u64) -> Result<Inferred, Memory>
    requires { budget ≤ 100000000 }
    ensures { IfOk result (IsTested program.now budget) }
{
    good_is_satisfiable();
    let inferred = infer(alloc, program, budget)?;
    test(alloc, program, &inferred)?;
    Ok(inferred)
}

/// Tests what was inferred.
fn test(alloc: Global, program: &Program, inferred: &Inferred) -> Result<(), Memory>
    requires { IsToTest program.now inferred.now }
    ensures { OnOk result (IsChecked program.now inferred.now) }
{
    match inferred {
        Inferred::Accepted(certificate) => test_certificate(alloc, program, certificate),
        Inferred::Refuted(derivation, _) => test_derivation(alloc, program, derivation),
        Inferred::Undecided(_) => Ok(()),
    }
}

/// Tests a good certificate.
fn test_certificate(
    alloc: Global,
    program: &Program,
    certificate: &Certificate,
) -> Result<(), Memory>
    requires { IsGoodCertificate (system_in program.now) certificate.now }
    ensures { OnOk result (RunsHaveOwners program.now certificate.now) }
{
    match check_certificate(alloc, program, certificate) {
        Ok(()) => Ok(()),
        Err(CheckError::Memory) => Err(Memory),
        Err(CheckError::Invalid(_)) => unreachable!(),
    }
}

/// Tests a valid derivation that refutes.
fn test_derivation(alloc: Global, program: &Program, derivation: &Derivation) -> Result<(), Memory>
    requires valid { IsValidIn (system_in program.now) all_names derivation.now.lines }
    requires refutes { Refutes (system_in program.now) derivation.now.lines }
    ensures { OnOk result (IsAccepted (system_in program.now) all_names derivation.now.lines) }
{
    match check_derivation(alloc, program, derivation) {
        Ok(()) => Ok(()),
        Err(CheckError::Memory) => Err(Memory),
        Err(CheckError::Invalid(_)) => unreachable!(),
    }
}

/// The verdict that was inferred.
fn verdict_of(alloc: Global, inferred: Inferred) -> Result<Verdict, Memory>
    ensures { IfOk result (λ v. v ≡ verdict_of inferred) }
{
    match inferred {
        Inferred::Accepted(certificate) => Ok(Verdict::Accepted(certificate)),
        Inferred::Refuted(derivation, used) => {
            let mut items = Vec::new(alloc);
            items.push(Conflict { used, derivation })?;
            Ok(Verdict::Conflict(Conflicts { items }))
        }
        Inferred::Undecided(derivation) => Ok(Verdict::Undecided(derivation)),
    }
}
