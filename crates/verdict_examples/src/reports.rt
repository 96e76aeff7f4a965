// What the call returns beside its texts.
use crate::harness::report;
use crate::texts::{FREED, FREED_TEXT, LEAK, LEAK_TEXT};
use clouseau_core::{Conflicts, Refusal, Verdict};
use own_cert::Certificate;
use std::alloc::Global;
use std::process::Abort;
use std::test::Fail;

/// The certificate with which words are answered that ask for a sample.
fn certificate_of(alloc: Global, words: &str) -> Result<Certificate, Fail> {
    match report(alloc, words, "", "")?.verdict {
        Verdict::Accepted(certificate) => Ok(certificate),
        _ => Err(Fail::from("not accepted")),
    }
}

/// Whether no call group has three instances; they stand in the order of their groups.
fn are_two_at_most(certificate: &Certificate) -> bool {
    let instances = certificate.instances.items.as_slice();
    for (instance, second_next) in instances.iter().zip(instances.iter().skip(2)) {
        if instance.group == second_next.group {
            return false;
        }
    }
    true
}

/// Each of the procedures of a sample is its own call group, and `main` is one more. Each of them but the first calls the one before it
/// twice, so that written out they would be 2^40 and 2^1000 calls.
fn check_sample(
    rt: &impl Abort,
    alloc: Global,
    words: &str,
    procedures: usize,
) -> Result<(), Fail> {
    let certificate = certificate_of(alloc, words)?;
    let count = certificate.instances.items.len();
    assert!(rt; count > procedures && count <= procedures.saturating_mul(2).saturating_add(1));
    assert!(rt; are_two_at_most(&certificate));
    Ok(())
}

#[test]
fn few_instances_of_forty(rt: HostRuntime) -> Result<(), Fail> {
    check_sample(&rt, rt.alloc(), "sample 40", 40)
}

#[test]
fn few_instances_of_a_thousand(rt: HostRuntime) -> Result<(), Fail> {
    check_sample(&rt, rt.alloc(), "sample 1000", 1_000)
}

/// The one conflict of a leak: the new object's constraint and that of the exit; and at least the words that every refutation takes.
fn is_of_a_leak(conflicts: &Conflicts) -> bool {
    match conflicts.items.as_slice() {
        [conflict] => conflict.used.items.len() == 2 && conflict.derivation.lines.items.len() >= 6,
        _ => false,
    }
}

/// The conflicts of a source.
fn conflicts_of(alloc: Global, source: &str) -> Result<Conflicts, Fail> {
    match report(alloc, "check a.c", source, "")?.verdict {
        Verdict::Conflict(conflicts) => Ok(conflicts),
        _ => Err(Fail::from("no conflict")),
    }
}

#[test]
fn one_conflict(rt: HostRuntime) -> Result<(), Fail> {
    let conflicts = conflicts_of(rt.alloc(), LEAK)?;
    assert!(&rt; is_of_a_leak(&conflicts));
    Ok(())
}

/// A word pays for no line with a literal.
#[test]
fn one_line_for_one_word(rt: HostRuntime) -> Result<(), Fail> {
    match report(rt.alloc(), "check a.c --budget 1", LEAK, "")?.verdict {
        Verdict::Undecided(derivation) => assert_eq!(&rt; derivation.lines.items.len(), 1),
        _ => return Err(Fail::from("decided")),
    }
    Ok(())
}

#[test]
fn no_main(rt: HostRuntime) -> Result<(), Fail> {
    match report(rt.alloc(), "check a.c", "", "")?.verdict {
        Verdict::Refused(Refusal::NoMain) => Ok(()),
        _ => Err(Fail::from("not refused for that")),
    }
}

/// Whether this text is valid of this source.
fn is_valid(alloc: Global, source: &str, text: &str) -> Result<bool, Fail> {
    match report(alloc, "verify a.c t", source, text)?.verdict {
        Verdict::Valid => Ok(true),
        Verdict::Invalid(_) => Ok(false),
        _ => Err(Fail::from("not judged")),
    }
}

#[test]
fn texts_of_two_sources(rt: HostRuntime) -> Result<(), Fail> {
    assert!(&rt; is_valid(rt.alloc(), FREED, FREED_TEXT)?);
    assert!(&rt; is_valid(rt.alloc(), LEAK, LEAK_TEXT)?);
    assert!(&rt; !is_valid(rt.alloc(), FREED, LEAK_TEXT)?);
    assert!(&rt; !is_valid(rt.alloc(), LEAK, FREED_TEXT)?);
    Ok(())
}
