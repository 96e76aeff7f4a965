// Runs under a good certificate.
ghost use Rattle.verdict_meaning.specs.Certificates.{IsGoodCertificate};
ghost use Rattle.verdict_meaning.specs.Programs.{system_of};

use crate::programs::program_of;
use crate::texts::KEPT_TEXT;
use cert_checker::{Owned, check_certificate, owned_first, owned_step};
use example_sources::KEPT_CYCLE;
use heap_meaning::{Choice, Writes};
use own_cert::{Certificate, read};
use std::alloc::Global;
use std::test::Fail;
use transfer_rules::Program;

/// Walks until the run ends or stops, at most twenty steps, and answers how many moves there were and how many objects live.
fn moves(
    alloc: Global,
    program: &Program,
    certificate: &Certificate,
    fits: bool,
) -> Result<(u32, usize), Fail>
    requires { IsGoodCertificate (system_of program.now.graph program.now.facts program.now.groups) certificate.now }
{
    let choice = Choice {
        fits,
        value: 0,
        writes: Writes {
            items: Vec::new(alloc),
        },
    };
    let mut state = owned_first(alloc, program, certificate)?;
    let mut moved = 0u32;
    for turn in 0..20 {
        match owned_step(alloc, program, certificate, &mut state, &choice)? {
            Owned::Moved => moved = moved.wrapping_add(1),
            Owned::Ended => break,
            Owned::Stopped(_) => return Err(Fail::from("stopped")),
        }
    }
    let live = state.heap.items.iter().filter(|object| object.live).count();
    Ok((moved, live))
}

/// The moves with an allocation that fits, and with one that does not.
fn both(alloc: Global) -> Result<[(u32, usize); 2], Fail> {
    let program = program_of(alloc, KEPT_CYCLE.as_bytes())?;
    let Ok(certificate) = read(alloc, KEPT_TEXT.as_bytes()) else {
        return Err(Fail::from("no certificate's text"));
    };
    match check_certificate(alloc, &program, &certificate) {
        Ok(()) => Ok([
            moves(alloc, &program, &certificate, true)?,
            moves(alloc, &program, &certificate, false)?,
        ]),
        Err(_) => Err(Fail::from("not good")),
    }
}

/// The object that refers to itself is there to the end; where it does not fit there is none, and its branch is left out.
#[test]
fn kept_cycle(rt: HostRuntime) -> Result<(), Fail> {
    let [(moved, live), (_, none)] = both(rt.alloc())?;
    assert_eq!(rt; moved, 6);
    assert_eq!(rt; live, 1);
    assert_eq!(rt; none, 0);
    Ok(())
}
