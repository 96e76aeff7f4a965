ghost use Rattle.std.specs.Prelude.{◌≡◌, IfOk, OnErr};
ghost use Rattle.heap_meaning.specs.Run.{Steps, first_state_of};
ghost use Rattle.verdict_meaning.specs.Certificates.{IsGoodCertificate};
ghost use Rattle.verdict_meaning.specs.Programs.{system_of};
ghost use Rattle.cert_checker.specs.Owned.{IsSoundBy, stepped_of};

use c_tree::Memory;
use heap_law::{good_is_certified, runs_begin_sound, steps_lead_to_sound};
use heap_meaning::{Choice, State, Stepped, Stop, first_state, step};
use own_cert::Certificate;
use std::alloc::Global;
use transfer_rules::Program;

/// What came of a step from a sound state under a good certificate.
#[derive(Clone, Copy, Debug, PartialEq, Eq)]
pub enum Owned {
    /// One edge was taken, or a frame returned to its caller.
    Moved,
    /// The run is at its end.
    Ended,
    /// The run stops here, for this error.
    Stopped(Stop),
}

/// The state in which every run of a program begins. It is sound by a good certificate. Its one refusal is want of memory.
pub fn owned_first(
    alloc: Global,
    program: &Program,
    certificate: &Certificate,
) -> Result<State, Memory>
    requires { IsGoodCertificate (system_of program.now.graph program.now.facts program.now.groups) certificate.now }
    ensures first { IfOk result (λ s. s ≡ first_state_of program.now.graph) }
    ensures sound { IfOk result (IsSoundBy program.now certificate.now) }
{
    program.law();
    good_is_certified();
    runs_begin_sound();
    let _phi = &certificate.phi;
    first_state(alloc, &program.graph)
}

/// One step from a state that is sound by a good certificate. It is never a double free, and the state after it is sound.
/// After a stop and after want of memory, its one refusal, the state is as it was.
pub fn owned_step(
    alloc: Global,
    program: &Program,
    certificate: &Certificate,
    state: &mut State,
    choice: &Choice,
) -> Result<Owned, Memory>
    requires good { IsGoodCertificate (system_of program.now.graph program.now.facts program.now.groups) certificate.now }
    requires sound { IsSoundBy program.now certificate.now state.old }
    ensures steps { IfOk result (λ r. Steps program.now.graph state.old choice.now (stepped_of r) state.new) }
    ensures sound { IsSoundBy program.now certificate.now state.new }
    ensures memory { OnErr result (state.new ≡ state.old) }
{
    program.law();
    good_is_certified();
    steps_lead_to_sound();
    let _phi = &certificate.phi;
    match step(alloc, &program.graph, state, choice)? {
        Stepped::Moved => Ok(Owned::Moved),
        Stepped::Ended => Ok(Owned::Ended),
        Stepped::Stopped(stop) => Ok(Owned::Stopped(stop)),
        Stepped::DoubleFree => unreachable!(),
    }
}
