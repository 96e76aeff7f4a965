ghost use Rattle.std.specs.Prelude.{◌≡◌, IfErr, OnOk};
ghost use Rattle.transfer_rules.specs.Names.{in_scope};
ghost use Rattle.verdict_meaning.specs.Solutions.{all_names};
ghost use Rattle.verdict_meaning.specs.Programs.{system_in};
ghost use Rattle.proof_checker.specs.Checking.{IsAccepted, IsRefused};
ghost use Rattle.proof_checker.specs.Programs.{counted};

use crate::counting::Counting;
use crate::faults::check;
use crate::in_scope::InScope;
use conflict_proof::{CheckError, Derivation};
use std::alloc::Global;
use transfer_rules::{Program, Scope};

/// Decides whether a derivation is valid and refutes the program. Invalid names the first faulty line of its text, the
/// header being line 1. On one line Range comes before Axiom, Resolvent and Inst; NoRefutation is at the line after the last.
///
/// It takes time in proportion to the program, to the derivation and to the clauses of the names that it cites, and memory
/// in proportion to the program, to the longest line and to the most clauses of one name.
///
/// # Errors
///
/// Invalid exactly where it is not valid or does not refute; Memory at any time.
pub fn check_derivation(
    alloc: Global,
    program: &Program,
    derivation: &Derivation,
) -> Result<(), CheckError>
    ensures ok { OnOk result (IsAccepted (system_in program.now) all_names derivation.now.lines) }
    ensures err { IfErr result (IsRefused (system_in program.now) all_names derivation.now.lines) }
{
    check_with(alloc, program, derivation, Counting::All)
}

/// Decides whether a derivation is valid with the constraints of a scope and refutes them, as [`check_derivation`] does with
/// all. A line that names a constraint that is not in force has the reason Axiom.
///
/// # Errors
///
/// Invalid exactly where it is not valid in the scope or does not refute; Memory at any time.
pub fn check_derivation_in(
    alloc: Global,
    program: &Program,
    derivation: &Derivation,
    scope: &Scope,
) -> Result<(), CheckError>
    ensures ok { OnOk result (IsAccepted (system_in program.now) (in_scope scope.now) derivation.now.lines) }
    ensures err { IfErr result (IsRefused (system_in program.now) (in_scope scope.now) derivation.now.lines) }
{
    check_with(alloc, program, derivation, Counting::In(scope))
}

/// The same with the constraints that count.
fn check_with(
    alloc: Global,
    program: &Program,
    derivation: &Derivation,
    counting: Counting,
) -> Result<(), CheckError>
    ensures ok { OnOk result (IsAccepted (system_in program.now) (counted counting.entry) derivation.now.lines) }
    ensures err { IfErr result (IsRefused (system_in program.now) (counted counting.entry) derivation.now.lines) }
{
    match InScope::new(alloc, program, counting) {
        Ok(constraints) => check(alloc, &constraints, derivation),
        Err(_) => Err(CheckError::Memory),
    }
}
