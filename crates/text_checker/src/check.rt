ghost use Rattle.std.specs.Prelude.{◌≡◌, ◌≤◌, OnOk, IfErr};
ghost use Rattle.text_checker.specs.Verified.{BeginsDerivation, IsValidText, IsRefused, IsFirstLine, IsLineIn};

use cert_checker::check_certificate;
use conflict_proof::{BadLine, CheckError, TextError, after_word, read as read_derivation};
use own_cert::{Certificate, line_in_2, read as read_certificate, version};
use proof_checker::check_derivation;
use std::alloc::Global;
use transfer_rules::Program;

/// Whether a text shows a verdict on a program. A text whose first line is `clouseau derivation 1` is a derivation, and any other
/// one is read as a certificate, in either version.
///
/// It takes the time and memory of reading the text and of the checker's run.
///
/// # Errors
///
/// Invalid exactly where it is no such text, or the derivation is not valid or does not refute, or the certificate is not good;
/// with the first faulty line of the text, from 1, and its reason. Memory at any time.
pub fn verify(alloc: Global, program: &Program, text: &[u8]) -> Result<(), CheckError>
    ensures valid { OnOk result (IsValidText program.now text.now) }
    ensures invalid { IfErr result (IsRefused program.now text.now) }
{
    match after_word(text, b"clouseau derivation 1\n") {
        Some(_) => verify_derivation(alloc, program, text),
        None => verify_certificate(alloc, program, text),
    }
}

/// The same for a derivation.
fn verify_derivation(alloc: Global, program: &Program, text: &[u8]) -> Result<(), CheckError>
    requires { BeginsDerivation text.now }
    ensures valid { OnOk result (IsValidText program.now text.now) }
    ensures invalid { IfErr result (IsRefused program.now text.now) }
{
    let derivation = match read_derivation(alloc, text) {
        Ok(derivation) => derivation,
        Err(TextError::Memory) => return Err(CheckError::Memory),
        Err(TextError::Invalid(bad)) => return Err(CheckError::Invalid(bad)),
    };
    check_derivation(alloc, program, &derivation)
}

/// The same for a certificate.
fn verify_certificate(alloc: Global, program: &Program, text: &[u8]) -> Result<(), CheckError>
    requires { BeginsDerivation text.now → ⊥ }
    ensures valid { OnOk result (IsValidText program.now text.now) }
    ensures invalid { IfErr result (IsRefused program.now text.now) }
{
    let certificate = match read_certificate(alloc, text) {
        Ok(certificate) => certificate,
        Err(TextError::Memory) => return Err(CheckError::Memory),
        Err(TextError::Invalid(bad)) => return Err(CheckError::Invalid(bad)),
    };
    match check_certificate(alloc, program, &certificate) {
        Ok(()) => Ok(()),
        Err(CheckError::Memory) => Err(CheckError::Memory),
        Err(CheckError::Invalid(bad)) => Err(CheckError::Invalid(BadLine {
            line: line_in_text(&certificate, text, bad.line),
            reason: bad.reason,
        })),
    }
}

/// The line of a certificate's text that says what a line of its first text says.
fn line_in_text(certificate: &Certificate, text: &[u8], line: u64) -> u64
    requires { IsFirstLine certificate.now line }
    ensures { IsLineIn certificate.now text.now line result }
{
    if version(text) == 2 {
        line_in_2(certificate, line)
    } else {
        line
    }
}
