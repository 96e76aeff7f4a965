//! The top call.

ghost use Rattle.std.specs.Prelude.{◌≡◌, None, List, ℕ};
ghost use Rattle.conflict_proof.specs.declared.derivation.Derivation.{Derivation};
ghost use Rattle.conflict_proof.specs.declared.faults.BadLine.{BadLine};
ghost use Rattle.own_cert.specs.declared.certificate.Certificate.{Certificate};
ghost use Rattle.command_words.specs.Asked.{asked_command};
ghost use Rattle.clouseau_core.specs.declared.report.Conflict.{Conflict};
ghost use Rattle.clouseau_core.specs.declared.report.Verdict.{Verdict};
ghost use Rattle.clouseau_core.specs.Report.{status_of, IsReported};
ghost use Rattle.clouseau_core.specs.Headline.{AcceptsSource, RefutesSource, LeavesSourceOpen, VerifiesText, FaultsText, IsDecided, IsOnWords};

use crate::answers::{Answer, answer_to};
use crate::giving::give;
use crate::report::{Report, Verdict};
use c_tree::Memory;
use command_words::Words;
use io_edge::{Files, Sink};
use std::alloc::Global;

/// Does what the words ask for, and gives one text: that of the verdict.
///
/// - `check FILE` judges the source under that name. Accepted comes with a certificate: in every run of the source, up to its first
///   stopping error, each live object has exactly one owner by it and each freed object none, nothing is freed twice, and where
///   `main` returned only the kept objects are left. Conflict comes with constraints of the source that no assignment meets, and a
///   derivation that shows it. Undecided comes only where the budget is spent.
/// - `prove FILE` does the same, and gives the certificate's text or the derivation's.
/// - `verify FILE TEXT` says whether the text under the second name is that of a good certificate or of a derivation that refutes,
///   or names its first faulty line.
/// - `sample N` judges the sample of N procedures.
///
/// Verdicts on a source or a text are told on `out`, all others on `err`. A text is composed whole and then given. Refusals come in
/// the order of the words, reading FILE, its length, tokens, the tree, rules of types, `main`, limits, reading TEXT, its length, the
/// verdict, writing; NoMemory may come at any point. ReadFault comes only where the files hold nothing under the name or their
/// count of faults rose in this call, WriteFault only where an output's rose; that output then holds a part of the text.
pub fn clouseau<F: Files, O: Sink, E: Sink>(
    alloc: Global,
    words: &Words,
    files: &mut F,
    out: &mut O,
    err: &mut E,
) -> Report
    ensures status { result.status ≡ status_of result.verdict }

    // In every run of the source each live object has one owner, nothing is freed twice, and only what is kept is left.
    ensures accepted { (c : Certificate) → result.verdict ≡ Verdict.Accepted c →
        AcceptsSource words.now (F.held files.old)
        (record { given_before = O.given out.old; given_after = O.given out.new; faults_before = O.faults out.old; faults_after = O.faults out.new }) c }

    // No assignment meets the constraints that are printed, and the derivation is valid and refutes.
    ensures conflict { (ks : List Conflict) → result.verdict ≡ Verdict.Conflict ks →
        RefutesSource words.now (F.held files.old)
        (record { given_before = O.given out.old; given_after = O.given out.new; faults_before = O.faults out.old; faults_after = O.faults out.new }) ks }

    // The budget is spent, and it was not ample.
    ensures undecided { (d : Derivation) → result.verdict ≡ Verdict.Undecided d →
        LeavesSourceOpen words.now (F.held files.old)
        (record { given_before = O.given out.old; given_after = O.given out.new; faults_before = O.faults out.old; faults_after = O.faults out.new }) d }

    // The text shows a verdict on the source; or it does not, and this is its first faulty line.
    ensures valid { result.verdict ≡ Verdict.Valid →
        VerifiesText words.now (F.held files.old)
        (record { given_before = O.given out.old; given_after = O.given out.new; faults_before = O.faults out.old; faults_after = O.faults out.new }) }
    ensures invalid { (bad : BadLine) → result.verdict ≡ Verdict.Invalid bad →
        FaultsText words.now (F.held files.old)
        (record { given_before = O.given out.old; given_after = O.given out.new; faults_before = O.faults out.old; faults_after = O.faults out.new }) bad }

    // Where the words are a command, what it is about is there and within the limits, and no count of faults rose, there is a
    // verdict on it; where they are none, on the words.
    ensures decided { IsDecided words.now (F.held files.old) (F.faults files.old) (F.faults files.new)
        (record { given_before = O.given out.old; given_after = O.given out.new; faults_before = O.faults out.old; faults_after = O.faults out.new })
        (record { given_before = E.given err.old; given_after = E.given err.new; faults_before = E.faults err.old; faults_after = E.faults err.new })
        result.verdict }
    ensures usage { asked_command words.now ≡ None → IsOnWords result.verdict }

    // Every verdict with its cause, and what both outputs were given.
    ensures reported { IsReported words.now (F.held files.old) (F.faults files.old) (F.faults files.new)
        (record { given_before = O.given out.old; given_after = O.given out.new; faults_before = O.faults out.old; faults_after = O.faults out.new })
        (record { given_before = E.given err.old; given_after = E.given err.new; faults_before = E.faults err.old; faults_after = E.faults err.new })
        result.verdict }
    ensures same { (n : List ℕ) → F.held files.new n ≡ F.held files.old n }
{
    run(alloc, words, files, out, err)
}

/// The same with every verdict's cause.
fn run<F: Files, O: Sink, E: Sink>(
    alloc: Global,
    words: &Words,
    files: &mut F,
    out: &mut O,
    err: &mut E,
) -> Report
    ensures status { result.status ≡ status_of result.verdict }
    ensures reported { IsReported words.now (F.held files.old) (F.faults files.old) (F.faults files.new)
        (record { given_before = O.given out.old; given_after = O.given out.new; faults_before = O.faults out.old; faults_after = O.faults out.new })
        (record { given_before = E.given err.old; given_after = E.given err.new; faults_before = E.faults err.old; faults_after = E.faults err.new })
        result.verdict }
    ensures same { (n : List ℕ) → F.held files.new n ≡ F.held files.old n }
{
    match answer_to(alloc, words, files) {
        Ok(answer) => {
            let Answer {
                verdict,
                out: out_text,
                err: err_text,
            } = answer;
            give(verdict, out_text.as_slice(), err_text.as_slice(), out, err)
        }
        Err(Memory) => give(Verdict::NoMemory, b"", b"out of memory\n", out, err),
    }
}
