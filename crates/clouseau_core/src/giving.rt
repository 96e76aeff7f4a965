//! The texts, given to the outputs.

ghost use Rattle.std.specs.Prelude.{◌≡◌};
ghost use Rattle.clouseau_core.specs.Report.{status_of, IsGiven};

use crate::report::{Report, Verdict};
use io_edge::{Sink, write_all};

/// Gives the texts and reports the verdict, or WriteFault where one breaks off.
pub(crate) fn give<O: Sink, E: Sink>(
    verdict: Verdict,
    out_text: &[u8],
    err_text: &[u8],
    out: &mut O,
    err: &mut E,
) -> Report
    ensures status { result.status ≡ status_of result.verdict }
    ensures given { IsGiven
        (record { given_before = O.given out.old; given_after = O.given out.new; faults_before = O.faults out.old; faults_after = O.faults out.new })
        (record { given_before = E.given err.old; given_after = E.given err.new; faults_before = E.faults err.old; faults_after = E.faults err.new })
        verdict out_text.now err_text.now result.verdict }
{
    match write_all(out, out_text) {
        Ok(()) => (),
        Err(_) => return reported(Verdict::WriteFault),
    }
    match write_all(err, err_text) {
        Ok(()) => reported(verdict),
        Err(_) => reported(Verdict::WriteFault),
    }
}

fn reported(verdict: Verdict) -> Report
    ensures status { result.status ≡ status_of verdict }
    ensures verdict { result.verdict ≡ verdict }
{
    let status = match &verdict {
        Verdict::Accepted(_) => 0,
        Verdict::Valid => 0,
        Verdict::Conflict(_) => 1,
        Verdict::Invalid(_) => 1,
        Verdict::Refused(_) => 2,
        Verdict::Undecided(_) => 3,
        Verdict::ReadFault => 4,
        Verdict::WriteFault => 5,
        Verdict::Usage => 6,
        Verdict::NoMemory => 7,
    };
    Report { status, verdict }
}
