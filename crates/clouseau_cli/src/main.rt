//! The program `clouseau`: the real words, files and outputs, handed to `clouseau_core::clouseau`.
//!
//! Ends with the report's status. Where the system does not give the words it writes nothing and ends
//! with status 8, which no verdict has.
#![tactic(auto)]

use clouseau_core::{Words, clouseau};
use io_edge::{StdFiles, StdSink};
use std::process::ExitCode;
use std::{env, io};

/// The status where the system does not give the words.
const NO_WORDS: u8 = 8;

/// The words after the program's name. Where one is no UTF-8 they are no command, as no words are.
fn given_words(rt: &HostRuntime) -> io::Result<Words> {
    let mut items = Vec::new(rt.alloc());
    let given = match env::args(rt) {
        Ok(given) => given,
        Err(error) if error.kind() == io::ErrorKind::InvalidData => return Ok(Words { items }),
        Err(error) => return Err(error),
    };
    for word in given.skip(1) {
        items.push(word)?;
    }
    Ok(Words { items })
}

fn main(rt: HostRuntime) -> ExitCode {
    let Ok(words) = given_words(&rt) else {
        return ExitCode::from(NO_WORDS);
    };
    let mut files = StdFiles::new(&rt);
    let mut out = StdSink::new(rt.stdout());
    let mut err = StdSink::new(rt.stderr());
    let report = clouseau(rt.alloc(), &words, &mut files, &mut out, &mut err);
    ExitCode::from(report.status)
}
