//! Runs the top call on every example and shows its answers: what `check` says, and whether `verify` takes what `prove` gives.
//!
//! The examples are read as real files, from the folder that the program runs in. What it prints is kept beside it and compared.
//! Ends with status 0, or with 1 where an example or memory cannot be had or the output cannot be written.
#![tactic(auto)]

mod asking;
mod examples;

use asking::{Told, ask_of};
use examples::EXAMPLES;
use io_edge::{Sink, StdFiles, StdSink, read_file, write_all};
use std::alloc::Global;
use std::process::ExitCode;

/// The most bytes of an example.
const MOST: usize = 65_536;

/// An answer is not to be had.
#[derive(Drop)]
struct Stopped;

/// Shows what was asked, what was told, and the status.
fn show<S: Sink>(to: &mut S, words: &[&str], told: &Told) -> Result<(), Stopped> {
    put(to, "$ clouseau")?;
    for word in words {
        put(to, " ")?;
        put(to, word)?;
    }
    put(to, "\n")?;
    put_bytes(to, told.text.as_slice())?;
    put(to, status_line(told.status))
}

/// The line that says with which status the call ends.
fn status_line(status: u8) -> &'static str {
    match status {
        0 => "[0]\n",
        1 => "[1]\n",
        2 => "[2]\n",
        _ => "[another]\n",
    }
}

fn put<S: Sink>(to: &mut S, text: &str) -> Result<(), Stopped> {
    put_bytes(to, text.as_bytes())
}

fn put_bytes<S: Sink>(to: &mut S, bytes: &[u8]) -> Result<(), Stopped> {
    match write_all(to, bytes) {
        Ok(()) => Ok(()),
        Err(_) => Err(Stopped),
    }
}

/// Shows what `check` says of an example, and what `verify` says of the text that `prove` gives where there is a verdict.
fn show_example<S: Sink>(
    alloc: Global,
    name: &str,
    source: &[u8],
    to: &mut S,
) -> Result<(), Stopped> {
    let check = ["check", name];
    let told = ask_of(alloc, &check, name, source, b"")?;
    show(to, &check, &told)?;
    if told.status > 1 {
        return Ok(());
    }
    let proved = ask_of(alloc, &["prove", name], name, source, b"")?;
    let verify = ["verify", name, "text"];
    let verified = ask_of(alloc, &verify, name, source, proved.text.as_slice())?;
    show(to, &verify, &verified)
}

fn run(rt: &HostRuntime) -> Result<(), Stopped> {
    let mut files = StdFiles::new(rt);
    let mut to = StdSink::new(rt.stdout());
    for name in EXAMPLES {
        let Ok(source) = read_file(rt.alloc(), &mut files, name, MOST) else {
            return Err(Stopped);
        };
        show_example(rt.alloc(), name, source.as_slice(), &mut to)?;
    }
    Ok(())
}

fn main(rt: HostRuntime) -> ExitCode {
    match run(&rt) {
        Ok(()) => ExitCode::SUCCESS,
        Err(_) => ExitCode::FAILURE,
    }
}
