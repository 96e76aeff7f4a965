// Runs of the top call over files in memory.
ghost use Rattle.std.specs.Prelude.{◌<◌};

use clouseau_core::{Report, Words, clouseau};
use io_edge::{Bytes, MemFiles, MemSink, NamedFile, NamedFiles, Numbers};
use std::alloc::{AllocError, Global};
use std::process::Abort;
use std::test::Fail;

/// The most bytes that an output takes where an example says nothing else.
pub const ROOM: usize = 1_048_576;

/// How many bytes pass in one call where an example says nothing else.
pub const PIECE: usize = 4_096;

/// The number of the call that fails where none does: calls are counted from 1.
pub const NONE_FAILS: u32 = 0;

/// What a run gave.
#[derive(Drop)]
pub struct Given {
    pub status: u8,
    pub out: String,
    pub err: String,
}

/// Runs the words on a source named `a.c` and a text named `t`.
pub fn run(alloc: Global, words: &str, source: &[u8], text: &[u8]) -> Result<Given, Fail> {
    let mut files = files(alloc, source, text, PIECE, NONE_FAILS)?;
    let mut out = sink(alloc, ROOM, PIECE, NONE_FAILS)?;
    let mut err = sink(alloc, ROOM, PIECE, NONE_FAILS)?;
    run_on(alloc, words, &mut files, &mut out, &mut err)
}

/// Runs `check` on a source.
pub fn check(alloc: Global, source: &str) -> Result<Given, Fail> {
    run(alloc, "check a.c", source.as_bytes(), b"")
}

/// Runs `prove` on a source.
pub fn prove(alloc: Global, source: &str) -> Result<Given, Fail> {
    run(alloc, "prove a.c", source.as_bytes(), b"")
}

/// Runs `verify` on a source and a text.
pub fn verify(alloc: Global, source: &str, text: &str) -> Result<Given, Fail> {
    run(alloc, "verify a.c t", source.as_bytes(), text.as_bytes())
}

/// What the call returns for these words on a source named `a.c` and a text named `t`.
pub fn report(alloc: Global, words: &str, source: &str, text: &str) -> Result<Report, Fail> {
    let mut files = files(alloc, source.as_bytes(), text.as_bytes(), PIECE, NONE_FAILS)?;
    let mut out = sink(alloc, ROOM, PIECE, NONE_FAILS)?;
    let mut err = sink(alloc, ROOM, PIECE, NONE_FAILS)?;
    call(alloc, words, &mut files, &mut out, &mut err)
}

fn call(
    alloc: Global,
    words: &str,
    files: &mut MemFiles,
    out: &mut MemSink,
    err: &mut MemSink,
) -> Result<Report, Fail> {
    let words = words_of(alloc, words)?;
    Ok(clouseau(alloc, &words, files, out, err))
}

/// Runs the words on files and outputs of the example's own.
pub fn run_on(
    alloc: Global,
    words: &str,
    files: &mut MemFiles,
    out: &mut MemSink,
    err: &mut MemSink,
) -> Result<Given, Fail> {
    let status = call(alloc, words, files, out, err)?.status;
    let out = text_of(alloc, out.given())?;
    let err = text_of(alloc, err.given())?;
    Ok(Given { status, out, err })
}

/// The run gave this status and these texts.
pub fn expect(rt: &impl Abort, given: &Given, status: u8, out: &str, err: &str) {
    assert_eq!(rt; given.out.as_str(), out);
    assert_eq!(rt; given.err.as_str(), err);
    assert_eq!(rt; given.status, status);
}

/// The words of a line, with a blank between two of them; the empty line has none.
fn words_of(alloc: Global, line: &str) -> Result<Words, AllocError> {
    let mut items = Vec::new(alloc);
    if !line.is_empty() {
        for word in line.split(' ') {
            items.push(String::from_str(alloc, word)?)?;
        }
    }
    Ok(Words { items })
}

fn text_of(alloc: Global, bytes: &[u8]) -> Result<String, Fail> {
    match str::from_utf8(bytes) {
        Ok(text) => Ok(String::from_str(alloc, text)?),
        Err(_) => Err(Fail::from("no text")),
    }
}

/// The files `a.c` and `t`, which pass so many bytes in a call and fail at the call of that number.
pub fn files(
    alloc: Global,
    source: &[u8],
    text: &[u8],
    piece: usize,
    failing: u32,
) -> Result<MemFiles, AllocError>
    requires { 0 < piece }
{
    let mut items = Vec::new(alloc);
    items.push(file(alloc, b"a.c", source)?)?;
    items.push(file(alloc, b"t", text)?)?;
    let failing = number(alloc, failing)?;
    Ok(MemFiles::new(NamedFiles { items }, piece, failing))
}

fn file(alloc: Global, name: &[u8], content: &[u8]) -> Result<NamedFile, AllocError> {
    let name = bytes(alloc, name)?;
    let bytes = bytes(alloc, content)?;
    Ok(NamedFile { name, bytes })
}

/// An output that takes so many bytes in all and in a call, and fails at the call of that number.
pub fn sink(alloc: Global, room: usize, piece: usize, failing: u32) -> Result<MemSink, Fail>
    requires { 0 < piece }
{
    let failing = number(alloc, failing)?;
    Ok(MemSink::new(alloc, room, piece, failing)?)
}

fn bytes(alloc: Global, bytes: &[u8]) -> Result<Bytes, AllocError> {
    let items = Vec::from_slice(alloc, bytes)?;
    Ok(Bytes { items })
}

fn number(alloc: Global, number: u32) -> Result<Numbers, AllocError> {
    let mut items = Vec::new(alloc);
    items.push(number)?;
    Ok(Numbers { items })
}
