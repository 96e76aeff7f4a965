// Runs of the top call over files in memory.
use crate::Stopped;
use clouseau_core::{Words, clouseau};
use io_edge::{Bytes, MemFiles, MemSink, NamedFile, NamedFiles, Numbers};
use std::alloc::{AllocError, Global};

/// The most bytes of a text.
const ROOM: usize = 1_048_576;

/// How many bytes pass in one call.
const PIECE: usize = 4_096;

/// What a run told: its status, and what it wrote on `out` and then on `err`.
#[derive(Drop)]
pub(crate) struct Told {
    pub status: u8,
    pub text: Vec<u8>,
}

/// Asks by words of a source and a text, which has the name `text`.
pub(crate) fn ask_of(
    alloc: Global,
    words: &[&str],
    name: &str,
    source: &[u8],
    text: &[u8],
) -> Result<Told, Stopped> {
    match ask(alloc, words, name, source, text) {
        Ok(told) => Ok(told),
        Err(_) => Err(Stopped),
    }
}

fn ask(
    alloc: Global,
    words: &[&str],
    name: &str,
    source: &[u8],
    text: &[u8],
) -> Result<Told, AllocError> {
    let words = words_of(alloc, words)?;
    let mut files = files_of(alloc, name, source, text)?;
    let mut out = sink(alloc)?;
    let mut err = sink(alloc)?;
    let report = clouseau(alloc, &words, &mut files, &mut out, &mut err);
    let mut text = Vec::from_slice(alloc, out.given())?;
    text.extend_from_slice(err.given())?;
    Ok(Told {
        status: report.status,
        text,
    })
}

fn words_of(alloc: Global, words: &[&str]) -> Result<Words, AllocError> {
    let mut items = Vec::new(alloc);
    for word in words {
        items.push(String::from_str(alloc, word)?)?;
    }
    Ok(Words { items })
}

fn files_of(alloc: Global, name: &str, source: &[u8], text: &[u8]) -> Result<MemFiles, AllocError> {
    let mut items = Vec::new(alloc);
    items.push(file(alloc, name, source)?)?;
    items.push(file(alloc, "text", text)?)?;
    Ok(MemFiles::new(NamedFiles { items }, PIECE, none(alloc)))
}

fn file(alloc: Global, name: &str, content: &[u8]) -> Result<NamedFile, AllocError> {
    let name = Bytes {
        items: Vec::from_slice(alloc, name.as_bytes())?,
    };
    let bytes = Bytes {
        items: Vec::from_slice(alloc, content)?,
    };
    Ok(NamedFile { name, bytes })
}

fn sink(alloc: Global) -> Result<MemSink, AllocError> {
    match MemSink::new(alloc, ROOM, PIECE, none(alloc)) {
        Ok(sink) => Ok(sink),
        Err(_) => Err(AllocError),
    }
}

/// No call fails.
fn none(alloc: Global) -> Numbers {
    Numbers {
        items: Vec::new(alloc),
    }
}
