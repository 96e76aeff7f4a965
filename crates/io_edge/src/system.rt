ghost use Rattle.std.specs.Prelude.{◌≡◌, None};
ghost use Rattle.io_edge.specs.Held.{Untold};

use crate::{Failed, Files, Sink};
use std::fs;
use std::io::{Read, Write};

/// The files of the system, by their paths. Nothing is told about their bytes, and each error of
/// the system is a fault.
#[derive(Drop)]
pub struct StdFiles<'r, R: std::rt::Files> {
    rt: &'r R,
    open: Option<R::File>,
    faults: u64,
}

impl<'r, R: std::rt::Files> StdFiles<'r, R> {
    /// The files that the runtime reaches, none of them open and no fault counted. Takes no memory.
    pub fn new(rt: &'r R) -> StdFiles<'r, R>
        ensures { ⟦<StdFiles<'r, R> as Files>⟧.faults result ≡ 0 }
    {
        StdFiles {
            rt,
            open: None,
            faults: 0,
        }
    }
}

impl<'r, R: std::rt::Files> Files for StdFiles<'r, R> {
    ghost held = { λ _ _. Untold };

    ghost left = { λ _. None };

    ghost faults = { λ s. s.faults };

    fn open(&mut self, name: &str) -> Result<(), Failed> {
        self.open = None;
        match fs::open(self.rt, name) {
            Ok(file) => {
                self.open = Some(file);
                Ok(())
            }
            Err(_) => {
                self.faults = self.faults.saturating_add(1);
                Err(Failed)
            }
        }
    }

    fn next(&mut self, into: &mut [u8]) -> Result<usize, Failed> {
        let Some(file) = &mut self.open else {
            return Ok(0);
        };
        match file.read(into) {
            Ok(n) => Ok(n),
            Err(_) => {
                self.faults = self.faults.saturating_add(1);
                Err(Failed)
            }
        }
    }
}

/// A writer as a sink. Nothing is told about its bytes. Each error of the writer is a fault, and so
/// is a call in which it takes nothing. The writer is never flushed, so it should keep no bytes
/// back.
#[derive(Drop)]
pub struct StdSink<W: Write + Drop> {
    writer: W,
    faults: u64,
}

impl<W: Write + Drop> StdSink<W> {
    /// The sink that gives its bytes to `writer`, with no fault counted. Takes no memory.
    pub fn new(writer: W) -> StdSink<W>
        ensures { ⟦<StdSink<W> as Sink>⟧.faults result ≡ 0 }
    {
        StdSink { writer, faults: 0 }
    }
}

impl<W: Write + Drop> Sink for StdSink<W> {
    ghost given = { λ _. None };

    ghost faults = { λ s. s.faults };

    fn put(&mut self, bytes: &[u8]) -> Result<usize, Failed> {
        match self.writer.write(bytes) {
            Ok(n) if n > 0 => Ok(n),
            _ => {
                self.faults = self.faults.saturating_add(1);
                Err(Failed)
            }
        }
    }
}
