// Programs of sources.
use example_sources::MOST_BYTES;
use source_program::load_source;
use std::alloc::Global;
use std::test::Fail;
use transfer_rules::Program;

/// The program of a source that breaks no rule and is within the limits.
pub fn program_of(alloc: Global, source: &[u8]) -> Result<Program, Fail> {
    if source.len() > MOST_BYTES {
        return Err(Fail::from("too long"));
    }
    Ok(load_source(alloc, source)?)
}
