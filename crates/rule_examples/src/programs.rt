// Programs of sources.
ghost use Rattle.std.specs.Prelude.{◌≡◌, ◌<◌, length, nat_lt};

use example_sources::MOST_BYTES;
use source_program::load_source;
use std::alloc::Global;
use std::test::Fail;
use transfer_rules::Program;

/// The program of a source that breaks no rule and is within the limits.
pub fn program_of(alloc: Global, source: &str) -> Result<Program, Fail> {
    if source.len() > MOST_BYTES {
        return Err(Fail::from("too long"));
    }
    Ok(load_source(alloc, source.as_bytes())?)
}

/// Whether there is a group of this number.
pub fn has_group(program: &Program, group: u32) -> bool
    ensures { result ≡ nat_lt group (length program.now.groups) }
{
    (group as usize) < program.groups.items.len()
}
