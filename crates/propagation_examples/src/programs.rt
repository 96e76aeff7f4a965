// Programs of sources, and the scope of all names.
use conflict_proof::{ConstraintName, Names};
use example_sources::MOST_BYTES;
use source_program::load_source;
use std::alloc::Global;
use std::test::Fail;
use transfer_rules::{Program, Scope};

/// The program of a source that breaks no rule and is within the limits.
pub fn program_of(alloc: Global, source: &str) -> Result<Program, Fail> {
    if source.len() > MOST_BYTES {
        return Err(Fail::from("too long"));
    }
    Ok(load_source(alloc, source.as_bytes())?)
}

/// The scope of all names.
pub fn all_names(alloc: Global) -> Scope {
    let after = ConstraintName {
        proc: 0,
        place: 0,
        edge: 0,
        rule: 0,
        slot: 0,
        field: 0,
        other: 0,
    };
    Scope {
        keep: Names {
            items: Vec::new(alloc),
        },
        after,
        without: Names {
            items: Vec::new(alloc),
        },
    }
}
