// Whether some set holds an unknown in both signs.
use crate::programs::{all_names, program_of};
use crate::sources::{ACCEPTED, APART, LEAK, TWICE, TWO_BASES};
use std::alloc::Global;
use std::test::Fail;
use unit_answers::{Contradiction, closures, contradiction};

/// The first contradiction of a source.
fn first_of(alloc: Global, source: &str) -> Result<Option<Contradiction>, Fail> {
    let program = program_of(alloc, source)?;
    let scope = all_names(alloc);
    let sets = closures(alloc, &program, &scope)?;
    let found = contradiction(alloc, &sets)?;
    Ok(found)
}

#[test]
fn none_where_owners_can_be_told(rt: HostRuntime) -> Result<(), Fail> {
    for source in ACCEPTED {
        let found = first_of(rt.alloc(), source)?;
        assert!(rt; found.is_none(), "{source}");
    }
    Ok(())
}

// A leak, a second free, and a free of what two bases reach.
#[test]
fn some_where_none_can(rt: HostRuntime) -> Result<(), Fail> {
    for source in [LEAK, TWICE, TWO_BASES] {
        let found = first_of(rt.alloc(), source)?;
        assert!(rt; found.is_some(), "{source}");
    }
    Ok(())
}

// In the root alone: after what the first procedure gives comes that the field does not own.
#[test]
fn one_of_the_root(rt: HostRuntime) -> Result<(), Fail> {
    let found = first_of(rt.alloc(), APART)?;
    assert_eq!(rt; found, Some(Contradiction { group: 3, place: 2 }));
    Ok(())
}
