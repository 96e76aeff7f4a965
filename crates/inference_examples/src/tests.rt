// Scopes that leave names of a conflict out, the scope of those that it uses, and lines that an earlier answer gave.
use crate::answers::{AMPLE, Verdict, used_names, verdict_in, verdict_on, verdicts_in_turn};
use crate::sources::{
    APART, CONFLICTS, FREED_BY_CALL, FREED_TWICE, HANDED, LEAK, LOST_AFTER_TWO_CALLS, OVERWRITTEN,
    THREE_FIELDS,
};
use conflict_proof::{ConstraintName, Names};
use example_sources::{CONSTRUCTOR, JOIN, KEPT_CYCLE, LIST, MUTUAL, TWICE};
use std::alloc::{AllocError, Global};
use std::process::Abort;
use std::test::Fail;
use transfer_rules::Scope;

// Names are told by their procedure, place, rule and slot, and what else they speak of.

/// The new object has an owner, and at the exit there is none.
const OF_LEAK: &str = "0 2 4 0 0
0 5 17 0 0
";

/// After the first free there is no owner, and before the second there is.
const OF_FREED_TWICE: &str = "0 3 8 0 0
0 4 6 0 0
";

/// The first object has an owner, which does not own where it is set again.
const OF_OVERWRITTEN: &str = "0 2 4 0 0
0 3 1 0 0
";

/// In `drop` the parameter owns at the free, and does so where the interface says so. In `main` the argument does so too, is a copy of
/// the variable, and that owns at the free.
const OF_FREED_BY_CALL: &str = "0 0 15 0 0
0 1 6 0 0
1 3 12 2 1
1 4 2 2 0
1 5 6 0 0
";

/// A source in conflict, and names that can't be met together.
struct Needed(&'static str, &'static str);

const NEEDED: [Needed; 4] = [
    Needed(LEAK, OF_LEAK),
    Needed(FREED_TWICE, OF_FREED_TWICE),
    Needed(OVERWRITTEN, OF_OVERWRITTEN),
    Needed(FREED_BY_CALL, OF_FREED_BY_CALL),
];

/// The name that is less than every constraint's.
const FIRST: ConstraintName = ConstraintName {
    proc: 0,
    place: 0,
    edge: 0,
    rule: 0,
    slot: 0,
    field: 0,
    other: 0,
};

/// A name that is greater than those of all programs here.
const LAST: ConstraintName = ConstraintName {
    proc: u32::MAX,
    place: 0,
    edge: 0,
    rule: 0,
    slot: 0,
    field: 0,
    other: 0,
};

fn names_of(alloc: Global, names: &[ConstraintName]) -> Result<Names, AllocError> {
    let items = names.to_vec(alloc)?;
    Ok(Names { items })
}

/// The scope of all names but these.
fn all_but(alloc: Global, names: &[ConstraintName]) -> Result<Scope, AllocError> {
    let keep = names_of(alloc, &[])?;
    let without = names_of(alloc, names)?;
    Ok(Scope {
        keep,
        after: FIRST,
        without,
    })
}

/// The scope of these names alone.
fn only(alloc: Global, names: &[ConstraintName]) -> Result<Scope, AllocError> {
    let keep = names_of(alloc, names)?;
    let without = names_of(alloc, &[])?;
    Ok(Scope {
        keep,
        after: LAST,
        without,
    })
}

/// The text of a name.
fn text_of(alloc: Global, name: &ConstraintName) -> Result<String, AllocError> {
    format!(in alloc;
        "{} {} {} {} {}",
        name.proc, name.place, name.rule, name.slot, name.other
    )
}

/// The one of these names that has a text.
fn named(alloc: Global, names: &Names, text: &str) -> Result<ConstraintName, Fail> {
    for name in &names.items {
        if text_of(alloc, name)?.as_str() == text {
            return Ok(*name);
        }
    }
    Err(Fail::from("a name that is not used"))
}

/// The ones that have the texts of these lines.
fn all_named(alloc: Global, names: &Names, texts: &str) -> Result<Vec<ConstraintName>, Fail> {
    let mut found = Vec::new(alloc);
    for text in texts.lines() {
        found.push(named(alloc, names, text)?)?;
    }
    Ok(found)
}

/// Of a leak there are no others, so the names are these, in order.
#[test]
fn names_of_a_leak(rt: HostRuntime) -> Result<(), Fail> {
    let used = used_names(rt.alloc(), LEAK)?;
    let mut texts = String::new(rt.alloc());
    for name in &used.items {
        let text = text_of(rt.alloc(), name)?;
        writeln!(texts, "{text}")?;
    }
    assert_eq!(&rt; texts.as_str(), OF_LEAK);
    Ok(())
}

/// These names are used, and the others can be met with one of them left out.
fn are_needed(rt: &impl Abort, alloc: Global, needed: &Needed) -> Result<(), Fail> {
    let used = used_names(alloc, needed.0)?;
    for text in needed.1.lines() {
        let name = named(alloc, &used, text)?;
        let scope = all_but(alloc, &[name])?;
        let found = verdict_in(alloc, needed.0, &scope)?;
        assert_eq!(rt; found, Verdict::Accepted, "without {text} in {}", needed.0);
    }
    Ok(())
}

#[test]
fn without_one_that_is_needed(rt: HostRuntime) -> Result<(), Fail> {
    for needed in &NEEDED {
        are_needed(&rt, rt.alloc(), needed)?;
    }
    Ok(())
}

/// These names can't be met by themselves, nor can those that the refutation uses.
fn do_suffice(rt: &impl Abort, alloc: Global, needed: &Needed) -> Result<(), Fail> {
    let used = used_names(alloc, needed.0)?;
    let scope = only(alloc, used.items.as_slice())?;
    let of_used = verdict_in(alloc, needed.0, &scope)?;
    assert_eq!(rt; of_used, Verdict::Refuted, "{}", needed.0);
    let names = all_named(alloc, &used, needed.1)?;
    let scope = only(alloc, names.as_slice())?;
    let of_needed = verdict_in(alloc, needed.0, &scope)?;
    assert_eq!(rt; of_needed, Verdict::Refuted, "{}", needed.0);
    Ok(())
}

#[test]
fn those_alone(rt: HostRuntime) -> Result<(), Fail> {
    for needed in &NEEDED {
        do_suffice(&rt, rt.alloc(), needed)?;
    }
    Ok(())
}

/// Sources in which the owners can be told.
const ACCEPTED: [&str; 8] = [
    HANDED,
    THREE_FIELDS,
    CONSTRUCTOR,
    JOIN,
    KEPT_CYCLE,
    LIST,
    MUTUAL,
    TWICE,
];

/// The three calls give this verdict where the scope is that of all names and no lines are known.
fn do_agree(rt: &impl Abort, alloc: Global, source: &str, expected: Verdict) -> Result<(), Fail> {
    let scope = all_but(alloc, &[])?;
    let plain = verdict_on(alloc, source)?;
    let scoped = verdict_in(alloc, source, &scope)?;
    let in_turn = verdicts_in_turn(alloc, source, AMPLE, AMPLE)?;
    assert_eq!(rt; plain, expected, "{source}");
    assert_eq!(rt; scoped, expected, "{source}");
    assert_eq!(rt; in_turn, [expected, expected], "{source}");
    Ok(())
}

#[test]
fn three_calls_agree(rt: HostRuntime) -> Result<(), Fail> {
    for source in ACCEPTED {
        do_agree(&rt, rt.alloc(), source, Verdict::Accepted)?;
    }
    for source in CONFLICTS {
        do_agree(&rt, rt.alloc(), source, Verdict::Refuted)?;
    }
    do_agree(&rt, rt.alloc(), LOST_AFTER_TWO_CALLS, Verdict::Refuted)?;
    do_agree(&rt, rt.alloc(), APART, Verdict::Refuted)
}

/// Among the lines of a refutation is one without literals, which is that of a group: the root's costs one word more.
#[test]
fn refuted_at_once(rt: HostRuntime) -> Result<(), Fail> {
    for source in CONFLICTS {
        let found = verdicts_in_turn(rt.alloc(), source, AMPLE, 1)?;
        assert_eq!(&rt; found, [Verdict::Refuted, Verdict::Refuted], "{source}");
    }
    let found = verdicts_in_turn(rt.alloc(), LOST_AFTER_TWO_CALLS, AMPLE, 1)?;
    assert_eq!(&rt; found, [Verdict::Refuted, Verdict::Refuted]);
    Ok(())
}

/// The one line that a word pays for is no refutation.
#[test]
fn a_line_of_little_use(rt: HostRuntime) -> Result<(), Fail> {
    for source in CONFLICTS {
        let found = verdicts_in_turn(rt.alloc(), source, 1, AMPLE)?;
        assert_eq!(&rt; found, [Verdict::Undecided, Verdict::Refuted], "{source}");
    }
    let found = verdicts_in_turn(rt.alloc(), THREE_FIELDS, 1, AMPLE)?;
    assert_eq!(&rt; found[1], Verdict::Accepted);
    Ok(())
}

/// The groups can be met one by one, so no known line is without literals: in the root two lines of one literal and the empty one are
/// wanted, 2 + 2 + 1 words, and four do not suffice.
#[test]
fn refuted_in_the_root(rt: HostRuntime) -> Result<(), Fail> {
    let found = verdicts_in_turn(rt.alloc(), APART, AMPLE, 4)?;
    assert_eq!(&rt; found, [Verdict::Refuted, Verdict::Undecided]);
    Ok(())
}
