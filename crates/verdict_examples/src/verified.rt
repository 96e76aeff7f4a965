// Texts that are said to be certificates.
use crate::harness::{expect, verify};
use crate::texts::{
    Altered, FREED, FREED_SECOND, FREED_TEXT, HANDED, HANDED_SECOND, HANDED_TEXT, LEAK, status_of,
    verify_all,
};
use std::test::Fail;

/// Of the first version of that of `FREED`.
const OF_FREED: [Altered; 8] = [
    Altered(1, 0, "", "valid\n"),
    // It owns what it has freed.
    Altered(10, 1, "place 0 4 1\n", "invalid line 10: Broken\n"),
    // It does not own what it has made.
    Altered(9, 1, "place 0 3 0\n", "invalid line 9: Broken\n"),
    // The last line is missing.
    Altered(13, 1, "", "invalid line 13: Form\n"),
    // There is one group.
    Altered(3, 1, "instance 1 0\n", "invalid line 3: Range\n"),
    // Another count.
    Altered(13, 1, "end 2\n", "invalid line 13: Form\n"),
    // Something after the last line.
    Altered(13, 1, "end 1\nend 1\n", "invalid line 14: Form\n"),
    // Another version.
    Altered(1, 1, "clouseau certificate 3\n", "invalid line 1: Form\n"),
];

/// Of the first version of that of `HANDED`.
const OF_HANDED: [Altered; 13] = [
    Altered(1, 0, "", "valid\n"),
    // The result owns, and the interface says not.
    Altered(4, 1, "iface 10\n", "invalid line 8: Broken\n"),
    // A site that names its own instance, and one that names none.
    Altered(11, 1, "sites 1\n", "invalid line 11: Site\n"),
    Altered(11, 1, "sites 2\n", "invalid line 11: Site\n"),
    // Without the instance that the site names; its number is that of the instance of `main` then.
    Altered(
        3,
        19,
        "instance 1 1\niface\nsites 0\nplace 1 0 00\nplace 1 1 00\nplace 1 2 00\nplace 1 3 01\nplace 1 4 10\nplace 1 5 10\nplace 1 6 00\nplace 1 7 00\nplace 1 8 00\nend 1\n",
        "invalid line 5: Site\n",
    ),
    // A site less, a bit more, a bit less.
    Altered(11, 1, "sites\n", "invalid line 11: Range\n"),
    Altered(2, 1, "phi 1\n", "invalid line 2: Range\n"),
    Altered(4, 1, "iface 1\n", "invalid line 4: Range\n"),
    // The entry is in the other group.
    Altered(3, 1, "instance 0 1\n", "invalid line 3: Range\n"),
    // A place is missing.
    Altered(8, 1, "", "invalid line 8: Range\n"),
    // An instance twice, in the place of that of `main`.
    Altered(
        9,
        12,
        "instance 0 0\niface 11\nsites\nplace 0 0 10\nplace 0 1 10\nplace 0 2 01\n",
        "invalid line 10: Twice\n",
    ),
    // No instance of `main`, and none at all.
    Altered(9, 13, "end 1\n", "invalid line 9: Missing\n"),
    Altered(3, 19, "end 0\n", "invalid line 3: Missing\n"),
];

/// Of the second version of that of `HANDED`.
const OF_SECOND: [Altered; 18] = [
    Altered(1, 0, "", "valid\n"),
    // The result owns, and the interface says not.
    Altered(4, 1, "iface 10\n", "invalid line 7: Broken\n"),
    // It owns what it has given away.
    Altered(12, 1, "places 1 3 3 11\n", "invalid line 12: Broken\n"),
    // Lines that would be one.
    Altered(
        6,
        1,
        "places 0 0 0 10\nplaces 0 1 1 10\n",
        "invalid line 7: Form\n",
    ),
    Altered(13, 1, "places 1 4 5 00\n", "invalid line 14: Form\n"),
    // The last place comes before the first.
    Altered(13, 1, "places 1 5 4 10\n", "invalid line 13: Form\n"),
    // The line of the first version.
    Altered(7, 1, "place 0 2 01\n", "invalid line 7: Form\n"),
    // A place is missing, one is there again, and one too many.
    Altered(6, 1, "places 0 0 0 10\n", "invalid line 7: Range\n"),
    Altered(
        7,
        1,
        "places 0 1 1 10\nplaces 0 2 2 01\n",
        "invalid line 7: Range\n",
    ),
    Altered(14, 1, "places 1 6 9 00\n", "invalid line 14: Range\n"),
    // The last places are missing.
    Altered(14, 1, "", "invalid line 14: Range\n"),
    // A bit less.
    Altered(7, 1, "places 0 2 2 0\n", "invalid line 7: Range\n"),
    // A field that is not there, and a group.
    Altered(2, 1, "phi 0\n", "invalid line 2: Range\n"),
    Altered(8, 1, "instance 2 1\n", "invalid line 8: Range\n"),
    // A site that names its own instance.
    Altered(10, 1, "sites 1\n", "invalid line 10: Site\n"),
    // An instance twice, in the place of that of `main`.
    Altered(
        8,
        7,
        "instance 0 0\niface 11\nsites\nplaces 0 0 1 10\nplaces 0 2 2 01\n",
        "invalid line 9: Twice\n",
    ),
    // No instance of `main`.
    Altered(8, 8, "end 1\n", "invalid line 8: Missing\n"),
    // Another count.
    Altered(15, 1, "end 3\n", "invalid line 15: Form\n"),
];

#[test]
fn of_freed(rt: HostRuntime) -> Result<(), Fail> {
    verify_all(&rt, rt.alloc(), FREED, FREED_TEXT, &OF_FREED)
}

#[test]
fn of_handed(rt: HostRuntime) -> Result<(), Fail> {
    verify_all(&rt, rt.alloc(), HANDED, HANDED_TEXT, &OF_HANDED)
}

#[test]
fn of_second(rt: HostRuntime) -> Result<(), Fail> {
    verify_all(&rt, rt.alloc(), HANDED, HANDED_SECOND, &OF_SECOND)
}

/// A source, a text, and what is said of it.
struct Shown(&'static str, &'static str, &'static str);

const SHOWN: [Shown; 8] = [
    Shown(FREED, FREED_SECOND, "valid\n"),
    // Certificates of other sources. The leak owns after the allocation, at place 3, and so at its exit, which is place 5.
    Shown(LEAK, FREED_TEXT, "invalid line 11: Broken\n"),
    Shown(HANDED, FREED_TEXT, "invalid line 4: Range\n"),
    Shown(FREED, HANDED_TEXT, "invalid line 4: Range\n"),
    // What is no certificate at all.
    Shown(FREED, "", "invalid line 1: Form\n"),
    Shown(FREED, "\n", "invalid line 1: Form\n"),
    Shown(
        FREED,
        "accepted\nproc main() -> int\n  local p:2 owns\n",
        "invalid line 1: Form\n",
    ),
    Shown(
        FREED,
        "clouseau certificate 1\r\nphi\r\n",
        "invalid line 1: Form\n",
    ),
];

#[test]
fn other_texts(rt: HostRuntime) -> Result<(), Fail> {
    for row in &SHOWN {
        let given = verify(rt.alloc(), row.0, row.1)?;
        expect(&rt, &given, status_of(row.2), row.2, "");
    }
    Ok(())
}
