// Texts that are said to be derivations.
use crate::harness::{expect, verify};
use crate::texts::{Altered, FREED, LEAK, LEAK_TEXT, MADE, MADE_TEXT, verify_all};
use std::test::Fail;

/// Of the derivation of `LEAK`.
const OF_LEAK: [Altered; 17] = [
    Altered(1, 0, "", "valid\n"),
    // A resolvent with a literal left out.
    Altered(4, 1, "r 0 1 2 :\n", "invalid line 4: Resolvent\n"),
    // A clause in the other sign.
    Altered(2, 1, "a 0 4 0 2 0 0 0 0 : -4\n", "invalid line 2: Axiom\n"),
    // The last line is that of the group, and there is no line at all.
    Altered(7, 2, "end 5\n", "invalid line 7: NoRefutation\n"),
    Altered(2, 7, "end 0\n", "invalid line 2: NoRefutation\n"),
    // A line that is not earlier, a group and an unknown that are not there.
    Altered(2, 7, "r 0 1 1 :\nend 1\n", "invalid line 2: Range\n"),
    Altered(2, 1, "a 2 4 0 2 0 0 0 0 : 4\n", "invalid line 2: Range\n"),
    Altered(2, 1, "a 0 4 0 2 0 0 0 0 : 7\n", "invalid line 2: Range\n"),
    // A site that is not there, and a line that speaks of a place.
    Altered(7, 1, "i 1 5 1 :\n", "invalid line 7: Inst\n"),
    Altered(7, 1, "i 1 3 0 :\n", "invalid line 7: Inst\n"),
    // Another count, no last line, and something after it.
    Altered(8, 1, "end 7\n", "invalid line 8: Form\n"),
    Altered(8, 1, "", "invalid line 8: Form\n"),
    Altered(8, 1, "end 6\n\n", "invalid line 9: Form\n"),
    // Literals that do not ascend, a blank too many before one, and one at the end of a line.
    Altered(
        3,
        1,
        "a 0 21 0 3 0 0 0 0 : 6 -4\n",
        "invalid line 3: Form\n",
    ),
    Altered(
        3,
        1,
        "a 0 21 0 3 0 0 0 0 :  -4 6\n",
        "invalid line 3: Form\n",
    ),
    Altered(6, 1, "r 0 3 4 : \n", "invalid line 6: Form\n"),
    // Another version, which is read as a certificate.
    Altered(1, 1, "clouseau derivation 2\n", "invalid line 1: Form\n"),
];

/// Of that of `MADE`.
const OF_MADE: [Altered; 13] = [
    Altered(1, 0, "", "valid\n"),
    // Groups, lines and unknowns that are not there.
    Altered(2, 1, "a 3 4 0 2 0 0 0 0 : 8\n", "invalid line 2: Range\n"),
    Altered(4, 1, "r 0 1 4 : 10 11\n", "invalid line 4: Range\n"),
    Altered(16, 1, "i 3 14 1 :\n", "invalid line 16: Range\n"),
    Altered(16, 1, "i 2 14 1 : 2\n", "invalid line 16: Range\n"),
    // A name of the other group, and a literal left out.
    Altered(2, 1, "a 1 4 0 2 0 0 0 0 : 7\n", "invalid line 2: Axiom\n"),
    Altered(
        3,
        1,
        "a 0 2 0 3 0 1 0 0 : 10 11\n",
        "invalid line 3: Axiom\n",
    ),
    // A line of the other group, and one line twice.
    Altered(11, 1, "r 1 7 9 : 5\n", "invalid line 11: Resolvent\n"),
    Altered(4, 1, "r 0 1 1 : 8\n", "invalid line 4: Resolvent\n"),
    // A site that is not there, a line that speaks of a place, another clause, and a line of a group that is not called.
    Altered(9, 1, "i 1 7 1 : 1\n", "invalid line 9: Inst\n"),
    Altered(9, 1, "i 1 5 0 : 1\n", "invalid line 9: Inst\n"),
    Altered(9, 1, "i 1 7 0 : 2\n", "invalid line 9: Inst\n"),
    Altered(16, 1, "i 2 7 1 : 1\n", "invalid line 16: Inst\n"),
];

#[test]
fn of_a_leak(rt: HostRuntime) -> Result<(), Fail> {
    verify_all(&rt, rt.alloc(), LEAK, LEAK_TEXT, &OF_LEAK)
}

#[test]
fn over_a_call(rt: HostRuntime) -> Result<(), Fail> {
    verify_all(&rt, rt.alloc(), MADE, MADE_TEXT, &OF_MADE)
}

/// A source, the derivation of another, and the first line that is wrong there.
struct Mistaken(&'static str, &'static str, &'static str);

const MISTAKEN: [Mistaken; 3] = [
    // The allocation is the same, and then the object is freed: it does not stay as it was.
    Mistaken(FREED, LEAK_TEXT, "invalid line 3: Axiom\n"),
    // There are six unknowns.
    Mistaken(LEAK, MADE_TEXT, "invalid line 2: Range\n"),
    // Another unknown says that it owns.
    Mistaken(MADE, LEAK_TEXT, "invalid line 2: Axiom\n"),
];

#[test]
fn derivations_of_other_sources(rt: HostRuntime) -> Result<(), Fail> {
    for row in &MISTAKEN {
        let given = verify(rt.alloc(), row.0, row.1)?;
        expect(&rt, &given, 1, row.2, "");
    }
    Ok(())
}
