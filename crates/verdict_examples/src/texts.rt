// Sources with a certificate or a derivation, and texts of which some lines are changed.
use crate::harness::{expect, verify};
use std::alloc::{AllocError, Global};
use std::process::Abort;
use std::test::Fail;

/// An object that is freed.
pub const FREED: &str =
    "int main(void) {\n  int *p;\n  p = malloc(sizeof(int));\n  free(p);\n  return 0;\n}";

/// Its certificate in the first version.
pub const FREED_TEXT: &str = "clouseau certificate 1
phi
instance 0 0
iface
sites
place 0 0 0
place 0 1 0
place 0 2 0
place 0 3 1
place 0 4 0
place 0 5 0
place 0 6 0
end 1
";

/// The same in the second version.
pub const FREED_SECOND: &str = "clouseau certificate 2
phi
instance 0 0
iface
sites
places 0 0 2 0
places 0 3 3 1
places 0 4 6 0
end 1
";

/// An object that is not freed.
pub const LEAK: &str = "int main(void) {\n  int *p;\n  p = malloc(sizeof(int));\n  return 0;\n}";

/// A derivation that refutes its rules, of 11 words.
pub const LEAK_TEXT: &str = "clouseau derivation 1
a 0 4 0 2 0 0 0 0 : 4
a 0 21 0 3 0 0 0 0 : -4 6
r 0 1 2 : 6
a 0 17 0 5 0 0 0 0 : -6
r 0 3 4 :
i 1 5 0 :
end 6
";

/// A pointer that is handed to a procedure and back.
pub const HANDED: &str =
    "int *id(int *p) { return p; } int main(void) { int *a; a = malloc(sizeof(int)); a = id(a); free(a); return 0; }";

/// Its certificate in the first version.
pub const HANDED_TEXT: &str = "clouseau certificate 1
phi
instance 0 0
iface 11
sites
place 0 0 10
place 0 1 10
place 0 2 01
instance 1 1
iface
sites 0
place 1 0 00
place 1 1 00
place 1 2 00
place 1 3 01
place 1 4 10
place 1 5 10
place 1 6 00
place 1 7 00
place 1 8 00
end 2
";

/// The same in the second version.
pub const HANDED_SECOND: &str = "clouseau certificate 2
phi
instance 0 0
iface 11
sites
places 0 0 1 10
places 0 2 2 01
instance 1 1
iface
sites 0
places 1 0 2 00
places 1 3 3 01
places 1 4 5 10
places 1 6 8 00
end 2
";

/// An object that `mk` hands out and `main` loses: a group of 11 unknowns, one of 7, and the root of one.
pub const MADE: &str =
    "int *mk(void) { int *p; p = malloc(sizeof(int)); return p; } int main(void) { int *q; q = mk(); return 0; }";

/// A derivation that refutes its rules. In `mk`, unknowns 8, 10 and 11 are that p owns after the allocation, and that p and the
/// result own at the exit; 1 is that `mk` gives ownership. In `main`, 1 is that the call gives it, and 5 and 7 that q owns after
/// the call and at the exit.
pub const MADE_TEXT: &str = "clouseau derivation 1
a 0 4 0 2 0 0 0 0 : 8
a 0 2 0 3 0 1 0 0 : -8 10 11
r 0 1 2 : 10 11
a 0 17 0 4 0 0 0 0 : -10
r 0 3 4 : 11
a 0 16 0 4 0 1 0 0 : 1 -11
r 0 5 6 : 1
i 1 7 0 : 1
a 1 13 1 2 0 0 0 0 : -1 5
r 1 8 9 : 5
a 1 21 1 3 0 0 0 0 : -5 7
r 1 10 11 : 7
a 1 17 1 5 0 0 0 0 : -7
r 1 12 13 :
i 2 14 1 :
end 15
";

/// An alteration of a text: the first line that is replaced, from 1, how many are, what stands there instead, and what `verify`
/// says of what comes of it.
pub struct Altered(pub usize, pub usize, pub &'static str, pub &'static str);

/// The text with lines replaced.
pub fn with_altered(alloc: Global, text: &str, altered: &Altered) -> Result<String, AllocError> {
    let Altered(from, count, with, _) = altered;
    let mut out = String::new(alloc);
    let mut number = 0usize;
    for line in text.lines() {
        number = number.wrapping_add(1);
        if number == *from {
            out.push_str(with)?;
        }
        if number < *from || number.wrapping_sub(*from) >= *count {
            push_line(&mut out, line)?;
        }
    }
    Ok(out)
}

/// The status that goes with what `verify` says of a text.
pub fn status_of(told: &str) -> u8 {
    if told == "valid\n" { 0 } else { 1 }
}

/// Each alteration of a text of that source is answered by `verify` as it says.
pub fn verify_all(
    rt: &impl Abort,
    alloc: Global,
    source: &str,
    text: &str,
    rows: &[Altered],
) -> Result<(), Fail> {
    for row in rows {
        let text = with_altered(alloc, text, row)?;
        let given = verify(alloc, source, text.as_str())?;
        expect(rt, &given, status_of(row.3), row.3, "");
    }
    Ok(())
}

/// The text without one of its lines, counted from 1.
pub fn without_line(alloc: Global, text: &str, which: usize) -> Result<String, AllocError> {
    let mut out = String::new(alloc);
    let mut number = 0usize;
    for line in text.lines() {
        number = number.wrapping_add(1);
        if number != which {
            push_line(&mut out, line)?;
        }
    }
    Ok(out)
}

/// The text with one of its lines twice.
pub fn with_line_twice(alloc: Global, text: &str, which: usize) -> Result<String, AllocError> {
    let mut out = String::new(alloc);
    let mut number = 0usize;
    for line in text.lines() {
        number = number.wrapping_add(1);
        if number == which {
            push_line(&mut out, line)?;
        }
        push_line(&mut out, line)?;
    }
    Ok(out)
}

/// So many of the first lines of the text.
pub fn first_lines(alloc: Global, text: &str, count: usize) -> Result<String, AllocError> {
    let mut out = String::new(alloc);
    for line in text.lines().take(count) {
        push_line(&mut out, line)?;
    }
    Ok(out)
}

fn push_line(out: &mut String, line: &str) -> Result<(), AllocError> {
    out.push_str(line)?;
    out.push_str("\n")
}
