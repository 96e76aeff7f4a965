// Names that a group has, with their clauses, and names that it does not have.
ghost use Rattle.std.specs.Prelude.{◌<◌, length};

use crate::programs::{has_group, program_of};
use crate::sources::{CALLED, FREED, HANDED};
use crate::texts::{push_found, read_name};
use std::alloc::Global;
use std::process::Abort;
use std::test::Fail;
use transfer_rules::Program;

/// What a group has of the names that lines begin with, a line each, as the lines are to be.
fn looked_up(alloc: Global, program: &Program, group: u32, lines: &str) -> Result<String, Fail>
    requires { group < length program.now.groups }
{
    let mut text = String::new(alloc);
    for line in lines.lines() {
        let name = read_name(line)?;
        push_found(alloc, &mut text, program, group, &name)?;
    }
    Ok(text)
}

/// Fails where a group of a source has other clauses of the names in these lines.
fn check(
    rt: &impl Abort,
    alloc: Global,
    source: &str,
    group: u32,
    lines: &str,
) -> Result<(), Fail> {
    let program = program_of(alloc, source)?;
    if !has_group(&program, group) {
        return Err(Fail::from("no such group"));
    }
    let text = looked_up(alloc, &program, group, lines)?;
    assert_eq!(rt; text.as_str(), lines, "in {source}");
    Ok(())
}

// Each part of a name by itself is no other name's.
#[test]
fn names_with_one_part_altered(rt: HostRuntime) -> Result<(), Fail> {
    const LINES: &str = " 0 2 0 4 0 0 0: 4
 0 2 0 22 0 0 0: none
 0 2 0 0 0 0 0: none
 0 2 0 6 0 0 0: none
 0 2 0 4 1 0 0: none
 0 2 0 4 2 0 0: none
 0 2 1 4 0 0 0: none
 0 2 2 4 0 0 0: none
 0 3 0 4 0 0 0: none
 0 7 0 4 0 0 0: none
 1 2 0 4 0 0 0: none
 0 2 0 4 0 1 0: none
 0 2 0 4 0 0 1: none
 0 6 1 17 0 0 0: none
 0 6 0 17 1 0 0: none
 0 5 0 17 0 0 0: none
 0 4 1 21 0 0 0: none
 0 3 0 21 0 0 0: none
 4294967295 4294967295 255 255 4294967295 4294967295 4294967295: none
 0 2 0 255 4294967295 4294967295 4294967295: none
 0 2 0 21 4294967295 4294967295 4294967295: none
 0 2 0 20 0 4294967295 4294967295: none
";
    check(&rt, rt.alloc(), FREED, 0, LINES)
}

// A name of one group is none of another.
#[test]
fn names_of_another_group(rt: HostRuntime) -> Result<(), Fail> {
    const LINES: &str = " 1 3 0 12 2 0 1: 1 -10; -1 10
 1 3 0 13 0 0 0: 2 -13; -2 13
 0 0 0 15 0 0 0: none
 1 0 0 15 0 0 0: none
 1 3 0 12 0 0 1: none
 1 3 0 12 2 0 0: none
 1 3 0 12 2 0 2: none
 1 3 0 13 2 0 0: none
 1 3 0 21 0 0 0: none
 1 3 0 21 2 0 0: none
";
    check(&rt, rt.alloc(), HANDED, 1, LINES)
}

// The body takes the argument; the integer before it has a number, and the NULL after it is no live argument. The base that is
// Fresh is not sealed, nor is it one of two bases. What arguments own and have open may change.
#[test]
fn call_of_a_body(rt: HostRuntime) -> Result<(), Fail> {
    const LINES: &str = " 1 7 0 12 5 0 2: 2 -80; -2 80
 1 7 0 12 6 0 3: none
 1 7 0 12 4 0 1: none
 1 7 0 12 5 0 1: none
 1 7 0 14 0 1 0: 74 -75; 1 -75; 2 -75
 1 7 0 14 1 1 0: 76 -77; 1 -77; 2 -77
 1 7 0 14 5 1 0: -81
 1 7 0 14 2 1 0: none
 1 7 0 14 6 1 0: none
 1 7 0 14 4 1 0: none
 1 7 0 14 0 0 0: none
 1 7 0 14 0 2 0: none
 1 7 0 20 5 1 6: -81 -83
 1 7 0 20 0 1 2: none
 1 7 0 20 6 1 5: none
 1 7 0 20 5 1 5: none
 1 7 0 20 5 1 7: none
 1 7 0 21 0 0 0: -74 124; 74 -124
 1 7 0 21 2 1 0: -79 129; 79 -129
 1 7 0 21 5 0 0: none
 1 7 0 21 5 1 0: none
";
    check(&rt, rt.alloc(), CALLED, 1, LINES)
}

// The external procedure takes nothing.
#[test]
fn call_of_an_external_procedure(rt: HostRuntime) -> Result<(), Fail> {
    const LINES: &str = " 1 11 0 12 5 0 2: -120
 1 11 0 12 6 0 3: -122
 1 11 0 12 4 0 1: none
 1 11 0 13 0 0 0: none
 1 11 0 14 0 1 0: 114 -115; 1 -115; -115; -115
 1 11 0 14 2 1 0: 118 -119; 1 -119; -119; -119
 1 11 0 14 5 1 0: -121
 1 11 0 14 6 1 0: -123
";
    check(&rt, rt.alloc(), CALLED, 1, LINES)
}

// The field may close where it is null, and where null is written to it; it may open where it is read.
#[test]
fn field_that_is_read(rt: HostRuntime) -> Result<(), Fail> {
    const SOURCE: &str = "
struct node { int v; struct node *next; };
int main(void) {
  struct node *a = malloc(sizeof(struct node));
  struct node *b = NULL;
  if (a->next == NULL) a->next = b;
  b = a->next;
  return 0;
}";
    const LINES: &str = " 0 5 0 21 0 0 0: -22 26; 22 -26
 0 5 0 21 0 1 0: none
 0 5 1 21 0 0 0: -22 30; 22 -30
 0 5 1 21 0 1 0: -23 31; 23 -31
 0 5 2 21 0 0 0: none
 0 6 0 10 0 1 0: 1 -27; -1 27
 0 6 0 11 1 1 0: none
 0 6 0 21 0 0 0: -26 30; 26 -30
 0 6 0 21 0 1 0: none
 0 6 0 21 1 0 0: none
 0 7 0 1 1 0 0: none
 0 7 0 3 1 1 0: -37
 0 7 0 9 1 1 0: -31 -36; 35 -36; -31 35; 31 -35 36
 0 7 0 9 1 1 1: none
 0 7 0 19 1 1 0: 1 -33
 0 7 0 20 0 1 1: none
 0 7 0 21 0 0 0: -30 34; 30 -34
 0 7 0 21 0 1 0: none
 0 7 0 21 1 0 0: none
 0 7 0 21 1 1 0: none
";
    check(&rt, rt.alloc(), SOURCE, 0, LINES)
}

/// Actions on structs with two pointer fields.
const PAIRS: &str = "
struct pair { struct pair *l; struct pair *r; };
struct pair *same(struct pair *p) { return p; }
int main(void) {
  struct pair *a = malloc(sizeof(struct pair));
  struct pair *b = malloc(sizeof(struct pair));
  if (a->l == NULL) a->l = b;
  b = a->l;
  b = same(a);
  a = malloc(sizeof(struct pair));
  return 0;
}";

// At a test of the field l it may close where it is null, and r may not.
#[test]
fn test_of_one_field(rt: HostRuntime) -> Result<(), Fail> {
    const LINES: &str = " 1 5 0 21 0 0 0: -50 59; 50 -59
 1 5 0 21 0 1 0: none
 1 5 0 21 0 2 0: -52 61; 52 -61
 1 5 0 21 1 0 0: -53 62; 53 -62
 1 5 0 21 1 1 0: -54 63; 54 -63
 1 5 0 21 1 2 0: -55 64; 55 -64
 1 5 0 21 3 0 0: none
 1 5 1 21 0 0 0: -50 68; 50 -68
 1 5 1 21 0 1 0: -51 69; 51 -69
 1 5 1 21 0 2 0: -52 70; 52 -70
 1 5 1 21 1 1 0: -54 72; 54 -72
";
    check(&rt, rt.alloc(), PAIRS, 1, LINES)
}

#[test]
fn store_to_one_field(rt: HostRuntime) -> Result<(), Fail> {
    const LINES: &str = " 1 6 0 10 0 1 0: 1 -60; -1 60
 1 6 0 10 0 2 0: none
 1 6 0 11 1 1 0: -1 62 -71; -1 69 -71; 1 -62 71; 1 -69 71; -62 -69 71; 1 -62 -69; 62 69 -71; -1 62 69
 1 6 0 11 1 2 0: none
 1 6 0 21 0 0 0: -59 68; 59 -68
 1 6 0 21 0 1 0: none
 1 6 0 21 0 2 0: -61 70; 61 -70
 1 6 0 21 1 0 0: none
 1 6 0 21 1 1 0: -63 72; 63 -72
 1 6 0 21 1 2 0: -64 73; 64 -73
";
    check(&rt, rt.alloc(), PAIRS, 1, LINES)
}

#[test]
fn load_of_one_field(rt: HostRuntime) -> Result<(), Fail> {
    const LINES: &str = " 1 7 0 1 1 0 0: -71
 1 7 0 1 1 1 0: -72
 1 7 0 1 1 2 0: -73
 1 7 0 1 0 0 0: none
 1 7 0 3 1 1 0: -90
 1 7 0 3 1 2 0: -91
 1 7 0 9 1 1 0: -69 -89; 87 -89; -69 87; 69 -87 89
 1 7 0 9 1 2 0: none
 1 7 0 20 0 1 1: none
 1 7 0 20 1 1 3: -72 -75
 1 7 0 21 0 0 0: -68 86; 68 -86
 1 7 0 21 0 1 0: none
 1 7 0 21 0 2 0: -70 88; 70 -88
 1 7 0 21 1 0 0: none
 1 7 0 21 1 1 0: none
 1 7 0 21 1 2 0: none
";
    check(&rt, rt.alloc(), PAIRS, 1, LINES)
}

// What is copied may lose the object, and keeps what it has open.
#[test]
fn copy_to_an_argument(rt: HostRuntime) -> Result<(), Fail> {
    const LINES: &str = " 1 9 0 1 3 0 0: none
 1 9 0 2 3 0 0: -77 -83; -83 86; -77 86; 77 83 -86
 1 9 0 3 3 1 0: -84
 1 9 0 3 3 2 0: -85
 1 9 0 21 0 0 0: none
 1 9 0 21 0 1 0: 78 -87; -78 87
 1 9 0 21 0 2 0: 79 -88; -79 88
 1 9 0 21 1 0 0: 80 -89; -80 89
 1 9 0 21 3 0 0: none
 1 9 0 21 3 1 0: none
";
    check(&rt, rt.alloc(), PAIRS, 1, LINES)
}

#[test]
fn call_with_a_result(rt: HostRuntime) -> Result<(), Fail> {
    const LINES: &str = " 1 8 0 1 1 0 0: -80
 1 8 0 1 1 1 0: -81
 1 8 0 1 1 2 0: -82
 1 8 0 3 1 1 0: -99
 1 8 0 3 1 2 0: -100
 1 8 0 12 3 0 1: 3 -83; -3 83
 1 8 0 13 1 0 0: 4 -98; -4 98
 1 8 0 14 0 1 0: 77 -78; 1 -78; 2 -78; 3 -78
 1 8 0 14 0 2 0: 77 -79; 1 -79; 2 -79; 3 -79
 1 8 0 14 1 1 0: 80 -81; 1 -81; 2 -81; 3 -81
 1 8 0 14 3 1 0: -84
 1 8 0 14 3 2 0: -85
 1 8 0 20 0 1 1: -78 -81
 1 8 0 20 0 2 3: -79 -85
 1 8 0 21 0 0 0: -77 95; 77 -95
 1 8 0 21 0 1 0: -78 96; 78 -96
 1 8 0 21 0 2 0: -79 97; 79 -97
 1 8 0 21 1 0 0: none
 1 8 0 21 1 1 0: none
 1 8 0 21 3 0 0: none
 1 8 0 21 3 1 0: none
";
    check(&rt, rt.alloc(), PAIRS, 1, LINES)
}

// The pointer that is overwritten may own nothing and have nothing open.
#[test]
fn new_object_in_place_of_another(rt: HostRuntime) -> Result<(), Fail> {
    const LINES: &str = " 1 10 0 1 0 0 0: -95
 1 10 0 1 0 1 0: -96
 1 10 0 1 0 2 0: -97
 1 10 0 3 0 1 0: none
 1 10 0 4 0 0 0: 104
 1 10 0 21 0 0 0: none
 1 10 0 21 0 1 0: none
 1 10 0 21 1 0 0: -98 107; 98 -107
 1 10 0 21 1 2 0: -100 109; 100 -109
";
    check(&rt, rt.alloc(), PAIRS, 1, LINES)
}

#[test]
fn text(rt: HostRuntime) -> Result<(), Fail> {
    const SOURCE: &str = "int main(void) { char *t = \"ab\"; return 0; }";
    const LINES: &str = " 0 1 0 21 0 0 0: none
 0 2 0 1 0 0 0: none
 0 2 0 5 0 0 0: -4
 0 2 0 21 0 0 0: none
";
    check(&rt, rt.alloc(), SOURCE, 0, LINES)
}

#[test]
fn null_in_place_of_an_object(rt: HostRuntime) -> Result<(), Fail> {
    const SOURCE: &str = "int main(void) { int *p; p = malloc(sizeof(int)); p = NULL; return 0; }";
    const LINES: &str = " 0 3 0 1 0 0 0: -4
 0 3 0 21 0 0 0: none
 0 6 0 17 0 0 0: none
";
    check(&rt, rt.alloc(), SOURCE, 0, LINES)
}

// Fields of two structs, 1 and 2 of the first and 3 of the second, and a slot of integers.
#[test]
fn field_of_another_struct(rt: HostRuntime) -> Result<(), Fail> {
    const SOURCE: &str =
        "struct a { int v; int *p; char *q; }; struct b { struct a *x; int n; }; int main(void) { struct b *s; s = NULL; return 0; }";
    const LINES: &str = " 0 0 0 19 0 3 0: 3 -5
 0 0 0 19 0 0 0: none
 0 0 0 19 0 1 0: none
 0 0 0 19 0 2 0: none
 0 0 0 19 0 4 0: none
 0 0 0 19 1 3 0: none
 0 0 1 19 0 3 0: none
";
    check(&rt, rt.alloc(), SOURCE, 0, LINES)
}
