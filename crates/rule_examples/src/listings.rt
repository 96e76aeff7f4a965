// All names of a group in their order, each with its clauses.
ghost use Rattle.std.specs.Prelude.{◌<◌, length};

use crate::programs::{has_group, program_of};
use crate::sources::{CALLED, FREED, HANDED};
use crate::texts::push_found;
use example_sources::KEPT_CYCLE;
use std::alloc::Global;
use std::process::Abort;
use std::test::Fail;
use transfer_rules::{Program, names_of};

/// The constraints of a group, a line each.
fn listed(alloc: Global, program: &Program, group: u32) -> Result<String, Fail>
    requires { group < length program.now.groups }
{
    let names = names_of(alloc, program, group)?;
    let mut text = String::from_str(alloc, "\n")?;
    for name in &names.items {
        push_found(alloc, &mut text, program, group, name)?;
    }
    Ok(text)
}

/// Fails where the constraints of a group of a source are not these.
fn check(
    rt: &impl Abort,
    alloc: Global,
    source: &str,
    group: u32,
    lines: &str,
) -> Result<(), Fail> {
    let program = program_of(alloc, source)?;
    if !has_group(&program, group) {
        return Err(Fail::from("no such group"));
    }
    let text = listed(alloc, &program, group)?;
    assert_eq!(rt; text.as_str(), lines, "in {source}");
    Ok(())
}

#[test]
fn object_that_is_freed(rt: HostRuntime) -> Result<(), Fail> {
    const LINES: &str = "
 0 2 0 4 0 0 0: 4
 0 3 0 6 0 0 0: 4
 0 3 0 8 0 0 0: -5
 0 4 0 21 0 0 0: -5 7; 5 -7
 0 6 0 17 0 0 0: -7
";
    check(&rt, rt.alloc(), FREED, 0, LINES)
}

#[test]
fn object_that_is_lost(rt: HostRuntime) -> Result<(), Fail> {
    const SOURCE: &str = "int main(void) { int *p; p = malloc(sizeof(int)); return 0; }";
    const LINES: &str = "
 0 2 0 4 0 0 0: 4
 0 3 0 21 0 0 0: -4 6; 4 -6
 0 5 0 17 0 0 0: -6
";
    check(&rt, rt.alloc(), SOURCE, 0, LINES)
}

#[test]
fn procedure_that_hands_on(rt: HostRuntime) -> Result<(), Fail> {
    const LINES: &str = "
 0 0 0 15 0 0 0: 1 -3; -1 3
 0 0 0 21 0 0 0: -3 5; 3 -5
 0 1 0 2 1 0 0: -7 -8; 5 -8; 5 -7; -5 7 8
 0 2 0 16 1 0 0: 2 -8; -2 8
 0 2 0 17 0 0 0: -7
";
    check(&rt, rt.alloc(), HANDED, 0, LINES)
}

#[test]
fn caller_of_it(rt: HostRuntime) -> Result<(), Fail> {
    const LINES: &str = "
 1 2 0 4 0 0 0: 11
 1 3 0 1 0 0 0: -9
 1 3 0 12 2 0 1: 1 -10; -1 10
 1 3 0 13 0 0 0: 2 -13; -2 13
 1 4 0 2 2 0 0: -9 -10; -10 11; -9 11; 9 10 -11
 1 5 0 6 0 0 0: 13
 1 5 0 8 0 0 0: -15
 1 6 0 21 0 0 0: -15 19; 15 -19
 1 8 0 17 0 0 0: -19
";
    check(&rt, rt.alloc(), HANDED, 1, LINES)
}

#[test]
fn node_that_refers_to_itself(rt: HostRuntime) -> Result<(), Fail> {
    const LINES: &str = "
 0 0 0 19 0 1 0: 1 -3
 0 1 0 19 0 1 0: 1 -5
 0 2 0 4 0 0 0: 8
 0 2 0 19 0 1 0: 1 -7
 0 3 0 19 0 1 0: 1 -9
 0 3 1 21 0 0 0: -8 12; 8 -12
 0 3 1 21 0 1 0: -9 13; 9 -13
 0 4 0 19 0 1 0: 1 -11
 0 5 0 10 0 1 0: 1 -13; -1 13
 0 5 0 11 0 1 0: -1 12 -14; -1 -14 15; 1 -12 14; 1 14 -15; -12 14 -15; 1 -12 -15; 12 -14 15; -1 12 15
 0 5 0 19 0 1 0: 1 -13
 0 6 0 19 0 1 0: 1 -15
 0 6 0 21 0 0 0: -14 18; 14 -18
 0 6 0 21 0 1 0: -15 19; 15 -19
 0 7 0 19 0 1 0: 1 -17
 0 8 0 17 0 0 0: -18
 0 8 0 18 0 1 0: -19
 0 8 0 19 0 1 0: 1 -19
";
    check(&rt, rt.alloc(), KEPT_CYCLE, 0, LINES)
}

// Two bases of one type.
#[test]
fn object_that_two_refer_to(rt: HostRuntime) -> Result<(), Fail> {
    const SOURCE: &str = "
struct node { int v; struct node *next; };
int main(void) {
  struct node *a;
  struct node *b;
  a = malloc(sizeof(struct node));
  b = a;
  free(b);
  return 0;
}";
    const LINES: &str = "
 0 0 0 19 0 1 0: 1 -3
 0 0 0 19 1 1 0: 1 -5
 0 0 0 20 0 1 1: -3 -5
 0 1 0 19 0 1 0: 1 -7
 0 1 0 19 1 1 0: 1 -9
 0 1 0 20 0 1 1: -7 -9
 0 2 0 19 0 1 0: 1 -11
 0 2 0 19 1 1 0: 1 -13
 0 2 0 20 0 1 1: -11 -13
 0 3 0 4 0 0 0: 18
 0 3 0 19 0 1 0: 1 -15
 0 3 0 19 1 1 0: 1 -17
 0 3 0 20 0 1 1: -15 -17
 0 4 0 2 1 0 0: -22 -24; 18 -24; 18 -22; -18 22 24
 0 4 0 3 1 1 0: -25
 0 4 0 19 0 1 0: 1 -19
 0 4 0 19 1 1 0: 1 -21
 0 4 0 21 0 1 0: -19 23; 19 -23
 0 5 0 6 1 0 0: 24
 0 5 0 7 1 1 0: 1 -25; -1 25
 0 5 0 8 1 0 0: -28
 0 5 0 8 1 1 0: -29
 0 5 0 19 0 1 0: 1 -23
 0 5 0 19 1 1 0: 1 -25
 0 5 0 20 0 1 1: -23 -25
 0 5 0 21 0 0 0: -22 26; 22 -26
 0 5 0 21 0 1 0: -23 27; 23 -27
 0 6 0 19 0 1 0: 1 -27
 0 6 0 19 1 1 0: 1 -29
 0 6 0 20 0 1 1: -27 -29
 0 6 0 21 0 0 0: -26 34; 26 -34
 0 6 0 21 0 1 0: -27 35; 27 -35
 0 6 0 21 1 0 0: -28 36; 28 -36
 0 6 0 21 1 1 0: -29 37; 29 -37
 0 7 0 19 0 1 0: 1 -31
 0 7 0 19 1 1 0: 1 -33
 0 8 0 17 0 0 0: -34
 0 8 0 17 1 0 0: -36
 0 8 0 18 0 1 0: -35
 0 8 0 18 1 1 0: -37
 0 8 0 19 0 1 0: 1 -35
 0 8 0 19 1 1 0: 1 -37
 0 8 0 20 0 1 1: -35 -37
";
    check(&rt, rt.alloc(), SOURCE, 0, LINES)
}

// Two parameters of one type, and a body that does nothing.
#[test]
fn parameters(rt: HostRuntime) -> Result<(), Fail> {
    const LINES: &str = "
 0 0 0 15 1 0 0: 2 -4; -2 4
 0 0 0 15 1 1 0: -5
 0 0 0 15 2 0 0: 3 -6; -3 6
 0 0 0 15 2 1 0: -7
 0 0 0 19 1 1 0: 1 -5
 0 0 0 19 2 1 0: 1 -7
 0 0 0 20 1 1 2: -5 -7
 0 0 0 21 1 0 0: -4 8; 4 -8
 0 0 0 21 1 1 0: -5 9; 5 -9
 0 0 0 21 2 0 0: -6 10; 6 -10
 0 0 0 21 2 1 0: -7 11; 7 -11
 0 1 0 17 1 0 0: -8
 0 1 0 17 2 0 0: -10
 0 1 0 18 1 1 0: -9
 0 1 0 18 2 1 0: -11
 0 1 0 19 1 1 0: 1 -9
 0 1 0 19 2 1 0: 1 -11
 0 1 0 20 1 1 2: -9 -11
";
    check(&rt, rt.alloc(), CALLED, 0, LINES)
}

// In the loop the local refers to the object of the round before, until it is declared anew.
#[test]
fn local_in_a_loop(rt: HostRuntime) -> Result<(), Fail> {
    const SOURCE: &str =
        "int pick(void); int main(void) { while (pick()) { int *p; p = malloc(sizeof(int)); } return 0; }";
    const LINES: &str = "
 0 1 0 21 0 0 0: -2 3; 2 -3
 0 2 0 21 0 0 0: -3 4; 3 -4
 0 3 0 21 0 0 0: -4 5; 4 -5
 0 3 1 21 0 0 0: -4 7; 4 -7
 0 4 0 1 0 0 0: -5
 0 5 0 4 0 0 0: 2
 0 6 0 21 0 0 0: -7 9; 7 -9
 0 8 0 17 0 0 0: -9
";
    check(&rt, rt.alloc(), SOURCE, 0, LINES)
}

// A result that is null at every exit is asked nothing.
#[test]
fn result_that_is_null(rt: HostRuntime) -> Result<(), Fail> {
    const SOURCE: &str = "int *no(void) { return NULL; } int main(void) { return 0; }";
    check(&rt, rt.alloc(), SOURCE, 0, "\n")
}
