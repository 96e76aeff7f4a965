// Unknowns of call groups and of the root, and their numbers.
ghost use Rattle.std.specs.Prelude.{◌<◌};

use crate::harness::graph_of;
use c_types::LimitKind;
use example_sources::{MUTUAL, TWICE};
use flow_graph::Graph;
use owner_vars::{NumberError, Numbering, Site, Sites, fields, number, number_root, sites};
use recursion_groups::groups;
use std::alloc::Global;
use std::process::Abort;
use std::test::Fail;
use zo_core::NumberRange;

/// An unknown.
#[derive(Clone, Copy, Debug)]
enum Unknown {
    Phi(u32),
    Pi(u32, u32),
    Sigma(u32, u32),
    Rho(u32, u32, u32),
    Omega(u32, u32, u32, u32),
}

use Unknown::{Omega, Phi, Pi, Rho, Sigma};

/// Whose unknowns: those of a group by its number, or those of the root over the first procedures of the groups.
#[derive(Clone, Copy, Debug)]
enum Of {
    Group(u32),
    Root(&'static [u32]),
}

/// How many unknowns there are, the numbers of some of them, and some that are not there.
struct Numbered {
    source: &'static str,
    of: Of,
    count: u32,
    numbers: &'static [(Unknown, u32)],
    absent: &'static [Unknown],
}

const FREED: &str = "int main(void) { int *p; p = malloc(sizeof(int)); free(p); return 0; }";

const LEAK: &str = "int main(void) { int *p; p = malloc(sizeof(int)); return 0; }";

const HANDED: &str =
    "int *id(int *p) { return p; } int main(void) { int *a; a = malloc(sizeof(int)); a = id(a); free(a); return 0; }";

const MADE: &str =
    "int *mk(void) { int *p; p = malloc(sizeof(int)); return p; } int main(void) { int *q; q = mk(); return 0; }";

const BOX: &str =
    "struct box { char *s; }; int main(void) { struct box *a = malloc(sizeof(struct box)); char *t = malloc(4); char *u; a->s = t; u = a->s; free(u); free(a); return 0; }";

const STRUCTS: &str =
    "struct a { int v; int *p; char *q; }; struct b { struct a *x; int n; }; int main(void) { struct b *s; s = NULL; return 0; }";

const PICK: &str =
    "int *pick(int n, int *p, int m, char *q) { return p; } int main(void) { return 0; }";

/// Two procedures that call one another, and others.
const RING: &str =
    "int *mk(void) { return NULL; } void put(int *p) { free(p); } void b(void); void a(void) { put(NULL); b(); } void b(void) { int *q; q = mk(); a(); put(q); } int main(void) { a(); return 0; }";

const NUMBERED: [Numbered; 18] = [
    Numbered {
        source: FREED,
        of: Of::Group(0),
        count: 7,
        numbers: &[
            (Rho(0, 0, 0), 1),
            (Rho(0, 1, 0), 2),
            (Rho(0, 2, 0), 3),
            (Rho(0, 3, 0), 4),
            (Rho(0, 4, 0), 5),
            (Rho(0, 5, 0), 6),
            (Rho(0, 6, 0), 7),
        ],
        absent: &[Phi(0), Phi(1), Pi(0, 0), Rho(0, 0, 1), Rho(0, 7, 0)],
    },
    Numbered {
        source: LEAK,
        of: Of::Group(0),
        count: 6,
        numbers: &[
            (Rho(0, 0, 0), 1),
            (Rho(0, 1, 0), 2),
            (Rho(0, 2, 0), 3),
            (Rho(0, 3, 0), 4),
            (Rho(0, 4, 0), 5),
            (Rho(0, 5, 0), 6),
        ],
        absent: &[Rho(0, 6, 0)],
    },
    // The parameter, then the result.
    Numbered {
        source: HANDED,
        of: Of::Group(0),
        count: 8,
        numbers: &[
            (Pi(0, 1), 1),
            (Pi(0, 0), 2),
            (Rho(0, 0, 0), 3),
            (Rho(0, 0, 1), 4),
            (Rho(0, 1, 0), 5),
            (Rho(0, 1, 1), 6),
            (Rho(0, 2, 0), 7),
            (Rho(0, 2, 1), 8),
        ],
        absent: &[
            Phi(0),
            Phi(1),
            Pi(0, 2),
            Pi(1, 0),
            Sigma(0, 0),
            Rho(0, 3, 0),
            Rho(0, 0, 2),
            Rho(1, 0, 0),
            Omega(0, 0, 0, 0),
            Omega(0, 0, 0, 1),
        ],
    },
    // The call is a site; the result of `main` in slot 1 is no pointer.
    Numbered {
        source: HANDED,
        of: Of::Group(1),
        count: 20,
        numbers: &[
            (Sigma(0, 1), 1),
            (Sigma(0, 0), 2),
            (Rho(1, 0, 0), 3),
            (Rho(1, 0, 2), 4),
            (Rho(1, 1, 0), 5),
            (Rho(1, 1, 2), 6),
            (Rho(1, 2, 0), 7),
            (Rho(1, 2, 2), 8),
            (Rho(1, 3, 0), 9),
            (Rho(1, 3, 2), 10),
            (Rho(1, 4, 0), 11),
            (Rho(1, 4, 2), 12),
            (Rho(1, 5, 0), 13),
            (Rho(1, 5, 2), 14),
            (Rho(1, 6, 0), 15),
            (Rho(1, 6, 2), 16),
            (Rho(1, 7, 0), 17),
            (Rho(1, 7, 2), 18),
            (Rho(1, 8, 0), 19),
            (Rho(1, 8, 2), 20),
        ],
        absent: &[
            Pi(1, 0),
            Pi(0, 1),
            Sigma(0, 2),
            Sigma(1, 0),
            Rho(1, 0, 1),
            Rho(1, 0, 3),
            Rho(1, 9, 0),
            Rho(0, 0, 0),
        ],
    },
    Numbered {
        source: HANDED,
        of: Of::Root(&[0, 1]),
        count: 2,
        numbers: &[(Sigma(0, 1), 1), (Sigma(0, 0), 2)],
        absent: &[Phi(1), Pi(0, 1), Sigma(1, 0), Sigma(2, 0), Rho(0, 0, 0)],
    },
    Numbered {
        source: MADE,
        of: Of::Group(0),
        count: 11,
        numbers: &[
            (Pi(0, 0), 1),
            (Rho(0, 0, 0), 2),
            (Rho(0, 0, 1), 3),
            (Rho(0, 1, 0), 4),
            (Rho(0, 1, 1), 5),
            (Rho(0, 2, 0), 6),
            (Rho(0, 2, 1), 7),
            (Rho(0, 3, 0), 8),
            (Rho(0, 3, 1), 9),
            (Rho(0, 4, 0), 10),
            (Rho(0, 4, 1), 11),
        ],
        absent: &[Pi(0, 1), Rho(0, 5, 0)],
    },
    Numbered {
        source: MADE,
        of: Of::Group(1),
        count: 7,
        numbers: &[
            (Sigma(0, 0), 1),
            (Rho(1, 0, 0), 2),
            (Rho(1, 1, 0), 3),
            (Rho(1, 2, 0), 4),
            (Rho(1, 3, 0), 5),
            (Rho(1, 4, 0), 6),
            (Rho(1, 5, 0), 7),
        ],
        absent: &[Sigma(0, 1), Rho(1, 0, 1), Rho(1, 6, 0)],
    },
    Numbered {
        source: MADE,
        of: Of::Root(&[0, 1]),
        count: 1,
        numbers: &[(Sigma(0, 0), 1)],
        absent: &[Sigma(0, 1), Sigma(1, 0)],
    },
    // A field of the first slot's struct alone.
    Numbered {
        source: BOX,
        of: Of::Group(0),
        count: 57,
        numbers: &[
            (Phi(1), 1),
            (Rho(0, 0, 0), 2),
            (Omega(0, 0, 0, 1), 3),
            (Rho(0, 0, 1), 4),
            (Rho(0, 0, 2), 5),
            (Rho(0, 7, 0), 30),
            (Omega(0, 7, 0, 1), 31),
            (Rho(0, 7, 1), 32),
            (Rho(0, 7, 2), 33),
            (Rho(0, 13, 0), 54),
            (Omega(0, 13, 0, 1), 55),
            (Rho(0, 13, 1), 56),
            (Rho(0, 13, 2), 57),
        ],
        absent: &[
            Phi(0),
            Phi(2),
            Pi(0, 0),
            Sigma(0, 0),
            Rho(0, 0, 3),
            Rho(0, 0, 4),
            Rho(0, 14, 0),
            Omega(0, 0, 0, 0),
            Omega(0, 0, 0, 2),
            Omega(0, 0, 1, 1),
            Omega(0, 14, 0, 1),
        ],
    },
    Numbered {
        source: BOX,
        of: Of::Root(&[0]),
        count: 1,
        numbers: &[(Phi(1), 1)],
        absent: &[Phi(2), Sigma(0, 0), Omega(0, 0, 0, 1)],
    },
    // The fields of two structs, of which the slot's is the second.
    Numbered {
        source: STRUCTS,
        of: Of::Group(0),
        count: 15,
        numbers: &[
            (Phi(1), 1),
            (Phi(2), 2),
            (Phi(3), 3),
            (Rho(0, 0, 0), 4),
            (Omega(0, 0, 0, 3), 5),
            (Rho(0, 1, 0), 6),
            (Omega(0, 1, 0, 3), 7),
            (Rho(0, 5, 0), 14),
            (Omega(0, 5, 0, 3), 15),
        ],
        absent: &[
            Phi(4),
            Omega(0, 0, 0, 1),
            Omega(0, 0, 0, 2),
            Omega(0, 0, 0, 4),
        ],
    },
    // Integers between the pointers.
    Numbered {
        source: PICK,
        of: Of::Group(0),
        count: 12,
        numbers: &[
            (Pi(0, 1), 1),
            (Pi(0, 2), 2),
            (Pi(0, 0), 3),
            (Rho(0, 0, 1), 4),
            (Rho(0, 0, 3), 5),
            (Rho(0, 0, 4), 6),
            (Rho(0, 1, 1), 7),
            (Rho(0, 1, 3), 8),
            (Rho(0, 1, 4), 9),
            (Rho(0, 2, 1), 10),
            (Rho(0, 2, 3), 11),
            (Rho(0, 2, 4), 12),
        ],
        absent: &[Pi(0, 3), Rho(0, 0, 0), Rho(0, 0, 2)],
    },
    // Two sites of one procedure.
    Numbered {
        source: TWICE,
        of: Of::Group(1),
        count: 56,
        numbers: &[
            (Sigma(0, 1), 1),
            (Sigma(0, 0), 2),
            (Sigma(1, 1), 3),
            (Sigma(1, 0), 4),
            (Rho(1, 0, 0), 5),
            (Rho(1, 0, 1), 6),
            (Rho(1, 0, 2), 7),
            (Rho(1, 0, 4), 8),
            (Rho(1, 5, 0), 25),
            (Rho(1, 5, 1), 26),
            (Rho(1, 5, 2), 27),
            (Rho(1, 5, 4), 28),
            (Rho(1, 12, 0), 53),
            (Rho(1, 12, 1), 54),
            (Rho(1, 12, 2), 55),
            (Rho(1, 12, 4), 56),
        ],
        absent: &[Sigma(2, 0), Rho(1, 0, 3), Rho(1, 13, 0)],
    },
    // Two members, whose calls are no sites.
    Numbered {
        source: MUTUAL,
        of: Of::Group(0),
        count: 99,
        numbers: &[
            (Phi(1), 1),
            (Pi(0, 1), 2),
            (Pi(1, 1), 3),
            (Rho(0, 0, 0), 4),
            (Omega(0, 0, 0, 1), 5),
            (Rho(0, 0, 1), 6),
            (Omega(0, 0, 1, 1), 7),
            (Rho(0, 0, 2), 8),
            (Omega(0, 0, 2, 1), 9),
            (Rho(0, 3, 0), 22),
            (Omega(0, 3, 0, 1), 23),
            (Rho(0, 3, 1), 24),
            (Omega(0, 3, 1, 1), 25),
            (Rho(0, 3, 2), 26),
            (Omega(0, 3, 2, 1), 27),
            (Rho(0, 7, 0), 46),
            (Omega(0, 7, 0, 1), 47),
            (Rho(0, 7, 1), 48),
            (Omega(0, 7, 1, 1), 49),
            (Rho(0, 7, 2), 50),
            (Omega(0, 7, 2, 1), 51),
            (Rho(1, 0, 0), 52),
            (Omega(1, 0, 0, 1), 53),
            (Rho(1, 0, 1), 54),
            (Omega(1, 0, 1, 1), 55),
            (Rho(1, 0, 2), 56),
            (Omega(1, 0, 2, 1), 57),
            (Rho(1, 3, 0), 70),
            (Omega(1, 3, 0, 1), 71),
            (Rho(1, 3, 1), 72),
            (Omega(1, 3, 1, 1), 73),
            (Rho(1, 3, 2), 74),
            (Omega(1, 3, 2, 1), 75),
            (Rho(1, 7, 0), 94),
            (Omega(1, 7, 0, 1), 95),
            (Rho(1, 7, 1), 96),
            (Omega(1, 7, 1, 1), 97),
            (Rho(1, 7, 2), 98),
            (Omega(1, 7, 2, 1), 99),
        ],
        absent: &[
            Pi(0, 0),
            Pi(2, 0),
            Sigma(0, 1),
            Rho(0, 8, 0),
            Rho(0, 0, 3),
            Rho(2, 0, 1),
        ],
    },
    Numbered {
        source: MUTUAL,
        of: Of::Group(1),
        count: 14,
        numbers: &[
            (Phi(1), 1),
            (Sigma(0, 1), 2),
            (Rho(2, 0, 1), 3),
            (Omega(2, 0, 1, 1), 4),
            (Rho(2, 1, 1), 5),
            (Omega(2, 1, 1, 1), 6),
            (Rho(2, 2, 1), 7),
            (Omega(2, 2, 1, 1), 8),
            (Rho(2, 3, 1), 9),
            (Omega(2, 3, 1, 1), 10),
            (Rho(2, 4, 1), 11),
            (Omega(2, 4, 1, 1), 12),
            (Rho(2, 5, 1), 13),
            (Omega(2, 5, 1, 1), 14),
        ],
        absent: &[Pi(0, 1), Sigma(0, 0), Rho(2, 0, 0), Rho(0, 0, 0)],
    },
    Numbered {
        source: MUTUAL,
        of: Of::Root(&[0, 2]),
        count: 2,
        numbers: &[(Phi(1), 1), (Sigma(0, 1), 2)],
        absent: &[Sigma(0, 0), Sigma(1, 1), Pi(0, 1)],
    },
    // The site of the first member, then those of the second.
    Numbered {
        source: RING,
        of: Of::Group(2),
        count: 22,
        numbers: &[
            (Sigma(0, 1), 1),
            (Sigma(1, 0), 2),
            (Sigma(2, 1), 3),
            (Rho(2, 0, 0), 4),
            (Rho(2, 1, 0), 5),
            (Rho(2, 2, 0), 6),
            (Rho(2, 3, 0), 7),
            (Rho(2, 4, 0), 8),
            (Rho(3, 0, 0), 9),
            (Rho(3, 0, 1), 10),
            (Rho(3, 1, 0), 11),
            (Rho(3, 1, 1), 12),
            (Rho(3, 2, 0), 13),
            (Rho(3, 2, 1), 14),
            (Rho(3, 3, 0), 15),
            (Rho(3, 3, 1), 16),
            (Rho(3, 4, 0), 17),
            (Rho(3, 4, 1), 18),
            (Rho(3, 5, 0), 19),
            (Rho(3, 5, 1), 20),
            (Rho(3, 6, 0), 21),
            (Rho(3, 6, 1), 22),
        ],
        absent: &[
            Pi(2, 0),
            Sigma(0, 0),
            Sigma(1, 1),
            Sigma(3, 0),
            Rho(2, 5, 0),
            Rho(3, 7, 0),
        ],
    },
    Numbered {
        source: RING,
        of: Of::Root(&[0, 1, 2, 4]),
        count: 2,
        numbers: &[(Sigma(0, 0), 1), (Sigma(1, 1), 2)],
        absent: &[Sigma(2, 0), Sigma(3, 0)],
    },
];

/// The number of an unknown that is there.
fn number_of(numbers: &Numbering, unknown: Unknown) -> Option<u32> {
    match unknown {
        Phi(field) if numbers.has_phi(field) => Some(numbers.phi(field).0),
        Pi(proc, part) if numbers.has_pi(proc, part) => Some(numbers.pi(proc, part).0),
        Sigma(site, part) if numbers.has_sigma(site, part) => Some(numbers.sigma(site, part).0),
        Rho(proc, place, slot) if numbers.has_rho(proc, place, slot) => {
            Some(numbers.rho(proc, place, slot).0)
        }
        Omega(proc, place, slot, field) if numbers.has_omega(proc, place, slot, field) => {
            Some(numbers.omega(proc, place, slot, field).0)
        }
        _ => None,
    }
}

/// The numbers of the unknowns of a group.
fn number_group(alloc: Global, graph: &Graph, group: u32) -> Result<Numbering, Fail> {
    let groups = groups(alloc, graph)?;
    let group = group as usize;
    if groups.items.len() <= group {
        return Err(Fail::from("no such group"));
    }
    let members = &groups.items[group];
    Ok(number(alloc, graph, &members.items)?)
}

/// The numbers of the unknowns of the root.
fn number_firsts(alloc: Global, graph: &Graph, firsts: &[u32]) -> Result<Numbering, Fail> {
    let bodies = graph.bodies();
    if firsts.len() > bodies as usize || !firsts.iter().all(|first| *first < bodies) {
        return Err(Fail::from("no such procedures"));
    }
    Ok(number_root(alloc, graph, firsts)?)
}

#[test]
fn unknowns_are_numbered_as_worked_out(rt: HostRuntime) -> Result<(), Fail> {
    for numbered in &NUMBERED {
        let of = numbered.of;
        let source = numbered.source;
        let graph = graph_of(rt.alloc(), source.as_bytes())?;
        let numbers = match of {
            Of::Group(group) => number_group(rt.alloc(), &graph, group)?,
            Of::Root(firsts) => number_firsts(rt.alloc(), &graph, firsts)?,
        };
        assert_eq!(rt; numbers.count(), numbered.count, "{of:?} of {source}");
        for (unknown, number) in numbered.numbers {
            assert_eq!(rt;
                number_of(&numbers, *unknown),
                Some(*number),
                "{unknown:?} of {of:?} of {source}"
            );
        }
        for unknown in numbered.absent {
            assert_eq!(rt;
                number_of(&numbers, *unknown),
                None,
                "{unknown:?} of {of:?} of {source}"
            );
        }
    }
    Ok(())
}

/// The calls that leave the group of the two procedures of `RING`, by their numbers.
const RING_SITES: [Site; 3] = [
    Site {
        proc: 2,
        place: 1,
        callee: 1,
    },
    Site {
        proc: 3,
        place: 2,
        callee: 0,
    },
    Site {
        proc: 3,
        place: 4,
        callee: 1,
    },
];

/// The calls that leave the group of the procedures 2 and 3.
fn sites_of_two(alloc: Global, graph: &Graph) -> Result<Sites, Fail>
    requires { 3 < graph.now.bodies }
{
    Ok(sites(alloc, graph, &[2, 3])?)
}

/// Calls are found by their numbers and by their places.
fn check_sites(rt: &impl Abort, alloc: Global) -> Result<(), Fail> {
    let graph = graph_of(alloc, RING.as_bytes())?;
    assert!(rt; 3 < graph.bodies());
    let sites = sites_of_two(alloc, &graph)?;
    assert_eq!(rt; sites.count(), 3);
    for (number, site) in RING_SITES.iter().enumerate() {
        let number = number as u32;
        assert!(rt; number < sites.count());
        assert_eq!(rt; sites.site(number), *site);
        assert_eq!(rt; sites.at(site.proc, site.place), Some(number));
    }
    // A call inside the group, a place without a call, a procedure outside.
    for (proc, place) in [(2, 3), (3, 1), (4, 1)] {
        assert_eq!(rt; sites.at(proc, place), None);
    }
    Ok(())
}

/// What stands together among the unknowns of that group.
fn check_ranges(rt: &impl Abort, alloc: Global) -> Result<(), Fail> {
    let graph = graph_of(alloc, RING.as_bytes())?;
    let numbers = number_group(alloc, &graph, 2)?;
    let range = |first, count| NumberRange { first, count };
    assert_eq!(rt; numbers.face(2), range(23, 0));
    assert_eq!(rt; numbers.site_face(0), range(1, 1));
    assert_eq!(rt; numbers.site_face(2), range(3, 1));
    assert_eq!(rt; numbers.row(2, 0), range(4, 1));
    assert_eq!(rt; numbers.row(3, 0), range(9, 2));
    assert_eq!(rt; numbers.row(3, 6), range(21, 2));
    assert_eq!(rt; numbers.row(3, 7), range(23, 0));
    Ok(())
}

/// The pointer fields of two structs, of which the second leads to the first.
fn check_fields(rt: &impl Abort, alloc: Global) -> Result<(), Fail> {
    let graph = graph_of(alloc, STRUCTS.as_bytes())?;
    let found = fields(alloc, &graph)?;
    assert_eq!(rt; found.count(), 3);
    let rows = [(1, 0, 1, None), (2, 0, 2, None), (3, 1, 0, Some(0))];
    for (field, owner, member, target) in rows {
        assert!(rt; 0 < field && field <= found.count());
        assert_eq!(rt; found.owner(field), owner);
        assert_eq!(rt; found.member(field), member);
        assert_eq!(rt; found.target(field), target);
    }
    Ok(())
}

#[test]
fn fields_sites_and_ranges_are_found(rt: HostRuntime) -> Result<(), Fail> {
    check_sites(&rt, rt.alloc())?;
    check_ranges(&rt, rt.alloc())?;
    check_fields(&rt, rt.alloc())
}

/// A body of so many pointers.
fn pointers_of(alloc: Global, count: u32) -> Result<String, Fail> {
    let mut source = String::from_str(alloc, "int main(void) { ")?;
    for pointer in 0..count {
        source.push_str(format!(in alloc; "int *p{pointer}; ")?.as_str())?;
    }
    source.push_str("return 0; }")?;
    Ok(source)
}

/// How many unknowns a body of so many pointers has, or how many are too many: each pointer at the place of each
/// declaration, of the return, at the start and at the two ends.
const MANY: [(u32, Result<u32, u64>); 4] = [
    (2_046, Ok(4_194_300)),
    (2_047, Ok(4_198_397)),
    (2_894, Ok(8_386_812)),
    (2_895, Err(8_392_605)),
];

/// The numbers of the unknowns of the first procedure alone.
fn number_first(alloc: Global, graph: &Graph) -> Result<Numbering, NumberError>
    requires { 0 < graph.now.bodies }
{
    number(alloc, graph, &[0])
}

#[test]
fn unknowns_are_counted_up_to_the_limit(rt: HostRuntime) -> Result<(), Fail> {
    for (pointers, count) in &MANY {
        let source = pointers_of(rt.alloc(), *pointers)?;
        let graph = graph_of(rt.alloc(), source.as_bytes())?;
        assert!(rt; 0 < graph.bodies());
        let found = match number_first(rt.alloc(), &graph) {
            Ok(numbers) => Ok(numbers.count()),
            Err(
                NumberError::Limit {
                    kind: LimitKind::Unknowns,
                    count,
                },
            ) => Err(count),
            Err(_) => Err(0),
        };
        assert_eq!(rt; found, *count, "{pointers} pointers");
    }
    Ok(())
}
