// Call groups of sources.
use crate::harness::graph_of;
use example_sources::{MUTUAL, TWICE};
use recursion_groups::groups;
use std::alloc::Global;
use std::process::Abort;
use std::test::Fail;

/// A source and the procedures of its groups, in their order.
struct Grouped {
    source: &'static str,
    groups: &'static [&'static [u32]],
}

const GROUPED: [Grouped; 9] = [
    Grouped {
        source: "int main(void) { return 0; }",
        groups: &[&[0]],
    },
    Grouped {
        source: TWICE,
        groups: &[&[0], &[1]],
    },
    Grouped {
        source: MUTUAL,
        groups: &[&[0, 1], &[2]],
    },
    // One that calls itself.
    Grouped {
        source: "int f(int n) { if (n == 0) return 0; return f(n - 1); } int main(void) { return f(3); }",
        groups: &[&[0], &[1]],
    },
    // Two that are ready together, in both orders.
    Grouped {
        source: "int a(void) { return 0; } int b(void) { return 0; } int main(void) { return b() + a(); }",
        groups: &[&[0], &[1], &[2]],
    },
    Grouped {
        source: "int b(void); int a(void); int main(void) { return a() + b(); } int b(void) { return 0; } int a(void) { return 0; }",
        groups: &[&[1], &[2], &[0]],
    },
    // The first waits for a later one.
    Grouped {
        source: "int c(void); int a(void) { return c(); } int b(void) { return 0; } int c(void) { return 0; } int main(void) { return a() + b(); }",
        groups: &[&[1], &[2], &[0], &[3]],
    },
    Grouped {
        source: "int d(void); int a(void) { return d(); } int b(void) { return 0; } int c(void) { return 0; } int d(void) { return a(); } int main(void) { return 0; }",
        groups: &[&[0, 3], &[1], &[2], &[4]],
    },
    // An external procedure is in no group.
    Grouped {
        source: "int put(int n); int main(void) { return put(1); }",
        groups: &[&[0]],
    },
];

/// Whom procedures of one name and numbers from 0 call: the one before, the one after, or the one after in
/// a ring.
#[derive(Clone, Copy, PartialEq, Eq)]
enum Chain {
    Down,
    Up,
    Ring,
}

/// Whom a procedure of a chain calls.
fn callee(chain: Chain, proc: u32, count: u32) -> Option<u32> {
    match chain {
        Chain::Down => proc.checked_sub(1),
        Chain::Up | Chain::Ring if proc < count.saturating_sub(1) => Some(proc.saturating_add(1)),
        Chain::Up => None,
        Chain::Ring => Some(0),
    }
}

/// A source of so many procedures, of which `main` calls the one that leads to all.
fn chain_of(alloc: Global, chain: Chain, count: u32) -> Result<String, Fail> {
    let mut source = String::new(alloc);
    for proc in 0..count {
        source.push_str(format!(in alloc; "int f{proc}(void);\n")?.as_str())?;
    }
    for proc in 0..count {
        let text = match callee(chain, proc, count) {
            Some(called) => format!(in alloc; "int f{proc}(void) {{ return f{called}(); }}\n")?,
            None => format!(in alloc; "int f{proc}(void) {{ return 0; }}\n")?,
        };
        source.push_str(text.as_str())?;
    }
    let first = if chain == Chain::Down {
        count.saturating_sub(1)
    } else {
        0
    };
    source.push_str(format!(in alloc; "int main(void) {{ return f{first}(); }}\n")?.as_str())?;
    Ok(source)
}

/// Compares the groups of a chain that is no ring.
fn check_chain(rt: &impl Abort, alloc: Global, chain: Chain, count: u32) -> Result<(), Fail> {
    let source = chain_of(alloc, chain, count)?;
    let graph = graph_of(alloc, source.as_bytes())?;
    let found = groups(alloc, &graph)?;
    assert_eq!(rt; found.items.len() as u64, u64::from(count) + 1);
    for (place, group) in found.items.iter().enumerate() {
        let proc = match chain {
            Chain::Up if place < count as usize => count as usize - 1 - place,
            _ => place,
        };
        assert_eq!(rt; group.items.as_slice(), [proc as u32].as_slice());
    }
    Ok(())
}

#[test]
fn groups_are_as_worked_out(rt: HostRuntime) -> Result<(), Fail> {
    for grouped in &GROUPED {
        let graph = graph_of(rt.alloc(), grouped.source.as_bytes())?;
        let found = groups(rt.alloc(), &graph)?;
        assert_eq!(rt;
            found.items.len(),
            grouped.groups.len(),
            "{}",
            grouped.source
        );
        for (group, procs) in found.items.iter().zip(grouped.groups) {
            assert_eq!(rt; group.items.as_slice(), *procs, "{}", grouped.source);
        }
    }
    Ok(())
}

#[test]
fn long_chains_are_grouped(rt: HostRuntime) -> Result<(), Fail> {
    check_chain(&rt, rt.alloc(), Chain::Down, 4_000)?;
    check_chain(&rt, rt.alloc(), Chain::Up, 4_000)
}

#[test]
fn a_long_ring_is_one_group(rt: HostRuntime) -> Result<(), Fail> {
    let ring = chain_of(rt.alloc(), Chain::Ring, 200)?;
    let graph = graph_of(rt.alloc(), ring.as_bytes())?;
    let found = groups(rt.alloc(), &graph)?;
    assert_eq!(rt; found.items.len(), 2);
    assert_eq!(rt; found.items[1].items.as_slice(), [200].as_slice());
    assert_eq!(rt; found.items[0].items.len(), 200);
    for (proc, member) in found.items[0].items.iter().enumerate() {
        assert_eq!(rt; *member as usize, proc);
    }
    Ok(())
}
