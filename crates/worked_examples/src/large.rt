// Inputs that are large and within all limits: no call may answer them with want of memory.
use crate::harness::parsed;
use crate::runs::{Machine, choice};
use c_token::tokens;
use c_tree::StmtForm;
use example_sources::MOST_BYTES;
use heap_meaning::Stepped;
use lit_region::Region;
use source_program::typed_source;
use std::alloc::Global;
use std::process::Abort;
use std::test::Fail;
use zo_core::{Form, Lit, Rule, Var};

/// What is made in a great number.
#[derive(Clone, Copy)]
enum Many {
    /// Empty statements, each a token.
    Tokens,
    /// The same as statements of a tree.
    Statements,
    /// Variables of one scope.
    Names,
    /// Cells of one object.
    Cells,
    /// Calls that wait for one another.
    Frames,
    /// Words of a region.
    Words,
    /// Unknowns, of which the last two and one more are put into a sum.
    Unknowns,
}

/// How many are made, and how many there are then.
struct Case {
    many: Many,
    times: usize,
    found: usize,
}

const CASES: [Case; 7] = [
    Case {
        many: Many::Tokens,
        times: 500_000,
        found: 500_010,
    },
    Case {
        many: Many::Statements,
        times: 500_000,
        found: 500_001,
    },
    Case {
        many: Many::Names,
        times: 5_000,
        found: 5_001,
    },
    Case {
        many: Many::Cells,
        times: 100_000,
        found: 100_000,
    },
    Case {
        many: Many::Frames,
        times: 2_000,
        found: 2_000,
    },
    Case {
        many: Many::Words,
        times: 1_000_000,
        found: 1_000_000,
    },
    Case {
        many: Many::Unknowns,
        times: 2_147_483_647,
        found: 4,
    },
];

/// A body of so many empty statements.
fn empty_statements(alloc: Global, times: usize) -> Result<String, Fail> {
    let mut source = String::from_str(alloc, "int main(void) { ")?;
    for _ in 0..times {
        source.push_str(";")?;
    }
    source.push_str("return 0; }")?;
    Ok(source)
}

fn token_count(alloc: Global, times: usize) -> Result<usize, Fail> {
    let source = empty_statements(alloc, times)?;
    let bytes = source.as_bytes();
    if bytes.len() > MOST_BYTES {
        return Err(Fail::from("too long"));
    }
    Ok(tokens(alloc, bytes)?.len())
}

fn statement_count(alloc: Global, times: usize) -> Result<usize, Fail> {
    let source = empty_statements(alloc, times)?;
    let tree = parsed(alloc, source.as_bytes())??;
    let Some(main) = tree.procs.as_slice().first() else {
        return Err(Fail::from("no procedure"));
    };
    let Some(body) = &main.body else {
        return Err(Fail::from("no body"));
    };
    let StmtForm::Block(stmts) = &body.form else {
        return Err(Fail::from("no block"));
    };
    Ok(stmts.as_slice().len())
}

/// How many slots a procedure with so many variables has.
fn slot_count(alloc: Global, times: usize) -> Result<usize, Fail> {
    let mut source = String::from_str(alloc, "int main(void) { ")?;
    for number in 0..times {
        source.push_str(format!(in alloc; "int a{number}; ")?.as_str())?;
    }
    source.push_str("return a0; }")?;
    let bytes = source.as_bytes();
    if bytes.len() > MOST_BYTES {
        return Err(Fail::from("too long"));
    }
    let Ok(typed) = typed_source(alloc, bytes) else {
        return Err(Fail::from("no typed tree"));
    };
    let procs = typed.procs.items.as_slice();
    let Some(main) = procs.first() else {
        return Err(Fail::from("no procedure"));
    };
    let slots = main.slots.items.as_slice();
    Ok(slots.len())
}

/// How many cells the one object of a run has.
fn cell_count(alloc: Global, times: usize) -> Result<usize, Fail> {
    let source = format!(in alloc; "int main(void) {{ char *p = calloc({times}, 1); return 0; }}")?;
    let mut machine = Machine::new(alloc, source.as_str())?;
    let choice = choice(alloc, true, 0, &[])?;
    for _ in 0..4 {
        if machine.step(alloc, &choice)? != Stepped::Moved {
            return Err(Fail::from("no step"));
        }
    }
    Ok(first_cells(&machine))
}

/// How many cells the first object has, if there is one.
fn first_cells(machine: &Machine) -> usize {
    let objects = machine.state.heap.items.as_slice();
    let Some(object) = objects.first() else {
        return 0;
    };
    let cells = object.cells.items.as_slice();
    cells.len()
}

/// Lets a procedure call itself until so many frames stand.
fn frame_count(alloc: Global, times: usize) -> Result<usize, Fail> {
    let source = "int f(int n) { return f(n); } int main(void) { return f(0); }";
    let mut machine = Machine::new(alloc, source)?;
    let choice = choice(alloc, true, 0, &[])?;
    for _ in 0..8_000 {
        if machine.frames() == times {
            break;
        }
        if machine.step(alloc, &choice)? != Stepped::Moved {
            return Err(Fail::from("no step"));
        }
    }
    Ok(machine.frames())
}

/// How many words a region gives that is reserved with so many.
fn word_count(alloc: Global, times: usize) -> Result<usize, Fail> {
    let region = Region::reserve(alloc, times)?;
    Ok(region.free_words())
}

/// How many clauses a sum over the greatest unknown has; they end with its negation.
fn clause_count(rt: &impl Abort, alloc: Global, greatest: u32) -> Result<usize, Fail> {
    if greatest == 0 || greatest > 2_147_483_647 {
        return Err(Fail::from("no unknown"));
    }
    let sum = Form::Sum(Var(2_000_000_000), Var(2_147_483_646), Var(greatest));
    let clauses = sum.clauses(alloc)?;
    assert_eq!(rt; clauses.len(), 4);
    let last = [Lit(2_000_000_000), Lit(2_147_483_646), Lit(-2_147_483_647)];
    assert_eq!(rt; clauses[3].lits(), last.as_slice());
    Ok(clauses.len())
}

fn count(rt: &impl Abort, alloc: Global, many: Many, times: usize) -> Result<usize, Fail> {
    match many {
        Many::Tokens => token_count(alloc, times),
        Many::Statements => statement_count(alloc, times),
        Many::Names => slot_count(alloc, times),
        Many::Cells => cell_count(alloc, times),
        Many::Frames => frame_count(alloc, times),
        Many::Words => word_count(alloc, times),
        Many::Unknowns => {
            let Ok(greatest) = u32::try_from(times) else {
                return Err(Fail::from("no unknown"));
            };
            clause_count(rt, alloc, greatest)
        }
    }
}

#[test]
fn large_inputs_are_served(rt: HostRuntime) -> Result<(), Fail> {
    for case in &CASES {
        let found = count(&rt, rt.alloc(), case.many, case.times)?;
        assert_eq!(&rt; found, case.found);
    }
    Ok(())
}
