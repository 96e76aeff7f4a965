use crate::{Command, Words, Work, asked, sample_source};
use c_tree::Memory;
use std::alloc::Global;
use std::test::Fail;

/// The budget where none is named.
const USUAL: u64 = 4_000_000;

/// Words, and the command that they are.
type Row = (&'static [&'static str], Option<Command<'static>>);

const fn check(file: &'static str, budget: u64) -> Option<Command<'static>> {
    Some(Command {
        work: Work::Check { file },
        budget,
    })
}

const fn prove(file: &'static str, budget: u64) -> Option<Command<'static>> {
    Some(Command {
        work: Work::Prove { file },
        budget,
    })
}

const fn verify(file: &'static str, text: &'static str) -> Option<Command<'static>> {
    Some(Command {
        work: Work::Verify { file, text },
        budget: USUAL,
    })
}

const fn sample(count: u32) -> Option<Command<'static>> {
    Some(Command {
        work: Work::Sample { count },
        budget: USUAL,
    })
}

fn words_of(alloc: Global, texts: &[&str]) -> Result<Words, Memory> {
    let mut items = Vec::new(alloc);
    for text in texts {
        items.push(String::from_str(alloc, text)?)?;
    }
    Ok(Words { items })
}

/// Whether the words are that command.
fn is_row(alloc: Global, words: &[&str], command: Option<Command<'_>>) -> Result<bool, Memory> {
    let words = words_of(alloc, words)?;
    Ok(asked(alloc, &words)? == command)
}

#[test]
fn modes_and_positionals(rt: HostRuntime) -> Result<(), Fail> {
    let rows: [Row; 25] = [
        (&["check", "a.c"], check("a.c", USUAL)),
        (&["prove", "a.c"], prove("a.c", USUAL)),
        (&["verify", "a.c", "t"], verify("a.c", "t")),
        (&["check", ""], check("", USUAL)),
        (&["check", "-"], check("-", USUAL)),
        (&["verify", "-", "-"], verify("-", "-")),
        (&["check", "é c"], check("é c", USUAL)),
        (&["check", "a-b=c"], check("a-b=c", USUAL)),
        (&["check", "--", "--"], check("--", USUAL)),
        (&["--", "check", "--help"], check("--help", USUAL)),
        (&["check", "a.c", "--"], check("a.c", USUAL)),
        (
            &["verify", "--", "-h", "--budget=5"],
            verify("-h", "--budget=5"),
        ),
        (&[], None),
        (&["check"], None),
        (&["check", "a.c", "t"], None),
        (&["prove", "a.c", "t"], None),
        (&["verify", "a.c"], None),
        (&["verify", "a.c", "t", "u"], None),
        (&["Check", "a.c"], None),
        (&["checks", "a.c"], None),
        (&["", "a.c"], None),
        (&["mode", "a.c"], None),
        (&["a.c", "check"], None),
        (&["--", "check", "a.c", "--"], None),
        (&["--", "--", "check", "a.c"], None),
    ];
    for row in &rows {
        assert!(&rt; is_row(rt.alloc(), row.0, row.1)?, "{:?}", row.0);
    }
    Ok(())
}

#[test]
fn budgets(rt: HostRuntime) -> Result<(), Fail> {
    let rows: [Row; 28] = [
        (&["check", "a.c", "--budget", "1"], check("a.c", 1)),
        (&["check", "--budget", "256", "a.c"], check("a.c", 256)),
        (&["--budget=7", "prove", "a.c"], prove("a.c", 7)),
        (
            &["check", "a.c", "--budget=100000000"],
            check("a.c", 100_000_000),
        ),
        (&["check", "a.c", "--budget", "000000005"], check("a.c", 5)),
        (&["check", "--budget", "8", "--", "-"], check("-", 8)),
        (&["check", "a.c", "--budget", "0"], None),
        (&["check", "a.c", "--budget", "000000000"], None),
        (&["check", "a.c", "--budget", "100000001"], None),
        (&["check", "a.c", "--budget", "999999999"], None),
        (&["check", "a.c", "--budget", "0000000005"], None),
        (
            &["check", "a.c", "--budget", "5000000000000000000005"],
            None,
        ),
        (&["check", "a.c", "--budget"], None),
        (&["--budget", "check", "a.c"], None),
        (&["check", "a.c", "--budget="], None),
        (&["check", "a.c", "--budget", ""], None),
        (&["check", "a.c", "--budget", "+5"], None),
        (&["check", "a.c", "--budget", "-5"], None),
        (&["check", "a.c", "--budget=-5"], None),
        (&["check", "a.c", "--budget", "5 "], None),
        (&["check", "a.c", "--budget", "0x5"], None),
        (&["check", "a.c", "--budget==5"], None),
        (&["check", "a.c", "--budget", "5", "--budget", "6"], None),
        (&["--budget=5", "check", "a.c", "--budget=5"], None),
        (&["check", "a.c", "--budget", "--budget", "5"], None),
        (&["check", "a.c", "--budget", "--", "5"], None),
        (&["check", "a.c", "--budget", "--"], None),
        (&["check", "a.c", "--", "--budget", "5"], None),
    ];
    for row in &rows {
        assert!(&rt; is_row(rt.alloc(), row.0, row.1)?, "{:?}", row.0);
    }
    Ok(())
}

#[test]
fn other_options(rt: HostRuntime) -> Result<(), Fail> {
    let rows: [Row; 16] = [
        (&["--help"], None),
        (&["-h"], None),
        (&["--version"], None),
        (&["-V"], None),
        (&["help", "check"], None),
        (&["check", "--help"], None),
        (&["check", "-h"], None),
        (&["check", "a.c", "--version"], None),
        (&["check", "-x"], None),
        (&["check", "-x", "a.c"], None),
        (&["check", "-é"], None),
        (&["check", "a.c", "-b", "5"], None),
        (&["check", "a.c", "-budget", "5"], None),
        (&["check", "a.c", "--budge=5"], None),
        (&["check", "a.c", "--budgets=5"], None),
        (&["check", "a.c", "--=5"], None),
    ];
    for row in &rows {
        assert!(&rt; is_row(rt.alloc(), row.0, row.1)?, "{:?}", row.0);
    }
    Ok(())
}

#[test]
fn samples_by_words(rt: HostRuntime) -> Result<(), Fail> {
    let rows: [Row; 12] = [
        (&["sample", "1"], sample(1)),
        (&["sample", "0001"], sample(1)),
        (&["sample", "40"], sample(40)),
        (&["sample", "4000"], sample(4000)),
        (&["sample", "0"], None),
        (&["sample", "4001"], None),
        (&["sample", "10000"], None),
        (&["sample", "00001"], None),
        (&["sample", ""], None),
        (&["sample", "1a"], None),
        (&["sample"], None),
        (&["sample", "1", "2"], None),
    ];
    for row in &rows {
        assert!(&rt; is_row(rt.alloc(), row.0, row.1)?, "{:?}", row.0);
    }
    Ok(())
}

/// The source that the words ask for.
fn source_asked(alloc: Global, words: &Words) -> Result<Option<Vec<u8>>, Memory> {
    match asked(alloc, words)? {
        Some(
            Command {
                work: Work::Sample { count },
                ..
            },
        ) => Ok(Some(sample_source(alloc, count)?)),
        _ => Ok(None),
    }
}

/// The sample of one procedure.
const ONE: &str = "struct node { int v; struct node *next; };\n\
    struct node *f0(struct node *p) { return p; }\n\
    int main(void) { struct node *a; struct node *b; a = malloc(sizeof(struct node)); b = f0(a); free(b); return 0; }\n";

/// The sample of three.
const THREE: &str = "struct node { int v; struct node *next; };\n\
    struct node *f0(struct node *p) { return p; }\n\
    struct node *f1(struct node *p) { struct node *q; q = f0(p); return f0(q); }\n\
    struct node *f2(struct node *p) { struct node *q; q = f1(p); return f1(q); }\n\
    int main(void) { struct node *a; struct node *b; a = malloc(sizeof(struct node)); b = f2(a); free(b); return 0; }\n";

#[test]
fn sample_texts(rt: HostRuntime) -> Result<(), Fail> {
    let one = sample_source(rt.alloc(), 1)?;
    assert_eq!(&rt; one.as_slice(), ONE.as_bytes());
    let words = words_of(rt.alloc(), &["sample", "0003"])?;
    let three = source_asked(rt.alloc(), &words)?.ok_or("a sample")?;
    assert_eq!(&rt; three.as_slice(), THREE.as_bytes());
    // 43 and 46 bytes for the lines of the struct and of f0, 117 for that of main, and for each of the 3,999 others 74 and the digits of
    // its number and twice those of the one before: 295,926 and 14,889 and 29,772.
    let most = sample_source(rt.alloc(), 4000)?;
    assert_eq!(&rt; most.len(), 340_793);
    Ok(())
}
