// The parts of one source, up to its flow graph.
use c_parser::{ParseError, parse};
use c_token::tokens;
use c_tree::Tree;
use example_sources::MOST_BYTES;
use flow_graph::{Graph, build};
use source_program::{Failure, load_source, refusal_line, typed_source};
use std::alloc::Global;
use std::test::Fail;

/// The line with which a source named `a.c` is refused; nothing where it has a program.
pub fn refused_with(alloc: Global, source: &[u8]) -> Result<Vec<u8>, Fail> {
    if source.len() > MOST_BYTES {
        return Err(Fail::from("too long"));
    }
    match load_source(alloc, source) {
        Ok(_) => Ok(Vec::new(alloc)),
        Err(Failure::Refused(refusal)) => Ok(refusal_line(alloc, refusal, source, "a.c")?),
        Err(Failure::Memory) => Err(Fail::from("no memory")),
    }
}

/// What the tokens of a source spell.
pub fn parsed(alloc: Global, source: &[u8]) -> Result<Result<Tree, ParseError>, Fail> {
    if source.len() > MOST_BYTES {
        return Err(Fail::from("too long"));
    }
    let tokens = tokens(alloc, source)?;
    Ok(parse(alloc, tokens.as_slice()))
}

/// The tree of a source that is in the grammar.
pub fn tree_of(alloc: Global, source: &[u8]) -> Result<Tree, Fail> {
    Ok(parsed(alloc, source)??)
}

/// The flow graph of a source that breaks no rule.
pub fn graph_of(alloc: Global, source: &[u8]) -> Result<Graph, Fail> {
    if source.len() > MOST_BYTES {
        return Err(Fail::from("too long"));
    }
    let Ok(typed) = typed_source(alloc, source) else {
        return Err(Fail::from("no typed tree"));
    };
    Ok(build(alloc, &typed)?)
}
