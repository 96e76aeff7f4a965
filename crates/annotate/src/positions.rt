ghost use Rattle.std.specs.Prelude.{◌≡◌, ◌++◌, ◌<◌, decimal, IfOk, OnOk};
ghost use Rattle.owner_vars.specs.Tables.{listed};
ghost use Rattle.annotate.specs.Positions.{item_spans, spans_of, place_of, place_span, position, position_text};

use crate::names::{item_of, put_number};
use crate::source::Source;
use crate::spans::node_spans;
use c_tree::{Memory, Place, ProcItem, Span};
use c_types::Typed;
use flow_graph::Graph;
use std::alloc::Global;
use std::marker::Model;

/// Where nothing stands.
const NOWHERE: Span = Span {
    start: 0,
    end: 0,
    line: 0,
    col: 0,
};

/// The spans of a body's nodes, by their numbers.
#[derive(Drop)]
pub(crate) struct Spans {
    items: Vec<Span>,
}

impl Model for Spans {
    ghost use Rattle.std.specs.Prelude.{List};
    ghost use Rattle.c_tree.specs.declared.position.Span.{Span};

    ghost Value = { List Span };

    ghost view = { λ s. s.items.items };
}

/// The nodes of a procedure's body.
fn item_spans(alloc: Global, item: &ProcItem) -> Result<Spans, Memory>
    ensures { IfOk result (λ s. s ≡ item_spans item.now) }
{
    match &item.body {
        Some(body) => Ok(Spans {
            items: node_spans(alloc, body)?,
        }),
        None => Ok(Spans {
            items: Vec::new(alloc),
        }),
    }
}

/// The nodes of the body of a procedure by its number.
fn spans_of(alloc: Global, typed: &Typed, proc: u32) -> Result<Spans, Memory>
    ensures { IfOk result (λ s. s ≡ spans_of typed.now proc) }
{
    match item_of(typed, proc) {
        Some(item) => item_spans(alloc, item),
        None => Ok(Spans {
            items: Vec::new(alloc),
        }),
    }
}

/// The nodes of so many bodies.
pub(crate) fn body_spans(alloc: Global, typed: &Typed, bodies: u32) -> Result<Vec<Spans>, Memory>
    ensures { IfOk result (λ s. s.items ≡ listed bodies (spans_of typed.now)) }
{
    let mut bodies_spans = Vec::new(alloc);
    for proc in 0..bodies {
        let spans = spans_of(alloc, typed, proc)?;
        bodies_spans.push(spans)?;
    }
    Ok(bodies_spans)
}

/// What a place stands for.
fn place_of(graph: &Graph, proc: u32, place: u32) -> Place
    ensures { result ≡ place_of graph.now proc place }
{
    if proc >= graph.bodies() {
        return Place::Out;
    }
    match graph.places(proc).get(place as usize) {
        Some(place) => *place,
        None => Place::Out,
    }
}

/// Where a place of a procedure stands, whose nodes have these spans.
fn place_span(spans: &[Span], item: &ProcItem, place: Place) -> Span
    ensures { result ≡ place_span spans.now item.now place }
{
    match place {
        Place::In => item.name_at,
        Place::At(node, _) => match spans.get(node as usize) {
            Some(span) => *span,
            None => NOWHERE,
        },
        Place::End | Place::Out => item.close,
    }
}

/// Adds a line and a column.
fn put_span(out: &mut Vec<u8>, span: Span) -> Result<(), Memory>
    ensures { OnOk result (out.new.items ≡ out.old.items ++ position_text span) }
{
    put_number(out, span.line)?;
    out.push(b':')?;
    put_number(out, span.col)
}

/// Where a place of a procedure stands.
fn position(typed: &Typed, graph: &Graph, spans: &[Spans], proc: u32, place: u32) -> Span
    requires { spans.now ≡ listed graph.now.bodies (spans_of typed.now) }
    ensures { result ≡ position typed.now graph.now proc place }
{
    let Some(item) = item_of(typed, proc) else {
        return NOWHERE;
    };
    if proc >= graph.bodies() {
        return item.close;
    }
    let nodes = &spans[proc as usize];
    place_span(&nodes.items, item, place_of(graph, proc, place))
}

/// Adds where a place of a procedure stands; the spans are those of all bodies.
pub(crate) fn put_position(
    out: &mut Vec<u8>,
    source: &Source,
    spans: &[Spans],
    proc: u32,
    place: u32,
) -> Result<(), Memory>
    requires { spans.now ≡ listed source.now.graph.now.bodies (spans_of source.now.typed.now) }
    ensures { OnOk result (out.new.items ≡ out.old.items ++ position_text (position source.now.typed.now source.now.graph.now proc place)) }
{
    put_span(
        out,
        position(source.typed, source.graph, spans, proc, place),
    )
}
