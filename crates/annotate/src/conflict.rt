//! The text of a conflict.

ghost use Rattle.std.specs.Prelude.{◌≡◌, ◌++◌, map, slice_index_or, [], IfOk, OnOk};
ghost use Rattle.std.specs.List.{flat_map};
ghost use Rattle.owner_vars.specs.Tables.{listed};
ghost use Rattle.annotate.specs.Conflict.{rule_name, field_part, second_part, name_line, conflict_text};
ghost use Rattle.annotate.specs.Names.{slot_text};
ghost use Rattle.annotate.specs.Positions.{spans_of};

use crate::fields::{field_name, is_field};
use crate::names::{proc_name, put_slot};
use crate::positions::{Spans, body_spans, put_position};
use crate::source::Source;
use c_tree::Memory;
use c_types::Typed;
use conflict_proof::{ConstraintName, Names};
use owner_vars::fields;
use std::alloc::Global;
use transfer_rules::Program;

/// The number of the rule that speaks of two slots.
const ONE_BASE: u8 = 20;

/// The names of the rules by their numbers, which begin with 1.
const RULES: [&[u8]; 22] = [
    b"",
    b"Target",
    b"Copy",
    b"Closed",
    b"New",
    b"Text",
    b"Free",
    b"FreeField",
    b"Freed",
    b"Load",
    b"StoreOpen",
    b"Store",
    b"CallArg",
    b"CallResult",
    b"CallClosed",
    b"Entry",
    b"ExitRet",
    b"ExitOwn",
    b"ExitClosed",
    b"Bound",
    b"OneBase",
    b"Same",
];

/// The name with a number in a table.
fn listed_at<'a>(table: &[&'a [u8]], number: u8) -> &'a [u8]
    ensures { result.now ≡ slice_index_or (map (λ w. w.now) table.entry.now) number [] }
{
    match table.get(number as usize) {
        Some(name) => name,
        None => &[],
    }
}

/// The name of a rule.
fn rule_name(rule: u8) -> &'static [u8]
    ensures { result.now ≡ rule_name rule }
{
    listed_at(&RULES, rule)
}

/// Adds the field of a name after a point, where it has one.
fn put_field(out: &mut Vec<u8>, source: &Source, field: u32) -> Result<(), Memory>
    ensures { OnOk result (out.new.items ≡ out.old.items ++ field_part source.now.typed.now source.now.graph.now field) }
{
    if !is_field(source, field) {
        return Ok(());
    }
    out.push(b'.')?;
    out.extend_from_slice(field_name(source, field))?;
    Ok(())
}

/// Adds the second slot of a name, where it has one.
fn put_second(out: &mut Vec<u8>, typed: &Typed, name: &ConstraintName) -> Result<(), Memory>
    ensures { OnOk result (out.new.items ≡ out.old.items ++ second_part typed.now name.now) }
{
    if name.rule != ONE_BASE {
        return Ok(());
    }
    out.push(b' ')?;
    put_slot(out, typed, name.proc, name.other)
}

/// Adds the line of a name; the spans are those of all bodies.
fn put_name(
    out: &mut Vec<u8>,
    source: &Source,
    spans: &[Spans],
    name: &ConstraintName,
) -> Result<(), Memory>
    requires { spans.now ≡ listed source.now.graph.now.bodies (spans_of source.now.typed.now) }
    ensures { OnOk result (out.new.items ≡ out.old.items ++ name_line source.now.typed.now source.now.graph.now name.now) }
{
    out.extend_from_slice(proc_name(source.typed, name.proc))?;
    out.push(b' ')?;
    put_position(out, source, spans, name.proc, name.place)?;
    out.push(b' ')?;
    out.extend_from_slice(rule_name(name.rule))?;
    out.push(b' ')?;
    put_slot(out, source.typed, name.proc, name.slot)?;
    put_field(out, source, name.field)?;
    put_second(out, source.typed, name)?;
    out.push(b'\n')?;
    Ok(())
}

/// Adds the lines of names.
fn put_names(
    alloc: Global,
    out: &mut Vec<u8>,
    source: &Source,
    names: &[ConstraintName],
) -> Result<(), Memory>
    ensures { OnOk result (out.new.items ≡ out.old.items ++ flat_map (name_line source.now.typed.now source.now.graph.now) names.now) }
{
    let spans = body_spans(alloc, source.typed, source.graph.bodies())?;
    for name in names {
        put_name(out, source, &spans, name)?;
    }
    Ok(())
}

/// The text of a conflict between the constraints of these names: `conflict`, then for each name one line with the procedure,
/// the line and column of its place, the rule, the slot with the field, and for OneBase the second slot. Lines and columns
/// are from 1. What a name speaks of that the program does not have is left out of its line, but that a slot that is not
/// declared is `tmp`. The one refusal is want of memory.
pub fn conflict_text(alloc: Global, program: &Program, used: &Names) -> Result<Vec<u8>, Memory>
    ensures { IfOk result (λ text. text.items ≡ conflict_text program.now.typed program.now.graph used.now) }
{
    program.law();
    let fields = fields(alloc, &program.graph)?;
    let mut out = Vec::from_slice(alloc, b"conflict\n")?;
    let source = Source {
        typed: &program.typed,
        graph: &program.graph,
        facts: &program.facts,
        fields: &fields,
    };
    put_names(alloc, &mut out, &source, &used.items)?;
    Ok(out)
}

/// What a slot is called: a parameter or a local by its name and the line of its declaration, from 1, the result `ret`, a
/// temporary `tmp`. The one refusal is want of memory.
pub fn slot_text(alloc: Global, program: &Program, proc: u32, slot: u32) -> Result<Vec<u8>, Memory>
    ensures { IfOk result (λ text. text.items ≡ slot_text program.now.typed proc slot) }
{
    let mut out = Vec::new(alloc);
    put_slot(&mut out, &program.typed, proc, slot)?;
    Ok(out)
}
