//! The lines that an annotation begins with: those of fields and of procedures without a body.

ghost use Rattle.std.specs.Prelude.{◌≡◌, ◌+◌, ◌++◌, ◌<◌, ◌≤◌, length, OnOk};
ghost use Rattle.flow_graph.specs.FlowGraph.{flow_of};
ghost use Rattle.owner_vars.specs.Unknowns.{field_count};
ghost use Rattle.annotate.specs.Annotation.{field_line, field_lines, extern_params, extern_line, extern_lines};
ghost use Rattle.annotate.specs.Keeps.{field_owns};

use crate::fields::put_path;
use crate::kinds::{put_comma, put_kind, put_owning, put_result};
use crate::locals::bit_at;
use crate::names::proc_name;
use crate::source::Source;
use c_tree::Memory;
use c_types::SlotType;

/// Whether a pointer field owns, of the bits of all, which are counted from 1.
pub(crate) fn field_owns(phi: &[bool], field: u32) -> bool
    requires { 0 < field }
    ensures { result ≡ field_owns phi.now field }
{
    bit_at(phi, field as usize - 1)
}

/// Adds the line of a field.
fn put_field(out: &mut Vec<u8>, source: &Source, phi: &[bool], field: u32) -> Result<(), Memory>
    requires some { 0 < field }
    requires within { field ≤ field_count source.now.graph.now }
    ensures { OnOk result (out.new.items ≡ out.old.items ++ field_line source.now.typed.now source.now.graph.now phi.now field) }
{
    out.extend_from_slice(b"field ")?;
    put_path(out, source, field)?;
    out.push(b' ')?;
    put_owning(out, field_owns(phi, field))?;
    out.push(b'\n')?;
    Ok(())
}

/// Adds the lines of all fields.
pub(crate) fn put_fields(out: &mut Vec<u8>, source: &Source, phi: &[bool]) -> Result<(), Memory>
    ensures { OnOk result (out.new.items ≡ out.old.items ++ field_lines source.now.typed.now source.now.graph.now phi.now) }
{
    for before in 0..source.fields.count() {
        put_field(out, source, phi, before + 1)?;
    }
    Ok(())
}

/// Adds the types of parameters of which none owns.
fn put_types(out: &mut Vec<u8>, kinds: &[SlotType]) -> Result<(), Memory>
    ensures { OnOk result (out.new.items ≡ out.old.items ++ extern_params kinds.now) }
{
    for place in 0..kinds.len() {
        put_comma(out, place)?;
        put_kind(out, kinds[place], false)?;
    }
    Ok(())
}

/// Adds the line of a procedure without a body.
fn put_extern(out: &mut Vec<u8>, source: &Source, proc: u32) -> Result<(), Memory>
    requires { proc < length source.now.graph.now.procs }
    ensures { OnOk result (out.new.items ≡ out.old.items ++ extern_line source.now.typed.now source.now.graph.now proc) }
{
    out.extend_from_slice(b"extern ")?;
    out.extend_from_slice(proc_name(source.typed, proc))?;
    out.push(b'(')?;
    put_types(out, source.graph.params(proc))?;
    out.extend_from_slice(b") -> ")?;
    put_result(out, source.graph.result(proc), false)?;
    out.push(b'\n')?;
    Ok(())
}

/// Adds the lines of all procedures without a body.
pub(crate) fn put_externs(out: &mut Vec<u8>, source: &Source) -> Result<(), Memory>
    ensures { OnOk result (out.new.items ≡ out.old.items ++ extern_lines source.now.typed.now source.now.graph.now) }
{
    source.graph.law();
    let bodies = source.graph.bodies();
    for after in 0..source.graph.procs() - bodies {
        put_extern(out, source, bodies + after)?;
    }
    Ok(())
}
