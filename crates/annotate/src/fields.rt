ghost use Rattle.std.specs.Prelude.{◌≡◌, ◌≤◌, ◌<◌, ◌++◌, OnOk};
ghost use Rattle.owner_vars.specs.Unknowns.{field_count};
ghost use Rattle.annotate.specs.Fields.{field_name, field_path, is_field};
ghost use Rattle.annotate.specs.Names.{struct_tag};
ghost use Rattle.owner_vars.specs.Fields.{field_owner};

use crate::names::{member_name, struct_tag};
use crate::source::Source;
use c_tree::Memory;

/// Whether there is a pointer field of this number, which are counted from 1.
pub(crate) fn is_field(source: &Source, field: u32) -> bool
    ensures { result ≡ is_field source.now.graph.now field }
{
    0 < field && field <= source.fields.count()
}

/// The name of a pointer field.
pub(crate) fn field_name<'a>(source: &'a Source, field: u32) -> &'a [u8]
    requires some { 0 < field }
    requires within { field ≤ field_count source.now.graph.now }
    ensures { result.now ≡ field_name source.now.typed.now source.now.graph.now field }
{
    let structure = source.fields.owner(field);
    member_name(source.typed, structure, source.fields.member(field))
}

/// The tag of the struct that has a pointer field.
fn field_tag<'a>(source: &'a Source, field: u32) -> &'a [u8]
    requires some { 0 < field }
    requires within { field ≤ field_count source.now.graph.now }
    ensures { result.now ≡ struct_tag source.now.typed.now (field_owner source.now.graph.now field) }
{
    struct_tag(source.typed, source.fields.owner(field))
}

/// Adds the struct and the name of a pointer field.
pub(crate) fn put_path(out: &mut Vec<u8>, source: &Source, field: u32) -> Result<(), Memory>
    requires some { 0 < field }
    requires within { field ≤ field_count source.now.graph.now }
    ensures { OnOk result (out.new.items ≡ out.old.items ++ field_path source.now.typed.now source.now.graph.now field) }
{
    out.extend_from_slice(field_tag(source, field))?;
    out.push(b'.')?;
    out.extend_from_slice(field_name(source, field))?;
    Ok(())
}
