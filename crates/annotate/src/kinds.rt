ghost use Rattle.std.specs.Prelude.{◌≡◌, ◌++◌, OnOk};
ghost use Rattle.annotate.specs.Annotation.{owning_text, kind_text, result_text, comma};

use c_tree::Memory;
use c_types::SlotType;

/// Adds what a bit says of a pointer.
pub(crate) fn put_owning(out: &mut Vec<u8>, owns: bool) -> Result<(), Memory>
    ensures { OnOk result (out.new.items ≡ out.old.items ++ owning_text owns) }
{
    out.extend_from_slice(if owns { b"owns" } else { b"borrows" })?;
    Ok(())
}

/// Adds a type; of a pointer, whether it owns.
pub(crate) fn put_kind(out: &mut Vec<u8>, kind: SlotType, owns: bool) -> Result<(), Memory>
    ensures { OnOk result (out.new.items ≡ out.old.items ++ kind_text kind owns) }
{
    match kind {
        SlotType::Int => out.extend_from_slice(b"int")?,
        SlotType::Char => out.extend_from_slice(b"char")?,
        SlotType::IntPtr | SlotType::CharPtr | SlotType::StructPtr(_) => put_owning(out, owns)?,
    }
    Ok(())
}

/// Adds the type of a result.
pub(crate) fn put_result(
    out: &mut Vec<u8>,
    kind: Option<SlotType>,
    owns: bool,
) -> Result<(), Memory>
    ensures { OnOk result (out.new.items ≡ out.old.items ++ result_text kind owns) }
{
    match kind {
        Some(kind) => put_kind(out, kind, owns),
        None => {
            out.extend_from_slice(b"void")?;
            Ok(())
        }
    }
}

/// Adds what stands before a parameter.
pub(crate) fn put_comma(out: &mut Vec<u8>, place: usize) -> Result<(), Memory>
    ensures { OnOk result (out.new.items ≡ out.old.items ++ comma place) }
{
    if place > 0 {
        out.extend_from_slice(b", ")?;
    }
    Ok(())
}
