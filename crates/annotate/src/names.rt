ghost use Rattle.std.specs.Prelude.{◌≡◌, ◌++◌, decimal, None, Some, MatchOption, OnOk};
ghost use Rattle.annotate.specs.Names.{item_of, proc_name, slots_of, declared_text, slot_text, struct_tag, member_name};

use c_tree::{Memory, ProcItem};
use c_types::{SlotInfo, Typed};
use itoa::Buffer;

/// The body of a procedure, or its first prototype where it has none.
pub(crate) fn item_of(typed: &Typed, proc: u32) -> Option<&ProcItem>
    ensures { MatchOption result (item_of typed.now proc ≡ None) (λ i. item_of typed.now proc ≡ Some i.now) }
{
    match typed.procs.items.get(proc as usize) {
        Some(info) => typed.tree.procs.as_slice().get(info.item as usize),
        None => None,
    }
}

/// The name of a procedure.
pub(crate) fn proc_name(typed: &Typed, proc: u32) -> &[u8]
    ensures { result.now ≡ proc_name typed.now proc }
{
    match item_of(typed, proc) {
        Some(item) => item.name.items.as_slice(),
        None => &[],
    }
}

/// The parameters, the locals and the result of a procedure.
pub(crate) fn slots_of(typed: &Typed, proc: u32) -> &[SlotInfo]
    ensures { result.now ≡ slots_of typed.now proc }
{
    match typed.procs.items.get(proc as usize) {
        Some(info) => info.slots.items.as_slice(),
        None => &[],
    }
}

/// The tag of a struct.
pub(crate) fn struct_tag(typed: &Typed, structure: u32) -> &[u8]
    ensures { result.now ≡ struct_tag typed.now structure }
{
    match typed.structs.items.get(structure as usize) {
        Some(info) => info.tag.items.as_slice(),
        None => &[],
    }
}

/// The name of a member of a struct.
pub(crate) fn member_name(typed: &Typed, structure: u32, member: u32) -> &[u8]
    ensures { result.now ≡ member_name typed.now structure member }
{
    match typed.structs.items.get(structure as usize) {
        Some(info) => match info.members.items.get(member as usize) {
            Some(member) => member.name.items.as_slice(),
            None => &[],
        },
        None => &[],
    }
}

/// Adds a number in decimal.
pub(crate) fn put_number(out: &mut Vec<u8>, number: u32) -> Result<(), Memory>
    ensures { OnOk result (out.new.items ≡ out.old.items ++ decimal number) }
{
    let mut buffer = Buffer::new();
    out.extend_from_slice(buffer.format(number).as_bytes())?;
    Ok(())
}

/// Adds a name with the line of its declaration, where it is not the empty one.
fn put_declared(out: &mut Vec<u8>, name: &[u8], line: u32) -> Result<(), Memory>
    ensures { OnOk result (out.new.items ≡ out.old.items ++ declared_text name.now line) }
{
    if name.is_empty() {
        out.extend_from_slice(b"ret")?;
        return Ok(());
    }
    out.extend_from_slice(name)?;
    out.push(b':')?;
    put_number(out, line)
}

/// Adds what a slot is called.
pub(crate) fn put_slot(out: &mut Vec<u8>, typed: &Typed, proc: u32, slot: u32) -> Result<(), Memory>
    ensures { OnOk result (out.new.items ≡ out.old.items ++ slot_text typed.now proc slot) }
{
    match slots_of(typed, proc).get(slot as usize) {
        Some(info) => put_declared(out, info.name.items.as_slice(), info.at.line),
        None => {
            out.extend_from_slice(b"tmp")?;
            Ok(())
        }
    }
}
