ghost use Rattle.std.specs.Prelude.{◌≡◌, ◌+◌, ◌++◌, ◌<◌, ◌^◌, length, IfOk, OnOk};
ghost use Rattle.owner_vars.specs.Fields.{structs_of, points_to, pointer_members};
ghost use Rattle.owner_vars.specs.Tables.{member_rows, owners_in, targets_in};

use crate::field_table::{Fields, Member, StructRow};
use crate::tables::pointer_count;
use c_tree::Memory;
use c_types::SlotType;
use flow_graph::Graph;
use std::alloc::Global;
use zo_core::NumberRange;

/// The pointer fields of a graph. It takes time linear in the members of all structs.
pub fn fields(alloc: Global, graph: &Graph) -> Result<Fields, Memory>
    ensures { IfOk result (λ f. f ≡ structs_of graph.now) }
{
    graph.law();
    let mut structs = Vec::new(alloc);
    let mut owners = Vec::new(alloc);
    let mut places = Vec::new(alloc);
    let mut targets = Vec::new(alloc);
    let mut first = 1;
    for structure in 0..graph.structs() {
        let kinds = graph.members(structure);
        let members = member_rows(alloc, first, kinds)?;
        add_pointers(structure, kinds, &mut owners, &mut targets)?;
        add_places(kinds, &mut places)?;
        let count = pointer_count(kinds) as u32;
        structs.push(StructRow {
            range: NumberRange { first, count },
            members,
        })?;
        first += count;
    }
    Ok(Fields {
        structs,
        owners,
        members: places,
        targets,
    })
}

/// Members of these types, of which the first pointer has this number.
fn member_rows(alloc: Global, first: u32, kinds: &[SlotType]) -> Result<Vec<Member>, Memory>
    requires { first + length kinds.now < 2 ^ 32 }
    ensures { IfOk result (λ rows. rows.items ≡ member_rows first kinds.now) }
{
    let mut rows = Vec::new(alloc);
    let mut number = first;
    for kind in kinds {
        rows.push(Member {
            kind: *kind,
            number,
        })?;
        number += u32::from(kind.is_pointer());
    }
    Ok(rows)
}

/// Adds the pointers among a struct's members: the struct, and where each leads.
fn add_pointers(
    structure: u32,
    kinds: &[SlotType],
    owners: &mut Vec<u32>,
    targets: &mut Vec<Option<u32>>,
) -> Result<(), Memory>
    ensures owners { OnOk result (owners.new.items ≡ owners.old.items ++ owners_in structure kinds.now) }
    ensures targets { OnOk result (targets.new.items ≡ targets.old.items ++ targets_in kinds.now) }
{
    for kind in kinds {
        if kind.is_pointer() {
            owners.push(structure)?;
            targets.push(points_to(*kind))?;
        }
    }
    Ok(())
}

/// Adds which of a struct's members are pointers.
fn add_places(kinds: &[SlotType], places: &mut Vec<u32>) -> Result<(), Memory>
    requires { length kinds.now < 2 ^ 32 }
    ensures { OnOk result (places.new.items ≡ places.old.items ++ pointer_members kinds.now) }
{
    for (place, kind) in kinds.iter().enumerate() {
        if kind.is_pointer() {
            places.push(place as u32)?;
        }
    }
    Ok(())
}

/// The struct to which a pointer of this type leads.
fn points_to(kind: SlotType) -> Option<u32>
    ensures { result ≡ points_to kind }
{
    match kind {
        SlotType::StructPtr(structure) => Some(structure),
        SlotType::Int | SlotType::Char | SlotType::IntPtr | SlotType::CharPtr => None,
    }
}
