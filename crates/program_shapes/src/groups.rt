ghost use Rattle.std.specs.Prelude.{◌≡◌, ℕ, ◌+◌, length, sum_by, IfOk};
ghost use Rattle.verdict_meaning.specs.Systems.{System};
ghost use Rattle.unit_answers.specs.Layouts.{AreGroupNumbers, IsLayoutOf};
ghost use Rattle.program_shapes.specs.Tables.{AreGroupTables, AreSitesOf, IsGroupTable, parts_there};

use c_tree::Memory;
use std::alloc::Global;
use std::marker::Model;
use unit_answers::{Call, GroupLayout, Layout};
use verdict_meaning::Callee;

/// A site of a group or of the root.
#[derive(Clone, Copy)]
pub(crate) struct SiteShape {
    /// Whom it calls.
    pub(crate) callee: Callee,
    /// How many unknowns of the group are before its own.
    pub(crate) before: u32,
}

/// What there is of a group or of the root.
#[derive(Drop)]
pub(crate) struct GroupShape {
    /// How many unknowns.
    pub(crate) count: u32,
    /// How many parts the interfaces of its members have.
    pub(crate) own_parts: u32,
    /// How many parts the interfaces have that its sites call.
    pub(crate) site_parts: u32,
    pub(crate) sites: Vec<SiteShape>,
}

impl Model for GroupShape {
    ghost use Rattle.program_shapes.specs.Tables.{GroupTable};

    ghost Value = { GroupTable };

    ghost view = { λ g. record { count = g.count; own = g.own_parts; called = g.site_parts; sites = g.sites.items } };
}

/// The tables of all groups, and last the root's.
pub(crate) fn group_shapes(alloc: Global, layout: &Layout) -> Result<Vec<GroupShape>, Memory>
    ensures { IfOk result (λ gs. (s : System) → IsLayoutOf s layout.now → AreGroupTables s gs.items) }
{
    let fields = layout.fields;
    let mut shapes = Vec::new(alloc);
    for numbers in &layout.groups {
        let shape = group_shape(alloc, fields, numbers)?;
        shapes.push(shape)?;
    }
    Ok(shapes)
}

/// The table of a group, where there are so many fields.
fn group_shape(alloc: Global, fields: u32, numbers: &GroupLayout) -> Result<GroupShape, Memory>
    ensures { IfOk result (λ x. (s : System) → (g : ℕ) → fields ≡ s.fields → AreGroupNumbers s g numbers.now → IsGroupTable s g x) }
{
    let outer = numbers.outer;
    let calls = numbers.calls.as_slice();
    let sites = site_shapes(alloc, outer, calls)?;
    let site_parts = parts_called(calls)?;
    Ok(GroupShape {
        count: numbers.count,
        own_parts: outer.saturating_sub(fields),
        site_parts,
        sites,
    })
}

/// The sites that make calls, with so many unknowns before those of the first.
fn site_shapes(alloc: Global, outer: u32, calls: &[Call]) -> Result<Vec<SiteShape>, Memory>
    ensures { IfOk result (λ xs. AreSitesOf outer (length calls.now) calls.now xs.items) }
{
    let mut sites = Vec::new(alloc);
    let mut before = outer;
    for call in calls {
        sites.push(SiteShape {
            callee: call.callee,
            before,
        })?;
        before = sum(before, call.there.count)?;
    }
    Ok(sites)
}

/// How many parts the interfaces have that are called.
fn parts_called(calls: &[Call]) -> Result<u32, Memory>
    ensures { IfOk result (λ n. n ≡ sum_by parts_there calls.now) }
{
    let mut parts = 0;
    for call in calls {
        parts = sum(parts, call.there.count)?;
    }
    Ok(parts)
}

/// The sum of two numbers. One that is no number of unknowns is answered as want of memory.
pub(crate) fn sum(one: u32, other: u32) -> Result<u32, Memory>
    ensures { IfOk result (λ n. n ≡ one + other) }
{
    match one.checked_add(other) {
        Some(sum) => Ok(sum),
        None => Err(Memory),
    }
}
