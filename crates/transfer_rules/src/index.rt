ghost use Rattle.std.specs.Prelude.{◌≡◌, ℕ, ◌<◌, suc, ◌+◌, ◌++◌, [], ◌∷◌, length, map, slice_index_or, IfOk, OnOk};
ghost use Rattle.std.specs.List.{range_with_len, All};
ghost use Rattle.std.specs.List.Sorted.{IsStrictlyIncreasing};
ghost use Rattle.flow_graph.specs.FlowGraph.{flow_of};
ghost use Rattle.flow_graph.specs.Fits.{IsFlowGraph};
ghost use Rattle.owner_vars.specs.Fields.{structs_of, field_target};
ghost use Rattle.owner_vars.specs.Unknowns.{field_count, sites};
ghost use Rattle.field_rules.specs.Lists.{gather, when};
ghost use Rattle.field_rules.specs.Sight.{leads_to};
ghost use Rattle.transfer_rules.specs.Programs.{pointer_slots, target_fields, ArePointers, AreTargets, AreLookups};

use c_tree::Memory;
use flow_graph::{Graph, Numbers};
use owner_vars::{Fields, Sites, sites};
use recursion_groups::Groups;
use std::alloc::Global;
use std::marker::Model;

/// What is looked up of a program.
#[derive(Drop)]
pub(crate) struct Index {
    pub fields: Fields,
    /// The sites of each group.
    pub sites: Vec<Sites>,
    /// For each procedure with a body the slots that are pointers.
    pub pointers: Vec<Numbers>,
    /// For each struct the pointer fields that point to it.
    pub targets: Vec<Numbers>,
}

impl Model for Index {
    ghost use Rattle.transfer_rules.specs.Programs.{Lookups};

    ghost Value = { Lookups };

    ghost view = { λ i. record { fields = i.fields; sites = i.sites.items; pointers = i.pointers.items; targets = i.targets.items } };
}

impl Index {
    /// The index of a program.
    pub(crate) fn new(
        alloc: Global,
        graph: &Graph,
        groups: &Groups,
        fields: Fields,
    ) -> Result<Index, Memory>
        requires fields { fields ≡ structs_of graph.now }
        requires ascend { All IsStrictlyIncreasing groups.now }
        requires bodies { All (All (λ k. k < graph.now.bodies)) groups.now }
        ensures { IfOk result (AreLookups graph.now groups.now) }
    {
        let sites = group_sites(alloc, graph, groups)?;
        let pointers = pointers(alloc, graph)?;
        let targets = targets(alloc, graph, &fields)?;
        Ok(Index {
            fields,
            sites,
            pointers,
            targets,
        })
    }
}

impl Index {
    /// The slots of a procedure that are pointers.
    pub(crate) fn pointers(&self, proc: u32) -> &[u32]
        requires { proc < length self.now.pointers }
        ensures { result.now ≡ slice_index_or self.now.pointers proc [] }
    {
        let slots = &self.pointers[proc as usize];
        slots.items.as_slice()
    }
}

/// The sites of each group.
fn group_sites(alloc: Global, graph: &Graph, groups: &Groups) -> Result<Vec<Sites>, Memory>
    requires ascend { All IsStrictlyIncreasing groups.now }
    requires bodies { All (All (λ k. k < graph.now.bodies)) groups.now }
    ensures { IfOk result (λ ss. ss.items ≡ map (sites graph.now) groups.now) }
{
    let mut out = Vec::new(alloc);
    for group in &groups.items {
        out.push(sites(alloc, graph, &group.items)?)?;
    }
    Ok(out)
}

/// For each procedure with a body the slots that are pointers.
fn pointers(alloc: Global, graph: &Graph) -> Result<Vec<Numbers>, Memory>
    ensures { IfOk result (λ ps. ArePointers graph.now ps.items) }
{
    let mut out = Vec::new(alloc);
    for proc in 0..graph.bodies() {
        out.push(pointers_of(alloc, graph, proc)?)?;
    }
    Ok(out)
}

/// The slots of a procedure that are pointers.
fn pointers_of(alloc: Global, graph: &Graph, proc: u32) -> Result<Numbers, Memory>
    requires graph { IsFlowGraph graph.now }
    requires body { proc < graph.now.bodies }
    ensures { IfOk result (λ xs. xs ≡ pointer_slots graph.now proc) }
{
    let kinds = graph.slots(proc);
    let mut items = Vec::new(alloc);
    for x in 0..kinds.len() {
        if kinds[x].is_pointer() {
            items.push(x as u32)?;
        }
    }
    Ok(Numbers { items })
}

/// For each struct the pointer fields that point to it.
fn targets(alloc: Global, graph: &Graph, fields: &Fields) -> Result<Vec<Numbers>, Memory>
    requires { fields.now ≡ structs_of graph.now }
    ensures { IfOk result (λ ts. AreTargets graph.now ts.items) }
{
    let mut out = no_lists(alloc, graph.structs())?;
    for j in 0..fields.count() {
        add_target(&mut out, fields.target(j + 1), j + 1)?;
    }
    Ok(out)
}

/// So many lists without elements.
fn no_lists(alloc: Global, count: u32) -> Result<Vec<Numbers>, Memory>
    ensures count { IfOk result (λ ls. length ls.items ≡ count) }
    ensures each { IfOk result (λ ls. (s : ℕ) → s < count → slice_index_or ls.items s [] ≡ []) }
{
    let mut out = Vec::new(alloc);
    for n in 0..count {
        let _ = n;
        out.push(Numbers {
            items: Vec::new(alloc),
        })?;
    }
    Ok(out)
}

/// Adds a field to those that point to its struct.
fn add_target(lists: &mut Vec<Numbers>, target: Option<u32>, field: u32) -> Result<(), Memory>
    ensures length { OnOk result (length lists.new.items ≡ length lists.old.items) }
    ensures each { OnOk result ((s : ℕ) → s < length lists.old.items
        → slice_index_or lists.new.items s [] ≡ slice_index_or lists.old.items s [] ++ when (leads_to target s) (field ∷ [])) }
{
    let Some(structure) = target else {
        return Ok(());
    };
    if structure as usize >= lists.len() {
        return Ok(());
    }
    lists[structure as usize].items.push(field)?;
    Ok(())
}
