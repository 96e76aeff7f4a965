ghost use Rattle.std.specs.Prelude.{◌≡◌, ◌<◌, ◌^◌, ◌%◌, ◌∷◌, ◌++◌, [], map, length, take, option_map, OnOk, IfOk};
ghost use Rattle.c_tree.specs.Nodes.{stmt_nodes, stmt_count, body_count, tree_size};
ghost use Rattle.c_tree.specs.View.{stmt_view, tree_view};
ghost use Rattle.c_types.specs.Fits.{kinds_of, params_of};
ghost use Rattle.std.specs.List.{All};
ghost use Rattle.flow_graph.specs.Fits.{ConstantsFit};
ghost use Rattle.flow_graph.specs.Numbers.{type_of_code, place_of_key, last_places, places_of, sorted, ranks};
ghost use Rattle.flow_graph.specs.Strings.{strings, string_numbers};
ghost use Rattle.flow_graph.specs.GraphOf.{member_types, numbering, temp_types, body_flow, external_flow, flow_of_proc, strings_of, body_of, flows_from, all_strings};

use crate::graph::{Flow, SlotTypes};
use crate::keys::{in_order, mark, ranks, sorted};
use crate::numbering::{Numbering, place_keys, small, temp_keys};
use crate::raw::RawEdge;
use crate::stmts::body_edges;
use crate::strings::{Strings, see_stmt};
use crate::table::edge_rows;
use c_tree::{Bytes, Memory, Place, Stmt, Tree};
use c_types::{MemberInfo, ProcInfo, SlotInfo, SlotType, StructInfo};
use std::alloc::Global;
use std::mem;

/// The types of the members of a struct.
fn kinds_of_members(alloc: Global, members: &[MemberInfo]) -> Result<Vec<SlotType>, Memory>
    ensures { IfOk result (λ ts. ts.items ≡ map (λ m. m.kind) members.now) }
{
    let mut kinds = Vec::new(alloc);
    for m in members {
        kinds.push(m.kind)?;
    }
    Ok(kinds)
}

/// The types of the members of each struct.
pub(crate) fn member_types(alloc: Global, structs: &[StructInfo]) -> Result<Vec<SlotTypes>, Memory>
    ensures { IfOk result (λ ts. ts.items ≡ member_types structs.now) }
{
    let mut rows = Vec::new(alloc);
    for s in structs {
        let items = kinds_of_members(alloc, s.members.items.as_slice())?;
        rows.push(SlotTypes { items })?;
    }
    Ok(rows)
}

/// The types of slots.
fn kinds_of(alloc: Global, slots: &[SlotInfo]) -> Result<Vec<SlotType>, Memory>
    ensures { IfOk result (λ ts. ts.items ≡ kinds_of slots.now) }
{
    let mut kinds = Vec::new(alloc);
    for x in slots {
        kinds.push(x.kind)?;
    }
    Ok(kinds)
}

fn type_of_code(code: usize) -> Result<SlotType, Memory>
    ensures { IfOk result (λ t. t ≡ type_of_code code) }
{
    if code == 0 {
        return Ok(SlotType::Int);
    }
    if code == 1 {
        return Ok(SlotType::Char);
    }
    if code == 2 {
        return Ok(SlotType::IntPtr);
    }
    if code == 3 {
        return Ok(SlotType::CharPtr);
    }
    match u32::try_from(code - 4) {
        Ok(number) => Ok(SlotType::StructPtr(number)),
        Err(_) => Err(Memory),
    }
}

/// Appends the types of the temporaries of these keys.
fn push_temp_types(types: usize, keys: &[usize], slots: &mut Vec<SlotType>) -> Result<(), Memory>
    requires { 0 < types }
    ensures { OnOk result (slots.new.items ≡ slots.old.items ++ map (λ k. type_of_code (k % types)) keys.now) }
{
    for k in keys {
        let kind = type_of_code(*k % types)?;
        slots.push(kind)?;
    }
    Ok(())
}

fn place_of_key(key: usize) -> Result<Place, Memory>
    ensures { IfOk result (λ p. p ≡ place_of_key key) }
{
    match u32::try_from(key / 4) {
        Ok(n) => Ok(Place::At(n, (key % 4) as u8)),
        Err(_) => Err(Memory),
    }
}

/// The places of a body, given the keys of those of its nodes.
fn places_of(alloc: Global, main: bool, keys: &[usize]) -> Result<Vec<Place>, Memory>
    ensures { IfOk result (λ ps. ps.items ≡ Place.In ∷ map place_of_key keys.now ++ last_places main) }
{
    let mut places = Vec::new(alloc);
    places.push(Place::In)?;
    for k in keys {
        let place = place_of_key(*k)?;
        places.push(place)?;
    }
    if main {
        places.push(Place::End)?;
    }
    places.push(Place::Out)?;
    Ok(places)
}

/// Keys in order, and for each number how many of them lie below it.
#[derive(Drop)]
struct Order {
    pub sorted: Vec<usize>,
    pub ranks: Vec<u32>,
}

fn order_of(alloc: Global, keys: &[usize]) -> Result<Order, Memory>
    ensures sorted { IfOk result (λ o. o.sorted.items ≡ sorted keys.now) }
    ensures ranks { IfOk result (λ o. o.ranks.items ≡ ranks keys.now) }
{
    let marks = mark(alloc, keys)?;
    let sorted = sorted(alloc, keys, marks.as_slice())?;
    let ranks = ranks(alloc, keys, marks.as_slice())?;
    Ok(Order { sorted, ranks })
}

/// The types of the parameters.
fn param_types(alloc: Global, info: &ProcInfo) -> Result<Vec<SlotType>, Memory>
    ensures { IfOk result (λ ts. ts.items ≡ params_of info.now) }
{
    let mut params = kinds_of(alloc, info.slots.items.as_slice())?;
    params.truncate(info.params as usize);
    Ok(params)
}

/// The types of the slots, those of the temporaries of these keys last.
fn all_slot_types(
    alloc: Global,
    types: usize,
    info: &ProcInfo,
    keys: &[usize],
) -> Result<Vec<SlotType>, Memory>
    requires { 0 < types }
    ensures { IfOk result (λ ts. ts.items ≡ kinds_of info.now.slots ++ map (λ k. type_of_code (k % types)) keys.now) }
{
    let mut slots = kinds_of(alloc, info.slots.items.as_slice())?;
    push_temp_types(types, keys, &mut slots)?;
    Ok(slots)
}

/// A procedure without a body.
fn external_flow(alloc: Global, info: &ProcInfo) -> Result<Flow, Memory>
    ensures { IfOk result (λ f. f ≡ external_flow info.now) }
{
    let params = param_types(alloc, info)?;
    Ok(Flow {
        params,
        result: info.result,
        slots: Vec::new(alloc),
        ret: None,
        places: Vec::new(alloc),
        edges: Vec::new(alloc),
    })
}

/// The places and slots of a body, and the numbers of what its edges name.
#[derive(Drop)]
struct Tables {
    pub places: Vec<Place>,
    pub slots: Vec<SlotType>,
    pub numbers: Numbering,
}

fn tables_of(
    alloc: Global,
    types: usize,
    main: bool,
    texts: Vec<u32>,
    info: &ProcInfo,
    edges: &[RawEdge],
) -> Result<Tables, Memory>
    requires { 0 < types }
    ensures places { IfOk result (λ t. t.places.items ≡ places_of main edges.now) }
    ensures slots { IfOk result (λ t. t.slots.items ≡ kinds_of info.now.slots ++ temp_types types edges.now) }
    ensures numbers { IfOk result (λ t. t.numbers ≡ numbering (length info.now.slots) types main texts.items edges.now) }
{
    let keys = place_keys(alloc, edges)?;
    let Order { sorted, ranks } = order_of(alloc, keys.as_slice())?;
    let temps = in_order(temp_keys(alloc, types, edges)?);
    let places = places_of(alloc, main, sorted.as_slice())?;
    let vars = small(info.slots.items.as_slice().len())?;
    let end = small(sorted.as_slice().len() + 1)?;
    let exit = small(places.as_slice().len() - 1)?;
    let slots = all_slot_types(alloc, types, info, temps.as_slice())?;
    let numbers = Numbering {
        vars,
        types,
        temps,
        places: ranks,
        end,
        exit,
        texts,
    };
    Ok(Tables {
        places,
        slots,
        numbers,
    })
}

/// A procedure with a body, given its edges, and for each node how many strings stand before it.
fn body_flow(
    alloc: Global,
    types: usize,
    main: bool,
    texts: Vec<u32>,
    info: &ProcInfo,
    edges: &[RawEdge],
) -> Result<Flow, Memory>
    requires { 0 < types }
    ensures flow { IfOk result (λ f. f ≡ body_flow types main texts.items info.now edges.now) }
    ensures constants { IfOk result (λ f. ConstantsFit f) }
{
    let Tables {
        places,
        slots,
        numbers,
    } = tables_of(alloc, types, main, texts, info, edges)?;
    let rows = edge_rows(alloc, &numbers, edges, places.as_slice().len())?;
    let params = param_types(alloc, info)?;
    let ret = match info.result {
        Some(_) => Some(small(info.slots.items.as_slice().len())?.saturating_sub(1)),
        None => None,
    };
    Ok(Flow {
        params,
        result: info.result,
        slots,
        ret,
        places,
        edges: rows,
    })
}

/// The strings of a body are appended, and for each of its nodes how many strings stand before it.
#[tactic(auto, using(crate::proofs::StringRows::texts_seen, crate::proofs::StringRows::numbers_seen))]
fn see_body(alloc: Global, s: &Stmt, seen: &mut Strings) -> Result<(), Memory>
    requires { seen.old.numbers ≡ [] }
    ensures texts { OnOk result (seen.new.texts ≡ seen.old.texts ++ strings (stmt_nodes (stmt_view s.now))) }
    ensures numbers { OnOk result (seen.new.numbers ≡ string_numbers (length seen.old.texts) (stmt_nodes (stmt_view s.now))) }
{
    see_stmt(alloc, s, seen)
}

/// The strings of a body are appended; gives for each of its nodes how many strings stand before it.
fn body_strings(alloc: Global, s: &Stmt, seen: &mut Strings) -> Result<Vec<u32>, Memory>
    ensures numbers { IfOk result (λ ns. ns.items ≡ string_numbers (length seen.old.texts) (stmt_nodes (stmt_view s.now))) }
    ensures texts { OnOk result (seen.new.texts ≡ seen.old.texts ++ strings (stmt_nodes (stmt_view s.now))) }
{
    seen.numbers = Vec::new(alloc);
    see_body(alloc, s, seen)?;
    Ok(mem::replace(&mut seen.numbers, Vec::new(alloc)))
}

/// The procedure of a body.
fn flow_with_body(
    alloc: Global,
    types: usize,
    main: bool,
    info: &ProcInfo,
    s: &Stmt,
    seen: &mut Strings,
) -> Result<Flow, Memory>
    requires types { 0 < types }
    requires fits { stmt_count (stmt_view s.now) < 2 ^ 32 }
    ensures flow { IfOk result (λ f. f ≡ flow_of_proc types main (length seen.old.texts) info.now (Some (stmt_view s.now))) }
    ensures constants { IfOk result (λ f. ConstantsFit f) }
    ensures texts { OnOk result (seen.new.texts ≡ seen.old.texts ++ strings (stmt_nodes (stmt_view s.now))) }
{
    let edges = body_edges(alloc, main, info.nodes.items.as_slice(), s)?;
    let texts = body_strings(alloc, s, seen)?;
    body_flow(alloc, types, main, texts, info, edges.as_slice())
}

/// The procedure of an item.
fn flow_of_item(
    alloc: Global,
    types: usize,
    main: bool,
    info: &ProcInfo,
    body: &Option<Stmt>,
    seen: &mut Strings,
) -> Result<Flow, Memory>
    requires types { 0 < types }
    requires fits { body_count (option_map stmt_view body.now) < 2 ^ 32 }
    ensures flow { IfOk result (λ f. f ≡ flow_of_proc types main (length seen.old.texts) info.now (option_map stmt_view body.now)) }
    ensures constants { IfOk result (λ f. ConstantsFit f) }
    ensures texts { OnOk result (seen.new.texts ≡ seen.old.texts ++ strings_of (option_map stmt_view body.now)) }
{
    match body {
        None => external_flow(alloc, info),
        Some(s) => flow_with_body(alloc, types, main, info, s, seen),
    }
}

/// A procedure of a tree.
fn flow_of_proc(
    alloc: Global,
    tree: &Tree,
    types: usize,
    main: bool,
    info: &ProcInfo,
    seen: &mut Strings,
) -> Result<Flow, Memory>
    requires types { 0 < types }
    requires fits { tree_size (tree_view tree.now) < 2 ^ 32 }
    ensures flow { IfOk result (λ f. f ≡ flow_of_proc types main (length seen.old.texts) info.now (body_of tree.now info.now)) }
    ensures constants { IfOk result (λ f. ConstantsFit f) }
    ensures texts { OnOk result (seen.new.texts ≡ seen.old.texts ++ strings_of (body_of tree.now info.now)) }
{
    let items = tree.procs.as_slice();
    match items.get(info.item as usize) {
        None => external_flow(alloc, info),
        Some(item) => flow_of_item(alloc, types, main, info, &item.body, seen),
    }
}

/// The procedures in order, and the strings of their bodies.
#[tactic(auto, using(crate::proofs::FlowRows::flows_at, crate::proofs::FlowRows::all_strings_at))]
pub(crate) fn flows(
    alloc: Global,
    tree: &Tree,
    types: usize,
    main: usize,
    procs: &[ProcInfo],
    seen: &mut Strings,
) -> Result<Vec<Flow>, Memory>
    requires types { 0 < types }
    requires fits { tree_size (tree_view tree.now) < 2 ^ 32 }
    requires none { seen.old.texts ≡ [] }
    ensures flows { IfOk result (λ fs. fs.items ≡ flows_from tree.now types main 0 0 procs.now) }
    ensures constants { IfOk result (λ fs. All ConstantsFit fs.items) }
    ensures texts { OnOk result (seen.new.texts ≡ all_strings tree.now procs.now) }
{
    let mut flows = Vec::new(alloc);
    let mut k = 0;
    for info in procs {
        let flow = flow_of_proc(alloc, tree, types, k == main, info, seen)?;
        flows.push(flow)?;
        k += 1;
    }
    Ok(flows)
}
