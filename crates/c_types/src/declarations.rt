//! The tables of what a file declares.

ghost use Rattle.std.specs.Prelude.{◌≡◌, [], ◌∷◌, ◌++◌, length, map, drop, slice_get, if◌then◌else◌, IfOk, OnOk};
ghost use Rattle.c_tree.specs.View.{proc_view, tree_view};
ghost use Rattle.c_types.specs.Names.{has_name, with_name, with_names};
ghost use Rattle.c_types.specs.Declarations.{member_info, member_infos, fields_with, fields_after, struct_info, defined_infos, named_info, with_body, with_bodies, params_types, result_type, signature, signatures_from, defined_tags, struct_tags, struct_infos, declarations};

use crate::infos::{MemberInfo, MemberInfos, StructInfo, StructInfos};
use crate::kinds::{SlotType, SlotTypes};
use crate::mentions::add_file;
use crate::names::{Names, copy_of};
use crate::tables::{Signature, Signatures, Tables, slot_type};
use c_tree::{Member, Memory, ProcItem, StructDef, Tree, TypeName};
use std::alloc::Global;

#[tactic(auto, using(crate::proofs::Declares::tags_at))]
fn add_tags<'t>(tags: &mut Names<'t>, structs: &'t [StructDef]) -> Result<(), Memory>
    ensures { OnOk result (tags.new ≡ with_names tags.old (map (λ d. d.tag) structs.now)) }
{
    for d in structs {
        tags.add(d.tag.items.as_slice())?;
    }
    Ok(())
}

/// Adds the name of a procedure that has a body.
fn add_body<'t>(names: &mut Names<'t>, p: &'t ProcItem) -> Result<(), Memory>
    ensures { OnOk result (names.new ≡ with_body names.old (proc_view p.now)) }
{
    match &p.body {
        Some(_) => {
            names.add(p.name.items.as_slice())?;
            Ok(())
        }
        None => Ok(()),
    }
}

#[tactic(auto, using(crate::proofs::Declares::with_bodies_at))]
pub(crate) fn add_bodies<'t>(names: &mut Names<'t>, procs: &'t [ProcItem]) -> Result<(), Memory>
    ensures { OnOk result (names.new ≡ with_bodies names.old (map proc_view procs.now)) }
{
    for p in procs {
        add_body(names, p)?;
    }
    Ok(())
}

/// The names of all procedures.
#[tactic(auto, using(crate::proofs::Declares::proc_names_at))]
fn add_names<'t>(names: &mut Names<'t>, procs: &'t [ProcItem]) -> Result<(), Memory>
    ensures { OnOk result (names.new ≡ with_names names.old (map (λ p. p.name) (map proc_view procs.now))) }
{
    for p in procs {
        names.add(p.name.items.as_slice())?;
    }
    Ok(())
}

/// A member where so many pointer fields stand before it, and how many there are after it.
fn numbered_member(
    alloc: Global,
    tags: &Names,
    fields: u32,
    m: &Member,
) -> Result<(MemberInfo, u32), Memory>
    ensures info { IfOk result (λ r. r.0 ≡ member_info tags.now fields m.now) }
    ensures fields { IfOk result (λ r. r.1 ≡ fields_with tags.now fields m.now) }
{
    let kind = slot_type(tags, &m.kind);
    let name = copy_of(alloc, m.name.items.as_slice())?;
    if kind.is_pointer() {
        let field = fields.checked_add(1).ok_or(Memory)?;
        Ok((MemberInfo { name, kind, field }, field))
    } else {
        Ok((
            MemberInfo {
                name,
                kind,
                field: 0,
            },
            fields,
        ))
    }
}

#[tactic(auto, using(crate::proofs::Declares::member_infos_at, crate::proofs::Declares::fields_after_at))]
fn numbered_members(
    alloc: Global,
    tags: &Names,
    fields: u32,
    members: &[Member],
) -> Result<(MemberInfos, u32), Memory>
    ensures infos { IfOk result (λ r. r.0 ≡ member_infos tags.now fields members.now) }
    ensures fields { IfOk result (λ r. r.1 ≡ fields_after tags.now fields members.now) }
{
    let mut items = Vec::new(alloc);
    let mut next = fields;
    for m in members {
        let (info, after) = numbered_member(alloc, tags, next, m)?;
        items.push(info)?;
        next = after;
    }
    Ok((MemberInfos { items }, next))
}

/// A struct that has a definition, where so many pointer fields stand before it, and how many there
/// are after it.
fn defined_struct(
    alloc: Global,
    tags: &Names,
    fields: u32,
    d: &StructDef,
) -> Result<(StructInfo, u32), Memory>
    ensures info { IfOk result (λ r. r.0 ≡ struct_info tags.now fields d.now) }
    ensures fields { IfOk result (λ r. r.1 ≡ fields_after tags.now fields d.now.members) }
{
    let tag = copy_of(alloc, d.tag.items.as_slice())?;
    let (members, next) = numbered_members(alloc, tags, fields, d.members.as_slice())?;
    Ok((StructInfo { tag, members }, next))
}

/// Adds that struct, and says how many pointer fields there are after it.
fn add_defined(
    alloc: Global,
    tags: &Names,
    fields: u32,
    d: &StructDef,
    infos: &mut Vec<StructInfo>,
) -> Result<u32, Memory>
    ensures infos { OnOk result (infos.new.items ≡ infos.old.items ++ struct_info tags.now fields d.now ∷ []) }
    ensures fields { IfOk result (λ next. next ≡ fields_after tags.now fields d.now.members) }
{
    let (info, next) = defined_struct(alloc, tags, fields, d)?;
    infos.push(info)?;
    Ok(next)
}

/// Adds that struct where it is the first of its tag, and says how many pointer fields there are after
/// it.
fn add_first<'t>(
    alloc: Global,
    tags: &Names,
    seen: &mut Names<'t>,
    fields: u32,
    d: &'t StructDef,
    infos: &mut Vec<StructInfo>,
) -> Result<u32, Memory>
    ensures seen { OnOk result (seen.new ≡ with_name seen.old d.now.tag) }
    ensures infos { OnOk result (infos.new.items ≡ infos.old.items ++ (if has_name seen.old d.now.tag then [] else struct_info tags.now fields d.now ∷ [])) }
    ensures fields { IfOk result (λ next. next ≡ (if has_name seen.old d.now.tag then fields else fields_after tags.now fields d.now.members)) }
{
    if seen.add(d.tag.items.as_slice())? {
        add_defined(alloc, tags, fields, d, infos)
    } else {
        Ok(fields)
    }
}

/// The structs that have a definition; of two definitions of one tag the first counts.
#[tactic(auto, using(crate::proofs::Declares::defined_infos_step))]
fn defined_structs(
    alloc: Global,
    tags: &Names,
    structs: &[StructDef],
) -> Result<Vec<StructInfo>, Memory>
    ensures { IfOk result (λ v. v.items ≡ defined_infos tags.now [] 0 structs.now) }
{
    let mut seen = Names::new(alloc);
    let mut infos = Vec::new(alloc);
    let mut fields = 0;
    for d in structs {
        fields = add_first(alloc, tags, &mut seen, fields, d, &mut infos)?;
    }
    Ok(infos)
}

/// A struct that is only named.
fn named_struct(alloc: Global, tag: &[u8]) -> Result<StructInfo, Memory>
    ensures { IfOk result (λ s. s ≡ named_info tag.now) }
{
    let tag = copy_of(alloc, tag)?;
    let members = MemberInfos {
        items: Vec::new(alloc),
    };
    Ok(StructInfo { tag, members })
}

/// Adds the structs that are only named.
#[tactic(auto, using(crate::proofs::Declares::named_at))]
fn add_named(
    alloc: Global,
    tags: &Names,
    defined: u32,
    infos: &mut Vec<StructInfo>,
) -> Result<(), Memory>
    ensures { OnOk result (infos.new.items ≡ infos.old.items ++ map named_info (drop defined tags.now)) }
{
    for i in defined..tags.len() {
        let info = named_struct(alloc, tags.name(i))?;
        infos.push(info)?;
    }
    Ok(())
}

#[tactic(auto, using(crate::proofs::Declares::params_types_at))]
fn param_types(alloc: Global, tags: &Names, params: &[Member]) -> Result<SlotTypes, Memory>
    ensures { IfOk result (λ ks. ks ≡ params_types tags.now params.now) }
{
    let mut items = Vec::new(alloc);
    for m in params {
        items.push(slot_type(tags, &m.kind))?;
    }
    Ok(SlotTypes { items })
}

pub(crate) fn result_type(tags: &Names, kind: &Option<TypeName>) -> Option<SlotType>
    ensures { result ≡ result_type tags.now kind.now }
{
    match kind {
        Some(k) => Some(slot_type(tags, k)),
        None => None,
    }
}

pub(crate) fn signature(alloc: Global, tags: &Names, p: &ProcItem) -> Result<Signature, Memory>
    ensures { IfOk result (λ s. s ≡ signature tags.now (proc_view p.now)) }
{
    let params = param_types(alloc, tags, p.params.as_slice())?;
    Ok(Signature {
        params,
        result: result_type(tags, &p.result),
    })
}

/// Adds what a procedure's item says.
fn add_signature(
    alloc: Global,
    tags: &Names,
    p: &ProcItem,
    signatures: &mut Vec<Signature>,
) -> Result<(), Memory>
    ensures { OnOk result (signatures.new.items ≡ signatures.old.items ++ signature tags.now (proc_view p.now) ∷ []) }
{
    let own = signature(alloc, tags, p)?;
    signatures.push(own)?;
    Ok(())
}

/// What the first prototype or body of each name says.
#[tactic(auto, using(crate::proofs::Declares::signatures_at))]
fn first_signatures(alloc: Global, tags: &Names, procs: &[ProcItem]) -> Result<Signatures, Memory>
    ensures { IfOk result (λ s. s ≡ signatures_from tags.now [] (map proc_view procs.now)) }
{
    let mut seen = Names::new(alloc);
    let mut items = Vec::new(alloc);
    for p in procs {
        if seen.add(p.name.items.as_slice())? {
            add_signature(alloc, tags, p, &mut items)?;
        }
    }
    Ok(Signatures { items })
}

/// The tags of all structs, how many of these have a definition, and the structs, by number.
#[derive(Drop)]
struct StructTables<'t> {
    tags: Names<'t>,
    defined: u32,
    structs: StructInfos,
}

/// The tags of all structs by number, and how many of these have a definition.
#[tactic(auto, unfolding(crate::specs::Declarations::defined_tags, crate::specs::Declarations::struct_tags))]
fn struct_tags<'t>(alloc: Global, tree: &'t Tree) -> Result<(Names<'t>, u32), Memory>
    ensures tags { IfOk result (λ r. r.0 ≡ struct_tags (tree_view tree.now)) }
    ensures defined { IfOk result (λ r. r.1 ≡ length (defined_tags (tree_view tree.now))) }
{
    let mut tags = Names::new(alloc);
    add_tags(&mut tags, tree.structs.as_slice())?;
    let defined = tags.len();
    add_file(&mut tags, tree.structs.as_slice(), tree.procs.as_slice())?;
    Ok((tags, defined))
}

/// The structs by number, where these are all tags, of which so many have a definition.
fn structs_by_number(
    alloc: Global,
    tags: &Names,
    defined: u32,
    structs: &[StructDef],
) -> Result<StructInfos, Memory>
    ensures { IfOk result (λ r. r ≡ defined_infos tags.now [] 0 structs.now ++ map named_info (drop defined tags.now)) }
{
    let mut items = defined_structs(alloc, tags, structs)?;
    add_named(alloc, tags, defined, &mut items)?;
    Ok(StructInfos { items })
}

/// What the structs of a file say.
#[tactic(auto, unfolding(crate::specs::Declarations::struct_infos))]
fn struct_tables<'t>(alloc: Global, tree: &'t Tree) -> Result<StructTables<'t>, Memory>
    ensures tags { IfOk result (λ r. r.tags ≡ struct_tags (tree_view tree.now)) }
    ensures defined { IfOk result (λ r. r.defined ≡ length (defined_tags (tree_view tree.now))) }
    ensures structs { IfOk result (λ r. r.structs ≡ struct_infos (tree_view tree.now)) }
{
    let (tags, defined) = struct_tags(alloc, tree)?;
    let structs = structs_by_number(alloc, &tags, defined, tree.structs.as_slice())?;
    Ok(StructTables {
        tags,
        defined,
        structs,
    })
}

/// The names of all procedures by number, how many of them have a body, the same names in order of
/// their first prototype or body, and what these say.
#[derive(Drop)]
struct ProcTables<'t> {
    procs: Names<'t>,
    bodies: u32,
    declared: Names<'t>,
    signatures: Signatures,
}

/// The names of all procedures by number, and how many have a body.
fn proc_names<'t>(alloc: Global, procs: &'t [ProcItem]) -> Result<(Names<'t>, u32), Memory>
    ensures names { IfOk result (λ r. r.0 ≡ with_names (with_bodies [] (map proc_view procs.now)) (map (λ p. p.name) (map proc_view procs.now))) }
    ensures bodies { IfOk result (λ r. r.1 ≡ length (with_bodies [] (map proc_view procs.now))) }
{
    let mut names = Names::new(alloc);
    add_bodies(&mut names, procs)?;
    let bodies = names.len();
    add_names(&mut names, procs)?;
    Ok((names, bodies))
}

/// The names of all procedures, in order of their first prototype or body.
fn declared_names<'t>(alloc: Global, procs: &'t [ProcItem]) -> Result<Names<'t>, Memory>
    ensures { IfOk result (λ names. names ≡ with_names [] (map (λ p. p.name) (map proc_view procs.now))) }
{
    let mut names = Names::new(alloc);
    add_names(&mut names, procs)?;
    Ok(names)
}

/// What the procedures of a file say, where these are the tags of all structs.
fn proc_tables<'t>(
    alloc: Global,
    tags: &Names,
    procs: &'t [ProcItem],
) -> Result<ProcTables<'t>, Memory>
    ensures procs { IfOk result (λ r. r.procs ≡ with_names (with_bodies [] (map proc_view procs.now)) (map (λ p. p.name) (map proc_view procs.now))) }
    ensures bodies { IfOk result (λ r. r.bodies ≡ length (with_bodies [] (map proc_view procs.now))) }
    ensures declared { IfOk result (λ r. r.declared ≡ with_names [] (map (λ p. p.name) (map proc_view procs.now))) }
    ensures signatures { IfOk result (λ r. r.signatures ≡ signatures_from tags.now [] (map proc_view procs.now)) }
{
    let (names, bodies) = proc_names(alloc, procs)?;
    let declared = declared_names(alloc, procs)?;
    let signatures = first_signatures(alloc, tags, procs)?;
    Ok(ProcTables {
        procs: names,
        bodies,
        declared,
        signatures,
    })
}

/// Both tables in one.
fn tables_of<'t>(structs: StructTables<'t>, procs: ProcTables<'t>) -> Tables<'t>
    ensures tags { result.tags ≡ structs.entry.tags }
    ensures defined { result.defined ≡ structs.entry.defined }
    ensures structs { result.structs ≡ structs.entry.structs }
    ensures procs { result.procs ≡ procs.entry.procs }
    ensures bodies { result.bodies ≡ procs.entry.bodies }
    ensures declared { result.declared ≡ procs.entry.declared }
    ensures signatures { result.signatures ≡ procs.entry.signatures }
{
    Tables {
        tags: structs.tags,
        defined: structs.defined,
        structs: structs.structs,
        procs: procs.procs,
        bodies: procs.bodies,
        declared: procs.declared,
        signatures: procs.signatures,
    }
}

/// What the declarations of a file say.
#[tactic(auto, unfolding(crate::specs::Declarations::body_names, crate::specs::Declarations::proc_names, crate::specs::Declarations::declared_names, crate::specs::Declarations::signatures))]
pub(crate) fn declarations<'t>(alloc: Global, tree: &'t Tree) -> Result<Tables<'t>, Memory>
    ensures { IfOk result (λ tables. tables ≡ declarations (tree_view tree.now)) }
{
    let structs = struct_tables(alloc, tree)?;
    let procs = proc_tables(alloc, &structs.tags, tree.procs.as_slice())?;
    Ok(tables_of(structs, procs))
}
