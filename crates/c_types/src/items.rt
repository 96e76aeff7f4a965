//! The rules of declarations, and the procedures of a file.

ghost use Rattle.std.specs.Prelude.{◌≡◌, [], ◌∷◌, ◌++◌, ◌&&◌, ◌||◌, not, map, is_some, is_none, true, false, option_map, IfOk, OnOk};
ghost use Rattle.std.specs.Option.{option_map_or};
ghost use Rattle.c_tree.specs.View.{proc_view, stmt_view};
ghost use Rattle.c_types.specs.Breaches.{soonest, sooner, breach_if};
ghost use Rattle.c_types.specs.Names.{has_name, with_name};
ghost use Rattle.c_types.specs.Types.{is_pointer, same_types, same_result, same_signature};
ghost use Rattle.c_types.specs.Scopes.{is_empty, no_scope, breaks_5, with_param, with_params};
ghost use Rattle.c_types.specs.Declarations.{has_body, signature_of, with_body, with_bodies};
ghost use Rattle.c_types.specs.Items.{breaks_3, breaks_4, members_breaches, structs_breaches, params_breaches, body_breaches, body_after, body_infos, ret_slots, proc_breaches, procs_breaches, proc_info, chosen, with_prototype, bodied_infos, external_infos};

use crate::declarations::{add_bodies, result_type, signature};
use crate::exprs::either;
use crate::infos::{NodeInfo, NodeInfos, ProcInfo, SlotInfo, SlotInfos};
use crate::kinds::{SlotType, same_type};
use crate::names::{Names, number_of};
use crate::rules::{Breach, breach_if, sooner};
use crate::scope::OpenScopes;
use crate::stmts::{Context, check_stmt, check_stmts, note_plain};
use crate::tables::{Signature, Tables, slot_type};
use c_tree::{Member, Memory, Name, ProcItem, Span, Stmt, StmtForm, StructDef};
use std::alloc::Global;

/// Adds the name, and says whether it was there.
fn repeats<'t>(names: &mut Names<'t>, name: &'t Name) -> Result<bool, Memory>
    ensures again { IfOk result (λ again. again ≡ has_name names.old name.now) }
    ensures names { OnOk result (names.new ≡ with_name names.old name.now) }
{
    let again = names.has(name.items.as_slice());
    names.add(name.items.as_slice())?;
    Ok(again)
}

fn check_member<'t>(seen: &mut Names<'t>, m: &'t Member) -> Result<Option<Breach>, Memory>
    ensures first { IfOk result (λ b. b ≡ breach_if soonest (has_name seen.old m.now.name) m.now.at 2) }
    ensures names { OnOk result (seen.new ≡ with_name seen.old m.now.name) }
{
    let again = repeats(seen, &m.name)?;
    Ok(breach_if(again, m.at, 2))
}

/// The members of a struct have different names.
#[tactic(auto, using(crate::proofs::ItemRows::members_breaches_at, crate::proofs::Firsts::sooner_assoc, crate::proofs::Firsts::sooner_left, crate::proofs::Firsts::sooner_right))]
fn check_members(alloc: Global, members: &[Member]) -> Result<Option<Breach>, Memory>
    ensures { IfOk result (λ b. b ≡ members_breaches soonest [] members.now) }
{
    let mut seen = Names::new(alloc);
    let mut first = None;
    for m in members {
        let found = check_member(&mut seen, m)?;
        first = sooner(first, found);
    }
    Ok(first)
}

fn check_struct<'t>(
    alloc: Global,
    seen: &mut Names<'t>,
    d: &'t StructDef,
) -> Result<Option<Breach>, Memory>
    ensures first { IfOk result (λ b. b ≡ sooner (breach_if soonest (has_name seen.old d.now.tag) d.now.at 1) (members_breaches soonest [] d.now.members)) }
    ensures names { OnOk result (seen.new ≡ with_name seen.old d.now.tag) }
{
    let again = repeats(seen, &d.tag)?;
    let inside = check_members(alloc, d.members.as_slice())?;
    Ok(sooner(breach_if(again, d.at, 1), inside))
}

/// A struct has at most one definition, and its members have different names.
#[tactic(auto, using(crate::proofs::ItemRows::structs_breaches_at, crate::proofs::Firsts::sooner_assoc, crate::proofs::Firsts::sooner_left, crate::proofs::Firsts::sooner_right))]
pub(crate) fn check_structs(alloc: Global, structs: &[StructDef]) -> Result<Option<Breach>, Memory>
    ensures { IfOk result (λ b. b ≡ structs_breaches soonest [] structs.now) }
{
    let mut seen = Names::new(alloc);
    let mut first = None;
    for d in structs {
        let found = check_struct(alloc, &mut seen, d)?;
        first = sooner(first, found);
    }
    Ok(first)
}

#[tactic(auto, using(crate::proofs::ItemRows::same_types_at, crate::proofs::ItemRows::same_types_end))]
fn same_types(a: &[SlotType], b: &[SlotType]) -> bool
    ensures { result ≡ same_types a.now b.now }
{
    if a.len() != b.len() {
        return false;
    }
    for i in 0..a.len() {
        if !same_type(a[i], b[i]) {
            return false;
        }
    }
    true
}

fn same_result(a: Option<SlotType>, b: Option<SlotType>) -> bool
    ensures { result ≡ same_result a b }
{
    match (a, b) {
        (None, None) => true,
        (Some(k), Some(l)) => same_type(k, l),
        (None, Some(_)) | (Some(_), None) => false,
    }
}

fn same_signature(a: &Signature, b: &Signature) -> bool
    ensures { result ≡ same_signature a.now b.now }
{
    let params = same_types(a.params.items.as_slice(), b.params.items.as_slice());
    params && same_result(a.result, b.result)
}

/// Whether the procedure agrees with the first prototype or body of its name.
fn agrees(tables: &Tables, name: &[u8], own: &Signature) -> bool
    ensures { result ≡ option_map_or (same_signature own.now) (signature_of tables.now name.now) true }
{
    let place = tables.declared.place(name) as usize;
    match tables.signatures.items.get(place) {
        Some(first) => same_signature(own, first),
        None => true,
    }
}

/// All prototypes and the body of one name agree with the first of them, and there is at most one
/// body.
fn breaks_3(alloc: Global, tables: &Tables, bodied: &Names, p: &ProcItem) -> Result<bool, Memory>
    ensures { IfOk result (λ b. b ≡ breaks_3 tables.now bodied.now (proc_view p.now)) }
{
    let own = signature(alloc, &tables.tags, p)?;
    let name = p.name.items.as_slice();
    let again = is_again(bodied, name, &p.body);
    Ok(either(!agrees(tables, name, &own), again))
}

fn is_again(bodied: &Names, name: &[u8], body: &Option<Stmt>) -> bool
    ensures { result ≡ (is_some body.now && has_name bodied.now name.now) }
{
    match body {
        Some(_) => bodied.has(name),
        None => false,
    }
}

/// A procedure without a body returns an int, a char or nothing.
fn breaks_4(tables: &Tables, name: &[u8], returned: Option<SlotType>) -> bool
    ensures { result ≡ (not (has_body tables.now name.now) && option_map_or is_pointer returned false) }
{
    match returned {
        Some(k) => !tables.has_body(name) && k.is_pointer(),
        None => false,
    }
}

/// Declares a parameter where it has a name.
fn check_param<'t>(
    alloc: Global,
    tables: &Tables,
    scope: &mut OpenScopes<'t>,
    m: &'t Member,
) -> Result<Option<Breach>, Memory>
    ensures first { IfOk result (λ b. b ≡ breach_if soonest (not (is_empty m.now.name) && breaks_5 scope.old m.now.name) m.now.at 5) }
    ensures after { OnOk result (scope.new ≡ with_param tables.now.tags scope.old m.now) }
{
    let kind = slot_type(&tables.tags, &m.kind);
    match m.name.items.as_slice() {
        [] => {
            scope.add_slot(alloc, &[], kind, m.at)?;
            Ok(None)
        }
        [_, ..] => {
            let again = breach_if(scope.declares(m.name.items.as_slice()), m.at, 5);
            scope.declare(alloc, &m.name, kind, m.at)?;
            Ok(again)
        }
    }
}

#[tactic(auto, using(crate::proofs::ItemRows::params_breaches_at, crate::proofs::ItemRows::with_params_at, crate::proofs::Firsts::sooner_assoc, crate::proofs::Firsts::sooner_left, crate::proofs::Firsts::sooner_right))]
fn check_params<'t>(
    alloc: Global,
    tables: &Tables,
    scope: &mut OpenScopes<'t>,
    params: &'t [Member],
) -> Result<Option<Breach>, Memory>
    ensures first { IfOk result (λ b. b ≡ params_breaches soonest tables.now scope.old params.now) }
    ensures after { OnOk result (scope.new ≡ with_params tables.now.tags scope.old params.now) }
{
    let mut first = None;
    for m in params {
        let found = check_param(alloc, tables, scope, m)?;
        first = sooner(first, found);
    }
    Ok(first)
}

/// Checks a body, whose outermost block is the scope of the parameters.
fn check_body<'t>(
    alloc: Global,
    tables: &Tables,
    returned: Option<SlotType>,
    scope: &mut OpenScopes<'t>,
    body: &'t Option<Stmt>,
    nodes: &mut Vec<NodeInfo>,
) -> Result<Option<Breach>, Memory>
    ensures first { IfOk result (λ b. b ≡ body_breaches soonest tables.now returned scope.old (option_map stmt_view body.now)) }
    ensures after { OnOk result (scope.new ≡ body_after tables.now scope.old (option_map stmt_view body.now)) }
    ensures nodes { OnOk result (nodes.new.items ≡ nodes.old.items ++ body_infos tables.now returned scope.old (option_map stmt_view body.now)) }
{
    let context = Context {
        alloc,
        returned,
        looped: false,
    };
    match body {
        None => Ok(None),
        Some(s) => match &s.form {
            StmtForm::Block(ss) => {
                note_plain(nodes)?;
                check_stmts(tables, context, scope, ss.as_slice(), nodes)
            }
            StmtForm::Local(_, _, None)
            | StmtForm::Local(_, _, Some(_))
            | StmtForm::Assign(_, _)
            | StmtForm::Do(_)
            | StmtForm::Free(_)
            | StmtForm::If(_, _, None)
            | StmtForm::If(_, _, Some(_))
            | StmtForm::While(_, _)
            | StmtForm::For(_, _, _, _)
            | StmtForm::Break
            | StmtForm::Continue
            | StmtForm::Return(None)
            | StmtForm::Return(Some(_))
            | StmtForm::Nothing => check_stmt(tables, context, scope, s, nodes),
        },
    }
}

/// Adds the slot of the result of a procedure that has a body.
fn add_result(
    alloc: Global,
    slots: &mut SlotInfos,
    body: &Option<Stmt>,
    returned: Option<SlotType>,
    close: Span,
) -> Result<(), Memory>
    ensures { OnOk result (slots.new ≡ slots.old ++ ret_slots (option_map stmt_view body.now) returned close) }
{
    match body {
        None => Ok(()),
        Some(_) => match returned {
            None => Ok(()),
            Some(kind) => {
                let items = Vec::new(alloc);
                let name = Name { items };
                slots.items.push(SlotInfo {
                    name,
                    kind,
                    at: close,
                })?;
                Ok(())
            }
        },
    }
}

/// Checks the parameters and the body of a procedure, which are one scope.
fn check_inside<'t>(
    alloc: Global,
    tables: &Tables,
    returned: Option<SlotType>,
    scope: &mut OpenScopes<'t>,
    p: &'t ProcItem,
    nodes: &mut Vec<NodeInfo>,
) -> Result<Option<Breach>, Memory>
    ensures first { IfOk result (λ b. b ≡ sooner (params_breaches soonest tables.now scope.old p.now.params)
        (body_breaches soonest tables.now returned (with_params tables.now.tags scope.old p.now.params) (option_map stmt_view p.now.body))) }
    ensures after { OnOk result (scope.new ≡ body_after tables.now (with_params tables.now.tags scope.old p.now.params) (option_map stmt_view p.now.body)) }
    ensures nodes { OnOk result (nodes.new.items
        ≡ nodes.old.items ++ body_infos tables.now returned (with_params tables.now.tags scope.old p.now.params) (option_map stmt_view p.now.body)) }
{
    let params = check_params(alloc, tables, scope, p.params.as_slice())?;
    let body = check_body(alloc, tables, returned, scope, &p.body, nodes)?;
    Ok(sooner(params, body))
}

/// The slots of a procedure, and the first rule that its parameters and its body break; notes the nodes
/// of the body.
fn check_slots(
    alloc: Global,
    tables: &Tables,
    returned: Option<SlotType>,
    p: &ProcItem,
    nodes: &mut Vec<NodeInfo>,
) -> Result<(SlotInfos, Option<Breach>), Memory>
    ensures slots { IfOk result (λ r. r.0
        ≡ (body_after tables.now (with_params tables.now.tags no_scope p.now.params) (option_map stmt_view p.now.body)).slots
        ++ ret_slots (option_map stmt_view p.now.body) returned p.now.close) }
    ensures first { IfOk result (λ r. r.1 ≡ sooner (params_breaches soonest tables.now no_scope p.now.params)
        (body_breaches soonest tables.now returned (with_params tables.now.tags no_scope p.now.params) (option_map stmt_view p.now.body))) }
    ensures nodes { OnOk result (nodes.new.items
        ≡ nodes.old.items ++ body_infos tables.now returned (with_params tables.now.tags no_scope p.now.params) (option_map stmt_view p.now.body)) }
{
    let mut scope = OpenScopes::new(alloc);
    let inside = check_inside(alloc, tables, returned, &mut scope, p, nodes)?;
    let mut slots = scope.into_slots();
    add_result(alloc, &mut slots, &p.body, returned, p.close)?;
    Ok((slots, inside))
}

/// The first rule that a procedure breaks, where this is the first one in its parameters and its body.
fn check_item(
    alloc: Global,
    tables: &Tables,
    bodied: &Names,
    returned: Option<SlotType>,
    p: &ProcItem,
    inside: Option<Breach>,
) -> Result<Option<Breach>, Memory>
    ensures { IfOk result (λ b. b ≡ sooner (breach_if soonest (breaks_3 tables.now bodied.now (proc_view p.now)) p.now.at 3)
        (sooner (breach_if soonest (not (has_body tables.now p.now.name) && option_map_or is_pointer returned false) p.now.at 4) inside)) }
{
    let differs = breach_if(breaks_3(alloc, tables, bodied, p)?, p.at, 3);
    let pointer = breach_if(breaks_4(tables, p.name.items.as_slice(), returned), p.at, 4);
    Ok(sooner(differs, sooner(pointer, inside)))
}

/// Checks a procedure whose item has that place, where these names have a body before.
fn check_proc(
    alloc: Global,
    tables: &Tables,
    bodied: &Names,
    item: usize,
    p: &ProcItem,
) -> Result<(ProcInfo, Option<Breach>), Memory>
    ensures info { IfOk result (λ r. r.0 ≡ proc_info tables.now item (proc_view p.now)) }
    ensures first { IfOk result (λ r. r.1 ≡ proc_breaches soonest tables.now bodied.now (proc_view p.now)) }
{
    let item = number_of(item)?;
    let params = number_of(p.params.as_slice().len())?;
    let result = result_type(&tables.tags, &p.result);
    let mut items = Vec::new(alloc);
    let (slots, inside) = check_slots(alloc, tables, result, p, &mut items)?;
    let first = check_item(alloc, tables, bodied, result, p, inside)?;
    let info = ProcInfo {
        item,
        params,
        result,
        slots,
        nodes: NodeInfos { items },
    };
    Ok((info, first))
}

/// The procedures of a file so far, those with a body and the others.
#[derive(Drop)]
struct Kept<'t> {
    /// The names that have a body so far.
    bodied: Names<'t>,
    /// The names that have a body in the file, or a prototype so far.
    known: Names<'t>,
    infos: Vec<ProcInfo>,
    externals: Vec<ProcInfo>,
}

impl<'t> Kept<'t> {
    fn new(alloc: Global, procs: &'t [ProcItem]) -> Result<Self, Memory>
        ensures bodied { IfOk result (λ k. k.bodied ≡ []) }
        ensures known { IfOk result (λ k. k.known ≡ with_bodies [] (map proc_view procs.now)) }
        ensures infos { IfOk result (λ k. k.infos.items ≡ []) }
        ensures externals { IfOk result (λ k. k.externals.items ≡ []) }
    {
        let mut known = Names::new(alloc);
        add_bodies(&mut known, procs)?;
        Ok(Kept {
            bodied: Names::new(alloc),
            known,
            infos: Vec::new(alloc),
            externals: Vec::new(alloc),
        })
    }

    /// Keeps a procedure's information where it has the first body of its name, or the first
    /// prototype where the name has no body.
    fn keep(&mut self, p: &'t ProcItem, info: ProcInfo) -> Result<(), Memory>
        ensures bodied { OnOk result (self.new.bodied ≡ with_body self.old.bodied (proc_view p.now)) }
        ensures known { OnOk result (self.new.known ≡ with_prototype self.old.known (proc_view p.now)) }
        ensures infos { OnOk result (self.new.infos.items ≡ self.old.infos.items ++ chosen (is_some p.now.body && not (has_name self.old.bodied p.now.name)) info) }
        ensures externals { OnOk result (self.new.externals.items ≡ self.old.externals.items ++ chosen (is_none p.now.body && not (has_name self.old.known p.now.name)) info) }
    {
        match &p.body {
            Some(_) => {
                if !repeats(&mut self.bodied, &p.name)? {
                    self.infos.push(info)?;
                }
                Ok(())
            }
            None => {
                if !repeats(&mut self.known, &p.name)? {
                    self.externals.push(info)?;
                }
                Ok(())
            }
        }
    }

    /// Checks a procedure whose item has that place, and keeps it.
    fn check(
        &mut self,
        alloc: Global,
        tables: &Tables,
        item: usize,
        p: &'t ProcItem,
    ) -> Result<Option<Breach>, Memory>
        ensures first { IfOk result (λ b. b ≡ proc_breaches soonest tables.now self.old.bodied (proc_view p.now)) }
        ensures bodied { OnOk result (self.new.bodied ≡ with_body self.old.bodied (proc_view p.now)) }
        ensures known { OnOk result (self.new.known ≡ with_prototype self.old.known (proc_view p.now)) }
        ensures infos { OnOk result (self.new.infos.items
            ≡ self.old.infos.items ++ chosen (is_some p.now.body && not (has_name self.old.bodied p.now.name)) (proc_info tables.now item (proc_view p.now))) }
        ensures externals { OnOk result (self.new.externals.items
            ≡ self.old.externals.items ++ chosen (is_none p.now.body && not (has_name self.old.known p.now.name)) (proc_info tables.now item (proc_view p.now))) }
    {
        let (info, found) = check_proc(alloc, tables, &self.bodied, item, p)?;
        self.keep(p, info)?;
        Ok(found)
    }

    /// All of them by number: those with a body, and then the others.
    fn into_infos(self) -> Result<Vec<ProcInfo>, Memory>
        ensures { IfOk result (λ infos. infos.items ≡ self.entry.infos.items ++ self.entry.externals.items) }
    {
        let mut infos = self.infos;
        let mut externals = self.externals;
        infos.append(&mut externals)?;
        Ok(infos)
    }
}

/// The procedures of a file by number, and the first rule that one of them breaks.
#[derive(Drop)]
pub(crate) struct Procs {
    pub infos: Vec<ProcInfo>,
    pub first: Option<Breach>,
}

/// Checks the procedures of a file.
#[tactic(auto, using(crate::proofs::ItemRows::procs_breaches_at, crate::proofs::ItemRows::bodied_infos_at, crate::proofs::ItemRows::external_infos_at, crate::proofs::Firsts::sooner_assoc, crate::proofs::Firsts::sooner_left, crate::proofs::Firsts::sooner_right))]
pub(crate) fn check_procs(
    alloc: Global,
    tables: &Tables,
    procs: &[ProcItem],
) -> Result<Procs, Memory>
    ensures first { IfOk result (λ r. r.first ≡ procs_breaches soonest tables.now [] (map proc_view procs.now)) }
    ensures infos { IfOk result (λ r. r.infos.items
        ≡ bodied_infos tables.now [] 0 (map proc_view procs.now)
        ++ external_infos tables.now (with_bodies [] (map proc_view procs.now)) 0 (map proc_view procs.now)) }
{
    let mut kept = Kept::new(alloc, procs)?;
    let mut first = None;
    for (i, p) in procs.iter().enumerate() {
        let found = kept.check(alloc, tables, i, p)?;
        first = sooner(first, found);
    }
    let infos = kept.into_infos()?;
    Ok(Procs { infos, first })
}
