//! The check of a whole tree.

ghost use Rattle.std.specs.Prelude.{◌≡◌, ◌≤◌, ◌⊎◌, Some, None, map, codes, bytes_eq, IfOk, IfErr, OnOk};
ghost use Rattle.std.specs.List.{list_any, position_or_len};
ghost use Rattle.c_tree.specs.View.{proc_view, tree_view};
ghost use Rattle.c_tree.specs.Nodes.{tree_size};
ghost use Rattle.c_tree.specs.Formed.{IsFormed};
ghost use Rattle.c_types.specs.Breaches.{soonest, sooner};
ghost use Rattle.c_types.specs.Declarations.{struct_infos};
ghost use Rattle.c_types.specs.Items.{is_int, is_main, proc_infos, body_count, main_number, has_main, limit_passed, tree_breaches, refused_for, refusal_of};
ghost use Rattle.c_types.specs.declared.error.TypeError.TheVariants.{Memory as want_of_memory};

use crate::declarations::declarations;
use crate::error::TypeError;
use crate::infos::{ProcInfos, StructInfos};
use crate::items::{Procs, check_procs, check_structs};
use crate::limits::limit_passed;
use crate::rules::{Breach, sooner};
use crate::tables::Tables;
use crate::typed::Typed;
use c_tree::{Memory, ProcItem, Tree, TypeName};
use std::alloc::Global;

const MAIN: &[u8] = b"main";

fn is_int(kind: &Option<TypeName>) -> bool
    ensures { result ≡ is_int kind.now }
{
    match kind {
        Some(TypeName::Int) => true,
        None
        | Some(TypeName::Char)
        | Some(TypeName::IntPtr)
        | Some(TypeName::CharPtr)
        | Some(TypeName::StructPtr(_)) => false,
    }
}

/// Whether it is a body of `int main` without parameters.
fn is_main(p: &ProcItem) -> bool
    ensures { result ≡ is_main (proc_view p.now) }
{
    let named = MAIN == p.name.items.as_slice();
    let bare = p.params.as_slice().is_empty();
    named && p.body.is_some() && is_int(&p.result) && bare
}

#[tactic(auto, using(crate::proofs::LimitRows::has_main_at))]
fn has_main(procs: &[ProcItem]) -> bool
    ensures { result ≡ list_any is_main (map proc_view procs.now) }
{
    for p in procs {
        if is_main(p) {
            return true;
        }
    }
    false
}

/// What a tree is, and the first rule that it breaks.
#[derive(Drop)]
struct Checked {
    structs: StructInfos,
    procs: ProcInfos,
    bodies: u32,
    main_proc: u32,
    first: Option<Breach>,
}

/// What a tree is that has these tables and procedures, where that is the first rule that its structs
/// break.
fn checked_tree(tables: Tables, procs: Procs, own: Option<Breach>) -> Checked
    ensures structs { result.structs ≡ tables.entry.structs }
    ensures procs { result.procs ≡ procs.infos.items }
    ensures bodies { result.bodies ≡ tables.entry.bodies }
    ensures main { result.main_proc ≡ position_or_len (bytes_eq (codes "main")) tables.entry.procs }
    ensures first { result.first ≡ sooner own procs.first }
{
    Checked {
        main_proc: tables.procs.place(MAIN),
        bodies: tables.bodies,
        structs: tables.structs,
        procs: ProcInfos { items: procs.infos },
        first: sooner(own, procs.first),
    }
}

#[tactic(auto, unfolding(crate::specs::Items::tree_breaches, crate::specs::Items::proc_infos, crate::specs::Declarations::body_names))]
fn check_tree(alloc: Global, tree: &Tree) -> Result<Checked, Memory>
    ensures structs { IfOk result (λ r. r.structs ≡ struct_infos (tree_view tree.now)) }
    ensures procs { IfOk result (λ r. r.procs ≡ proc_infos (tree_view tree.now)) }
    ensures bodies { IfOk result (λ r. r.bodies ≡ body_count (tree_view tree.now)) }
    ensures main { IfOk result (λ r. r.main_proc ≡ main_number (tree_view tree.now)) }
    ensures first { IfOk result (λ r. r.first ≡ tree_breaches soonest (tree_view tree.now)) }
{
    let own = check_structs(alloc, tree.structs.as_slice())?;
    let tables = declarations(alloc, tree)?;
    let procs = check_procs(alloc, &tables, tree.procs.as_slice())?;
    Ok(checked_tree(tables, procs, own))
}

/// The first refusal, in their order: a broken rule, no main, a limit.
fn refusal(first: Option<Breach>, main: bool, over: Option<TypeError>) -> Option<TypeError>
    ensures { result ≡ refused_for first main over }
{
    match first {
        Some(b) => Some(TypeError::BadType {
            at: b.at,
            rule: b.rule,
        }),
        None => { if main { over } else { Some(TypeError::NoMain) } }
    }
}

/// Why the checked tree is refused.
fn refusal_for(tree: &Tree, checked: &Checked) -> Option<TypeError>
    ensures { result ≡ refused_for checked.now.first (has_main (tree_view tree.now)) (limit_passed checked.now.structs checked.now.procs) }
{
    let structs = checked.structs.items.as_slice();
    let over = limit_passed(structs, checked.procs.items.as_slice());
    refusal(checked.first, has_main(tree.procs.as_slice()), over)
}

/// The typed tree, or why the tree is none.
///
/// Refuses BadType exactly where a rule of types is broken, naming the first one: by the first byte of
/// the node to which it belongs, then in preorder, then by its number. Else NoMain exactly where there
/// is no body of `int main` without parameters, else Limit exactly where a count is over its number:
/// structs, members of a struct, procedures, pointer parameters of a procedure, in this order, the
/// struct or procedure with the smallest number first. The tree is given up on a refusal.
#[tactic(auto, unfolding(crate::specs::Items::refusal_of), using(crate::proofs::Law::law_tree))]
pub fn check_types(alloc: Global, tree: Tree) -> Result<Typed, TypeError>
    requires formed { IsFormed (tree_view tree) }
    requires small { tree_size (tree_view tree) ≤ 16777216 }
    ensures refused { IfErr result (λ e. (e ≡ want_of_memory) ⊎ (refusal_of (tree_view tree) ≡ Some e)) }
    ensures accepted { OnOk result (refusal_of (tree_view tree) ≡ None) }
    ensures tree { IfOk result (λ typed. typed.tree ≡ tree) }
{
    let checked = check_tree(alloc, &tree)?;
    match refusal_for(&tree, &checked) {
        Some(e) => Err(e),
        None => {
            let Checked {
                structs,
                procs,
                bodies,
                main_proc,
                first: _,
            } = checked;
            Ok(Typed {
                tree,
                structs,
                procs,
                bodies,
                main_proc,
            })
        }
    }
}
