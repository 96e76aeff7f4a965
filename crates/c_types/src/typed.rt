ghost use Rattle.std.specs.Prelude.{◌≡◌, ◌≤◌, None, IsTrue};
ghost use Rattle.c_tree.specs.View.{tree_view};
ghost use Rattle.c_tree.specs.Nodes.{tree_size};
ghost use Rattle.c_tree.specs.Formed.{IsFormed};
ghost use Rattle.c_types.specs.Items.{IsWellTyped, has_main, limit_passed, proc_infos, body_count, main_number};
ghost use Rattle.c_types.specs.Declarations.{struct_infos};

use crate::infos::{ProcInfos, StructInfos};
use c_tree::Tree;

/// A tree that breaks no rule of types, has a `main` and passes no limit, with what its declarations
/// and expressions mean.
#[derive(Drop)]
pub struct Typed {
    pub tree: Tree,
    pub structs: StructInfos,
    pub procs: ProcInfos,
    /// How many procedures have a body; these have the numbers below this one.
    pub bodies: u32,
    /// The number of `main`.
    pub main_proc: u32,
    pub ghost formed: { ∥ IsFormed (tree_view tree) ∥₁ },
    pub ghost small: { tree_size (tree_view tree) ≤ 16777216 },
    pub ghost well_typed: { IsWellTyped (tree_view tree) },
    pub ghost main: { IsTrue (has_main (tree_view tree)) },
    pub ghost within_limits: { limit_passed structs procs ≡ None },
    pub ghost structs_are: { structs ≡ struct_infos (tree_view tree) },
    pub ghost procs_are: { procs ≡ proc_infos (tree_view tree) },
    pub ghost bodies_are: { bodies ≡ body_count (tree_view tree) },
    pub ghost main_is: { main_proc ≡ main_number (tree_view tree) },
}
