ghost use Rattle.std.specs.Prelude.{◌≤◌, length, IfOk, IfErr};
ghost use Rattle.c_tree.specs.View.{tree_view};
ghost use Rattle.source_program.specs.Sources.{ReadsTyped, IsUntyped, IsCause, IsFailure, IsProgramOf, most_bytes};

use crate::failure::Failure;
use c_parser::parse;
use c_token::tokens;
use c_types::{Typed, check_types};
use std::alloc::Global;
use transfer_rules::{Program, program};

/// The most bytes that a source may have.
pub const MOST_BYTES: usize = 4_194_304;

/// The tree as which the bytes of a source read, with its types.
///
/// Each refusal comes exactly where its definition says: in the order of no token, no tree, the first broken rule of types,
/// no `main`, the first limit on what is declared.
pub fn typed_source(alloc: Global, source: &[u8]) -> Result<Typed, Failure>
    requires { length source.now ≤ most_bytes }
    ensures typed { IfOk result (λ t. ReadsTyped source.now (tree_view t.tree)) }
    ensures cause { IfErr result (IsFailure (IsUntyped source.now)) }
{
    let tokens = tokens(alloc, source)?;
    let tree = parse(alloc, tokens.as_slice())?;
    let typed = check_types(alloc, tree)?;
    Ok(typed)
}

/// The program of the bytes of a source: that of their typed tree.
///
/// After the refusals of [`typed_source`] comes Limit of unknowns, with how many the first call group has that is over.
pub fn load_source(alloc: Global, source: &[u8]) -> Result<Program, Failure>
    requires { length source.now ≤ most_bytes }
    ensures program { IfOk result (λ p. IsProgramOf source.now p) }
    ensures cause { IfErr result (IsFailure (IsCause source.now)) }
{
    let typed = typed_source(alloc, source)?;
    let program = program(alloc, typed)?;
    program.law();
    Ok(program)
}
