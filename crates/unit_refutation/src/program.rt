ghost use Rattle.std.specs.Prelude.{◌≡◌, ◌<◌, Some, length, slice_get, slice_index_or};
ghost use Rattle.transfer_rules.specs.Names.{in_scope};
ghost use Rattle.verdict_meaning.specs.Systems.{root};
ghost use Rattle.verdict_meaning.specs.Programs.{system_in};
ghost use Rattle.unit_answers.specs.Tables.{table_in};
ghost use Rattle.unit_answers.specs.Layouts.{IsLayoutOf, no_numbers};

use crate::tables::Tables;
use c_tree::Memory;
use std::alloc::Global;
use transfer_rules::{ClauseTable, Program, Scope, group_clauses};
use unit_answers::{Call, Layout};

/// The clauses of a program that are in force in a scope.
#[derive(Drop)]
pub(crate) struct ProgramTables<'a> {
    pub program: &'a Program,
    pub scope: &'a Scope,
    pub layout: &'a Layout,
    pub top: u32,
    ghost is_layout: { IsLayoutOf (system_in program.now) layout.now },
    ghost is_top: { top ≡ root (system_in program.now) },
}

impl Tables for ProgramTables<'_> {
    ghost system = { λ t. system_in t.program.now };

    ghost scope = { λ t. in_scope t.scope.now };

    ghost rows = { λ t. table_in t.program.now t.scope.now };

    fn root(&self) -> u32 {
        self.top
    }

    fn table(&self, alloc: Global, group: u32) -> Result<Option<ClauseTable>, Memory> {
        let top = self.top;
        if group == top {
            return Ok(None);
        }
        let table = group_clauses(alloc, self.program, group, self.scope)?;
        Ok(Some(table))
    }

    fn callee(&self, group: u32, site: u32) -> u32 {
        call_at(self.layout, group, site).callee.group
    }
}

/// The call at a site of a group.
fn call_at(layout: &Layout, group: u32, site: u32) -> Call
    requires group { group < length layout.now.groups }
    requires site { site < length (slice_index_or layout.now.groups group no_numbers).calls }
    ensures { slice_get (slice_index_or layout.now.groups group no_numbers).calls site ≡ Some result }
{
    let numbers = &layout.groups[group as usize];
    numbers.calls[site as usize]
}
