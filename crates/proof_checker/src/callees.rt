ghost use Rattle.std.specs.Prelude.{◌≡◌, ℕ, ◌<◌, ◌≤◌, ◌^◌, cond, length, map, slice_index, IfOk};
ghost use Rattle.std.specs.List.{All};
ghost use Rattle.flow_graph.specs.Fits.{is_in};
ghost use Rattle.owner_vars.specs.declared.site.Site.{Site};
ghost use Rattle.transfer_rules.specs.Programs.{group_at};
ghost use Rattle.verdict_meaning.specs.Systems.{firsts};
ghost use Rattle.proof_checker.specs.Programs.{AreGroupNumbers, calls_out, all_calls};
ghost use Rattle.proof_checker.specs.Sites.{called_at};

use crate::groups::{group_count, members_of};
use c_tree::Memory;
use owner_vars::{Sites, site_laws, sites};
use std::alloc::Global;
use std::marker::Model;
use transfer_rules::Program;
use verdict_meaning::Callee;

/// Whom the sites of a call group or of the root call, which contracts see as a list.
#[derive(Drop)]
pub(crate) struct Callees {
    pub items: Vec<Callee>,
}

impl Model for Callees {
    ghost use Rattle.std.specs.Prelude.{List};
    ghost use Rattle.verdict_meaning.specs.declared.callee.Callee.{Callee};

    ghost Value = { List Callee };

    ghost view = { λ c. c.items.items };
}

/// Whom the sites of each group call, and last those of the root. It takes the time of the places of the program.
pub(crate) fn all_calls(alloc: Global, program: &Program) -> Result<Vec<Callees>, Memory>
    ensures { IfOk result (λ cs. cs.items ≡ all_calls program.now.graph program.now.groups) }
{
    let numbers = group_numbers(alloc, program)?;
    let mut all = Vec::new(alloc);
    for group in 0..group_count(program) {
        let callees = calls_out(alloc, program, &numbers, group)?;
        all.push(callees)?;
    }
    let callees = firsts(alloc, program)?;
    all.push(callees)?;
    Ok(all)
}

/// The number of each procedure's group.
fn group_numbers(alloc: Global, program: &Program) -> Result<Vec<u32>, Memory>
    ensures { IfOk result (λ ns. AreGroupNumbers program.now.graph program.now.groups ns.items) }
{
    let count = group_count(program);
    let bodies = program.graph.bodies();
    let mut numbers = vec![in alloc; count; bodies as usize]?;
    for group in (0..count).rev() {
        put_number(&mut numbers, members_of(program, group), group);
    }
    Ok(numbers)
}

/// Gives these procedures the number.
fn put_number(numbers: &mut [u32], members: &[u32], number: u32)
    requires { All (λ k. k < length numbers.old) members.now }
    ensures { (k : ℕ) → k < length numbers.old → slice_index numbers.new k ≡ cond (is_in members.now k) number (slice_index numbers.old k) }
{
    for member in members {
        numbers[*member as usize] = number;
    }
}

/// Whom the sites of a group call.
fn calls_out(
    alloc: Global,
    program: &Program,
    numbers: &[u32],
    group: u32,
) -> Result<Callees, Memory>
    requires group { group < length program.now.groups }
    requires numbers { AreGroupNumbers program.now.graph program.now.groups numbers.now }
    ensures { IfOk result (λ cs. cs ≡ calls_out program.now.graph program.now.groups (group_at program.now.groups group)) }
{
    program.law();
    site_laws();
    let members = members_of(program, group);
    let sites = sites(alloc, &program.graph, members)?;
    called_at(alloc, &sites, numbers)
}

/// Whom these sites call.
fn called_at(alloc: Global, sites: &Sites, numbers: &[u32]) -> Result<Callees, Memory>
    requires { All (λ (s : Site). s.callee < length numbers.now) sites.now }
    ensures { IfOk result (λ cs. cs ≡ map (called_at numbers.now) sites.now) }
{
    let mut items = Vec::new(alloc);
    for number in 0..sites.count() {
        let proc = sites.site(number).callee;
        let group = numbers[proc as usize];
        items.push(Callee { proc, group })?;
    }
    Ok(Callees { items })
}

/// The first procedure of each group.
fn firsts(alloc: Global, program: &Program) -> Result<Callees, Memory>
    ensures { IfOk result (λ cs. cs ≡ firsts 0 program.now.groups) }
{
    let mut items = Vec::new(alloc);
    for group in 0..group_count(program) {
        let proc = members_of(program, group)[0];
        items.push(Callee { proc, group })?;
    }
    Ok(Callees { items })
}
