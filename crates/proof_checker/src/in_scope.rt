ghost use Rattle.std.specs.Prelude.{◌≡◌, ◌+◌, ◌<◌, ◌≤◌, ◌^◌, length, IfOk};
ghost use Rattle.std.specs.List.{Contains, range_with_len};
ghost use Rattle.verdict_meaning.specs.Systems.{root, members, callee, callees, pi_numbers, sigma_numbers};
ghost use Rattle.verdict_meaning.specs.Derivations.{paired, carried_number};
ghost use Rattle.verdict_meaning.specs.Programs.{system_in};
ghost use Rattle.proof_checker.specs.Programs.{counted, unknowns_in, AreTables};

use crate::callees::{Callees, all_calls};
use crate::constraints::Constraints;
use crate::counting::Counting;
use crate::groups::group_count;
use c_tree::Memory;
use conflict_proof::ConstraintName;
use owner_vars::{Numbering, fields, unknown_laws};
use std::alloc::Global;
use transfer_rules::{Program, clauses_of};
use verdict_meaning::{Callee, system_is_of_graph};
use zo_core::{Clause, NumberRange, Var};

/// The constraints of a program, and which of them count.
#[derive(Drop)]
pub(crate) struct InScope<'a> {
    program: &'a Program,
    counting: Counting<'a>,
    /// How many pointer fields there are.
    fields: u32,
    /// Whom the sites of each group call, and last those of the root.
    calls: Vec<Callees>,
    ghost tables: { AreTables program.now fields calls.items },
}

impl<'a> InScope<'a> {
    /// It takes time and memory in proportion to the program.
    pub(crate) fn new(
        alloc: Global,
        program: &'a Program,
        counting: Counting<'a>,
    ) -> Result<InScope<'a>, Memory>
        ensures program { IfOk result (λ s. s.program.now ≡ program.now) }
        ensures counting { IfOk result (λ s. s.counting ≡ counting.entry) }
    {
        program.law();
        system_is_of_graph();
        let fields = fields(alloc, &program.graph)?.count();
        let calls = all_calls(alloc, program)?;
        Ok(InScope {
            program,
            counting,
            fields,
            calls,
        })
    }

    /// Whom a site of a group or of the root calls.
    fn called(&self, group: u32, site: u32) -> Callee
        requires group { group ≤ root (system_in self.now.program.now) }
        requires site { site < length (callees (system_in self.now.program.now) group) }
        ensures callee { result ≡ callee (system_in self.now.program.now) group site }
        ensures group { result.group < length self.now.program.now.groups }
        ensures member { Contains (members (system_in self.now.program.now) result.group) result.proc }
    {
        self.program.law();
        system_is_of_graph();
        self.calls[group as usize].items[site as usize]
    }
}

impl Constraints for InScope<'_> {
    ghost system = { λ s. system_in s.program.now };

    ghost scope = { λ s. counted s.counting };

    fn root(&self) -> u32 {
        group_count(self.program)
    }

    fn count(&self, group: u32) -> u32 {
        self.program.law();
        system_is_of_graph();
        numbering(self.program, group).count()
    }

    fn counts(&self, name: &ConstraintName) -> bool {
        match self.counting {
            Counting::All => true,
            Counting::In(scope) => scope.is_in_force(name),
        }
    }

    fn clauses(
        &self,
        alloc: Global,
        group: u32,
        name: &ConstraintName,
    ) -> Result<Option<Vec<Clause>>, Memory> {
        clauses_of(alloc, self.program, group, name)
    }

    fn callee(&self, group: u32, site: u32) -> Option<Callee> {
        self.calls[group as usize].items.get(site as usize).copied()
    }

    fn carried(&self, group: u32, site: u32, var: Var) -> Option<u32> {
        let number = var.number();
        if number <= self.fields {
            return Some(number);
        }
        let from = interface(self.program, self.called(group, site));
        let to = site_interface(self.program, group, site);
        moved(number, from, to)
    }
}

/// The numbers of the unknowns of a group, or of the root.
fn numbering(program: &Program, group: u32) -> &Numbering
    requires { group ≤ length program.now.groups }
    ensures { result.now ≡ unknowns_in program.now group }
{
    program.law();
    &program.numbers.items[group as usize]
}

/// The numbers of the interface of a procedure in its group.
fn interface(program: &Program, callee: Callee) -> NumberRange
    requires group { callee.group < length program.now.groups }
    requires member { Contains (members (system_in program.now) callee.group) callee.proc }
    ensures { range_with_len result.first result.count ≡ pi_numbers (system_in program.now) callee.group callee.proc }
{
    program.law();
    unknown_laws();
    system_is_of_graph();
    numbering(program, callee.group).face(callee.proc)
}

/// The numbers of the interface that is called at a site of a group or of the root.
fn site_interface(program: &Program, group: u32, site: u32) -> NumberRange
    requires group { group ≤ length program.now.groups }
    requires site { site < length (callees (system_in program.now) group) }
    ensures numbers { range_with_len result.first result.count ≡ sigma_numbers (system_in program.now) group site }
    ensures small { result.first + result.count ≤ 2 ^ 32 }
{
    program.law();
    unknown_laws();
    system_is_of_graph();
    let numbers = numbering(program, group);
    let _ = numbers.count();
    numbers.site_face(site)
}

/// The number that stands in one range where this one stands in another; none where it is not of that one.
fn moved(number: u32, from: NumberRange, to: NumberRange) -> Option<u32>
    requires size { from.count ≡ to.count }
    requires small { to.first + to.count ≤ 2 ^ 32 }
    ensures { result ≡ carried_number (paired (range_with_len from.first from.count) (range_with_len to.first to.count)) number }
{
    if number < from.first {
        return None;
    }
    let above = number - from.first;
    if above >= from.count {
        return None;
    }
    Some(to.first + above)
}
