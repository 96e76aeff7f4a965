ghost use Rattle.std.specs.Prelude.{◌≡◌, IfOk, IfErr, OnOk};
ghost use Rattle.transfer_rules.specs.Names.{in_scope};
ghost use Rattle.verdict_meaning.specs.Solutions.{all_names};
ghost use Rattle.verdict_meaning.specs.Certificates.{IsGoodCertificate, IsGoodIn};
ghost use Rattle.verdict_meaning.specs.Programs.{IsWhole, system_of};
ghost use Rattle.cert_checker.specs.Checking.{IsRefused};
ghost use Rattle.cert_checker.specs.Owned.{RunsHaveOwners};

use crate::faults::check;
use crate::grouped::{
    Callees, callees_of, clauses_at, face_of, group_numbers, members_of, places_of, site_parts_of,
    width_of,
};
use crate::groups::{Face, Groups};
use c_tree::Memory;
use conflict_proof::{CheckError, ConstraintName, Names};
use heap_law::good_runs_are_owned;
use own_cert::Certificate;
use owner_vars::fields;
use std::alloc::Global;
use std::marker::Model;
use transfer_rules::{ClauseTable, Program, Scope};
use verdict_meaning::Callee;

/// A program with the constraints in a scope.
#[derive(Drop)]
pub(crate) struct InScope<'a> {
    program: &'a Program,
    scope: &'a Scope,
    count: u32,
    fields: u32,
    callees: Vec<Callees>,
}

impl<'a> Model for InScope<'a> {
    ghost use Rattle.c_types.specs.contracts.typed.Typed as typed_tree;
    ghost use Rattle.std.specs.Coded.{codes};
    ghost use Rattle.cert_checker.specs.Grouped.{Scoped, AreTables};

    ghost Value = { Scoped };

    ghost coded = { Prim.hlevel (codes, typed_tree.the_row.coded) };

    ghost view = { λ v. record { program = v.program.now; scope = v.scope.now } };

    ghost invariant = { λ v. AreTables v.program.now v.count v.fields v.callees.items };
}

/// The groups of a program, with the constraints in a scope.
fn scoped<'a>(alloc: Global, program: &'a Program, scope: &'a Scope) -> Result<InScope<'a>, Memory>
    ensures program { IfOk result (λ v. v.program ≡ program.now) }
    ensures scope { IfOk result (λ v. v.scope ≡ scope.now) }
{
    program.law();
    let Ok(count) = u32::try_from(program.groups.items.len()) else {
        return Err(Memory);
    };
    let numbers = group_numbers(alloc, program)?;
    let mut callees = Vec::new(alloc);
    for group in 0..count {
        callees.push(callees_of(alloc, program, &numbers, group)?)?;
    }
    let fields = fields(alloc, &program.graph)?.count();
    Ok(InScope {
        program,
        scope,
        count,
        fields,
        callees,
    })
}

impl<'a> Groups for InScope<'a> {
    ghost use Rattle.transfer_rules.specs.Names.{in_scope};
    ghost use Rattle.transfer_rules.specs.Programs.{group_at};
    ghost use Rattle.cert_checker.specs.Placed.{names_at, names_placed};
    ghost use Rattle.verdict_meaning.specs.Programs.{system_of};

    ghost system = { λ v. system_of v.program.graph v.program.facts v.program.groups };

    ghost scope = { λ v. in_scope v.scope };

    ghost names = { λ v e. names_at v.program.graph v.program.facts (group_at v.program.groups e) };

    ghost placed = { λ v e. names_placed v.program.graph v.program.facts v.program.groups e };

    fn count(&self) -> u32 {
        self.count
    }

    fn fields(&self) -> u32 {
        self.fields
    }

    fn members(&self, group: u32) -> &[u32] {
        members_of(self.program, group)
    }

    fn face(&self, group: u32, proc: u32) -> Face {
        face_of(self.program, group, proc, self.fields)
    }

    fn places(&self, group: u32, proc: u32) -> u32 {
        places_of(self.program, group, proc)
    }

    fn width(&self, group: u32, proc: u32) -> u32 {
        width_of(self.program, group, proc)
    }

    fn callees(&self, group: u32) -> &[Callee] {
        self.callees[group as usize].items.as_slice()
    }

    fn site_parts(&self, group: u32, site: usize) -> u32 {
        site_parts_of(self.program, group, site as u32)
    }

    fn clauses_at(
        &self,
        alloc: Global,
        group: u32,
        proc: u32,
        place: u32,
    ) -> Result<ClauseTable, Memory> {
        clauses_at(alloc, self.program, group, proc, place, self.scope)
    }
}

/// The scope of all names.
fn whole(alloc: Global) -> Scope
    ensures { IsWhole result }
{
    let zeros = ConstraintName {
        proc: 0,
        place: 0,
        edge: 0,
        rule: 0,
        slot: 0,
        field: 0,
        other: 0,
    };
    let keep = Names {
        items: Vec::new(alloc),
    };
    let without = Names {
        items: Vec::new(alloc),
    };
    Scope {
        keep,
        after: zeros,
        without,
    }
}

/// Decides whether a certificate is good for a program with all its constraints. Where it is, in each state of each run of
/// the program each live object that was allocated has exactly one owner by the certificate's marks, no other object has
/// one, and no step is a double free.
///
/// # Errors
///
/// Invalid exactly where it is not good, with the first faulty line of its text; Memory at any time.
pub fn check_certificate(
    alloc: Global,
    program: &Program,
    certificate: &Certificate,
) -> Result<(), CheckError>
    ensures ok { OnOk result (IsGoodCertificate (system_of program.now.graph program.now.facts program.now.groups) certificate.now) }
    ensures owned { OnOk result (RunsHaveOwners program.now certificate.now) }
    ensures err { IfErr result (IsRefused (system_of program.now.graph program.now.facts program.now.groups) all_names certificate.now) }
{
    program.law();
    good_runs_are_owned();
    let scope = whole(alloc);
    check_certificate_in(alloc, program, certificate, &scope)
}

/// Decides whether a certificate is good for a program with the constraints in a scope, besides those of the rule that is
/// always in force. It is [`check`] over the call groups of the program.
///
/// # Errors
///
/// Invalid exactly where it is not good, with the first faulty line of its text; Memory at any time.
pub fn check_certificate_in(
    alloc: Global,
    program: &Program,
    certificate: &Certificate,
    scope: &Scope,
) -> Result<(), CheckError>
    ensures ok { OnOk result (IsGoodIn (system_of program.now.graph program.now.facts program.now.groups) (in_scope scope.now) certificate.now) }
    ensures err { IfErr result (IsRefused (system_of program.now.graph program.now.facts program.now.groups) (in_scope scope.now) certificate.now) }
{
    let groups = match scoped(alloc, program, scope) {
        Ok(groups) => groups,
        Err(Memory) => return Err(CheckError::Memory),
    };
    check(alloc, &groups, certificate)
}
