//! The annotation of a certificate.

ghost use Rattle.std.specs.Prelude.{OnOk, IfOk};
ghost use Rattle.recursion_groups.specs.Grouping.{IsGrouping};
ghost use Rattle.annotate.specs.Annotation.{AddsInstances, AddsKept, Annotates, IsAnnotation};

use crate::heads::{put_externs, put_fields};
use crate::leads::{leads, put_keeps};
use crate::order::in_order;
use crate::procs::put_procs;
use crate::rings::rings;
use crate::source::Source;
use c_tree::Memory;
use own_cert::{Certificate, Instance};
use owner_vars::{field_laws, fields};
use recursion_groups::Groups;
use std::alloc::Global;
use transfer_rules::Program;

/// Adds the lines of procedures with bodies in the instances of their groups.
fn put_instances(
    alloc: Global,
    out: &mut Vec<u8>,
    source: &Source,
    groups: &Groups,
    instances: &[Instance],
) -> Result<(), Memory>
    requires { IsGrouping source.now.graph.now groups.now }
    ensures { OnOk result (AddsInstances source.now.typed.now source.now.graph.now source.now.facts.now groups.now instances.now out.old.items out.new.items) }
{
    let order = in_order(alloc, instances)?;
    put_procs(alloc, out, source, groups, instances, &order)?;
    Ok(())
}

/// Adds the lines of owning fields that lead back to their own struct.
fn put_kept(alloc: Global, out: &mut Vec<u8>, source: &Source, phi: &[bool]) -> Result<(), Memory>
    ensures { OnOk result (AddsKept source.now.typed.now source.now.graph.now phi.now out.old.items out.new.items) }
{
    source.graph.law();
    field_laws();
    let lists = leads(alloc, source, phi)?;
    let marks = rings(alloc, &lists)?;
    put_keeps(out, source, phi, &marks)?;
    Ok(())
}

/// The whole text.
fn lines(
    alloc: Global,
    source: &Source,
    groups: &Groups,
    phi: &[bool],
    instances: &[Instance],
) -> Result<Vec<u8>, Memory>
    requires { IsGrouping source.now.graph.now groups.now }
    ensures { IfOk result (λ text. Annotates source.now.typed.now source.now.graph.now source.now.facts.now groups.now phi.now instances.now text.items) }
{
    let mut out = Vec::from_slice(alloc, b"accepted\n")?;
    put_fields(&mut out, source, phi)?;
    put_externs(&mut out, source)?;
    put_instances(alloc, &mut out, source, groups, instances)?;
    put_kept(alloc, &mut out, source, phi)?;
    Ok(out)
}

/// The annotation of a certificate: `accepted`; for each pointer field whether it owns; for each procedure without a body the
/// kinds of its parameters and of its result; for each procedure with a body, in each instance of its call group, who owns
/// among its parameters, its result and its locals; and the owning fields that lead back to their own struct. `specs/Annotation`
/// says it line by line. It means something for good certificates; bits that are lacking count as 0. The one refusal is want
/// of memory.
///
/// It takes time in proportion to the program, the certificate and the text, where instances count once for each bit of the
/// greatest group and of the greatest entry, and those of a procedure are found by binary search.
pub fn annotation(alloc: Global, program: &Program, c: &Certificate) -> Result<Vec<u8>, Memory>
    ensures { IfOk result (λ text. IsAnnotation program.now c.now text.items) }
{
    program.law();
    let fields = fields(alloc, &program.graph)?;
    let source = Source {
        typed: &program.typed,
        graph: &program.graph,
        facts: &program.facts,
        fields: &fields,
    };
    lines(
        alloc,
        &source,
        &program.groups,
        &c.phi.items,
        &c.instances.items,
    )
}
