ghost use Rattle.std.specs.Prelude.{◌<◌, ◌≤◌, ◌^◌, map, IfOk, MatchOption};
ghost use Rattle.std.specs.List.{All};
ghost use Rattle.unit_answers.specs.Sets.{lit_of};
ghost use Rattle.unit_answers.specs.Contradictions.{AreConsistent, HasNoContradiction, IsFirstClash, IsFirstContradiction};

use crate::clash::Contradiction;
use crate::findings::Finding;
use crate::sets::Closures;
use crate::trail::Trail;
use c_tree::Memory;
use std::alloc::Global;

/// The first set that holds an unknown in both signs, and of its literals the first whose opposite was found before it. It
/// takes time linear in the literals and in the greatest unknown of each set.
pub fn contradiction(alloc: Global, closures: &Closures) -> Result<Option<Contradiction>, Memory>
    ensures { IfOk result (λ r. MatchOption r (HasNoContradiction closures.now) (IsFirstContradiction closures.now)) }
{
    for group in 0..closures.count() {
        let findings = closures.findings_at(group);
        if let Some(place) = first_clash(alloc, findings)? {
            let Ok(group) = u32::try_from(group) else {
                return Err(Memory);
            };
            return Ok(Some(Contradiction { group, place }));
        }
    }
    Ok(None)
}

/// The greatest unknown of these findings.
fn most_found(findings: &[Finding]) -> u32
    ensures small { result < 2 ^ 31 }
    ensures most { All (λ f. f.lit.var ≤ result) findings.now }
{
    let mut most = 0u32;
    for finding in findings {
        most = most.max(finding.lit.var().number());
    }
    most
}

/// The place of the first literal whose opposite stands before it.
fn first_clash(alloc: Global, findings: &[Finding]) -> Result<Option<u32>, Memory>
    ensures { IfOk result (λ r. MatchOption r (AreConsistent (map lit_of findings.now)) (IsFirstClash (map lit_of findings.now))) }
{
    let mut trail = Trail::new(alloc, most_found(findings))?;
    for place in 0..findings.len() {
        let finding = findings[place];
        if trail.has(finding.lit.negated()) {
            let Ok(place) = u32::try_from(place) else {
                return Err(Memory);
            };
            return Ok(Some(place));
        }
        trail.add(finding.lit, finding.reason)?;
    }
    Ok(None)
}
