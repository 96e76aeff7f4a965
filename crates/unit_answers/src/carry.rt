ghost use Rattle.std.specs.Prelude.{◌≡◌, ◌+◌, ◌<◌, ◌≤◌, None, length, map, MatchOption, OnOk};
ghost use Rattle.std.specs.List.Sorted.{IsStrictlyIncreasing};
ghost use Rattle.unit_answers.specs.Sets.{rank};
ghost use Rattle.unit_answers.specs.Layouts.{StandsAt, carried_var};
ghost use Rattle.unit_answers.specs.Settled.{TakesAll};

use crate::findings::Reason;
use crate::layouts::Call;
use crate::trail::Trail;
use c_tree::Memory;
use zo_core::{Lit, Var};

/// What stands at the site of a call for a literal of the called group; none for one that is neither a field's nor of the
/// called interface.
pub(crate) fn carried(fields: u32, call: &Call, lit: Lit) -> Option<Lit>
    requires size { call.now.there.count ≡ call.now.here.count }
    requires first { 0 < call.now.here.first }
    requires last { call.now.here.first + call.now.here.count ≤ 2147483648 }
    ensures { MatchOption result (carried_var fields call.now lit.var ≡ None) (StandsAt fields call.now lit) }
{
    let var = lit.var().number();
    if var <= fields {
        return Some(lit);
    }
    if var < call.there.first || var - call.there.first >= call.there.count {
        return None;
    }
    let to = Var(call.here.first + (var - call.there.first));
    Some(to.literal(lit.sign()))
}

/// Adds what stands at a site for the literals of the called group's set, which ascend. Only those up to `outer` can have
/// something there.
pub(crate) fn carry(
    trail: &mut Trail,
    fields: u32,
    outer: u32,
    site: u32,
    call: &Call,
    lower: &[Lit],
) -> Result<(), Memory>
    requires size { call.now.there.count ≡ call.now.here.count }
    requires first { 0 < call.now.here.first }
    requires last { call.now.here.first + call.now.here.count ≤ trail.old.unknowns + 1 }
    requires small { trail.old.unknowns < 2147483648 }
    requires fields { fields ≤ trail.old.unknowns }
    requires outer { (fields ≤ outer) × (call.now.there.first + call.now.there.count ≤ outer + 1) }
    requires ascend { IsStrictlyIncreasing (map rank lower.now) }
    ensures { OnOk result (TakesAll fields site call.now lower.now trail.old trail.new) }
{
    'lits: for lit in lower {
        if lit.var().number() > outer {
            return Ok(());
        }
        if let Some(to) = carried(fields, call, *lit) {
            trail.add(to, Reason::Site(site, *lit))?;
        }
    }
    Ok(())
}
