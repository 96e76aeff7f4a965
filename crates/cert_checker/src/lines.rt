ghost use Rattle.std.specs.Prelude.{◌≡◌, ◌<◌, ◌+◌, MatchBool, IfOk, Option, Some, None};
ghost use Rattle.cert_checker.specs.Tables.{AreStarts};
ghost use Rattle.cert_checker.specs.Finding.{IsBelow};

use c_tree::Memory;
use own_cert::Instance;
use std::alloc::Global;

/// The first line of each instance, and the last line of the text. More lines than can be numbered are more than memory
/// holds.
pub(crate) fn starts(alloc: Global, instances: &[Instance]) -> Result<Vec<u64>, Memory>
    ensures { IfOk result (λ s. AreStarts instances.now s.items) }
{
    let mut starts = Vec::new(alloc);
    let mut line: u64 = 3;
    for instance in instances {
        starts.push(line)?;
        let rows = instance.places.items.len() as u64;
        line = sum(sum(line, 3)?, rows)?;
    }
    starts.push(line)?;
    Ok(starts)
}

/// The sum of two numbers that memory holds.
pub(crate) fn sum(a: u64, b: u64) -> Result<u64, Memory>
    ensures { IfOk result (λ n. n ≡ a + b) }
{
    match a.checked_add(b) {
        Some(n) => Ok(n),
        None => Err(Memory),
    }
}

/// Whether a line is before the bound, where there is one.
pub(crate) fn is_below(bound: Option<u64>, line: u64) -> bool
    ensures { MatchBool result (IsBelow bound line) (IsBelow bound line → ⊥) }
{
    match bound {
        Some(bound) => line < bound,
        None => true,
    }
}
