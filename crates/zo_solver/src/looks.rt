//! What values say of a clause.

ghost use Rattle.std.specs.Prelude.{◌≡◌, ℕ, ◌<◌, ◌≤◌, Bool, Option, None, length, slice_index_or};
ghost use Rattle.zo_core.specs.Order.{Ascends};
ghost use Rattle.zo_core.specs.Resolvents.{has_literal};
ghost use Rattle.zo_solver.specs.Clauses.{EachLiteral};
ghost use Rattle.zo_solver.specs.Looks.{IsSeen, IsJudged};

use zo_core::Lit;

/// What the values of some unknowns leave of a clause.
#[derive(Clone, Copy)]
pub(crate) enum Seen {
    /// A literal is true, or two are free.
    Open,
    /// All literals but this one are denied, and it is free.
    Last(Lit),
    /// All literals are denied.
    Denied,
}

/// What the values leave of a clause.
pub(crate) fn look(values: &[Option<bool>], lits: &[Lit]) -> Seen
    requires { EachLiteral (λ l. l.var < length values.now) lits.now }
    ensures { IsSeen values.now lits.now result }
{
    let mut free = None;
    for lit in lits {
        let Some(value) = values[lit.var().number() as usize] else {
            if free.is_some() {
                return Seen::Open;
            }
            free = Some(*lit);
            continue;
        };
        if value == lit.sign() {
            return Seen::Open;
        }
    }
    match free {
        None => Seen::Denied,
        Some(lit) => Seen::Last(lit),
    }
}

/// Whether a clause is true where each free unknown is 0.
#[derive(Clone, Copy)]
pub(crate) enum Judged {
    True,
    /// It is not, and all literals are denied.
    Denied,
    /// It is not, and this literal is free.
    Free(Lit),
}

/// Whether a clause is true where each free unknown is 0.
pub(crate) fn judge(values: &[Option<bool>], lits: &[Lit]) -> Judged
    requires { EachLiteral (λ l. l.var < length values.now) lits.now }
    ensures { IsJudged values.now lits.now result }
{
    let mut free = None;
    for lit in lits {
        let Some(value) = values[lit.var().number() as usize] else {
            if !lit.sign() {
                return Judged::True;
            }
            free = Some(*lit);
            continue;
        };
        if value == lit.sign() {
            return Judged::True;
        }
    }
    match free {
        None => Judged::Denied,
        Some(lit) => Judged::Free(lit),
    }
}

/// Whether a literal is in a clause, by the place of its unknown.
pub(crate) fn is_in(lits: &[Lit], lit: Lit) -> bool
    requires { Ascends 0 lits.now }
    ensures { result ≡ has_literal lit lits.now }
{
    let var = lit.var().number();
    let mut low = 0;
    let mut high = lits.len();
    while low < high {
        let middle = low + (high - low) / 2;
        let there = lits[middle];
        if there.var().number() < var {
            low = middle + 1;
            continue;
        }
        high = middle;
    }
    if low == lits.len() {
        return false;
    }
    lits[low] == lit
}
