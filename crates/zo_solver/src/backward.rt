//! Going back from a denied clause, with a resolvent for each step.

ghost use Rattle.std.specs.Prelude.{◌≡◌, ◌<◌, IfNone, IfSome, None, length, slice_set};
ghost use Rattle.std.specs.Vec.{vec_len, vec_capacity};
ghost use Rattle.zo_solver.specs.Clauses.{numbered};
ghost use Rattle.zo_solver.specs.declared.search.Source.TheVariants.{FromGiven};
ghost use Rattle.zo_solver.specs.Trail.{clause_of, IsThere, IsReason, IsMark, IsWhole, IsRunning, IsDeniedAt, IsDeniedWith, IsSpent};
ghost use Rattle.zo_solver.specs.Steps.{IsOn, IsPair, HoldsAgainst, ResolventIs, MoveIs, BackIs, Stays};

use crate::answers::Origin;
use crate::looks::is_in;
use crate::search::{Kind, Mark, Search, Source};
use zo_core::{Lit, resolve_into};

/// Going back over one mark.
#[derive(Clone, Copy)]
pub(crate) enum Move {
    /// This clause is denied without the mark.
    On(Source),
    /// The mark was a guess, and is turned.
    Turned,
    Spent,
}

/// Going back from a denied clause.
#[derive(Clone, Copy)]
pub(crate) enum Back {
    /// To a guess, which is turned.
    Turned,
    /// To the assumptions: this line is denied by them alone.
    Conflict(u32),
    Spent,
}

impl Search {
    /// The line of a clause, which becomes one where it isn't yet; None where it costs more than is left.
    fn line_of(&mut self, source: Source) -> Option<u32>
        requires whole { IsWhole self.old }
        requires there { IsThere self.old source }
        ensures on { IsOn self.old self.new }
        ensures line { IfSome result (λ n. numbered self.new.lines.clauses n ≡ clause_of self.old.given.clauses self.old.lines.clauses source) }
        ensures spent { IfNone result (IsSpent self.new) }
    {
        match source {
            Source::FromLine(number) => Some(number),
            Source::FromGiven(number) => self.line_of_given(number),
        }
    }

    fn line_of_given(&mut self, number: u32) -> Option<u32>
        requires whole { IsWhole self.old }
        requires there { IsThere self.old (FromGiven number) }
        ensures on { IsOn self.old self.new }
        ensures line { IfSome result (λ n. numbered self.new.lines.clauses n ≡ numbered self.old.given.clauses number) }
        ensures spent { IfNone result (IsSpent self.new) }
    {
        let lits = self.given.get(number);
        if let Some(line) = self.lines.find(lits) {
            return Some(line);
        }
        let origin = Origin::Given(number as u64 - 1);
        if self.lines.push(lits, origin) {
            return Some(self.lines.len());
        }
        self.made.clear();
        self.made.extend_from_slice(lits).unwrap();
        self.next = Some(origin);
        None
    }

    /// The line of the resolvent of two lines on a literal.
    fn resolve(&mut self, lit: Lit, first: u32, second: u32) -> Move
        requires whole { IsWhole self.old }
        requires pair { IsPair self.old lit first second }
        ensures { ResolventIs self.old self.new result }
    {
        resolve_into(
            &mut self.made,
            lit,
            self.lines.get(first),
            self.lines.get(second),
        );
        let made = self.made.as_slice();
        if let Some(number) = self.lines.find(made) {
            return Move::On(Source::FromLine(number));
        }
        let origin = Origin::Resolved(first, second);
        if self.lines.push(made, origin) {
            let number = self.lines.len();
            self.in_lines.add(number, made);
            return Move::On(Source::FromLine(number));
        }
        self.next = Some(origin);
        Move::Spent
    }

    /// The resolvent of two clauses on a literal.
    fn resolve_sources(&mut self, lit: Lit, reason: Source, now: Source) -> Move
        requires whole { IsWhole self.old }
        requires reason { IsReason self.old.given.clauses self.old.lines.clauses self.old.values.items lit reason }
        requires now { IsDeniedWith self.old lit now }
        requires held { HoldsAgainst self.old lit now }
        ensures { ResolventIs self.old self.new result }
    {
        let Some(first) = self.line_of(reason) else {
            return Move::Spent;
        };
        let Some(second) = self.line_of(now) else {
            return Move::Spent;
        };
        self.resolve(lit, first, second)
    }

    /// Takes back the value of a literal.
    fn free(&mut self, lit: Lit)
        requires { lit.var < length self.old.values.items }
        ensures stays { Stays self.old self.new }
        ensures values { self.new.values.items ≡ slice_set self.old.values.items lit.var None }
        ensures trail { self.new.trail ≡ self.old.trail }
    {
        let var = lit.var().number();
        self.values[var as usize] = None;
        if var < self.hint {
            self.hint = var;
        }
    }

    /// Goes back over a mark that was taken off, from a clause that is denied with it.
    fn one_back(&mut self, mark: Mark, now: Source) -> Move
        requires whole { IsWhole self.old }
        requires mark { IsMark self.old.given.clauses self.old.lines.clauses self.old.values.items mark }
        requires now { IsDeniedWith self.old mark.lit now }
        requires room { vec_len self.old.trail < vec_capacity self.old.trail }
        ensures { MoveIs self.old self.new mark now result }
    {
        if !is_in(self.clause(now), mark.lit.negated()) {
            return Move::On(now);
        }
        match mark.kind {
            Kind::Guess => {
                self.mark(mark.lit.negated(), Kind::Forced(now));
                Move::Turned
            }
            Kind::Forced(reason) => self.resolve_sources(mark.lit, reason, now),
        }
    }

    pub(crate) fn go_back(&mut self, assumed: &[Lit], from: Source) -> Back
        requires running { IsRunning assumed.now self.old }
        requires denied { IsDeniedAt self.old from }
        ensures { BackIs assumed.now self.old self.new result }
    {
        let mut now = from;
        while let Some(mark) = self.trail.pop() {
            self.free(mark.lit);
            match self.one_back(mark, now) {
                Move::On(source) => {
                    now = source;
                }
                Move::Turned => return Back::Turned,
                Move::Spent => return Back::Spent,
            }
        }
        match self.line_of(now) {
            Some(number) => Back::Conflict(number),
            None => Back::Spent,
        }
    }
}
