ghost use Rattle.std.specs.Prelude.{ℕ, Some, IsTrue, ◌≡◌, ◌+◌, ◌<◌, ◌≤◌, ◌^◌, length, IfOk, OnOk};
ghost use Rattle.zo_core.specs.Order.{Ascends};
ghost use Rattle.std.specs.List.{Contains};
ghost use Rattle.zo_solver.specs.Stores.{AreNumbers};
ghost use Rattle.zo_solver.specs.Clauses.{numbered, EachClause, AreWithin};
ghost use Rattle.zo_solver.specs.Accounts.{Advances};

use crate::{Answer, Origin, Solver};
use c_tree::Memory;
use std::alloc::Global;
use std::test::Fail;
use zo_core::{Clause, Lit, Var};

/// A solver over the clauses `1 2`, `-1 2` and `1 -2`.
fn pairs(alloc: Global, words: u64) -> Result<Solver, Memory>
    requires { words < 2 ^ 32 }
    ensures { IfOk result (λ s. s.vars ≡ 2) }
{
    let clauses = [
        Clause::of(alloc, &[Lit(1), Lit(2)])?,
        Clause::of(alloc, &[Lit(-1), Lit(2)])?,
        Clause::of(alloc, &[Lit(1), Lit(-2)])?,
    ];
    Solver::new(alloc, 2, &clauses, words)
}

#[test]
fn satisfies(rt: HostRuntime) -> Result<(), Fail> {
    let mut solver = pairs(rt.alloc(), 100)?;
    assert!(&rt; solver.solve(&[]) == Answer::Sat);
    assert!(&rt; solver.value(Var(1)) && solver.value(Var(2)));
    Ok(())
}

#[test]
fn refutes(rt: HostRuntime) -> Result<(), Fail> {
    let mut solver = pairs(rt.alloc(), 100)?;
    let answer = solver.solve(&[Lit(-1)]);
    let last = solver.lines();
    assert!(&rt; answer == Answer::Conflict(last));
    assert!(&rt; last > 0);
    assert!(&rt; solver.line(last) == [Lit(1)].as_slice());
    Ok(())
}

#[test]
fn spends(rt: HostRuntime) -> Result<(), Fail> {
    let mut solver = pairs(rt.alloc(), 1)?;
    assert!(&rt; solver.solve(&[Lit(-1)]) == Answer::Spent);
    assert!(&rt; solver.words_left() == 1 && solver.lines() == 0);
    Ok(())
}

/// The words that the lines cost.
fn cost(solver: &Solver) -> u64 {
    let mut sum = 0u64;
    for index in 0..solver.lines() {
        sum = sum.saturating_add(solver.line(index + 1).len() as u64 + 1);
    }
    sum
}

#[test]
fn ends_with_the_empty_line(rt: HostRuntime) -> Result<(), Fail> {
    let clauses = [
        Clause::of(rt.alloc(), &[Lit(1), Lit(2)])?,
        Clause::of(rt.alloc(), &[Lit(-1), Lit(2)])?,
        Clause::of(rt.alloc(), &[Lit(-2)])?,
    ];
    let mut solver = Solver::new(rt.alloc(), 2, &clauses, 100)?;
    let answer = solver.solve(&[]);
    let last = solver.lines();
    assert!(&rt; answer == Answer::Conflict(last));
    assert!(&rt; last > 0);
    assert!(&rt; solver.line(last).is_empty());
    assert!(&rt; solver.words_left() == 100u64.saturating_sub(cost(&solver)));
    Ok(())
}

#[test]
fn adds_and_keeps(rt: HostRuntime) -> Result<(), Fail> {
    let mut solver = pairs(rt.alloc(), 100)?;
    let answer = solver.solve(&[Lit(-1)]);
    let (last, left) = (solver.lines(), solver.words_left());
    assert!(&rt; solver.add(&[Lit(1)]) == Some(last));
    assert!(&rt; solver.words_left() == left);
    solver.keep(&[]);
    assert!(&rt; solver.lines() == 0 && solver.words_left() == 100);
    assert!(&rt; solver.solve(&[Lit(-1)]) == answer);
    let mut solver = pairs(rt.alloc(), 2)?;
    assert!(&rt; solver.add(&[Lit(-1), Lit(2)]).is_none());
    assert!(&rt; solver.add(&[Lit(-1)]) == Some(1));
    assert!(&rt; solver.words_left() == 0 && solver.solve(&[]) == Answer::Spent);
    Ok(())
}

/// The clauses over two unknowns, those apart that have an unknown in both signs.
fn clause(alloc: Global, number: u32) -> Result<Clause, Memory>
    ensures { IfOk result (AreWithin 2) }
{
    match number {
        0 => Clause::of(alloc, &[]),
        1 => Clause::of(alloc, &[Lit(1)]),
        2 => Clause::of(alloc, &[Lit(-1)]),
        3 => Clause::of(alloc, &[Lit(2)]),
        4 => Clause::of(alloc, &[Lit(-2)]),
        5 => Clause::of(alloc, &[Lit(1), Lit(2)]),
        6 => Clause::of(alloc, &[Lit(1), Lit(-2)]),
        7 => Clause::of(alloc, &[Lit(-1), Lit(2)]),
        _ => Clause::of(alloc, &[Lit(-1), Lit(-2)]),
    }
}

/// Some of these clauses.
fn subset(alloc: Global, set: u32) -> Result<Vec<Clause>, Memory>
    ensures { IfOk result (λ cs. EachClause (AreWithin 2) cs.items) }
{
    let mut clauses = Vec::new(alloc);
    for number in 0..9u32 {
        if (set >> number) % 2 == 1 {
            clauses.push(clause(alloc, number)?)?;
        }
    }
    Ok(clauses)
}

/// What the clauses are where the literals of this one are true.
fn solve(solver: &mut Solver, assumed: &Clause) -> Answer
    requires { AreWithin solver.old.vars assumed.now }
    ensures { Advances solver.old solver.new }
{
    solver.solve(assumed.lits())
}

/// What clauses are under assumptions.
#[derive(Clone, Copy)]
struct Asked {
    answer: Answer,
    // the words of the lines, and whether these are what their origins say
    cost: u64,
    derived: bool,
}

/// What the clauses are under these assumptions, with that many words.
fn ask(alloc: Global, clauses: &[Clause], words: u64, assumed: &Clause) -> Result<Asked, Memory>
    requires clauses { EachClause (AreWithin 2) clauses.now }
    requires assumed { AreWithin 2 assumed.now }
    requires words { words ≤ 100 }
    ensures { IfOk result (λ r. r.cost ≤ 100) }
{
    let mut solver = Solver::new(alloc, 2, clauses, words)?;
    let answer = solve(&mut solver, assumed);
    Ok(Asked {
        answer,
        cost: words - solver.words_left(),
        derived: are_derived(&solver, clauses),
    })
}

/// Whether a clause is true where unknown 1 is the first bit, unknown 2 the second, and so on.
fn is_true(lits: &[Lit], bits: u32) -> bool {
    lits.iter().any(|lit| ((bits >> ((lit.var().number() - 1) % 32)) % 2 == 1) == lit.sign())
}

/// Whether some values of the unknowns meet the clauses and the assumptions.
fn can_be_met(unknowns: u32, clauses: &[Clause], assumed: &Clause) -> bool
    requires { unknowns < 32 }
{
    (0..1u32 << unknowns).any(|bits| {
        clauses.iter().all(|clause| is_true(clause.lits(), bits))
            && assumed.lits().iter().all(|lit| is_true(&[*lit], bits))
    })
}

#[test]
fn decides_two_unknowns(rt: HostRuntime) -> Result<(), Fail> {
    for set in 0..512u32 {
        let clauses = subset(rt.alloc(), set)?;
        for number in 0..9u32 {
            let assumed = clause(rt.alloc(), number)?;
            let all = ask(rt.alloc(), clauses.as_slice(), 100, &assumed)?;
            let met = can_be_met(2, clauses.as_slice(), &assumed);
            assert!(&rt; all.derived && all.answer != Answer::Spent);
            assert!(&rt; (all.answer == Answer::Sat) == met);
            let same = ask(rt.alloc(), clauses.as_slice(), all.cost, &assumed)?;
            assert!(&rt; same.derived && same.answer == all.answer);
            for words in 0..all.cost {
                let less = ask(rt.alloc(), clauses.as_slice(), words, &assumed)?;
                assert!(&rt; less.derived && less.answer == Answer::Spent);
            }
        }
    }
    Ok(())
}

/// The clauses `-k k+1` of these unknowns.
fn chain(alloc: Global, unknowns: u32) -> Result<Vec<Clause>, Memory>
    requires { unknowns < 2 ^ 31 }
    ensures { IfOk result (λ cs. EachClause (AreWithin unknowns) cs.items) }
{
    let mut clauses = Vec::new(alloc);
    for number in 1..unknowns {
        clauses.push(Clause::of(alloc, &[Var(number).no(), Var(number + 1).yes()])?)?;
    }
    Ok(clauses)
}

/// Whether a chain's last unknown is 1 where its first is, and a conflict says so where it is 0.
fn follows(alloc: Global, unknowns: u32) -> Result<bool, Memory>
    requires some { 1 < unknowns }
    requires small { unknowns < 2 ^ 31 }
{
    let clauses = chain(alloc, unknowns)?;
    let mut solver = Solver::new(alloc, unknowns, clauses.as_slice(), 1_000_000)?;
    let last = Var(unknowns);
    if solve(&mut solver, &Clause::of(alloc, &[Lit(1)])?) != Answer::Sat || !solver.value(last) {
        return Ok(false);
    }
    let answer = solve(&mut solver, &Clause::of(alloc, &[Lit(1), last.no()])?);
    let number = solver.lines();
    Ok(
        answer == Answer::Conflict(number)
            && number > 0
            && solver
                .line(number)
                .iter()
                .all(|lit| *lit == Lit(-1) || *lit == last.yes()),
    )
}

#[test]
fn follows_a_chain(rt: HostRuntime) -> Result<(), Fail> {
    assert!(&rt; follows(rt.alloc(), 100_000)?);
    Ok(())
}

/// Numbers of a linear congruential generator.
#[derive(Drop)]
struct Random(u64);

impl Random {
    /// The next number, below `end`.
    fn below(&mut self, end: u32) -> u32
        requires { 0 < end }
        ensures { result < end }
    {
        self.0 = self
            .0
            .wrapping_mul(6_364_136_223_846_793_005)
            .wrapping_add(1_442_695_040_888_963_407);
        ((self.0 >> 33) % end as u64) as u32
    }

    /// A literal of this unknown.
    fn literal(&mut self, var: Var) -> Lit
        ensures { result.var ≡ var }
    {
        var.literal(self.below(2) == 1)
    }
}

/// A clause of three of eight unknowns.
fn triple(alloc: Global, random: &mut Random) -> Result<Clause, Memory>
    ensures { IfOk result (AreWithin 8) }
{
    let first = 1 + random.below(6);
    let second = first + 1 + random.below(7 - first);
    let third = second + 1 + random.below(8 - second);
    let lits = [
        random.literal(Var(first)),
        random.literal(Var(second)),
        random.literal(Var(third)),
    ];
    Clause::of(alloc, &lits)
}

/// That many such clauses.
fn triples(alloc: Global, random: &mut Random, count: u32) -> Result<Vec<Clause>, Memory>
    ensures { IfOk result (λ cs. EachClause (AreWithin 8) cs.items) }
{
    let mut clauses = Vec::new(alloc);
    for _number in 0..count {
        clauses.push(triple(alloc, random)?)?;
    }
    Ok(clauses)
}

/// One bit for each literal of a clause over eight unknowns.
fn set_of(lits: &[Lit]) -> u32 {
    let mut set = 0;
    for lit in lits {
        set |= bit(*lit);
    }
    set
}

/// The bit of a literal.
fn bit(lit: Lit) -> u32 {
    1 << ((2 * lit.var().number() + lit.sign() as u32) % 32)
}

/// Whether the last is a resolvent of the two others.
fn is_resolvent(a: &[Lit], b: &[Lit], c: &[Lit]) -> bool {
    a.iter().any(|lit| {
        let opposite = bit(lit.negated());
        let rest = set_of(a) & !bit(*lit) | set_of(b) & !opposite;
        set_of(b) & opposite != 0 && set_of(c) == rest
    })
}

/// Whether a line is what its origin says.
fn is_derived(solver: &Solver, given: &[Clause], number: u32) -> bool
    requires some { 0 < number }
    requires there { number ≤ length solver.now.lines }
{
    let line = solver.line(number);
    match solver.origin(number) {
        Origin::Given(k) => match given.get(k as usize) {
            None => false,
            Some(clause) => clause.lits() == line,
        },
        Origin::Lemma => false,
        Origin::Resolved(a, b) => {
            0 < a
                && 0 < b
                && a < number
                && b < number
                && is_resolvent(solver.line(a), solver.line(b), line)
        }
    }
}

/// The same of each line.
fn are_derived(solver: &Solver, given: &[Clause]) -> bool {
    (0..solver.lines()).all(|index| is_derived(solver, given, index + 1))
}

/// Whether a solver over eight unknowns answers as trying all values does, by lines that are what their origins say.
fn is_right(solver: &mut Solver, given: &[Clause], assumed: &Clause) -> bool
    requires { AreWithin solver.old.vars assumed.now }
    ensures { solver.new.vars ≡ solver.old.vars }
{
    let answer = solve(solver, assumed);
    are_derived(solver, given)
        && answer != Answer::Spent
        && (answer == Answer::Sat) == can_be_met(8, given, assumed)
}

#[test]
fn decides_eight_unknowns(rt: HostRuntime) -> Result<(), Fail> {
    let mut random = Random(21);
    let free = Clause::of(rt.alloc(), &[])?;
    for _round in 0..1000u32 {
        let count = 20 + random.below(26);
        let clauses = triples(rt.alloc(), &mut random, count)?;
        let mut solver = Solver::new(rt.alloc(), 8, clauses.as_slice(), 70_000)?;
        assert!(&rt; is_right(&mut solver, clauses.as_slice(), &free));
        let unknown = 1 + random.below(8);
        let assumed = Clause::of(rt.alloc(), &[random.literal(Var(unknown))])?;
        assert!(&rt; is_right(&mut solver, clauses.as_slice(), &assumed));
    }
    Ok(())
}

/// Whether the numbers ascend from above the last one, up to a count.
fn ascend(last: u32, count: u32, numbers: &[u32]) -> bool
    ensures { IsTrue result → AreNumbers last count numbers.now }
{
    match numbers.split_first() {
        None => true,
        Some((number, rest)) => {
            last < *number && *number <= count && ascend(*number, count, rest)
        }
    }
}

/// Whether the two lines of a resolvent are among the kept ones.
fn has_premises(solver: &Solver, kept: &[u32], number: u32) -> bool
    requires some { 0 < number }
    requires there { number ≤ length solver.now.lines }
    ensures { IsTrue result → ((a b : ℕ) → numbered solver.now.origins number ≡ Some (Origin.Resolved a b) → Contains kept.now a × Contains kept.now b) }
{
    match solver.origin(number) {
        Origin::Given(_) | Origin::Lemma => true,
        Origin::Resolved(a, b) => kept.contains(&a) && kept.contains(&b),
    }
}

/// The same of each of these lines.
fn have_premises(solver: &Solver, kept: &[u32], numbers: &[u32]) -> bool
    ensures { IsTrue result → ((n a b : ℕ) → Contains numbers.now n → numbered solver.now.origins n ≡ Some (Origin.Resolved a b) → Contains kept.now a × Contains kept.now b) }
{
    match numbers.split_first() {
        None => true,
        Some((number, rest)) => {
            0 < *number
                && *number <= solver.lines()
                && has_premises(solver, kept, *number)
                && have_premises(solver, kept, rest)
        }
    }
}

/// Keeps these lines alone; false, and nothing is done, where a kept resolvent would lose one of its lines.
fn keep(solver: &mut Solver, numbers: &[u32]) -> bool
    ensures { solver.new.vars ≡ solver.old.vars }
{
    let may_be = ascend(0, solver.lines(), numbers) && have_premises(solver, numbers, numbers);
    if may_be {
        solver.keep(numbers);
    }
    may_be
}

/// The numbers of all lines.
fn all_lines(alloc: Global, solver: &Solver) -> Result<Vec<u32>, Memory> {
    let mut numbers = Vec::new(alloc);
    for index in 0..solver.lines() {
        numbers.push(index + 1)?;
    }
    Ok(numbers)
}

/// The numbers of the lines on which the last one stands, and its own, in no order.
fn needed(alloc: Global, solver: &Solver) -> Result<Vec<u32>, Memory> {
    let last = solver.lines();
    let mut numbers = Vec::new(alloc);
    numbers.push(last)?;
    for index in 0..last {
        let number = last - index;
        if !numbers.contains(&number) {
            continue;
        }
        if let Origin::Resolved(a, b) = solver.origin(number) {
            numbers.push(a)?;
            numbers.push(b)?;
        }
    }
    Ok(numbers)
}

/// The same, ascending.
fn stood_on(alloc: Global, solver: &Solver) -> Result<Vec<u32>, Memory> {
    let needed = needed(alloc, solver)?;
    let mut numbers = Vec::new(alloc);
    for index in 0..solver.lines() {
        if needed.contains(&(index + 1)) {
            numbers.push(index + 1)?;
        }
    }
    Ok(numbers)
}

/// Adds a lemma to a solver over two unknowns.
fn add_second_implied(solver: &mut Solver) -> Option<u32>
    requires { solver.old.vars ≡ 2 }
    ensures { solver.new.vars ≡ 2 }
{
    solver.add(&[Lit(-1), Lit(2)])
}

#[test]
fn keeps_what_a_conflict_stands_on(rt: HostRuntime) -> Result<(), Fail> {
    let mut solver = pairs(rt.alloc(), 100)?;
    let assumed = clause(rt.alloc(), 2)?;
    // A lemma on which nothing stands.
    assert!(&rt; add_second_implied(&mut solver) == Some(1));
    let answer = solve(&mut solver, &assumed);
    assert!(&rt; answer == Answer::Conflict(4) && solver.words_left() == 89);
    let all = all_lines(rt.alloc(), &solver)?;
    assert!(&rt; keep(&mut solver, all.as_slice()));
    assert!(&rt; solver.lines() == 4 && solver.words_left() == 89);
    assert!(&rt; solve(&mut solver, &assumed) == answer);
    let kept = stood_on(rt.alloc(), &solver)?;
    assert!(&rt; kept.as_slice() == [2, 3, 4].as_slice());
    assert!(&rt; keep(&mut solver, kept.as_slice()));
    assert!(&rt; solver.lines() == 3 && solver.words_left() == 92);
    assert!(&rt; solve(&mut solver, &assumed) == Answer::Conflict(3));
    assert!(&rt; !keep(&mut solver, &[3]));
    Ok(())
}
