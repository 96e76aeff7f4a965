//! What the search needs of a program.

ghost use Rattle.std.specs.Prelude.{◌≡◌, ◌≤◌, ◌<◌, ◌+◌, ℕ, Bool, IfOk, length, sum_by};
ghost use Rattle.std.specs.List.{All};
ghost use Rattle.conflict_proof.specs.declared.names.ConstraintName.{ConstraintName};
ghost use Rattle.verdict_meaning.specs.Systems.{System, root, members, callee, callees, callee_parts, count};
ghost use Rattle.call_search.specs.Shapes.{IsShaped, IsThere, before_own, before_site};
ghost use Rattle.call_search.specs.Ledgers.{IsGiven, IsLedger};
ghost use Rattle.call_search.specs.Answers.{OutcomeIs};

use crate::ledger::Ledger;
use c_tree::Memory;
use conflict_proof::Line;
use own_cert::Bits;
use std::alloc::Global;
use verdict_meaning::Callee;
use zo_core::Lit;

/// What came of solving a group.
#[derive(Drop)]
pub enum Outcome {
    /// Values of all unknowns, by number from 1.
    Sat(Bits),
    /// The number of a line that says that what was given can't be.
    Conflict(u32),
    /// The next line, for which the words don't suffice.
    Spent(Line),
}

/// The groups of a program, the numbers of their unknowns, and whom their sites call.
pub trait Shapes {
    ghost system: { Self → System };

    fn root(&self) -> u32
        ensures { result ≡ root (system self.now) };

    fn fields(&self) -> u32
        ensures { result ≡ (system self.now).fields };

    fn parts(&self, of: Callee) -> u32
        requires { IsThere (system self.now) of }
        ensures { result ≡ (system self.now).parts of.proc };

    /// How many unknowns of its group are before those of its interface.
    fn before_own(&self, of: Callee) -> u32
        requires { IsThere (system self.now) of }
        ensures { result ≡ before_own (system self.now) of };

    /// The procedures of a group, ascending.
    fn members(&self, group: u32) -> &[u32]
        requires { group < root (system self.now) }
        ensures { result.now ≡ members (system self.now) group };

    /// How many parts the interfaces of a group's members have.
    fn own_parts(&self, group: u32) -> u32
        requires { group < root (system self.now) }
        ensures { result ≡ sum_by (system self.now).parts (members (system self.now) group) };

    /// How many parts the interfaces of the procedures have that the sites of a group call.
    fn site_parts(&self, group: u32) -> u32
        requires { group < root (system self.now) }
        ensures { result ≡ sum_by (callee_parts (system self.now)) (callees (system self.now) group) };

    /// How many places a procedure has.
    fn places(&self, of: Callee) -> u32
        requires { IsThere (system self.now) of }
        ensures { result ≡ (system self.now).places of.proc };

    /// How many unknowns each of them has.
    fn width(&self, of: Callee) -> u32
        requires { IsThere (system self.now) of }
        ensures { result ≡ (system self.now).width of.proc };

    fn sites(&self, group: u32) -> u32
        requires { group ≤ root (system self.now) }
        ensures { result ≡ length (callees (system self.now) group) };

    fn callee(&self, group: u32, site: u32) -> Callee
        requires group { group ≤ root (system self.now) }
        requires site { site < length (callees (system self.now) group) }
        ensures { result ≡ callee (system self.now) group site };

    /// How many unknowns of a group are before those of a site.
    fn before_site(&self, group: u32, site: u32) -> u32
        requires group { group ≤ root (system self.now) }
        requires site { site < length (callees (system self.now) group) }
        ensures { result ≡ before_site (system self.now) group site };

    ghost shaped: { (g : Self) → IsShaped (system g) };
}

/// The constraints of a program, group by group, and a solver of one group.
pub trait Groups: Shapes {
    ghost counting: { Self → ConstraintName → Bool };

    /// Solves a group under what is given, with the lines that were carried to it.
    fn solve(
        &self,
        alloc: Global,
        ledger: &mut Ledger,
        group: u32,
        given: &[Lit],
    ) -> Result<Outcome, Memory>
        requires ledger { IsLedger (Self.system self.now) (counting self.now) ledger.old }
        requires group { group ≤ root (Self.system self.now) }
        requires given { IsGiven (Self.system self.now) group given.now }
        ensures { IfOk result (OutcomeIs (Self.system self.now) (counting self.now) group given.now ledger.old ledger.new) };
}
