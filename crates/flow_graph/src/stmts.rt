ghost use Rattle.std.specs.Prelude.{◌≡◌, ◌≤◌, ◌<◌, ◌+◌, ◌^◌, OnOk, IfOk};
ghost use Rattle.c_tree.specs.View.{expr_view, stmt_view, stmts_view, cond_view, step_view};
ghost use Rattle.c_tree.specs.Nodes.{node_count, node_count_of, stmt_count, stmts_count};
ghost use Rattle.flow_graph.specs.Edges.{assigned, body_edges, stored, headed, turns, flow, flow_all, loop_of, turn_of, body_of_for};

use crate::exprs::Operands;
use crate::lowering::Lowering;
use crate::nodes::{is_pointer_at, put, refers_at, var_at};
use crate::raw::{RawAction, RawEdge, Slot};
use c_tree::{
    Expr, ExprForm, Memory, Place, Stmt, StmtForm, count_cond, count_of, count_step, count_stmt,
    count_stmts,
};
use c_types::NodeInfo;
use sqlite_items::Boxed;
use std::alloc::Global;

/// What the statements of a body are lowered with.
#[derive(Clone, Copy)]
struct Body<'a> {
    pub alloc: Global,
    /// What is known of the nodes, by their numbers.
    pub infos: &'a [NodeInfo],
}

/// Where `break` and `continue` lead.
#[derive(Clone, Copy)]
struct Exits {
    pub break_to: Place,
    pub continue_to: Place,
}

/// What goes into a field, at the arrow of node `n`.
fn stored(infos: &[NodeInfo], n: u32, b: Slot, x: Slot) -> RawAction
    ensures { result ≡ stored infos.now n b x }
{
    if is_pointer_at(infos, n) {
        RawAction::Store(b, refers_at(infos, n), x)
    } else {
        RawAction::Put(b, refers_at(infos, n), x)
    }
}

impl Body<'_> {
    /// The assignment at node `n`, what is assigned being run first; gives its first place.
    fn assign(
        &self,
        n: u32,
        target: &Expr,
        e: &Expr,
        to: Place,
        out: &mut Vec<RawEdge>,
    ) -> Result<Place, Memory>
        requires { n + 1 + node_count (expr_view target.now) + node_count (expr_view e.now) < 2 ^ 32 }
        ensures start { IfOk result (λ p. p ≡ (assigned self.now.infos.now n (expr_view target.now) (expr_view e.now) to).start) }
        ensures edges { OnOk result (out.new.items ≡ (assigned self.now.infos.now n (expr_view target.now) (expr_view e.now) to).after out.old.items) }
    {
        let exprs = Lowering {
            alloc: self.alloc,
            infos: self.infos,
            base: n + 1,
        };
        let at = Place::At(n, 0);
        match &target.form {
            ExprForm::Name(_) => exprs.run(n + 2, e, var_at(self.infos, n + 1), to, out),
            ExprForm::Arrow(b, _) => {
                let m = n + 1 + count_of(target);
                let base = exprs.slot_of(n + 2, b.get());
                let value = exprs.slot_of(m, e);
                put(at, stored(self.infos, n + 1, base, value), to, out)?;
                let operands = Operands {
                    first_node: m,
                    first: e,
                    second_node: n + 2,
                    second: b.get(),
                };
                exprs.both(operands, at, out)
            }
            ExprForm::Index(b, i) => {
                let m = n + 1 + count_of(target);
                let l = n + 2 + count_of(b.get());
                let base = exprs.slot_of(n + 2, b.get());
                let index = exprs.slot_of(l, i.get());
                put(
                    at,
                    RawAction::PutAt(base, index, exprs.slot_of(m, e)),
                    to,
                    out,
                )?;
                let operands = Operands {
                    first_node: n + 2,
                    first: b.get(),
                    second_node: l,
                    second: i.get(),
                };
                let then = exprs.both(operands, at, out)?;
                exprs.operand(m, e, then, out)
            }
            ExprForm::New(new) => match &new.count {
                None => Ok(to),
                Some(_) => Ok(to),
            },
            ExprForm::Num(_)
            | ExprForm::Text(_)
            | ExprForm::Null
            | ExprForm::Call(_, _)
            | ExprForm::Not(_)
            | ExprForm::Neg(_)
            | ExprForm::Binary(_, _, _) => Ok(to),
        }
    }

    /// The condition of a loop, at node `m`, where there is one; gives its first place.
    fn put_turns(
        &self,
        m: u32,
        c: &Option<Expr>,
        yes: Place,
        no: Place,
        out: &mut Vec<RawEdge>,
    ) -> Result<Place, Memory>
        requires { m + node_count_of (cond_view c.now) < 2 ^ 32 }
        ensures start { IfOk result (λ p. p ≡ (turns self.now.infos.now m (cond_view c.now) yes no).start) }
        ensures edges { OnOk result (out.new.items ≡ (turns self.now.infos.now m (cond_view c.now) yes no).after out.old.items) }
    {
        let exprs = Lowering {
            alloc: self.alloc,
            infos: self.infos,
            base: m,
        };
        match c {
            Some(c) => exprs.test(m, c, yes, no, out),
            None => Ok(yes),
        }
    }

    /// The head of a `for` at node `n`, whose condition, if there is one, is node `m`.
    fn put_head(
        &self,
        n: u32,
        m: u32,
        c: &Option<Expr>,
        yes: Place,
        no: Place,
        out: &mut Vec<RawEdge>,
    ) -> Result<Place, Memory>
        requires { m + node_count_of (cond_view c.now) < 2 ^ 32 }
        ensures start { IfOk result (λ p. p ≡ (headed self.now.infos.now n m (cond_view c.now) yes no).start) }
        ensures edges { OnOk result (out.new.items ≡ (headed self.now.infos.now n m (cond_view c.now) yes no).after out.old.items) }
    {
        let first = self.put_turns(m, c, yes, no, out)?;
        put(Place::At(n, 0), RawAction::Skip, first, out)
    }

    /// Statement `n`, which goes on at `to`; gives its first place.
    #[cycle(stmts)]
    fn flow(
        &self,
        exits: Exits,
        n: u32,
        s: &Stmt,
        to: Place,
        out: &mut Vec<RawEdge>,
    ) -> Result<Place, Memory>
        requires { n + stmt_count (stmt_view s.now) < 2 ^ 32 }
        ensures start { IfOk result (λ p. p ≡ (flow self.now.infos.now exits.break_to exits.continue_to n (stmt_view s.now) to).start) }
        ensures edges { OnOk result (out.new.items ≡ (flow self.now.infos.now exits.break_to exits.continue_to n (stmt_view s.now) to).after out.old.items) }
    {
        let exprs = Lowering {
            alloc: self.alloc,
            infos: self.infos,
            base: n + 1,
        };
        let at = Place::At(n, 0);
        match &s.form {
            StmtForm::Block(ss) => self.flow_all(exits, n + 1, ss.as_slice(), to, out),
            StmtForm::Nothing => Ok(to),
            StmtForm::Local(_, _, None) => put(
                at,
                RawAction::Unset(var_at(self.infos, n)),
                to,
                out,
            ),
            StmtForm::Local(_, _, Some(e)) => {
                let x = var_at(self.infos, n);
                let first = exprs.run(n + 1, e, x, to, out)?;
                put(at, RawAction::Unset(x), first, out)
            }
            StmtForm::Assign(target, e) => self.assign(n, target, e, to, out),
            StmtForm::Do(e) => exprs.run(n + 1, e, exprs.temp(n + 1), to, out),
            StmtForm::Free(e) => {
                put(at, RawAction::Free(exprs.slot_of(n + 1, e)), to, out)?;
                exprs.operand(n + 1, e, at, out)
            }
            StmtForm::If(c, s, None) => {
                let first = self.flow(exits, n + 1 + count_of(c), s.get(), to, out)?;
                exprs.test(n + 1, c, first, to, out)
            }
            StmtForm::If(c, s, Some(t)) => {
                let m = n + 1 + count_of(c);
                let second = self.flow(exits, m + count_stmt(s.get()), t.get(), to, out)?;
                let first = self.flow(exits, m, s.get(), to, out)?;
                exprs.test(n + 1, c, first, second, out)
            }
            StmtForm::While(c, s) => {
                let inner = Exits {
                    break_to: to,
                    continue_to: at,
                };
                let body = self.flow(inner, n + 1 + count_of(c), s.get(), at, out)?;
                let first = exprs.test(n + 1, c, body, to, out)?;
                put(at, RawAction::Skip, first, out)
            }
            StmtForm::For(init, _, _, _) => {
                let head = self.flow_loop(exits, n, s, to, out)?;
                self.flow_all(exits, n + 1, init.as_slice(), head, out)
            }
            StmtForm::Break => Ok(exits.break_to),
            StmtForm::Continue => Ok(exits.continue_to),
            StmtForm::Return(None) => Ok(Place::Out),
            StmtForm::Return(Some(e)) => exprs.run(n + 1, e, Slot::Ret, Place::Out, out),
        }
    }

    /// A `for` after its first statements: the head, the body and the step; gives the head.
    #[cycle(stmts)]
    fn flow_loop(
        &self,
        exits: Exits,
        n: u32,
        s: &Stmt,
        to: Place,
        out: &mut Vec<RawEdge>,
    ) -> Result<Place, Memory>
        requires { n + stmt_count (stmt_view s.now) < 2 ^ 32 }
        ensures start { IfOk result (λ p. p ≡ (loop_of self.now.infos.now exits.break_to exits.continue_to n (stmt_view s.now) to).start) }
        ensures edges { OnOk result (out.new.items ≡ (loop_of self.now.infos.now exits.break_to exits.continue_to n (stmt_view s.now) to).after out.old.items) }
    {
        match &s.form {
            StmtForm::For(init, c, _, _) => {
                let m = n + 1 + count_stmts(init.as_slice());
                let body = self.flow_turn(exits, n, s, to, out)?;
                self.put_head(n, m, c, body, to, out)
            }
            StmtForm::Block(_)
            | StmtForm::Nothing
            | StmtForm::Local(_, _, None)
            | StmtForm::Local(_, _, Some(_))
            | StmtForm::Assign(_, _)
            | StmtForm::Do(_)
            | StmtForm::Free(_)
            | StmtForm::If(_, _, None)
            | StmtForm::If(_, _, Some(_))
            | StmtForm::While(_, _)
            | StmtForm::Break
            | StmtForm::Continue
            | StmtForm::Return(None)
            | StmtForm::Return(Some(_)) => Ok(to),
        }
    }

    /// The body of a `for` and its step; gives the first place of the body.
    #[cycle(stmts)]
    fn flow_turn(
        &self,
        exits: Exits,
        n: u32,
        s: &Stmt,
        to: Place,
        out: &mut Vec<RawEdge>,
    ) -> Result<Place, Memory>
        requires { n + stmt_count (stmt_view s.now) < 2 ^ 32 }
        ensures start { IfOk result (λ p. p ≡ (turn_of self.now.infos.now exits.break_to exits.continue_to n (stmt_view s.now) to).start) }
        ensures edges { OnOk result (out.new.items ≡ (turn_of self.now.infos.now exits.break_to exits.continue_to n (stmt_view s.now) to).after out.old.items) }
    {
        match &s.form {
            StmtForm::For(init, c, step, _) => {
                let k = n + 1 + count_stmts(init.as_slice()) + count_cond(c);
                let next = self.flow_step(exits, k, step, Place::At(n, 0), out)?;
                self.flow_body(n, s, next, to, out)
            }
            StmtForm::Block(_)
            | StmtForm::Nothing
            | StmtForm::Local(_, _, None)
            | StmtForm::Local(_, _, Some(_))
            | StmtForm::Assign(_, _)
            | StmtForm::Do(_)
            | StmtForm::Free(_)
            | StmtForm::If(_, _, None)
            | StmtForm::If(_, _, Some(_))
            | StmtForm::While(_, _)
            | StmtForm::Break
            | StmtForm::Continue
            | StmtForm::Return(None)
            | StmtForm::Return(Some(_)) => Ok(to),
        }
    }

    /// The body of a `for` whose step begins at `next`; gives its first place.
    #[cycle(stmts)]
    fn flow_body(
        &self,
        n: u32,
        s: &Stmt,
        next: Place,
        to: Place,
        out: &mut Vec<RawEdge>,
    ) -> Result<Place, Memory>
        requires { n + stmt_count (stmt_view s.now) < 2 ^ 32 }
        ensures start { IfOk result (λ p. p ≡ (body_of_for self.now.infos.now n (stmt_view s.now) next to).start) }
        ensures edges { OnOk result (out.new.items ≡ (body_of_for self.now.infos.now n (stmt_view s.now) next to).after out.old.items) }
    {
        match &s.form {
            StmtForm::For(init, c, step, s) => {
                let m = n + 1 + count_stmts(init.as_slice());
                let inner = Exits {
                    break_to: to,
                    continue_to: next,
                };
                self.flow(
                    inner,
                    m + count_cond(c) + count_step(step),
                    s.get(),
                    next,
                    out,
                )
            }
            StmtForm::Block(_)
            | StmtForm::Nothing
            | StmtForm::Local(_, _, None)
            | StmtForm::Local(_, _, Some(_))
            | StmtForm::Assign(_, _)
            | StmtForm::Do(_)
            | StmtForm::Free(_)
            | StmtForm::If(_, _, None)
            | StmtForm::If(_, _, Some(_))
            | StmtForm::While(_, _)
            | StmtForm::Break
            | StmtForm::Continue
            | StmtForm::Return(None)
            | StmtForm::Return(Some(_)) => Ok(to),
        }
    }

    /// The step of a `for`, where there is one.
    #[cycle(stmts)]
    fn flow_step(
        &self,
        exits: Exits,
        n: u32,
        step: &Option<Boxed<Stmt>>,
        to: Place,
        out: &mut Vec<RawEdge>,
    ) -> Result<Place, Memory>
        requires { n + stmts_count (step_view step.now) < 2 ^ 32 }
        ensures start { IfOk result (λ p. p ≡ (flow_all self.now.infos.now exits.break_to exits.continue_to n (step_view step.now) to).start) }
        ensures edges { OnOk result (out.new.items ≡ (flow_all self.now.infos.now exits.break_to exits.continue_to n (step_view step.now) to).after out.old.items) }
    {
        match step {
            Some(s) => self.flow(exits, n, s.get(), to, out),
            None => Ok(to),
        }
    }

    /// Statements in order, of which the first is node `n`; gives the first place.
    #[cycle(stmts)]
    fn flow_all(
        &self,
        exits: Exits,
        n: u32,
        ss: &[Stmt],
        to: Place,
        out: &mut Vec<RawEdge>,
    ) -> Result<Place, Memory>
        requires { n + stmts_count (stmts_view ss.now) < 2 ^ 32 }
        ensures start { IfOk result (λ p. p ≡ (flow_all self.now.infos.now exits.break_to exits.continue_to n (stmts_view ss.now) to).start) }
        ensures edges { OnOk result (out.new.items ≡ (flow_all self.now.infos.now exits.break_to exits.continue_to n (stmts_view ss.now) to).after out.old.items) }
    {
        let mut k = n + count_stmts(ss);
        let mut next = to;
        for i in (0..ss.len()).rev() {
            let s = &ss[i];
            k = number_before(s, n, k);
            next = self.flow(exits, k, s, next, out)?;
        }
        Ok(next)
    }
}

/// The number of a statement that ends before node `k`, where none begins before node `n`.
fn number_before(s: &Stmt, n: u32, k: u32) -> u32
    requires { n + stmt_count (stmt_view s.now) ≤ k }
    ensures first { n ≤ result }
    ensures own { result + stmt_count (stmt_view s.now) ≡ k }
{
    k - count_stmt(s)
}

/// The edges of a body, whose block is node 0, and whether it is that of `main`.
pub(crate) fn body_edges(
    alloc: Global,
    main: bool,
    infos: &[NodeInfo],
    s: &Stmt,
) -> Result<Vec<RawEdge>, Memory>
    requires { stmt_count (stmt_view s.now) < 2 ^ 32 }
    ensures { IfOk result (λ es. es.items ≡ body_edges main infos.now (stmt_view s.now)) }
{
    let mut edges = Vec::new(alloc);
    let mut last = Place::Out;
    if main {
        last = put(
            Place::End,
            RawAction::Set(Slot::Ret, 0),
            Place::Out,
            &mut edges,
        )?;
    }
    let exits = Exits {
        break_to: Place::Out,
        continue_to: Place::Out,
    };
    let first = Body { alloc, infos }.flow(exits, 0, s, last, &mut edges)?;
    put(Place::In, RawAction::Skip, first, &mut edges)?;
    Ok(edges)
}
