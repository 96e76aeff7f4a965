ghost use Rattle.std.specs.Prelude.{◌≡◌, ◌≤◌, ◌<◌, ◌+◌, ◌^◌, OnOk, IfOk};
ghost use Rattle.c_tree.specs.View.{expr_view, exprs_view};
ghost use Rattle.c_tree.specs.Nodes.{node_count, node_count_of};
ghost use Rattle.flow_graph.specs.Edges.{ways, args, operand, null_tested, by_value, combined, branched, difference};
ghost use Rattle.flow_graph.specs.Parts.{in_turn};

use crate::lowering::{
    Lowering, branches, constant, is_null, made, put_test, put_value, result_slot,
};
use crate::nodes::{is_pointer_at, put, put_two, refers_at, type_at, var_at};
use crate::raw::{RawAction, RawEdge, Slot};
use c_tree::{BinaryOp, Expr, ExprForm, Memory, Place, count_all, count_of};

/// Two operands in order, and the numbers of their nodes.
#[derive(Clone, Copy)]
pub(crate) struct Operands<'a> {
    pub first_node: u32,
    pub first: &'a Expr,
    pub second_node: u32,
    pub second: &'a Expr,
}

impl Lowering<'_> {
    /// Runs node `n` into `x` and goes on at `to`; gives its first place.
    #[cycle(exprs)]
    pub(crate) fn run(
        &self,
        n: u32,
        e: &Expr,
        x: Slot,
        to: Place,
        out: &mut Vec<RawEdge>,
    ) -> Result<Place, Memory>
        requires below { self.now.base ≤ n }
        requires fits { n + node_count (expr_view e.now) < 2 ^ 32 }
        ensures start { IfOk result (λ p. p ≡ ((ways self.now.infos.now self.now.base n (expr_view e.now)).run x to).start) }
        ensures edges { OnOk result (out.new.items ≡ ((ways self.now.infos.now self.now.base n (expr_view e.now)).run x to).after out.old.items) }
    {
        let at = Place::At(n, 0);
        match &e.form {
            ExprForm::Num(z) => put(at, constant(self.infos, n, *z, x), to, out),
            ExprForm::Null => put(at, RawAction::Null(x), to, out),
            ExprForm::Text(_) => put(at, RawAction::Text(x, n), to, out),
            ExprForm::Name(_) => self.put_moved(n, x, to, out),
            ExprForm::Neg(a) => {
                put(at, RawAction::Neg(x, self.slot_of(n + 1, a.get())), to, out)?;
                self.operand(n + 1, a.get(), at, out)
            }
            ExprForm::Not(a) => {
                put_value(n, x, to, out)?;
                self.test(n + 1, a.get(), Place::At(n, 2), Place::At(n, 1), out)
            }
            ExprForm::Arrow(b, _) => {
                self.put_fetched(n, self.slot_of(n + 1, b.get()), x, to, out)?;
                self.operand(n + 1, b.get(), at, out)
            }
            ExprForm::Index(b, i) => {
                let m = n + 1 + count_of(b.get());
                let cell = RawAction::At(x, self.slot_of(n + 1, b.get()), self.slot_of(m, i.get()));
                put(at, cell, to, out)?;
                let operands = Operands {
                    first_node: n + 1,
                    first: b.get(),
                    second_node: m,
                    second: i.get(),
                };
                self.both(operands, at, out)
            }
            ExprForm::New(new) => match &new.count {
                None => {
                    let kind = made(type_at(self.infos, n));
                    put(at, RawAction::New(x, new.zeroed, kind, None), to, out)
                }
                Some(c) => {
                    let kind = made(type_at(self.infos, n));
                    let count = Some(self.slot_of(n + 1, c.get()));
                    put(at, RawAction::New(x, new.zeroed, kind, count), to, out)?;
                    self.operand(n + 1, c.get(), at, out)
                }
            },
            ExprForm::Call(_, es) => {
                let slots = self.temps(n + 1, es.as_slice())?;
                let result = result_slot(self.infos, n, x);
                let call = RawAction::Call(result, refers_at(self.infos, n), slots);
                put(at, call, to, out)?;
                self.args(n + 1, es.as_slice(), at, out)
            }
            ExprForm::Binary(op, a, b) => {
                let operands = Operands {
                    first_node: n + 1,
                    first: a.get(),
                    second_node: n + 1 + count_of(a.get()),
                    second: b.get(),
                };
                self.combine(n, *op, operands, x, to, out)
            }
        }
    }

    /// Runs a node with two operands into `x`: what it computes, or the value of its test.
    #[cycle(exprs)]
    fn combine(
        &self,
        n: u32,
        op: BinaryOp,
        operands: Operands<'_>,
        x: Slot,
        to: Place,
        out: &mut Vec<RawEdge>,
    ) -> Result<Place, Memory>
        requires first_below { self.now.base ≤ operands.first_node }
        requires second_below { self.now.base ≤ operands.second_node }
        requires first_fits { operands.first_node + node_count (expr_view operands.first.now) < 2 ^ 32 }
        requires second_fits { operands.second_node + node_count (expr_view operands.second.now) < 2 ^ 32 }
        ensures start { IfOk result (λ p. p ≡ ((combined self.now.infos.now self.now.base n operands.entry.first_node operands.entry.second_node op (expr_view operands.entry.first.now) (expr_view operands.entry.second.now) (ways self.now.infos.now self.now.base operands.entry.first_node (expr_view operands.entry.first.now)) (ways self.now.infos.now self.now.base operands.entry.second_node (expr_view operands.entry.second.now))).run x to).start) }
        ensures edges { OnOk result (out.new.items ≡ ((combined self.now.infos.now self.now.base n operands.entry.first_node operands.entry.second_node op (expr_view operands.entry.first.now) (expr_view operands.entry.second.now) (ways self.now.infos.now self.now.base operands.entry.first_node (expr_view operands.entry.first.now)) (ways self.now.infos.now self.now.base operands.entry.second_node (expr_view operands.entry.second.now))).run x to).after out.old.items) }
    {
        let Operands {
            first_node,
            first,
            second_node,
            second,
        } = operands;
        if branches(self.infos, op, first_node, second_node) {
            put_value(n, x, to, out)?;
            return self.branch(n, op, operands, Place::At(n, 1), Place::At(n, 2), out);
        }
        let left = self.slot_of(first_node, first);
        let right = self.slot_of(second_node, second);
        put(
            Place::At(n, 0),
            RawAction::Arith(x, op, left, right),
            to,
            out,
        )?;
        self.both(operands, Place::At(n, 0), out)
    }

    /// Runs an operand into its slot; a variable has no edges.
    #[cycle(exprs)]
    pub(crate) fn operand(
        &self,
        n: u32,
        e: &Expr,
        to: Place,
        out: &mut Vec<RawEdge>,
    ) -> Result<Place, Memory>
        requires below { self.now.base ≤ n }
        requires fits { n + node_count (expr_view e.now) < 2 ^ 32 }
        ensures start { IfOk result (λ p. p ≡ (operand self.now.infos.now self.now.base n (expr_view e.now) (ways self.now.infos.now self.now.base n (expr_view e.now)) to).start) }
        ensures edges { OnOk result (out.new.items ≡ (operand self.now.infos.now self.now.base n (expr_view e.now) (ways self.now.infos.now self.now.base n (expr_view e.now)) to).after out.old.items) }
    {
        match &e.form {
            ExprForm::Name(_) => Ok(to),
            ExprForm::New(new) => match &new.count {
                None => self.run(n, e, self.temp(n), to, out),
                Some(_) => self.run(n, e, self.temp(n), to, out),
            },
            ExprForm::Num(_)
            | ExprForm::Text(_)
            | ExprForm::Null
            | ExprForm::Call(_, _)
            | ExprForm::Arrow(_, _)
            | ExprForm::Index(_, _)
            | ExprForm::Not(_)
            | ExprForm::Neg(_)
            | ExprForm::Binary(_, _, _) => self.run(n, e, self.temp(n), to, out),
        }
    }

    /// Runs two operands in order.
    #[cycle(exprs)]
    pub(crate) fn both(
        &self,
        operands: Operands<'_>,
        to: Place,
        out: &mut Vec<RawEdge>,
    ) -> Result<Place, Memory>
        requires first_below { self.now.base ≤ operands.first_node }
        requires second_below { self.now.base ≤ operands.second_node }
        requires first_fits { operands.first_node + node_count (expr_view operands.first.now) < 2 ^ 32 }
        requires second_fits { operands.second_node + node_count (expr_view operands.second.now) < 2 ^ 32 }
        ensures start { IfOk result (λ p. p ≡ (in_turn (operand self.now.infos.now self.now.base operands.entry.first_node (expr_view operands.entry.first.now) (ways self.now.infos.now self.now.base operands.entry.first_node (expr_view operands.entry.first.now))) (operand self.now.infos.now self.now.base operands.entry.second_node (expr_view operands.entry.second.now) (ways self.now.infos.now self.now.base operands.entry.second_node (expr_view operands.entry.second.now))) to).start) }
        ensures edges { OnOk result (out.new.items ≡ (in_turn (operand self.now.infos.now self.now.base operands.entry.first_node (expr_view operands.entry.first.now) (ways self.now.infos.now self.now.base operands.entry.first_node (expr_view operands.entry.first.now))) (operand self.now.infos.now self.now.base operands.entry.second_node (expr_view operands.entry.second.now) (ways self.now.infos.now self.now.base operands.entry.second_node (expr_view operands.entry.second.now))) to).after out.old.items) }
    {
        let then = self.operand(operands.second_node, operands.second, to, out)?;
        self.operand(operands.first_node, operands.first, then, out)
    }

    /// Tests node `n`, and goes on where it is true and where it is false; gives its first place.
    #[cycle(exprs)]
    pub(crate) fn test(
        &self,
        n: u32,
        e: &Expr,
        yes: Place,
        no: Place,
        out: &mut Vec<RawEdge>,
    ) -> Result<Place, Memory>
        requires below { self.now.base ≤ n }
        requires fits { n + node_count (expr_view e.now) < 2 ^ 32 }
        ensures start { IfOk result (λ p. p ≡ ((ways self.now.infos.now self.now.base n (expr_view e.now)).test yes no).start) }
        ensures edges { OnOk result (out.new.items ≡ ((ways self.now.infos.now self.now.base n (expr_view e.now)).test yes no).after out.old.items) }
    {
        match &e.form {
            ExprForm::Num(z) => { if *z == 0 { Ok(no) } else { Ok(yes) } }
            ExprForm::Name(_) => {
                let pointer = is_pointer_at(self.infos, n);
                put_test(
                    pointer,
                    Place::At(n, 3),
                    var_at(self.infos, n),
                    yes,
                    no,
                    out,
                )
            }
            ExprForm::Not(a) => self.test(n + 1, a.get(), no, yes, out),
            ExprForm::Arrow(b, _) => {
                self.put_field_test(n, self.slot_of(n + 1, b.get()), yes, no, out)?;
                self.operand(n + 1, b.get(), Place::At(n, 0), out)
            }
            ExprForm::Binary(op, a, b) => {
                let m = n + 1 + count_of(a.get());
                if !branches(self.infos, *op, n + 1, m) {
                    return self.test_value(n, e, yes, no, out);
                }
                let operands = Operands {
                    first_node: n + 1,
                    first: a.get(),
                    second_node: m,
                    second: b.get(),
                };
                self.branch(n, *op, operands, yes, no, out)
            }
            ExprForm::New(new) => match &new.count {
                None => self.test_value(n, e, yes, no, out),
                Some(_) => self.test_value(n, e, yes, no, out),
            },
            ExprForm::Null
            | ExprForm::Text(_)
            | ExprForm::Call(_, _)
            | ExprForm::Index(_, _)
            | ExprForm::Neg(_) => self.test_value(n, e, yes, no, out),
        }
    }

    /// Runs node `n` into its temporary, and tests that.
    #[cycle(exprs)]
    fn test_value(
        &self,
        n: u32,
        e: &Expr,
        yes: Place,
        no: Place,
        out: &mut Vec<RawEdge>,
    ) -> Result<Place, Memory>
        requires below { self.now.base ≤ n }
        requires fits { n + node_count (expr_view e.now) < 2 ^ 32 }
        ensures start { IfOk result (λ p. p ≡ ((by_value self.now.infos.now self.now.base n (ways self.now.infos.now self.now.base n (expr_view e.now)).run).test yes no).start) }
        ensures edges { OnOk result (out.new.items ≡ ((by_value self.now.infos.now self.now.base n (ways self.now.infos.now self.now.base n (expr_view e.now)).run).test yes no).after out.old.items) }
    {
        let t = self.temp(n);
        let pointer = is_pointer_at(self.infos, n);
        let at = put_test(pointer, Place::At(n, 3), t, yes, no, out)?;
        self.run(n, e, t, at, out)
    }

    /// Tests node `n`, whose operands these are and which is tested and not computed.
    #[cycle(exprs)]
    fn branch(
        &self,
        n: u32,
        op: BinaryOp,
        operands: Operands<'_>,
        yes: Place,
        no: Place,
        out: &mut Vec<RawEdge>,
    ) -> Result<Place, Memory>
        requires first_below { self.now.base ≤ operands.first_node }
        requires second_below { self.now.base ≤ operands.second_node }
        requires first_fits { operands.first_node + node_count (expr_view operands.first.now) < 2 ^ 32 }
        requires second_fits { operands.second_node + node_count (expr_view operands.second.now) < 2 ^ 32 }
        ensures start { IfOk result (λ p. p ≡ (branched self.now.infos.now self.now.base n operands.entry.first_node operands.entry.second_node op (expr_view operands.entry.first.now) (expr_view operands.entry.second.now) (ways self.now.infos.now self.now.base operands.entry.first_node (expr_view operands.entry.first.now)) (ways self.now.infos.now self.now.base operands.entry.second_node (expr_view operands.entry.second.now)) yes no).start) }
        ensures edges { OnOk result (out.new.items ≡ (branched self.now.infos.now self.now.base n operands.entry.first_node operands.entry.second_node op (expr_view operands.entry.first.now) (expr_view operands.entry.second.now) (ways self.now.infos.now self.now.base operands.entry.first_node (expr_view operands.entry.first.now)) (ways self.now.infos.now self.now.base operands.entry.second_node (expr_view operands.entry.second.now)) yes no).after out.old.items) }
    {
        match op {
            BinaryOp::And => {
                let second = self.test(operands.second_node, operands.second, yes, no, out)?;
                self.test(operands.first_node, operands.first, second, no, out)
            }
            BinaryOp::Or => {
                let second = self.test(operands.second_node, operands.second, yes, no, out)?;
                self.test(operands.first_node, operands.first, yes, second, out)
            }
            BinaryOp::Eq => self.differ(n, operands, no, yes, out),
            BinaryOp::Ne
            | BinaryOp::Mul
            | BinaryOp::Div
            | BinaryOp::Rem
            | BinaryOp::Add
            | BinaryOp::Sub
            | BinaryOp::Lt
            | BinaryOp::Le
            | BinaryOp::Gt
            | BinaryOp::Ge => self.differ(n, operands, yes, no, out),
        }
    }

    /// Tests at node `n` whether its operands, which are pointers, differ.
    #[cycle(exprs)]
    fn differ(
        &self,
        n: u32,
        operands: Operands<'_>,
        yes: Place,
        no: Place,
        out: &mut Vec<RawEdge>,
    ) -> Result<Place, Memory>
        requires first_below { self.now.base ≤ operands.first_node }
        requires second_below { self.now.base ≤ operands.second_node }
        requires first_fits { operands.first_node + node_count (expr_view operands.first.now) < 2 ^ 32 }
        requires second_fits { operands.second_node + node_count (expr_view operands.second.now) < 2 ^ 32 }
        ensures start { IfOk result (λ p. p ≡ (difference self.now.infos.now self.now.base n operands.entry.first_node operands.entry.second_node (expr_view operands.entry.first.now) (expr_view operands.entry.second.now) (ways self.now.infos.now self.now.base operands.entry.first_node (expr_view operands.entry.first.now)) (ways self.now.infos.now self.now.base operands.entry.second_node (expr_view operands.entry.second.now)) yes no).start) }
        ensures edges { OnOk result (out.new.items ≡ (difference self.now.infos.now self.now.base n operands.entry.first_node operands.entry.second_node (expr_view operands.entry.first.now) (expr_view operands.entry.second.now) (ways self.now.infos.now self.now.base operands.entry.first_node (expr_view operands.entry.first.now)) (ways self.now.infos.now self.now.base operands.entry.second_node (expr_view operands.entry.second.now)) yes no).after out.old.items) }
    {
        let Operands {
            first_node,
            first,
            second_node,
            second,
        } = operands;
        if is_null(second) {
            return self.test_null(n, first_node, first, yes, no, out);
        }
        if is_null(first) {
            return self.test_null(n, second_node, second, yes, no, out);
        }
        let left = self.slot_of(first_node, first);
        let right = self.slot_of(second_node, second);
        let at = Place::At(n, 3);
        put_two(
            at,
            RawAction::Equal(left, right),
            no,
            RawAction::Differ(left, right),
            yes,
            out,
        )?;
        self.both(operands, at, out)
    }

    /// Tests a pointer at node `m`, which the comparison at node `n` compares with null.
    #[cycle(exprs)]
    fn test_null(
        &self,
        n: u32,
        m: u32,
        e: &Expr,
        yes: Place,
        no: Place,
        out: &mut Vec<RawEdge>,
    ) -> Result<Place, Memory>
        requires below { self.now.base ≤ m }
        requires fits { m + node_count (expr_view e.now) < 2 ^ 32 }
        ensures start { IfOk result (λ p. p ≡ (null_tested self.now.infos.now self.now.base n m (expr_view e.now) (ways self.now.infos.now self.now.base m (expr_view e.now)) yes no).start) }
        ensures edges { OnOk result (out.new.items ≡ (null_tested self.now.infos.now self.now.base n m (expr_view e.now) (ways self.now.infos.now self.now.base m (expr_view e.now)) yes no).after out.old.items) }
    {
        let at = Place::At(n, 3);
        let slot = self.slot_of(m, e);
        match &e.form {
            ExprForm::Arrow(_, _) => self.test(m, e, yes, no, out),
            ExprForm::New(new) => match &new.count {
                None => {
                    put_test(true, at, slot, yes, no, out)?;
                    self.operand(m, e, at, out)
                }
                Some(_) => {
                    put_test(true, at, slot, yes, no, out)?;
                    self.operand(m, e, at, out)
                }
            },
            ExprForm::Num(_)
            | ExprForm::Text(_)
            | ExprForm::Null
            | ExprForm::Name(_)
            | ExprForm::Call(_, _)
            | ExprForm::Index(_, _)
            | ExprForm::Not(_)
            | ExprForm::Neg(_)
            | ExprForm::Binary(_, _, _) => {
                put_test(true, at, slot, yes, no, out)?;
                self.operand(m, e, at, out)
            }
        }
    }

    /// Runs the arguments in order, of which the first is node `n`; gives the first place.
    #[cycle(exprs)]
    fn args(&self, n: u32, es: &[Expr], to: Place, out: &mut Vec<RawEdge>) -> Result<Place, Memory>
        requires below { self.now.base ≤ n }
        requires fits { n + node_count_of (exprs_view es.now) < 2 ^ 32 }
        ensures start { IfOk result (λ p. p ≡ (args self.now.infos.now self.now.base n (exprs_view es.now) to).start) }
        ensures edges { OnOk result (out.new.items ≡ (args self.now.infos.now self.now.base n (exprs_view es.now) to).after out.old.items) }
    {
        let mut k = n + count_all(es);
        let mut next = to;
        for i in (0..es.len()).rev() {
            let e = &es[i];
            k = number_before(e, n, k);
            next = self.run(k, e, self.temp(k), next, out)?;
        }
        Ok(next)
    }
}

/// The number of an argument that ends before node `k`, where no argument begins before node `n`.
fn number_before(e: &Expr, n: u32, k: u32) -> u32
    requires { n + node_count (expr_view e.now) ≤ k }
    ensures first { n ≤ result }
    ensures own { result + node_count (expr_view e.now) ≡ k }
{
    k - count_of(e)
}
