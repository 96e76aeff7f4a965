ghost use Rattle.std.specs.Prelude.{◌≡◌, ◌≤◌, ◌<◌, ◌+◌, ◌^◌, OnOk, IfOk};
ghost use Rattle.c_tree.specs.Nodes.{node_count_of};
ghost use Rattle.c_tree.specs.View.{expr_view, exprs_view};
ghost use Rattle.flow_graph.specs.Edges.{slot_of, moved, fetched, field_tested, tested, constant, made, result_slot, temps, is_null, value_edges, branches};
ghost use Rattle.flow_graph.specs.Parts.{temp};

use crate::action::NewKind;
use crate::nodes::{is_pointer_at, kind_at, put, put_two, refers_at, same_var, temp, var_at};
use crate::raw::{RawAction, RawEdge, Slot, Slots};
use c_tree::{BinaryOp, Expr, ExprForm, Memory, Place, count_of};
use c_types::{NodeInfo, SlotType};
use std::alloc::Global;

/// What the expressions of one statement are lowered with.
#[derive(Clone, Copy)]
pub(crate) struct Lowering<'a> {
    pub alloc: Global,
    /// What is known of the nodes, by their numbers.
    pub infos: &'a [NodeInfo],
    /// The first expression node of the statement.
    pub base: u32,
}

/// A slot is tested at a place: a pointer against null, an integer against 0.
pub(crate) fn put_test(
    pointer: bool,
    at: Place,
    x: Slot,
    yes: Place,
    no: Place,
    out: &mut Vec<RawEdge>,
) -> Result<Place, Memory>
    ensures start { IfOk result (λ p. p ≡ (tested pointer at x yes no).start) }
    ensures edges { OnOk result (out.new.items ≡ (tested pointer at x yes no).after out.old.items) }
{
    if pointer {
        put_two(
            at,
            RawAction::IsNull(x),
            no,
            RawAction::NotNull(x),
            yes,
            out,
        )
    } else {
        put_two(at, RawAction::NonZero(x), yes, RawAction::Zero(x), no, out)
    }
}

/// The value of a tested node: 1 at its sub-step 1, and 0 at its sub-step 2.
pub(crate) fn put_value(n: u32, x: Slot, to: Place, out: &mut Vec<RawEdge>) -> Result<(), Memory>
    ensures { OnOk result (out.new.items ≡ value_edges n x to out.old.items) }
{
    put(Place::At(n, 1), RawAction::Set(x, 1), to, out)?;
    put(Place::At(n, 2), RawAction::Set(x, 0), to, out)?;
    Ok(())
}

/// A constant, or 0 as NULL.
pub(crate) fn constant(infos: &[NodeInfo], n: u32, z: i32, x: Slot) -> RawAction
    ensures { result ≡ constant infos.now n z x }
{
    if is_pointer_at(infos, n) {
        RawAction::Null(x)
    } else {
        RawAction::Set(x, z)
    }
}

/// What an allocation of this type makes.
pub(crate) fn made(kind: SlotType) -> NewKind
    ensures { result ≡ made kind }
{
    match kind {
        SlotType::StructPtr(number) => NewKind::Struct(number),
        SlotType::IntPtr => NewKind::Ints,
        SlotType::Int | SlotType::Char | SlotType::CharPtr => NewKind::Chars,
    }
}

/// The slot of a call's result, where it has one.
pub(crate) fn result_slot(infos: &[NodeInfo], n: u32, x: Slot) -> Option<Slot>
    ensures { result ≡ result_slot infos.now n x }
{
    match kind_at(infos, n) {
        Some(_) => Some(x),
        None => None,
    }
}

/// Whether it is NULL or 0.
pub(crate) fn is_null(e: &Expr) -> bool
    ensures { result ≡ is_null (expr_view e.now) }
{
    match &e.form {
        ExprForm::Null => true,
        ExprForm::Num(z) => *z == 0,
        ExprForm::New(new) => match &new.count {
            None => false,
            Some(_) => false,
        },
        ExprForm::Text(_)
        | ExprForm::Name(_)
        | ExprForm::Call(_, _)
        | ExprForm::Arrow(_, _)
        | ExprForm::Index(_, _)
        | ExprForm::Not(_)
        | ExprForm::Neg(_)
        | ExprForm::Binary(_, _, _) => false,
    }
}

/// Whether a node whose operands are the nodes `m` and `l` is tested.
pub(crate) fn branches(infos: &[NodeInfo], op: BinaryOp, m: u32, l: u32) -> bool
    ensures { result ≡ branches infos.now op m l }
{
    match op {
        BinaryOp::And | BinaryOp::Or => true,
        BinaryOp::Eq | BinaryOp::Ne => is_pointer_at(infos, m) || is_pointer_at(infos, l),
        BinaryOp::Mul
        | BinaryOp::Div
        | BinaryOp::Rem
        | BinaryOp::Add
        | BinaryOp::Sub
        | BinaryOp::Lt
        | BinaryOp::Le
        | BinaryOp::Gt
        | BinaryOp::Ge => false,
    }
}

impl Lowering<'_> {
    /// The temporary of node `n`.
    pub(crate) fn temp(&self, n: u32) -> Slot
        requires { self.now.base ≤ n }
        ensures { result ≡ temp self.now.infos.now self.now.base n }
    {
        temp(self.infos, self.base, n)
    }

    /// The slot of an operand: a variable's own, else the node's temporary.
    pub(crate) fn slot_of(&self, n: u32, e: &Expr) -> Slot
        requires { self.now.base ≤ n }
        ensures { result ≡ slot_of self.now.infos.now self.now.base n (expr_view e.now) }
    {
        match &e.form {
            ExprForm::Name(_) => var_at(self.infos, n),
            ExprForm::New(new) => match &new.count {
                None => self.temp(n),
                Some(_) => self.temp(n),
            },
            ExprForm::Num(_)
            | ExprForm::Text(_)
            | ExprForm::Null
            | ExprForm::Call(_, _)
            | ExprForm::Arrow(_, _)
            | ExprForm::Index(_, _)
            | ExprForm::Not(_)
            | ExprForm::Neg(_)
            | ExprForm::Binary(_, _, _) => self.temp(n),
        }
    }

    /// A variable is moved or copied into a slot; a pointer to itself goes by the temporary.
    pub(crate) fn put_moved(
        &self,
        n: u32,
        x: Slot,
        to: Place,
        out: &mut Vec<RawEdge>,
    ) -> Result<Place, Memory>
        requires { self.now.base ≤ n }
        ensures start { IfOk result (λ p. p ≡ (moved self.now.infos.now self.now.base n x to).start) }
        ensures edges { OnOk result (out.new.items ≡ (moved self.now.infos.now self.now.base n x to).after out.old.items) }
    {
        let v = var_at(self.infos, n);
        if !is_pointer_at(self.infos, n) {
            return put(Place::At(n, 0), RawAction::Move(x, v), to, out);
        }
        if same_var(x, v) {
            let t = self.temp(n);
            let second = put(Place::At(n, 1), RawAction::Copy(x, t), to, out)?;
            put(Place::At(n, 0), RawAction::Copy(t, v), second, out)
        } else {
            put(Place::At(n, 0), RawAction::Copy(x, v), to, out)
        }
    }

    /// A field of the base is read into a slot; a pointer into its own base goes by the temporary.
    pub(crate) fn put_fetched(
        &self,
        n: u32,
        b: Slot,
        x: Slot,
        to: Place,
        out: &mut Vec<RawEdge>,
    ) -> Result<Place, Memory>
        requires { self.now.base ≤ n }
        ensures start { IfOk result (λ p. p ≡ (fetched self.now.infos.now self.now.base n b x to).start) }
        ensures edges { OnOk result (out.new.items ≡ (fetched self.now.infos.now self.now.base n b x to).after out.old.items) }
    {
        let f = refers_at(self.infos, n);
        if !is_pointer_at(self.infos, n) {
            return put(Place::At(n, 0), RawAction::Get(x, b, f), to, out);
        }
        if same_var(x, b) {
            let t = self.temp(n);
            let second = put(Place::At(n, 1), RawAction::Copy(x, t), to, out)?;
            put(Place::At(n, 0), RawAction::Load(t, b, f), second, out)
        } else {
            put(Place::At(n, 0), RawAction::Load(x, b, f), to, out)
        }
    }

    /// A field of the base is tested: a pointer in its place, an integer by its value.
    pub(crate) fn put_field_test(
        &self,
        n: u32,
        b: Slot,
        yes: Place,
        no: Place,
        out: &mut Vec<RawEdge>,
    ) -> Result<Place, Memory>
        requires { self.now.base ≤ n }
        ensures start { IfOk result (λ p. p ≡ (field_tested self.now.infos.now self.now.base n b yes no).start) }
        ensures edges { OnOk result (out.new.items ≡ (field_tested self.now.infos.now self.now.base n b yes no).after out.old.items) }
    {
        let f = refers_at(self.infos, n);
        if is_pointer_at(self.infos, n) {
            let null = RawAction::FieldNull(b, f);
            let set = RawAction::FieldSet(b, f);
            return put_two(Place::At(n, 0), null, no, set, yes, out);
        }
        let t = self.temp(n);
        let test = put_test(false, Place::At(n, 3), t, yes, no, out)?;
        put(Place::At(n, 0), RawAction::Get(t, b, f), test, out)
    }

    /// The temporaries of the arguments, of which the first is node `n`.
    #[tactic(auto, using(crate::proofs::Rows::temps_at, crate::proofs::Rows::node_count_at))]
    pub(crate) fn temps(&self, n: u32, es: &[Expr]) -> Result<Slots, Memory>
        requires below { self.now.base ≤ n }
        requires fits { n + node_count_of (exprs_view es.now) < 2 ^ 32 }
        ensures { IfOk result (λ ts. ts ≡ temps self.now.infos.now self.now.base n (exprs_view es.now)) }
    {
        let mut items = Vec::new(self.alloc);
        let mut k = n;
        for e in es {
            items.push(self.temp(k))?;
            k += count_of(e);
        }
        Ok(Slots { items })
    }
}
