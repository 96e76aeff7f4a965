ghost use Rattle.std.specs.Prelude.{◌≡◌, OnOk};
ghost use Rattle.c_tree.specs.View.{expr_view, exprs_view, stmt_view, stmts_view, cond_view, step_view};
ghost use Rattle.flow_graph.specs.Strings.{noted, seen_text, see, see_of, see_stmt, see_stmts};

use c_tree::{Bytes, Expr, ExprForm, Memory, Stmt, StmtForm};
use sqlite_items::Boxed;
use std::alloc::Global;
use std::marker::Model;

/// The strings so far, and for each node of a body so far how many strings stand before it.
#[derive(Drop)]
pub(crate) struct Strings {
    pub texts: Vec<Bytes>,
    pub numbers: Vec<u32>,
}

impl Model for Strings {
    ghost use Rattle.flow_graph.specs.Strings.{Seen};

    ghost Value = { Seen };

    ghost view = { λ s. record { texts = s.texts.items; numbers = s.numbers.items } };
}

/// A node, and how many strings stand before it.
fn note(seen: &mut Strings) -> Result<(), Memory>
    ensures { OnOk result (seen.new ≡ noted seen.old) }
{
    let texts = seen.texts.as_slice().len();
    match u32::try_from(texts) {
        Ok(number) => seen.numbers.push(number)?,
        Err(_) => return Err(Memory),
    }
    Ok(())
}

/// A string's node.
fn note_text(alloc: Global, units: &Bytes, seen: &mut Strings) -> Result<(), Memory>
    ensures { OnOk result (seen.new ≡ seen_text units.now seen.old) }
{
    note(seen)?;
    let items = Vec::from_slice(alloc, units.items.as_slice())?;
    seen.texts.push(Bytes { items })?;
    Ok(())
}

/// The nodes of an expression, in preorder.
#[cycle(see)]
fn see(alloc: Global, e: &Expr, seen: &mut Strings) -> Result<(), Memory>
    ensures { OnOk result (seen.new ≡ see (expr_view e.now) seen.old) }
{
    match &e.form {
        ExprForm::Text(units) => note_text(alloc, units, seen),
        ExprForm::Num(_) | ExprForm::Null | ExprForm::Name(_) => note(seen),
        ExprForm::Call(_, es) => {
            note(seen)?;
            see_of(alloc, es.as_slice(), seen)
        }
        ExprForm::New(new) => match &new.count {
            None => note(seen),
            Some(c) => {
                note(seen)?;
                see(alloc, c.get(), seen)
            }
        },
        ExprForm::Arrow(b, _) => {
            note(seen)?;
            see(alloc, b.get(), seen)
        }
        ExprForm::Not(e) => {
            note(seen)?;
            see(alloc, e.get(), seen)
        }
        ExprForm::Neg(e) => {
            note(seen)?;
            see(alloc, e.get(), seen)
        }
        ExprForm::Index(a, b) => {
            note(seen)?;
            see(alloc, a.get(), seen)?;
            see(alloc, b.get(), seen)
        }
        ExprForm::Binary(_, a, b) => {
            note(seen)?;
            see(alloc, a.get(), seen)?;
            see(alloc, b.get(), seen)
        }
    }
}

#[cycle(see)]
#[tactic(auto, using(crate::proofs::StringRows::see_of_at))]
fn see_of(alloc: Global, es: &[Expr], seen: &mut Strings) -> Result<(), Memory>
    ensures { OnOk result (seen.new ≡ see_of (exprs_view es.now) seen.old) }
{
    for e in es {
        see(alloc, e, seen)?;
    }
    Ok(())
}

fn see_cond(alloc: Global, c: &Option<Expr>, seen: &mut Strings) -> Result<(), Memory>
    ensures { OnOk result (seen.new ≡ see_of (cond_view c.now) seen.old) }
{
    match c {
        Some(c) => see(alloc, c, seen),
        None => Ok(()),
    }
}

/// The nodes of a statement, in preorder.
#[cycle(see_stmts)]
pub(crate) fn see_stmt(alloc: Global, s: &Stmt, seen: &mut Strings) -> Result<(), Memory>
    ensures { OnOk result (seen.new ≡ see_stmt (stmt_view s.now) seen.old) }
{
    note(seen)?;
    match &s.form {
        StmtForm::Block(ss) => see_stmts(alloc, ss.as_slice(), seen),
        StmtForm::Local(_, _, Some(e)) => see(alloc, e, seen),
        StmtForm::Assign(a, b) => {
            see(alloc, a, seen)?;
            see(alloc, b, seen)
        }
        StmtForm::Do(e) => see(alloc, e, seen),
        StmtForm::Free(e) => see(alloc, e, seen),
        StmtForm::Return(Some(e)) => see(alloc, e, seen),
        StmtForm::If(c, s, None) => {
            see(alloc, c, seen)?;
            see_stmt(alloc, s.get(), seen)
        }
        StmtForm::If(c, s, Some(t)) => {
            see(alloc, c, seen)?;
            see_stmt(alloc, s.get(), seen)?;
            see_stmt(alloc, t.get(), seen)
        }
        StmtForm::While(c, s) => {
            see(alloc, c, seen)?;
            see_stmt(alloc, s.get(), seen)
        }
        StmtForm::For(init, c, step, s) => {
            see_stmts(alloc, init.as_slice(), seen)?;
            see_cond(alloc, c, seen)?;
            see_step(alloc, step, seen)?;
            see_stmt(alloc, s.get(), seen)
        }
        StmtForm::Local(_, _, None)
        | StmtForm::Return(None)
        | StmtForm::Break
        | StmtForm::Continue
        | StmtForm::Nothing => Ok(()),
    }
}

#[cycle(see_stmts)]
#[tactic(auto, using(crate::proofs::StringRows::see_stmts_at))]
fn see_stmts(alloc: Global, ss: &[Stmt], seen: &mut Strings) -> Result<(), Memory>
    ensures { OnOk result (seen.new ≡ see_stmts (stmts_view ss.now) seen.old) }
{
    for s in ss {
        see_stmt(alloc, s, seen)?;
    }
    Ok(())
}

#[cycle(see_stmts)]
fn see_step(alloc: Global, step: &Option<Boxed<Stmt>>, seen: &mut Strings) -> Result<(), Memory>
    ensures { OnOk result (seen.new ≡ see_stmts (step_view step.now) seen.old) }
{
    match step {
        Some(s) => see_stmt(alloc, s.get(), seen),
        None => Ok(()),
    }
}
