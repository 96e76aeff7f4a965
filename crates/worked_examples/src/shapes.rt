// The shape of a tree as text: each node that has parts is a bracketed list of its form and its parts, in source order.
use c_tree::{
    Expr, ExprForm, Member, NewForm, ProcItem, Span, Stmt, StmtForm, StructDef, Tree, TypeName,
    Unit,
};
use sqlite_items::Boxed;
use std::alloc::{AllocError, Global};

/// What is written after each node.
#[derive(Clone, Copy)]
pub enum Detail {
    Nothing,
    /// The bytes of its span, as `@start-end`.
    Bytes,
    /// The line and the column of its span, as `@line:column`.
    Lines,
}

fn text(bytes: &[u8]) -> &str {
    std::str::from_utf8(bytes).unwrap_or("?")
}

fn with_span(alloc: Global, detail: Detail, at: Span, form: String) -> Result<String, AllocError> {
    let Span {
        start,
        end,
        line,
        col,
    } = at;
    match detail {
        Detail::Nothing => Ok(form),
        Detail::Bytes => format!(in alloc; "{form}@{start}-{end}"),
        Detail::Lines => format!(in alloc; "{form}@{line}:{col}"),
    }
}

fn kind(alloc: Global, kind: &TypeName) -> Result<String, AllocError> {
    match kind {
        TypeName::Int => format!(in alloc; "int"),
        TypeName::Char => format!(in alloc; "char"),
        TypeName::IntPtr => format!(in alloc; "int*"),
        TypeName::CharPtr => format!(in alloc; "char*"),
        TypeName::StructPtr(tag) => format!(in alloc; "{}*", text(&tag.items)),
    }
}

fn unit(alloc: Global, unit: &Unit) -> Result<String, AllocError> {
    match unit {
        Unit::Int => format!(in alloc; "int"),
        Unit::Char => format!(in alloc; "char"),
        Unit::Struct(tag) => format!(in alloc; "struct {}", text(&tag.items)),
        Unit::Behind(name) => format!(in alloc; "*{}", text(&name.items)),
    }
}

/// An allocation: its cast, its unit and its count, each where it has one.
#[cycle(expression)]
fn new_form(alloc: Global, detail: Detail, new: &NewForm) -> Result<String, AllocError> {
    let mut form = format!(in alloc; "({}", if new.zeroed { "calloc" } else { "malloc" })?;
    if let Some(cast) = &new.cast {
        form = format!(in alloc; "{form} as {}", kind(alloc, cast)?)?;
    }
    if let Some(measured) = &new.unit {
        form = format!(in alloc; "{form} of {}", unit(alloc, measured)?)?;
    }
    if let Some(count) = &new.count {
        form = format!(in alloc; "{form} {}", expr(alloc, detail, count.get())?)?;
    }
    format!(in alloc; "{form})")
}

/// Expressions, each after a blank.
#[cycle(expression)]
fn exprs(alloc: Global, detail: Detail, items: &[Expr]) -> Result<String, AllocError> {
    let mut row = String::new(alloc);
    for item in items {
        row = format!(in alloc; "{row} {}", expr(alloc, detail, item)?)?;
    }
    Ok(row)
}

#[cycle(expression)]
fn expr(alloc: Global, detail: Detail, e: &Expr) -> Result<String, AllocError> {
    let form = match &e.form {
        ExprForm::Num(value) => format!(in alloc; "{value}")?,
        ExprForm::Text(units) => format!(in alloc; "\"{}\"", text(&units.items))?,
        ExprForm::Null => format!(in alloc; "NULL")?,
        ExprForm::Name(name) => format!(in alloc; "{}", text(&name.items))?,
        ExprForm::Call(name, args) => {
            let args = exprs(alloc, detail, args.as_slice())?;
            format!(in alloc; "(call {}{args})", text(&name.items))?
        }
        ExprForm::New(new) => new_form(alloc, detail, new)?,
        ExprForm::Arrow(base, member) => {
            let base = expr(alloc, detail, base.get())?;
            format!(in alloc; "(-> {base} {})", text(&member.items))?
        }
        ExprForm::Index(base, index) => {
            let base = expr(alloc, detail, base.get())?;
            let index = expr(alloc, detail, index.get())?;
            format!(in alloc; "(at {base} {index})")?
        }
        ExprForm::Not(operand) => format!(in alloc;
            "(Not {})",
            expr(alloc, detail, operand.get())?
        )?,
        ExprForm::Neg(operand) => format!(in alloc;
            "(Neg {})",
            expr(alloc, detail, operand.get())?
        )?,
        ExprForm::Binary(op, left, right) => {
            let left = expr(alloc, detail, left.get())?;
            let right = expr(alloc, detail, right.get())?;
            format!(in alloc; "({op:?} {left} {right})")?
        }
    };
    with_span(alloc, detail, e.at, form)
}

/// Statements, each after a blank.
#[cycle(statement)]
fn stmts(alloc: Global, detail: Detail, items: &[Stmt]) -> Result<String, AllocError> {
    let mut row = String::new(alloc);
    for item in items {
        row = format!(in alloc; "{row} {}", stmt(alloc, detail, item)?)?;
    }
    Ok(row)
}

/// An expression, or `_` where there is none.
fn maybe_expr(alloc: Global, detail: Detail, e: &Option<Expr>) -> Result<String, AllocError> {
    match e {
        Some(e) => expr(alloc, detail, e),
        None => format!(in alloc; "_"),
    }
}

/// A statement, or `_` where there is none.
#[cycle(statement)]
fn maybe_stmt(
    alloc: Global,
    detail: Detail,
    s: &Option<Boxed<Stmt>>,
) -> Result<String, AllocError> {
    match s {
        Some(s) => stmt(alloc, detail, s.get()),
        None => format!(in alloc; "_"),
    }
}

#[cycle(statement)]
fn stmt(alloc: Global, detail: Detail, s: &Stmt) -> Result<String, AllocError> {
    let form = match &s.form {
        StmtForm::Block(items) => {
            format!(in alloc; "(block{})", stmts(alloc, detail, items.as_slice())?)?
        }
        StmtForm::If(condition, then, other) => {
            let condition = expr(alloc, detail, condition)?;
            let then = stmt(alloc, detail, then.get())?;
            let other = maybe_stmt(alloc, detail, other)?;
            format!(in alloc; "(if {condition} {then} {other})")?
        }
        StmtForm::While(condition, body) => {
            let condition = expr(alloc, detail, condition)?;
            let body = stmt(alloc, detail, body.get())?;
            format!(in alloc; "(while {condition} {body})")?
        }
        StmtForm::For(first, condition, step, body) => {
            let first = stmts(alloc, detail, first.as_slice())?;
            let condition = maybe_expr(alloc, detail, condition)?;
            let step = maybe_stmt(alloc, detail, step)?;
            let body = stmt(alloc, detail, body.get())?;
            format!(in alloc; "(for (first{first}) {condition} {step} {body})")?
        }
        form => plain(alloc, detail, form)?,
    };
    with_span(alloc, detail, s.at, form)
}

/// A statement that holds no others.
fn plain(alloc: Global, detail: Detail, form: &StmtForm) -> Result<String, AllocError> {
    match form {
        StmtForm::Local(name, declared, source) => {
            let source = maybe_expr(alloc, detail, source)?;
            let declared = kind(alloc, declared)?;
            format!(in alloc; "(local {} {declared} {source})", text(&name.items))
        }
        StmtForm::Assign(target, source) => {
            let target = expr(alloc, detail, target)?;
            let source = expr(alloc, detail, source)?;
            format!(in alloc; "(= {target} {source})")
        }
        StmtForm::Do(call) => format!(in alloc; "(do {})", expr(alloc, detail, call)?),
        StmtForm::Free(e) => format!(in alloc; "(free {})", expr(alloc, detail, e)?),
        StmtForm::Return(value) => {
            format!(in alloc; "(return {})", maybe_expr(alloc, detail, value)?)
        }
        StmtForm::Break => format!(in alloc; "break"),
        StmtForm::Continue => format!(in alloc; "continue"),
        _ => format!(in alloc; "nothing"),
    }
}

/// Members or parameters, each after a blank.
fn members(alloc: Global, detail: Detail, items: &[Member]) -> Result<String, AllocError> {
    let mut row = String::new(alloc);
    for member in items {
        let declared = kind(alloc, &member.kind)?;
        let form = format!(in alloc; "({} {declared})", text(&member.name.items))?;
        let form = with_span(alloc, detail, member.at, form)?;
        row = format!(in alloc; "{row} {form}")?;
    }
    Ok(row)
}

fn structure(alloc: Global, detail: Detail, def: &StructDef) -> Result<String, AllocError> {
    let members = members(alloc, detail, def.members.as_slice())?;
    let form = format!(in alloc; "(struct {}{members})", text(&def.tag.items))?;
    with_span(alloc, detail, def.at, form)
}

/// What a procedure returns.
fn answer(alloc: Global, returned: &Option<TypeName>) -> Result<String, AllocError> {
    match returned {
        Some(returned) => kind(alloc, returned),
        None => format!(in alloc; "void"),
    }
}

/// A procedure: its result, its name, its parameters, its body, and the span of what closes it.
fn procedure(alloc: Global, detail: Detail, proc: &ProcItem) -> Result<String, AllocError> {
    let answer = answer(alloc, &proc.result)?;
    let name = format!(in alloc; "{}", text(&proc.name.items))?;
    let name = with_span(alloc, detail, proc.name_at, name)?;
    let params = members(alloc, detail, proc.params.as_slice())?;
    let body = match &proc.body {
        Some(body) => stmt(alloc, detail, body)?,
        None => format!(in alloc; "_")?,
    };
    let close = with_span(alloc, detail, proc.close, String::new(alloc))?;
    let form = format!(in alloc; "(proc {answer} {name} (params{params}) {body}{close})")?;
    with_span(alloc, detail, proc.at, form)
}

/// The structs and then the procedures, each on a line.
pub fn shape(alloc: Global, detail: Detail, tree: &Tree) -> Result<String, AllocError> {
    let mut lines = String::new(alloc);
    for def in tree.structs.as_slice() {
        lines = format!(in alloc; "{lines}{}\n", structure(alloc, detail, def)?)?;
    }
    for proc in tree.procs.as_slice() {
        lines = format!(in alloc; "{lines}{}\n", procedure(alloc, detail, proc)?)?;
    }
    Ok(lines)
}
