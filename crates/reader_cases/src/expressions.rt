//! Expressions as text: ` FORM@PLACE`, in brackets where it has parts. Parts that stand deeper than the depth that is wanted are ` ..`.

use crate::words::{bare, indices, literal, local, name, number, pattern, place, placed, truth};
use lex_core::Name;
use sail_syntax::{Arm, Expr, Infix, Node, Stmt};
use sqlite_items::Boxed;
use std::alloc::{AllocError, Global};

/// Adds the word of an operator and its place.
fn operator(out: &mut String, op: Infix, at: usize) -> Result<(), AllocError> {
    write!(out, "{op:?}@{at}")
}

/// Adds a word, its place and a name.
fn with_name(
    alloc: Global,
    out: &mut String,
    word: &str,
    at: usize,
    of: &Name,
) -> Result<(), AllocError> {
    placed(out, word, at)?;
    name(alloc, out, of)
}

/// Adds `zero` or `sign`, its place and the width.
fn widening(out: &mut String, signed: bool, at: usize, to: u32) -> Result<(), AllocError> {
    placed(out, if signed { "sign" } else { "zero" }, at)?;
    number(out, to)
}

/// Adds `foreach`, its place, its variable and its bounds.
fn looping(
    alloc: Global,
    out: &mut String,
    at: usize,
    var: &Name,
    from: u32,
    to: u32,
) -> Result<(), AllocError> {
    with_name(alloc, out, "foreach", at, var)?;
    number(out, from)?;
    number(out, to)
}

/// Adds what is told of a form in front of its parts.
fn head(alloc: Global, out: &mut String, of: &Node, at: usize) -> Result<(), AllocError> {
    match of {
        Node::Chain { op, .. } => operator(out, *op, at),
        Node::Flip(_) => placed(out, "~", at),
        Node::Slice { .. } => placed(out, "slice", at),
        Node::With { .. } => placed(out, "with", at),
        Node::Call { name, .. } => with_name(alloc, out, "call", at, name),
        Node::Widen { signed, to, .. } => widening(out, *signed, at, *to),
        Node::If { .. } => placed(out, "if", at),
        Node::Match { .. } => placed(out, "match", at),
        Node::Foreach { var, from, to, .. } => looping(alloc, out, at, var, *from, *to),
        Node::Assert { .. } => placed(out, "assert", at),
        Node::Assign { to, .. } => with_name(alloc, out, "assign", at, to),
        Node::Block(_) => placed(out, "block", at),
        _ => Ok(()),
    }
}

/// Adds a form without parts, and says whether it is one.
fn is_word(alloc: Global, out: &mut String, of: &Node) -> Result<bool, AllocError> {
    match of {
        Node::Unit => out.push_str(" ()")?,
        Node::Lit(bits) => literal(out, *bits)?,
        Node::Truth(of) => truth(out, *of)?,
        Node::Var(of) => name(alloc, out, of)?,
        Node::Exit => out.push_str(" exit")?,
        _ => return Ok(false),
    }
    Ok(true)
}

/// Adds the text of an assert in quotes.
fn quoted(alloc: Global, out: &mut String, text: &Name) -> Result<(), AllocError> {
    out.push_str(" \"")?;
    bare(alloc, out, text)?;
    out.push('"')
}

/// Adds expressions.
#[cycle(told)]
fn all(alloc: Global, out: &mut String, parts: &[Expr], depth: u32) -> Result<(), AllocError> {
    for part in parts {
        expression(alloc, out, part, depth)?;
    }
    Ok(())
}

/// Adds the parts of an `if`.
#[cycle(told)]
fn choice(
    alloc: Global,
    out: &mut String,
    test: &Expr,
    one: &Expr,
    other: &Option<Boxed<Expr>>,
    depth: u32,
) -> Result<(), AllocError> {
    expression(alloc, out, test, depth)?;
    expression(alloc, out, one, depth)?;
    match other {
        Some(other) => expression(alloc, out, other.get(), depth),
        None => Ok(()),
    }
}

/// Adds the arms of a `match`.
#[cycle(told)]
fn arms(alloc: Global, out: &mut String, all: &[Arm], depth: u32) -> Result<(), AllocError> {
    for arm in all {
        out.push_str(" |")?;
        pattern(alloc, out, &arm.pattern)?;
        out.push_str(" =>")?;
        expression(alloc, out, &arm.body, depth)?;
    }
    Ok(())
}

/// Adds what stands in front of a statement's expression.
fn step_head(alloc: Global, out: &mut String, step: &Stmt) -> Result<(), AllocError> {
    match step {
        Stmt::Let { name, ty, .. } => {
            out.push_str(" ; let")?;
            local(alloc, out, name, ty)
        }
        Stmt::Var { name, ty, .. } => {
            out.push_str(" ; var")?;
            local(alloc, out, name, ty)
        }
        Stmt::Do(_) => out.push_str(" ;"),
    }
}

/// The expression of a statement.
fn value(step: &Stmt) -> &Expr {
    match step {
        Stmt::Let { by, .. } => by,
        Stmt::Var { by, .. } => by,
        Stmt::Do(by) => by,
    }
}

/// Adds the statements of a block.
#[cycle(told)]
fn steps(alloc: Global, out: &mut String, all: &[Stmt], depth: u32) -> Result<(), AllocError> {
    for step in all {
        step_head(alloc, out, step)?;
        expression(alloc, out, value(step), depth)?;
    }
    Ok(())
}

/// Adds the parts of a form, and what is told between and behind them.
#[cycle(told)]
fn parts(alloc: Global, out: &mut String, of: &Node, depth: u32) -> Result<(), AllocError> {
    match of {
        Node::Chain { parts, .. } => all(alloc, out, parts.as_slice(), depth),
        Node::Flip(of) => expression(alloc, out, of.get(), depth),
        Node::Slice { of, hi, lo } => {
            expression(alloc, out, of.get(), depth)?;
            indices(alloc, out, hi, lo)
        }
        Node::With { of, hi, lo, by } => {
            expression(alloc, out, of.get(), depth)?;
            indices(alloc, out, hi, lo)?;
            expression(alloc, out, by.get(), depth)
        }
        Node::Call { args, .. } => all(alloc, out, args.as_slice(), depth),
        Node::Widen { of, .. } => expression(alloc, out, of.get(), depth),
        Node::If { test, yes, no } => choice(alloc, out, test.get(), yes.get(), no, depth),
        Node::Match { on, arms: cases } => {
            expression(alloc, out, on.get(), depth)?;
            arms(alloc, out, cases.as_slice(), depth)
        }
        Node::Foreach { body, .. } => expression(alloc, out, body.get(), depth),
        Node::Assert { test, text } => {
            expression(alloc, out, test.get(), depth)?;
            quoted(alloc, out, text)
        }
        Node::Assign { by, .. } => expression(alloc, out, by.get(), depth),
        Node::Block(all) => steps(alloc, out, all.as_slice(), depth),
        _ => Ok(()),
    }
}

/// Adds an expression, so many levels deep.
#[cycle(told)]
pub fn expression(
    alloc: Global,
    out: &mut String,
    of: &Expr,
    depth: u32,
) -> Result<(), AllocError> {
    if depth == 0 {
        return out.push_str(" ..");
    }
    if is_word(alloc, out, &of.node)? {
        return place(out, of.at);
    }
    out.push_str(" (")?;
    head(alloc, out, &of.node, of.at)?;
    parts(alloc, out, &of.node, depth - 1)?;
    out.push_str(" )")
}
