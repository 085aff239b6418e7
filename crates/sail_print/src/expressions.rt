//! Expressions, by cases on them.

ghost use Rattle.std.specs.Prelude.{◌≡◌, ◌++◌, [], map, OnOk, codes, if◌then◌else◌, ◌&&◌};
ghost use Rattle.std.specs.Option.{option_map};
ghost use Rattle.sail_syntax.specs.View.{tree, trees, choice, choice_of, cases_of, step_of, steps_of};
ghost use Rattle.sail_text.specs.Expressions as spec;

use crate::heads::{put, put_foreach, put_local, put_message, put_slice, put_widen, put_with};
use crate::shapes::{is_last, is_open, is_operand, is_unit};
use lex_core::NoMemory;
use sail_part_print::{put_bits, put_infix, put_name, put_pattern, put_truth};
use sail_syntax::{Arm, Expr, Infix, Node, Stmt};
use sqlite_items::Boxed;
use std::alloc::Global;

/// Appends an expression, in parentheses where they are needed.
#[cycle(put)]
fn put_enclosed(alloc: Global, out: &mut Vec<u8>, e: &Expr, is_needed: bool) -> Result<(), NoMemory>
    ensures { OnOk result (out.new.items ≡ out.old.items ++ spec.enclosed is_needed (spec.tree_text (tree e.now))) }
{
    if is_needed {
        put(out, b" (")?;
        put_expr(alloc, out, e)?;
        put(out, b" )")
    } else {
        put_expr(alloc, out, e)
    }
}

/// Appends the parts of a chain.
#[cycle(put)]
fn put_chain(alloc: Global, out: &mut Vec<u8>, op: Infix, parts: &[Expr]) -> Result<(), NoMemory>
    ensures { OnOk result (out.new.items ≡ out.old.items ++ spec.chain_text op (trees (map tree parts.now))) }
{
    let [first, rest @ ..] = parts else {
        return Ok(());
    };
    put_enclosed(alloc, out, first, !is_operand(first))?;
    for part in rest {
        put_infix(out, op)?;
        put_enclosed(alloc, out, part, !is_operand(part))?;
    }
    Ok(())
}

/// Appends arguments in a row.
#[cycle(put)]
fn put_arguments(alloc: Global, out: &mut Vec<u8>, args: &[Expr]) -> Result<(), NoMemory>
    ensures { OnOk result (out.new.items ≡ out.old.items ++ spec.arguments_text (trees (map tree args.now))) }
{
    let [first, rest @ ..] = args else {
        return Ok(());
    };
    put_expr(alloc, out, first)?;
    for arg in rest {
        put(out, b" ,")?;
        put_expr(alloc, out, arg)?;
    }
    Ok(())
}

/// Appends an arm of a match.
#[cycle(put)]
fn put_arm(alloc: Global, out: &mut Vec<u8>, arm: &Arm) -> Result<(), NoMemory>
    ensures { OnOk result (out.new.items ≡ out.old.items ++ spec.arm_text (choice_of arm.now)) }
{
    put_pattern(alloc, out, &arm.pattern)?;
    put(out, b" =>")?;
    put_expr(alloc, out, &arm.body)
}

/// Appends arms in a row.
#[cycle(put)]
fn put_arms(alloc: Global, out: &mut Vec<u8>, arms: &[Arm]) -> Result<(), NoMemory>
    ensures { OnOk result (out.new.items ≡ out.old.items ++ spec.arms_text (cases_of (map choice_of arms.now))) }
{
    let [first, rest @ ..] = arms else {
        return Ok(());
    };
    put_arm(alloc, out, first)?;
    for arm in rest {
        put(out, b" ,")?;
        put_arm(alloc, out, arm)?;
    }
    Ok(())
}

/// Appends a statement.
#[cycle(put)]
fn put_step(alloc: Global, out: &mut Vec<u8>, step: &Stmt) -> Result<(), NoMemory>
    ensures { OnOk result (out.new.items ≡ out.old.items ++ spec.step_text (step_of step.now)) }
{
    match step {
        Stmt::Let { name, ty, by } => {
            put(out, b" let")?;
            put_local(alloc, out, name, ty)?;
            put_expr(alloc, out, by)
        }
        Stmt::Var { name, ty, by } => {
            put(out, b" var")?;
            put_local(alloc, out, name, ty)?;
            put_expr(alloc, out, by)
        }
        Stmt::Do(e) => put_expr(alloc, out, e),
    }
}

/// Appends a statement behind the first one; of a `()` at the end the `;` alone.
#[cycle(put)]
fn put_next(alloc: Global, out: &mut Vec<u8>, step: &Stmt, last: bool) -> Result<(), NoMemory>
    ensures { OnOk result (out.new.items ≡ out.old.items
        ++ (codes " ;" ++ (if last && spec.is_unit (step_of step.now) then [] else spec.step_text (step_of step.now)))) }
{
    put(out, b" ;")?;
    if last && is_unit(step) {
        Ok(())
    } else {
        put_step(alloc, out, step)
    }
}

/// Appends statements in a row.
#[cycle(put)]
fn put_steps(alloc: Global, out: &mut Vec<u8>, steps: &[Stmt]) -> Result<(), NoMemory>
    ensures { OnOk result (out.new.items ≡ out.old.items ++ spec.steps_text (steps_of (map step_of steps.now))) }
{
    let [first, rest @ ..] = steps else {
        return Ok(());
    };
    put_step(alloc, out, first)?;
    for (i, step) in rest.iter().enumerate() {
        let last = is_last(rest, i);
        put_next(alloc, out, step, last)?;
    }
    Ok(())
}

/// Appends an if, with an else or without.
#[cycle(put)]
fn put_if(
    alloc: Global,
    out: &mut Vec<u8>,
    test: &Expr,
    yes: &Expr,
    no: &Option<Boxed<Expr>>,
) -> Result<(), NoMemory>
    ensures { OnOk result (out.new.items ≡ out.old.items ++ spec.form_text (choice (tree test.now) (tree yes.now) (option_map tree no.now))) }
{
    put(out, b" if")?;
    put_expr(alloc, out, test)?;
    put(out, b" then")?;
    match no {
        Some(no) => {
            put_enclosed(alloc, out, yes, is_open(yes))?;
            put(out, b" else")?;
            put_expr(alloc, out, no.get())
        }
        None => put_expr(alloc, out, yes),
    }
}

/// Appends an expression.
#[cycle(put)]
pub fn put_expr(alloc: Global, out: &mut Vec<u8>, e: &Expr) -> Result<(), NoMemory>
    ensures { OnOk result (out.new.items ≡ out.old.items ++ spec.tree_text (tree e.now)) }
{
    match &e.node {
        Node::Unit => put(out, b" ( )"),
        Node::Lit(bits) => put_bits(out, *bits),
        Node::Truth(truth) => put_truth(out, *truth),
        Node::Var(name) => put_name(out, name),
        Node::Chain { op, parts } => put_chain(alloc, out, *op, parts.as_slice()),
        Node::Flip(of) => {
            put(out, b" ~ (")?;
            put_expr(alloc, out, of.get())?;
            put(out, b" )")
        }
        Node::Slice { of, hi, lo } => {
            let of = of.get();
            put_enclosed(alloc, out, of, !is_operand(of))?;
            put_slice(alloc, out, hi, lo)
        }
        Node::With { of, hi, lo, by } => {
            put(out, b" [")?;
            put_expr(alloc, out, of.get())?;
            put_with(alloc, out, hi, lo)?;
            put_expr(alloc, out, by.get())?;
            put(out, b" ]")
        }
        Node::Call { name, args } => {
            put_name(out, name)?;
            put(out, b" (")?;
            put_arguments(alloc, out, args.as_slice())?;
            put(out, b" )")
        }
        Node::Widen { signed, to, of } => {
            put_widen(alloc, out, *signed, *to)?;
            put_expr(alloc, out, of.get())?;
            put(out, b" )")
        }
        Node::If { test, yes, no } => put_if(alloc, out, test.get(), yes.get(), no),
        Node::Match { on, arms } => {
            put(out, b" match")?;
            put_expr(alloc, out, on.get())?;
            put(out, b" {")?;
            put_arms(alloc, out, arms.as_slice())?;
            put(out, b" }")
        }
        Node::Foreach {
            var,
            from,
            to,
            body,
        } => {
            put_foreach(alloc, out, var, *from, *to)?;
            put_expr(alloc, out, body.get())
        }
        Node::Assert { test, text } => {
            put(out, b" assert (")?;
            put_expr(alloc, out, test.get())?;
            put_message(out, text)
        }
        Node::Exit => put(out, b" exit ( )"),
        Node::Assign { to, by } => {
            put_name(out, to)?;
            put(out, b" =")?;
            put_expr(alloc, out, by.get())
        }
        Node::Block(steps) => {
            put(out, b" {")?;
            put_steps(alloc, out, steps.as_slice())?;
            put(out, b" }")
        }
    }
}
