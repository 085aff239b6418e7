//! Where parentheses stand, and which `()` isn't printed.

ghost use Rattle.std.specs.Prelude.{◌≡◌, ◌<◌, ◌+◌, length, drop, map};
ghost use Rattle.sail_syntax.specs.Tree.{does};
ghost use Rattle.sail_syntax.specs.View.{tree, step_of, steps_of};
ghost use Rattle.sail_text.specs.Expressions as spec;

use sail_syntax::{Expr, Node, Stmt};

/// Whether an expression can stand in a chain and before a slice as it is.
pub fn is_operand(e: &Expr) -> bool
    ensures { result ≡ spec.is_operand (tree e.now) }
{
    match &e.node {
        Node::Chain { .. }
        | Node::If { .. }
        | Node::Match { .. }
        | Node::Foreach { .. }
        | Node::Assign { .. } => false,
        _ => true,
    }
}

/// Whether an expression ends open: an `else` behind it would belong to an `if` in it.
pub fn is_open(e: &Expr) -> bool
    ensures { result ≡ spec.is_open (tree e.now) }
{
    match &e.node {
        Node::If { no: None, .. } => true,
        Node::If { no: Some(no), .. } => is_open(no.get()),
        Node::Assign { by, .. } => is_open(by.get()),
        _ => false,
    }
}

/// Whether an expression is `()`.
fn is_nothing(e: &Expr) -> bool
    ensures { result ≡ spec.is_unit (does (tree e.now)) }
{
    match e.node {
        Node::Unit => true,
        _ => false,
    }
}

/// Whether a statement is the expression `()`.
pub fn is_unit(step: &Stmt) -> bool
    ensures { result ≡ spec.is_unit (step_of step.now) }
{
    match step {
        Stmt::Let { .. } => false,
        Stmt::Var { .. } => false,
        Stmt::Do(e) => is_nothing(e),
    }
}

/// Whether no statement follows.
#[tactic(auto, using(crate::proofs::Counts::done_drop))]
pub fn is_last(steps: &[Stmt], at: usize) -> bool
    requires { at < length steps.now }
    ensures { result ≡ spec.is_done (steps_of (map step_of (drop (at + 1) steps.now))) }
{
    at + 1 == steps.len()
}
