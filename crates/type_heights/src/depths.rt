//! How high the functions are stacked that an expression calls.

ghost use Rattle.std.specs.Prelude.{◌≡◌, ◌+◌, ◌≤◌, max, map, ◌∷◌, OnOk};
ghost use Rattle.std.specs.Option.{option_map};
ghost use Rattle.sail_syntax.specs.View.{tree, trees, choice, choice_of, cases_of, step_of, steps_of};
ghost use Rattle.type_rules.specs.Heights as spec;
ghost use Rattle.type_rules.specs.Heights.{deepest, deepest_form, deepest_all, deepest_arms, deepest_step, deepest_steps};

use crate::heights::Heights;
use sail_syntax::{Arm, Expr, Node, Stmt};
use sqlite_items::Boxed;

/// The greatest height of the functions that expressions in a row call.
#[cycle(deepest)]
#[tactic(auto, using(crate::proofs::Greatest::max_assoc))]
fn deepest_all(known: &Heights<'_>, parts: &[Expr]) -> usize
    ensures { result ≡ deepest_all known.now (trees (map tree parts.now)) }
{
    let mut most = 0;
    for part in parts {
        most = most.max(deepest(known, part));
    }
    most
}

/// The same of the arms of a match.
#[cycle(deepest)]
#[tactic(auto, using(crate::proofs::Greatest::max_assoc))]
fn deepest_arms(known: &Heights<'_>, arms: &[Arm]) -> usize
    ensures { result ≡ deepest_arms known.now (cases_of (map choice_of arms.now)) }
{
    let mut most = 0;
    for arm in arms {
        most = most.max(deepest(known, &arm.body));
    }
    most
}

/// The same of a statement.
#[cycle(deepest)]
fn deepest_step(known: &Heights<'_>, step: &Stmt) -> usize
    ensures { result ≡ deepest_step known.now (step_of step.now) }
{
    match step {
        Stmt::Let { by, .. } => deepest(known, by),
        Stmt::Var { by, .. } => deepest(known, by),
        Stmt::Do(e) => deepest(known, e),
    }
}

/// The same of the statements of a block.
#[cycle(deepest)]
#[tactic(auto, using(crate::proofs::Greatest::max_assoc))]
fn deepest_steps(known: &Heights<'_>, steps: &[Stmt]) -> usize
    ensures { result ≡ deepest_steps known.now (steps_of (map step_of steps.now)) }
{
    let mut most = 0;
    for step in steps {
        most = most.max(deepest_step(known, step));
    }
    most
}

/// The same of an `if`, with an `else` or without.
#[cycle(deepest)]
fn deepest_if(known: &Heights<'_>, test: &Expr, yes: &Expr, no: &Option<Boxed<Expr>>) -> usize
    ensures { result ≡ deepest_form known.now (choice (tree test.now) (tree yes.now) (option_map tree no.now)) }
{
    let test = deepest(known, test);
    let yes = deepest(known, yes);
    match no {
        Some(no) => test.max(yes.max(deepest(known, no.get()))),
        None => test.max(yes),
    }
}

/// The greatest height of the functions that an expression calls.
#[cycle(deepest)]
pub fn deepest(known: &Heights<'_>, e: &Expr) -> usize
    ensures exact { result ≡ deepest known.now (tree e.now) }
{
    match &e.node {
        Node::Unit => 0,
        Node::Lit(_) => 0,
        Node::Truth(_) => 0,
        Node::Var(_) => 0,
        Node::Chain { parts, .. } => deepest_all(known, parts.as_slice()),
        Node::Flip(of) => deepest(known, of.get()),
        Node::Slice { of, .. } => deepest(known, of.get()),
        Node::With { of, by, .. } => deepest(known, of.get()).max(deepest(known, by.get())),
        Node::Call { name, args } => {
            let own = known.height(name.bytes());
            own.max(deepest_all(known, args.as_slice()))
        }
        Node::Widen { of, .. } => deepest(known, of.get()),
        Node::If { test, yes, no } => deepest_if(known, test.get(), yes.get(), no),
        Node::Match { on, arms } => {
            deepest(known, on.get()).max(deepest_arms(known, arms.as_slice()))
        }
        Node::Foreach { body, .. } => deepest(known, body.get()),
        Node::Assert { test, .. } => deepest(known, test.get()),
        Node::Exit => 0,
        Node::Assign { by, .. } => deepest(known, by.get()),
        Node::Block(steps) => deepest_steps(known, steps.as_slice()),
    }
}
