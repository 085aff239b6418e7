//! Certificates over facts and a goal.

ghost use Rattle.std.specs.Prelude.{◌≡◌, ◌<◌, ◌^◌, true, length, All, IfSome};
ghost use Rattle.clause_core.specs.Derivation.{IsNumbered};
ghost use Rattle.term_tree.specs.Terms.{IsTyped};
ghost use Rattle.term_arena.specs.Nodes.{term_at};
ghost use Rattle.term_arena.specs.Answers.{id_term};

use crate::terms::term;
use arena_make::make;
use arena_trees::intern;
use bv_bits::Op;
use cert_lines::certificate;
use clause_core::Cert;
use std::alloc::Global;
use term_arena::{NewNode, TermId, Terms};
use term_axioms::{GoalFault, check_goal};

/// Whether the numbers of steps and hints fit.
fn is_numbered(cert: &Cert) -> bool
    ensures { result ≡ true → IsNumbered cert.now }
{
    let steps = cert.steps.as_slice();
    steps.len() < 1_000_000 && steps.iter().all(|step| step.hints.len() < 1_000_000)
}

/// What is said of a certificate, where the goal is one bit wide.
fn judged(
    alloc: Global,
    terms: &Terms,
    facts: &[TermId],
    goal: TermId,
    text: &str,
) -> Option<Result<(), GoalFault>>
    requires facts { All (λ id. IsTyped (id_term terms.now id)) facts.now }
    requires goal { IsTyped (id_term terms.now goal) }
{
    let Ok(cert) = certificate(alloc, text) else {
        return None;
    };
    if !is_numbered(&cert) || terms.width(goal) != 1 {
        return None;
    }
    Some(check_goal(terms, facts, goal, &cert))
}

/// Puts the term of a text behind others.
fn put(alloc: Global, terms: &mut Terms, ids: &mut Vec<TermId>, text: &str) -> Option<()>
    requires ids { All (λ id. IsTyped (id_term terms.old id)) ids.old.items }
    ensures ids { IfSome result (λ _. All (λ id. IsTyped (id_term terms.new id)) ids.new.items) }
{
    let term = term(alloc, text.as_bytes())?;
    match intern(terms, &term) {
        Ok(id) => match ids.push(id) {
            Ok(()) => Some(()),
            Err(_) => None,
        },
        Err(_) => None,
    }
}

/// What is said of a certificate over the facts and the goal of texts.
pub fn checked(alloc: Global, line: &str) -> Option<Result<(), GoalFault>> {
    let (front, cert) = line.split_once(" ; ")?;
    let Ok(mut terms) = Terms::new(alloc) else {
        return None;
    };
    let mut ids = Vec::new(alloc);
    for text in front.split(" => ") {
        put(alloc, &mut terms, &mut ids, text)?;
    }
    let (goal, facts) = ids.as_slice().split_last()?;
    judged(alloc, &terms, facts, *goal, cert)
}

/// A term that is added to itself, so many times.
fn sum_of(terms: &mut Terms, term: TermId, times: u32) -> Option<TermId>
    requires term { IsTyped (id_term terms.old term) }
    ensures term { IfSome result (λ id. IsTyped (id_term terms.new id)) }
{
    let mut sum = term;
    'doubling: for _ in 0..times {
        let width = terms.width(sum);
        Op::Add.result_width(&[width, width])?;
        sum = match make(terms, Op::Add, &[sum, sum]) {
            Ok(sum) => sum,
            Err(_) => return None,
        };
    }
    Some(sum)
}

/// The node that says that a term is equal to itself.
fn equal(terms: &mut Terms, id: TermId) -> Option<TermId>
    requires term { IsTyped (id_term terms.old id) }
    ensures term { IfSome result (λ id. IsTyped (id_term terms.new id)) }
{
    let width = terms.width(id);
    Op::Eq.result_width(&[width, width])?;
    match terms.add_term(NewNode::Two {
        op: Op::Eq,
        a: id,
        b: id,
    }) {
        Ok(goal) => Some(goal),
        Err(_) => None,
    }
}

/// What is said of a certificate that a variable, doubled so many times, is equal to itself.
pub fn doubled(alloc: Global, times: u32, cert: &str) -> Option<Result<(), GoalFault>> {
    let Ok(mut terms) = Terms::new(alloc) else {
        return None;
    };
    let variable = term(alloc, b"x")?;
    let Ok(x) = intern(&mut terms, &variable) else {
        return None;
    };
    let sum = sum_of(&mut terms, x, times)?;
    let goal = equal(&mut terms, sum)?;
    judged(alloc, &terms, &[], goal, cert)
}
