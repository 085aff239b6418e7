//! Terms that are made: by the rewrite rules.

ghost use Rattle.std.specs.Prelude.{◌≡◌, ◌≢◌, ◌≤◌, ◌<◌, [], ◌∷◌, map, All, IfOk, Err};
ghost use Rattle.std.specs.Option.{option_map};
ghost use Rattle.term_tree.specs.Terms.{Tree, lit, IsTyped, IsTerm, height, applied, HIGHEST};
ghost use Rattle.term_tree.specs.Values.{Values, IsValues, value};
ghost use Rattle.term_make.specs.Making as spec;
ghost use Rattle.term_make.specs.Making.{asks, just};
ghost use Rattle.term_tree.specs.View.{tree};
ghost use Rattle.term_rules.specs.Rules.{rule_of};
ghost use Rattle.term_rules.specs.Shapes.{right_of};
ghost use Rattle.term_make.specs.Steps.{IsStep};
ghost use Rattle.term_make.specs.Answers.{Answers};

use bv_bits::{Bits, Op};
use lex_core::NoMemory;
use sqlite_items::Items;
use std::alloc::Global;
use term_copy::copy;
use term_rules::{Right, Trees, one_rule, three_rule, two_rule};
use term_tree::{HIGHEST, Term, TermFault, height, list_of_one, list_of_two};

/// The term that stands for an operator at arguments: the first rewrite rule that fits is applied, and every application on
/// its right side is made in turn; where none fits, it is the application itself.
///
/// The arguments are typed and at most 1,024 high, and the operator takes their widths. `TermTooHigh` comes exactly where
/// a term of height 1,025 would be made, as the result or on the way; `TooManyTerms` never comes. The time is in
/// proportion to the sizes of the arguments, for each rule that is applied.
pub fn make(alloc: Global, op: Op, args: Items<Term>) -> Result<Term, TermFault>
    requires typed { IsTyped (applied op (map tree args)) }
    requires low { All (λ t. height t ≤ HIGHEST) (map tree args) }
    ensures answer { Answers tree (spec.make (applied op (map tree args))) result }
    ensures term { IfOk result (λ t. IsTerm (tree t)) }
    ensures value { IfOk result (λ t. (v : Values) → IsValues v → value v (tree t) ≡ value v (applied op (map tree args))) }
{
    made(alloc, op, args)
}

/// What `make` gives.
fn made(alloc: Global, op: Op, args: Items<Term>) -> Result<Term, TermFault>
    requires typed { IsTyped (applied op (map tree args)) }
    requires low { All (λ t. height t ≤ HIGHEST) (map tree args) }
    ensures answer { Answers tree (spec.make (applied op (map tree args))) result }
    ensures low { IfOk result (λ t. height (tree t) ≤ HIGHEST) }
{
    match next_step(right_side(op, &args)) {
        Step::Plain => plain(op, args),
        Step::Given(t) => Ok(copy(alloc, t)?),
        Step::Literal(b) => Ok(Term::Lit(b)),
        Step::One { op, a } => made(alloc, op, copies_of_one(alloc, a)?),
        Step::Two { op, a, b } => made(alloc, op, copies_of_two(alloc, a, b)?),
        Step::WithLiteral { op, a, c } => made(alloc, op, copy_and_literal(alloc, a, c)?),
        Step::PlusLiteral { op, a, b, c } => match made(alloc, op, copies_of_two(alloc, a, b)?) {
            Ok(sum) => made(alloc, Op::Add, list_of_two(alloc, sum, Term::Lit(c))?),
            Err(fault) => Err(fault),
        },
    }
}

/// What is made next of an application.
#[derive(Clone, Copy, Drop)]
pub enum Step<'t> {
    /// The application as it is: no rule fits.
    Plain,
    /// A term that is there.
    Given(&'t Term),
    /// A literal.
    Literal(Bits),
    /// An operator at one term.
    One {
        op: Op,
        a: &'t Term,
    },
    /// An operator at two terms.
    Two {
        op: Op,
        a: &'t Term,
        b: &'t Term,
    },
    /// An operator at a term and a literal.
    WithLiteral {
        op: Op,
        a: &'t Term,
        c: Bits,
    },
    /// The sum of an operator at two terms, and of a literal.
    PlusLiteral {
        op: Op,
        a: &'t Term,
        b: &'t Term,
        c: Bits,
    },
}

/// What is made next, by the right side of a rule.
fn next_step<'t>(right: Option<Right<&'t Term>>) -> Step<'t>
    ensures step { IsStep (option_map (right_of (λ t. tree t.now)) right.entry) result }
{
    match right {
        None => Step::Plain,
        Some(Right::Given(t)) => Step::Given(t),
        Some(Right::Literal(b)) => Step::Literal(b),
        Some(Right::One { op, a }) => Step::One { op, a },
        Some(Right::Two { op, a, b }) => Step::Two { op, a, b },
        Some(Right::WithLiteral { op, a, c }) => Step::WithLiteral { op, a, c },
        Some(Right::PlusLiteral { op, a, b, c }) => Step::PlusLiteral { op, a, b, c },
    }
}

/// A copy of a term as arguments.
fn copies_of_one(alloc: Global, a: &Term) -> Result<Items<Term>, NoMemory>
    requires typed { IsTyped (tree a.now) }
    ensures list { IfOk result (λ xs. map tree xs ≡ tree a.now ∷ []) }
{
    Ok(list_of_one(alloc, copy(alloc, a)?)?)
}

/// Copies of two terms as arguments.
fn copies_of_two(alloc: Global, a: &Term, b: &Term) -> Result<Items<Term>, NoMemory>
    requires a_typed { IsTyped (tree a.now) }
    requires b_typed { IsTyped (tree b.now) }
    ensures list { IfOk result (λ xs. map tree xs ≡ tree a.now ∷ tree b.now ∷ []) }
{
    Ok(list_of_two(alloc, copy(alloc, a)?, copy(alloc, b)?)?)
}

/// A copy of a term, and a literal, as arguments.
fn copy_and_literal(alloc: Global, a: &Term, c: Bits) -> Result<Items<Term>, NoMemory>
    requires typed { IsTyped (tree a.now) }
    ensures list { IfOk result (λ xs. map tree xs ≡ tree a.now ∷ lit c ∷ []) }
{
    Ok(list_of_two(alloc, copy(alloc, a)?, Term::Lit(c))?)
}

/// The right side of the first rule that fits.
fn right_side<'t>(op: Op, args: &'t Items<Term>) -> Option<Right<&'t Term>>
    requires typed { IsTyped (applied op (map tree args.now)) }
    ensures value { option_map (right_of (λ t. tree t.now)) result ≡ rule_of (applied op (map tree args.now)) }
{
    match args.as_slice() {
        [a] => one_rule(&Trees, op, a),
        [a, b] => two_rule(&Trees, op, a, b),
        [a, b, c] => three_rule(&Trees, op, a, b, c),
        _ => unreachable!(),
    }
}

/// The height of the application of an operator.
fn height_of(op: Op, args: &Items<Term>) -> u32
    requires typed { IsTyped (applied op (map tree args.now)) }
    requires low { All (λ t. height t ≤ HIGHEST) (map tree args.now) }
    ensures value { result ≡ height (applied op (map tree args.now)) }
{
    match args.as_slice() {
        [a] => 1 + height(a),
        [a, b] => 1 + height(a).max(height(b)),
        [a, b, c] => 1 + height(a).max(height(b).max(height(c))),
        _ => unreachable!(),
    }
}

/// The application of an operator as it is.
fn plain(op: Op, args: Items<Term>) -> Result<Term, TermFault>
    requires typed { IsTyped (applied op (map tree args)) }
    requires low { All (λ t. height t ≤ HIGHEST) (map tree args) }
    ensures answer { Answers tree (asks (applied op (map tree args)) (just (applied op (map tree args)))) result }
    ensures term { IfOk result (λ t. IsTerm (tree t)) }
{
    if height_of(op, &args) <= HIGHEST {
        Ok(Term::App { op, args })
    } else {
        Err(TermFault::TermTooHigh)
    }
}
