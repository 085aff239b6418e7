// Terms that are made: by the rewrite rules, on numbers.

ghost use Rattle.std.specs.Prelude.{◌≡◌, ◌≢◌, ◌≤◌, ◌<◌, [], ◌∷◌, length, map, Err, None, IfOk, OnErr};
ghost use Rattle.std.specs.Option.{option_map};
ghost use Rattle.term_tree.specs.Terms.{IsTyped, IsTerm, applied, width_of};
ghost use Rattle.bv_bits.specs.Bits.{IsBits};
ghost use Rattle.term_rules.specs.Rules.{rule_of};
ghost use Rattle.term_rules.specs.Shapes.{right_of};
ghost use Rattle.term_rules.specs.Laws.{IsTypedRight};
ghost use Rattle.term_make.specs.Making as spec;
ghost use Rattle.term_arena.specs.Nodes.{as_term, meaning_by, meanings_of, Keeps};
ghost use Rattle.term_arena.specs.Arena.{asked_node};
ghost use Rattle.term_arena.specs.Keeping.{HasArray};
ghost use Rattle.term_arena.specs.Answers.{id_term};
ghost use Rattle.term_arena.specs.Said.{said_of, said_right, single, sole};
ghost use Rattle.term_arena.specs.Makes.{Makes};

use bv_bits::Op;
use term_arena::{NewNode, TermId, Terms};
use term_rules::{Right, one_rule, three_rule, two_rule};
use term_tree::TermFault;

/// The term that stands for an operator at arguments: the first rewrite rule that fits is applied, and every
/// application on its right side is made in turn; where none fits, it is the application itself.
///
/// The operator takes the widths of the arguments. `TermTooHigh` comes exactly where a term of height 1,025 would be
/// made, as the result or on the way. The time is in proportion to the number of rules that are applied.
#[cycle(making)]
pub fn make(terms: &mut Terms, op: Op, args: &[TermId]) -> Result<TermId, TermFault>
    requires typed { IsTyped (applied op (map (id_term terms.old) args.now)) }
    ensures makes { Makes terms.old terms.new id_term result (λ last. said_of (spec.make (applied op (map (id_term last) args.now)))) }
    ensures term { IfOk result (λ id. IsTerm (id_term terms.new id)) }
    ensures wide { IfOk result (λ id. width_of (id_term terms.new id) ≡ width_of (applied op (map (id_term terms.old) args.now))) }
{
    terms.laws();
    match right_side(terms, op, args) {
        Some(right) => build(terms, right),
        None => plain(terms, op, args),
    }
}

/// What a right side builds: each of its applications made.
#[cycle(making)]
fn build(terms: &mut Terms, right: Right<TermId>) -> Result<TermId, TermFault>
    requires typed { IsTypedRight (right_of (id_term terms.old) right) }
    ensures makes { Makes terms.old terms.new id_term result (λ last. said_right (right_of (id_term last) right)) }
    ensures term { IfOk result (λ id. IsTerm (id_term terms.new id)) }
{
    terms.laws();
    match right {
        Right::Given(id) => Ok(id),
        Right::Literal(b) => terms.add_term(NewNode::Lit(b)),
        Right::One { op, a } => make(terms, op, &[a]),
        Right::Two { op, a, b } => make(terms, op, &[a, b]),
        Right::WithLiteral { op, a, c } => match terms.add_term(NewNode::Lit(c)) {
            Ok(c) => make(terms, op, &[a, c]),
            Err(fault) => Err(fault),
        },
        Right::PlusLiteral { op, a, b, c } => match make(terms, op, &[a, b]) {
            Ok(sum) => match terms.add_term(NewNode::Lit(c)) {
                Ok(c) => make(terms, Op::Add, &[sum, c]),
                Err(fault) => Err(fault),
            },
            Err(fault) => Err(fault),
        },
    }
}

/// The right side of the first rule that fits.
fn right_side(terms: &Terms, op: Op, args: &[TermId]) -> Option<Right<TermId>>
    requires typed { IsTyped (applied op (map (id_term terms.now) args.now)) }
    ensures value { option_map (right_of (id_term terms.now)) result ≡ rule_of (applied op (map (id_term terms.now) args.now)) }
{
    match args {
        [a] => one_rule(terms, op, *a),
        [a, b] => two_rule(terms, op, *a, *b),
        [a, b, c] => three_rule(terms, op, *a, *b, *c),
        _ => unreachable!(),
    }
}

/// The application of an operator as it is.
fn plain(terms: &mut Terms, op: Op, args: &[TermId]) -> Result<TermId, TermFault>
    requires typed { IsTyped (applied op (map (id_term terms.old) args.now)) }
    ensures makes { Makes terms.old terms.new id_term result (λ last. single (applied op (map (id_term last) args.now))) }
    ensures term { IfOk result (λ id. IsTerm (id_term terms.new id)) }
{
    match args {
        [a] => terms.add_term(NewNode::One { op, a: *a }),
        [a, b] => terms.add_term(NewNode::Two { op, a: *a, b: *b }),
        [a, b, c] => terms.add_term(NewNode::Three {
            op,
            a: *a,
            b: *b,
            c: *c,
        }),
        _ => unreachable!(),
    }
}
