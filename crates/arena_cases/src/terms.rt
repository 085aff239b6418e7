// Terms over bit vectors.

ghost use Rattle.std.specs.Prelude.{◌≡◌, [], ◌∷◌, IfOk};
ghost use Rattle.bv_bits.specs.declared.Op.TheVariants.{Add};
ghost use Rattle.term_tree.specs.Terms.{lit, var, two, IsTyped, IsTerm};
ghost use Rattle.term_tree.specs.View.{tree};
ghost use Rattle.term_arena.specs.Answers.{id_term};
ghost use Rattle.arena_cases.specs.Widths.{IsWide};

use arena_make::make;
use arena_trees::intern;
use bv_bits::{Bits, Op};
use lex_core::{Name, NoMemory};
use std::alloc::Global;
use term_arena::{TermId, TermNode, Terms};
use term_tree::{Term, TermFault, list_of_two};

/// The variable `x10` of 64 bits.
fn variable(alloc: Global, terms: &mut Terms) -> Result<TermId, TermFault>
    ensures term { IfOk result (λ id. IsWide (id_term terms.new id)) }
{
    let name = Name::of(alloc, b"x10")?;
    let term = Term::Var { name, width: 64 };
    intern(terms, &term)
}

/// A term that is added to itself, so many times.
pub fn doubled(terms: &mut Terms, term: TermId, times: u32) -> Result<TermId, TermFault>
    requires term { IsWide (id_term terms.old term) }
    ensures term { IfOk result (λ id. IsWide (id_term terms.new id)) }
{
    let mut sum = term;
    'doubling: for _ in 0..times {
        sum = match make(terms, Op::Add, &[sum, sum]) {
            Ok(sum) => sum,
            Err(fault) => return Err(fault),
        };
    }
    Ok(sum)
}

/// The variable doubled so many times, the same once more, and then its opposite.
pub fn doubled_twice(alloc: Global, terms: &mut Terms, times: u32) -> Result<[u32; 3], TermFault> {
    let x = variable(alloc, terms)?;
    let once = doubled(terms, x, times)?;
    let x = variable(alloc, terms)?;
    let again = doubled(terms, x, times)?;
    let x = variable(alloc, terms)?;
    let further = make(terms, Op::Neg, &[x])?;
    Ok([once.number, again.number, further.number])
}

/// The opposite of the opposite of .. a term, so many times.
fn turned(terms: &mut Terms, term: TermId, times: u32) -> Result<TermId, TermFault>
    requires term { IsTerm (id_term terms.old term) }
    ensures term { IfOk result (λ id. IsTerm (id_term terms.new id)) }
{
    let mut opposite = term;
    'turning: for _ in 0..times {
        opposite = match make(terms, Op::Neg, &[opposite]) {
            Ok(opposite) => opposite,
            Err(fault) => return Err(fault),
        };
    }
    Ok(opposite)
}

/// The opposite of the opposite of .. the variable, so many times; its width; and the complement of the variable.
pub fn negated(alloc: Global, terms: &mut Terms, times: u32) -> Result<[u32; 3], TermFault> {
    let x = variable(alloc, terms)?;
    let opposite = turned(terms, x, times)?;
    let width = terms.width(opposite);
    let x = variable(alloc, terms)?;
    let complement = make(terms, Op::Not, &[x])?;
    Ok([opposite.number, width, complement.number])
}

/// The term `(add x10 4)`.
fn sum(alloc: Global) -> Result<Term, NoMemory>
    ensures tree { IfOk result (λ t. tree t ≡ two Add (var (120 ∷ 49 ∷ 48 ∷ []) 64) (lit (record { width = 64; value = 4 }))) }
{
    let x = Term::Var {
        name: Name::of(alloc, b"x10")?,
        width: 64,
    };
    let four = Term::Lit(Bits {
        width: 64,
        value: 4,
    });
    Ok(Term::App {
        op: Op::Add,
        args: list_of_two(alloc, x, four)?,
    })
}

/// The number of the sum that is interned, that of the same once more, and the number of its second argument.
pub fn stored(alloc: Global, terms: &mut Terms) -> Result<[u32; 3], TermFault> {
    let term = sum(alloc)?;
    let first = intern(terms, &term)?;
    let second = intern(terms, &term)?;
    let argument = match terms.node(second) {
        TermNode::App { op: _, args } => match args {
            [_, b] => b.number,
            _ => 0,
        },
        _ => 0,
    };
    Ok([first.number, second.number, argument])
}

/// The literal of this value, of 32 bits.
fn literal(value: u32) -> Term
    ensures { tree result ≡ lit (record { width = 32; value = value }) }
{
    Term::Lit(Bits {
        width: 32,
        value: u128::from(value),
    })
}

/// How many of the literals have their own value as their number.
fn numbered(terms: &mut Terms, count: u32) -> Result<u32, TermFault> {
    let mut own: u32 = 0;
    for value in 0..count {
        let id = intern(terms, &literal(value))?;
        if id.number == value {
            own = own.saturating_add(1);
        }
    }
    Ok(own)
}

/// How many of the first literals have their own value as their number; whether one more is refused for want of room (1) or
/// not (0); and how many have their own value as their number after that.
pub fn literals(terms: &mut Terms, count: u32) -> Result<[u32; 3], TermFault> {
    let own = numbered(terms, count)?;
    let refused = match intern(terms, &literal(count)) {
        Err(TermFault::TooManyTerms) => 1,
        _ => 0,
    };
    let again = numbered(terms, count)?;
    Ok([own, refused, again])
}
