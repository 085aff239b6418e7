//! Words that begin an expression or a statement, and what follows a name.

ghost use Rattle.std.specs.Prelude.{◌≡◌, ◌++◌, IfOk, map};
ghost use Rattle.sail_machine.specs.Machine as spec;
ghost use Rattle.sail_frames.specs.Turning.{Turns};
ghost use Rattle.sail_frames.specs.View.{frames_of};
ghost use Rattle.sail_syntax.specs.View.{step_of};

use lex_core::Name;
use sail_ends::after;
use sail_frames::{Frame, Mode, Next, Stack, Stop, is_keyword, is_mark, opened, unexpected};
use sail_grammar::{Keyword, Mark, Sign, Word};
use sail_machine::{Await, Binder, Fixed, Naming};
use sail_nodes::{call, literal, no_name, truth, unit, variable};
use sail_rows::closed;
use sail_syntax::Stmt;
use sail_tops::pop_block;
use sqlite_items::Items;
use std::alloc::{AllocError, Global};
use std::mem::replace;

/// An operand that is one word, or begins with a name.
fn one_word(word: Word) -> Result<Mode, Stop>
    ensures { (k : _) → Turns (spec.one_word (frames_of k) word.sign word.at) result k }
{
    let at = word.at;
    match word.sign {
        Sign::Literal(bits) => Ok(Mode::operand(literal(bits, at), at)),
        Sign::Name(name) => Ok(Mode::Awaits(Await::Named(name, at))),
        _ => unexpected(at),
    }
}

/// The quoted word with which an operand begins.
fn keyword_word(word: Word) -> Result<Mode, Stop>
    ensures { (k : _) → Turns (spec.keyword_word (frames_of k) word) result k }
{
    let at = word.at;
    if is_keyword(Keyword::True, &word.sign) {
        Ok(Mode::operand(truth(true, at), at))
    } else if is_keyword(Keyword::False, &word.sign) {
        Ok(Mode::operand(truth(false, at), at))
    } else if is_keyword(Keyword::ZeroExtend, &word.sign) {
        Ok(Mode::fixed(Fixed::WidenOpen(false, at)))
    } else if is_keyword(Keyword::SignExtend, &word.sign) {
        Ok(Mode::fixed(Fixed::WidenOpen(true, at)))
    } else if is_keyword(Keyword::Assert, &word.sign) {
        Ok(Mode::fixed(Fixed::AssertOpen(at)))
    } else if is_keyword(Keyword::Exit, &word.sign) {
        Ok(Mode::fixed(Fixed::ExitOpen(at)))
    } else {
        one_word(word)
    }
}

/// The first word of an operand.
pub fn operand_word(alloc: Global, stack: &mut Stack, word: Word) -> Result<Mode, Stop>
    ensures { Turns (spec.operand_word (frames_of stack.old) word) result stack.new }
{
    let at = word.at;
    if is_mark(Mark::Open, &word.sign) {
        opened(stack, Frame::Paren(at), Mode::Awaits(Await::Inside), at)
    } else if is_mark(Mark::OpenBrace, &word.sign) {
        let mode = Mode::Awaits(Await::Statement(None));
        opened(stack, Frame::Statements(Items::new(alloc), at), mode, at)
    } else if is_mark(Mark::OpenSquare, &word.sign) {
        opened(stack, Frame::Updating(at), Mode::want(), at)
    } else if is_mark(Mark::Tilde, &word.sign) {
        Ok(Mode::fixed(Fixed::FlipOpen(at)))
    } else {
        keyword_word(word)
    }
}

/// The first word of an expression.
pub fn want(alloc: Global, stack: &mut Stack, word: Word) -> Result<Mode, Stop>
    ensures { Turns (spec.want (frames_of stack.old) word) result stack.new }
{
    let at = word.at;
    if is_keyword(Keyword::If, &word.sign) {
        opened(stack, Frame::Testing(at), Mode::want(), at)
    } else if is_keyword(Keyword::Match, &word.sign) {
        opened(stack, Frame::Subject(at), Mode::want(), at)
    } else if is_keyword(Keyword::Foreach, &word.sign) {
        Ok(Mode::fixed(Fixed::EachOpen(at)))
    } else {
        operand_word(alloc, stack, word)
    }
}

/// Nothing stands in the bracket.
fn closes(alloc: Global, stack: &mut Stack, at: usize) -> Result<Mode, Stop>
    ensures { Turns (spec.closes (frames_of stack.old) at) result stack.new }
{
    let Some(mut top) = stack.pop() else {
        return unexpected(at);
    };
    match &mut top {
        Frame::Paren(place) => Ok(Mode::operand(unit(*place), *place)),
        Frame::Args(name, args, place) => {
            let name = replace(name, no_name(alloc));
            let args = replace(args, Items::new(alloc));
            Ok(Mode::operand(call(name, args, *place), *place))
        }
        _ => unexpected(at),
    }
}

/// An expression, or the bracket.
pub fn inside(alloc: Global, stack: &mut Stack, word: Word) -> Result<Mode, Stop>
    ensures { Turns (spec.inside (frames_of stack.old) word) result stack.new }
{
    if is_mark(Mark::Close, &word.sign) {
        closes(alloc, stack, word.at)
    } else {
        want(alloc, stack, word)
    }
}

/// The statements of a block that ends, with the one for which a `;` in front of the brace stands.
fn all_steps(mut steps: Items<Stmt>, before: Option<usize>) -> Result<Items<Stmt>, AllocError>
    ensures { IfOk result (λ all. map step_of all ≡ map step_of steps ++ spec.one_more before) }
{
    match before {
        Some(at) => {
            steps.push(Stmt::Do(unit(at)))?;
            Ok(steps)
        }
        None => Ok(steps),
    }
}

/// The brace of a block, with the place of the `;` in front of it, if there is one.
fn block_closes(
    alloc: Global,
    stack: &mut Stack,
    before: Option<usize>,
    at: usize,
) -> Result<Mode, Stop>
    ensures { Turns (spec.block_closes (frames_of stack.old) before at) result stack.new }
{
    match pop_block(alloc, stack) {
        Some((steps, place)) => {
            let steps = all_steps(steps, before)?;
            closed(alloc, stack, steps, place)
        }
        None => unexpected(at),
    }
}

/// A statement, or the brace.
pub fn statement(
    alloc: Global,
    stack: &mut Stack,
    before: Option<usize>,
    word: Word,
) -> Result<Mode, Stop>
    ensures { Turns (spec.statement (frames_of stack.old) before word) result stack.new }
{
    if is_mark(Mark::CloseBrace, &word.sign) {
        block_closes(alloc, stack, before, word.at)
    } else if is_keyword(Keyword::Let, &word.sign) {
        Ok(Mode::Awaits(Await::Name(Naming::Local(Binder::Let))))
    } else if is_keyword(Keyword::Var, &word.sign) {
        Ok(Mode::Awaits(Await::Name(Naming::Local(Binder::Var))))
    } else {
        want(alloc, stack, word)
    }
}

/// An assignment, which begins with its name at the first place; it is no operand of a chain.
#[tactic(auto, using(crate::proofs::Tops::no_chain_assigns, crate::proofs::Tops::chain_assigns))]
fn assigns(stack: &mut Stack, name: Name, place: usize, at: usize) -> Result<Mode, Stop>
    ensures { Turns (spec.assigns (frames_of stack.old) name place at) result stack.new }
{
    if stack.is_in_chain() {
        unexpected(at)
    } else {
        opened(stack, Frame::Assigning(name, place), Mode::want(), place)
    }
}

/// What follows a name at the place.
pub fn named(
    alloc: Global,
    stack: &mut Stack,
    name: Name,
    place: usize,
    word: Word,
) -> Result<Mode, Stop>
    ensures { Turns (spec.named (frames_of stack.old) name place word) result stack.new }
{
    let at = word.at;
    if is_mark(Mark::Open, &word.sign) {
        let mode = Mode::Awaits(Await::Inside);
        opened(stack, Frame::Args(name, Items::new(alloc), place), mode, at)
    } else if is_mark(Mark::Equals, &word.sign) {
        assigns(stack, name, place, at)
    } else {
        let done = variable(name, place);
        after(alloc, stack, done, 0, place, Next::word(&word))
    }
}
