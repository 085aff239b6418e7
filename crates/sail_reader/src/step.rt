//! What a word does, by what comes next.

ghost use Rattle.std.specs.Prelude.{◌≡◌};
ghost use Rattle.sail_machine.specs.Machine as spec;
ghost use Rattle.sail_machine.specs.Run as run;
ghost use Rattle.sail_frames.specs.Turning.{Turns};
ghost use Rattle.sail_frames.specs.View.{frames_of, mode_of};

use lex_core::Name;
use sail_atoms::{
    arm_or_end, inside, more_parts, named, operand_word, part_named, part_word, statement, want,
};
use sail_ends::{after, ends};
use sail_fixed::{binds_local, fixed_word};
use sail_frames::{
    Mode, Next, Stack, Stop, definition, is_keyword, is_mark, is_operator, unexpected,
};
use sail_grammar::{Keyword, Mark, Sign, Word};
use sail_heads::{
    index_word, member_or_end, more_members, more_params, more_types, name_word, number_word,
    param_or_end, type_or_end, type_word,
};
use sail_machine::{Await, Binder, Counting, Fixed, IndexUse, TypeUse};
use sail_nodes::{no_expr, no_name, variable};
use sail_syntax::{Index, Infix};
use std::alloc::Global;
use std::mem::replace;

/// The first word of a text.
fn begin(stack: &Stack, word: Word) -> Result<Mode, Stop>
    ensures { Turns (spec.begin (frames_of stack.now) word) result stack.now }
{
    if is_keyword(Keyword::Default, &word.sign) {
        Ok(Mode::fixed(Fixed::OrderWord))
    } else {
        definition(stack, Next::word(&word))
    }
}

/// What follows the name of an index.
fn index_name(
    alloc: Global,
    stack: &mut Stack,
    of: IndexUse,
    name: Name,
    word: Word,
) -> Result<Mode, Stop>
    ensures { Turns (spec.index_name (frames_of stack.old) of name word) result stack.new }
{
    if is_operator(Infix::Add, &word.sign) {
        return Ok(Mode::Awaits(Await::Number(Counting::Plus(of, name))));
    }
    let index = Index {
        var: Some(name),
        plus: 0,
    };
    fixed_word(alloc, stack, Fixed::IndexEnd(of, index), word)
}

/// What follows the name of a local.
fn local_more(
    alloc: Global,
    stack: &mut Stack,
    binder: Binder,
    name: Name,
    word: Word,
) -> Result<Mode, Stop>
    ensures { Turns (spec.local_more (frames_of stack.old) binder name word) result stack.new }
{
    if is_mark(Mark::Colon, &word.sign) {
        Ok(Mode::Awaits(Await::Type(TypeUse::Local(binder, name))))
    } else if is_mark(Mark::Equals, &word.sign) {
        binds_local(alloc, stack, binder, name, None, word.at)
    } else {
        unexpected(word.at)
    }
}

/// The text of an assert.
fn text_word(word: Word) -> Result<Mode, Stop>
    ensures { (k : _) → Turns (spec.text_word (frames_of k) word.sign word.at) result k }
{
    match word.sign {
        Sign::Text(text) => Ok(Mode::fixed(Fixed::AssertClose(text))),
        _ => unexpected(word.at),
    }
}

/// A word where no expression has just ended.
fn step_await(alloc: Global, stack: &mut Stack, awaits: Await, word: Word) -> Result<Mode, Stop>
    ensures { Turns (spec.step_await (frames_of stack.old) awaits word) result stack.new }
{
    match awaits {
        Await::Fixed(fixed) => fixed_word(alloc, stack, fixed, word),
        Await::Want => want(alloc, stack, word),
        Await::Operand => operand_word(alloc, stack, word),
        Await::Inside => inside(alloc, stack, word),
        Await::Statement(before) => statement(alloc, stack, before, word),
        Await::Named(name, at) => named(alloc, stack, name, at, word),
        Await::Index(of) => index_word(of, word),
        Await::IndexName(of, name) => index_name(alloc, stack, of, name, word),
        Await::LocalMore(binder, name) => local_more(alloc, stack, binder, name, word),
        Await::Text => text_word(word),
        Await::Part(parts) => part_word(parts, word),
        Await::PartNamed(parts, name) => part_named(alloc, stack, parts, name, word),
        Await::MoreParts(parts) => more_parts(alloc, stack, parts, word),
        Await::ArmOrEnd => arm_or_end(alloc, stack, word),
        Await::Begin => begin(stack, word),
        Await::Definition => definition(stack, Next::word(&word)),
        Await::Name(of) => name_word(of, word),
        Await::Number(of) => number_word(of, word),
        Await::Type(of) => type_word(stack, of, word),
        Await::MemberOrEnd(head) => member_or_end(stack, head, word),
        Await::MoreMembers(head) => more_members(stack, head, word),
        Await::TypeOrEnd(head) => type_or_end(stack, head, word),
        Await::MoreTypes(head) => more_types(head, word),
        Await::ParamOrEnd(head) => param_or_end(head, word),
        Await::MoreParams(head) => more_params(head, word),
    }
}

/// What a word does.
pub fn step(alloc: Global, stack: &mut Stack, mode: Mode, word: Word) -> Result<Mode, Stop>
    ensures { Turns (spec.step (frames_of stack.old) (mode_of mode) word) result stack.new }
{
    match mode {
        Mode::Awaits(awaits) => step_await(alloc, stack, awaits, word),
        Mode::Have(done, slices, at) => { after(alloc, stack, done, slices, at, Next::word(&word)) }
        Mode::Whole(done) => ends(alloc, stack, done, Next::word(&word)),
    }
}

/// The end of the text where no expression has just ended.
fn last_await(alloc: Global, stack: &mut Stack, awaits: &mut Await, at: usize) -> Result<Mode, Stop>
    ensures { Turns (run.last_await (frames_of stack.old) awaits.old at) result stack.new }
{
    match awaits {
        Await::Begin | Await::Definition => Ok(Mode::Awaits(Await::Definition)),
        Await::Named(name, place) => {
            let name = replace(name, no_name(alloc));
            ends(alloc, stack, variable(name, *place), Next::end(at))
        }
        _ => unexpected(at),
    }
}

/// The end of the text, at the place.
pub fn last(alloc: Global, stack: &mut Stack, mode: &mut Mode, at: usize) -> Result<Mode, Stop>
    ensures { Turns (run.last (frames_of stack.old) (mode_of mode.old) at) result stack.new }
{
    match mode {
        Mode::Awaits(awaits) => last_await(alloc, stack, awaits, at),
        Mode::Have(done, _, _) | Mode::Whole(done) => {
            let done = replace(done, no_expr());
            ends(alloc, stack, done, Next::end(at))
        }
    }
}
