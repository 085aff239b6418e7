//! Patterns and arms.

ghost use Rattle.std.specs.Prelude.{◌≡◌};
ghost use Rattle.sail_machine.specs.Machine as spec;
ghost use Rattle.sail_frames.specs.Turning.{Turns};
ghost use Rattle.sail_frames.specs.View.{frames_of};

use lex_core::Name;
use sail_fixed::arms_with;
use sail_frames::{Mode, Stack, Stop, is_keyword, is_mark, is_operator, unexpected};
use sail_grammar::{Keyword, Mark, Sign, Word};
use sail_machine::{Await, Fixed, Sized};
use sail_nodes::cases;
use sail_syntax::{Infix, Part, Pattern};
use sail_tops::pop_arms;
use sqlite_items::Items;
use std::alloc::Global;

/// `true` or `false`, which is no part among others.
fn truth_alone(parts: Items<Part>, truth: bool, at: usize) -> Result<Mode, Stop>
    ensures { (k : _) → Turns (spec.truth_alone (frames_of k) parts truth at) result k }
{
    if parts.is_empty() {
        Ok(Mode::fixed(Fixed::Arrow(Pattern::Truth(truth))))
    } else {
        unexpected(at)
    }
}

/// The first word of a part.
pub fn part_word(mut parts: Items<Part>, word: Word) -> Result<Mode, Stop>
    ensures { (k : _) → Turns (spec.part_word (frames_of k) parts word.sign word.at) result k }
{
    match word.sign {
        Sign::Literal(bits) => {
            parts.push(Part::Lit(bits))?;
            Ok(Mode::Awaits(Await::MoreParts(parts)))
        }
        Sign::Name(name) => Ok(Mode::Awaits(Await::PartNamed(parts, Some(name)))),
        sign => {
            if is_keyword(Keyword::Wildcard, &sign) {
                Ok(Mode::Awaits(Await::PartNamed(parts, None)))
            } else if is_keyword(Keyword::True, &sign) {
                truth_alone(parts, true, word.at)
            } else if is_keyword(Keyword::False, &sign) {
                truth_alone(parts, false, word.at)
            } else {
                unexpected(word.at)
            }
        }
    }
}

/// A name, or `_`, as a pattern; it is no part among others.
fn name_alone(
    alloc: Global,
    stack: &mut Stack,
    parts: Items<Part>,
    name: Option<Name>,
    at: usize,
) -> Result<Mode, Stop>
    ensures { Turns (spec.name_alone (frames_of stack.old) parts name at) result stack.new }
{
    if !parts.is_empty() {
        return unexpected(at);
    }
    let pattern = match name {
        Some(name) => Pattern::Name(name),
        None => Pattern::Any,
    };
    arms_with(alloc, stack, pattern, at)
}

/// What follows a name, or `_`, in a pattern.
pub fn part_named(
    alloc: Global,
    stack: &mut Stack,
    parts: Items<Part>,
    name: Option<Name>,
    word: Word,
) -> Result<Mode, Stop>
    ensures { Turns (spec.part_named (frames_of stack.old) parts name word) result stack.new }
{
    if is_mark(Mark::Colon, &word.sign) {
        Ok(Mode::fixed(Fixed::BitsWord(Sized::Part(parts, name))))
    } else if is_mark(Mark::FatArrow, &word.sign) {
        name_alone(alloc, stack, parts, name, word.at)
    } else {
        unexpected(word.at)
    }
}

/// Parts as a pattern: one literal, or two parts or more.
fn parts_alone(
    alloc: Global,
    stack: &mut Stack,
    mut parts: Items<Part>,
    at: usize,
) -> Result<Mode, Stop>
    ensures { Turns (spec.parts_alone (frames_of stack.old) parts at) result stack.new }
{
    if parts.len() >= 2 {
        return arms_with(alloc, stack, Pattern::Parts(parts), at);
    }
    match parts.pop() {
        Some(Part::Lit(bits)) => arms_with(alloc, stack, Pattern::Lit(bits), at),
        _ => unexpected(at),
    }
}

/// What follows parts.
pub fn more_parts(
    alloc: Global,
    stack: &mut Stack,
    parts: Items<Part>,
    word: Word,
) -> Result<Mode, Stop>
    ensures { Turns (spec.more_parts (frames_of stack.old) parts word) result stack.new }
{
    if is_operator(Infix::Join, &word.sign) {
        Ok(Mode::Awaits(Await::Part(parts)))
    } else if is_mark(Mark::FatArrow, &word.sign) {
        parts_alone(alloc, stack, parts, word.at)
    } else {
        unexpected(word.at)
    }
}

/// The brace of a match behind a last `,`.
fn arms_close(alloc: Global, stack: &mut Stack, at: usize) -> Result<Mode, Stop>
    ensures { Turns (spec.arms_close (frames_of stack.old) at) result stack.new }
{
    match pop_arms(alloc, stack) {
        Some((on, arms, place)) => Ok(Mode::Whole(cases(alloc, on, arms, place)?)),
        None => unexpected(at),
    }
}

/// An arm, or the brace.
pub fn arm_or_end(alloc: Global, stack: &mut Stack, word: Word) -> Result<Mode, Stop>
    ensures { Turns (spec.arm_or_end (frames_of stack.old) word) result stack.new }
{
    if is_mark(Mark::CloseBrace, &word.sign) {
        arms_close(alloc, stack, word.at)
    } else {
        part_word(Items::new(alloc), word)
    }
}
