//! Heads of definitions, types, names and numbers.

ghost use Rattle.std.specs.Prelude.{◌≡◌};
ghost use Rattle.sail_machine.specs.declared.awaited.Sized.TheVariants as sized;
ghost use Rattle.sail_machine.specs.Headers as spec;
ghost use Rattle.sail_machine.specs.Machine as machine;
ghost use Rattle.sail_frames.specs.Turning.{Turns};
ghost use Rattle.sail_frames.specs.View.{frames_of};

use lex_core::Name;
use sail_frames::{Mode, Stack, Stop, is_keyword, is_mark, unexpected};
use sail_grammar::{Keyword, Mark, Sign, Word};
use sail_machine::{
    Await, Counting, EnumHead, Fixed, FunctionHead, IndexUse, Naming, Sized, TypeUse, ValHead,
};
use sail_syntax::{Def, Index, Param, Part, Ty};
use sqlite_items::Items;

/// The greatest width.
const MAX_WIDTH: u32 = 128;

/// The greatest index, addend and bound of a foreach.
const MAX_INDEX: u32 = 127;

/// A type was read.
pub fn typed(stack: &mut Stack, of: TypeUse, ty: Ty) -> Result<Mode, Stop>
    ensures { Turns (spec.typed (frames_of stack.old) of ty) result stack.new }
{
    match of {
        TypeUse::Argument(mut head) => {
            head.args.push(ty)?;
            Ok(Mode::Awaits(Await::MoreTypes(head)))
        }
        TypeUse::Answer(head) => {
            let ValHead { name, args, at } = head;
            let result = ty;
            stack.define(Def::Val {
                name,
                args,
                result,
                at,
            })?;
            Ok(Mode::Awaits(Await::Definition))
        }
        TypeUse::Param(mut head, name) => {
            head.params.push(Param { name, ty })?;
            Ok(Mode::Awaits(Await::MoreParams(head)))
        }
        TypeUse::Returned(head) => Ok(Mode::fixed(Fixed::FunctionEquals(head, ty))),
        TypeUse::Local(binder, name) => Ok(Mode::fixed(Fixed::LocalEquals(binder, name, ty))),
    }
}

/// The first word of a type.
pub fn type_word(stack: &mut Stack, of: TypeUse, word: Word) -> Result<Mode, Stop>
    ensures { Turns (spec.type_word (frames_of stack.old) of word.sign word.at) result stack.new }
{
    match word.sign {
        Sign::Name(name) => typed(stack, of, Ty::Enum(name)),
        sign => {
            if is_keyword(Keyword::Bits, &sign) {
                Ok(Mode::fixed(Fixed::BitsOpen(Sized::Type(of))))
            } else if is_keyword(Keyword::Bool, &sign) {
                typed(stack, of, Ty::Bool)
            } else if is_keyword(Keyword::Unit, &sign) {
                typed(stack, of, Ty::Unit)
            } else {
                unexpected(word.at)
            }
        }
    }
}

/// A name was read.
fn called(of: Naming, name: Name) -> Result<Mode, Stop>
    ensures { (k : _) → Turns (spec.called (frames_of k) of name) result k }
{
    match of {
        Naming::Register(at) => Ok(Mode::fixed(Fixed::RegisterColon(name, at))),
        Naming::Enum(at) => Ok(Mode::fixed(Fixed::EnumEquals(name, at))),
        Naming::Val(at) => Ok(Mode::fixed(Fixed::ValColon(name, at))),
        Naming::Function(at) => Ok(Mode::fixed(Fixed::FunctionOpen(name, at))),
        Naming::Member(mut head) => {
            head.members.push(name)?;
            Ok(Mode::Awaits(Await::MoreMembers(head)))
        }
        Naming::Param(head) => Ok(Mode::fixed(Fixed::ParamColon(head, name))),
        Naming::Each(at) => Ok(Mode::fixed(Fixed::EachFrom(name, at))),
        Naming::Local(binder) => Ok(Mode::Awaits(Await::LocalMore(binder, name))),
    }
}

/// A word where a name is awaited.
pub fn name_word(of: Naming, word: Word) -> Result<Mode, Stop>
    ensures { (k : _) → Turns (spec.name_word (frames_of k) of word.sign word.at) result k }
{
    match word.sign {
        Sign::Name(name) => called(of, name),
        _ => unexpected(word.at),
    }
}

/// Whether a number may stand there.
fn may_be(of: &Counting, number: u32) -> bool
    ensures { result ≡ spec.may_be of.now number }
{
    match of {
        Counting::Width(_) => 1 <= number && number <= MAX_WIDTH,
        _ => number <= MAX_INDEX,
    }
}

/// What a width stands before.
fn width_end(of: Sized, width: u32) -> Fixed
    ensures { result ≡ spec.width_end of width }
{
    match of {
        Sized::Widening => Fixed::WidenComma(width),
        of => Fixed::BitsClose(of, width),
    }
}

/// A number was read.
fn counted(of: Counting, number: u32) -> Fixed
    ensures { result ≡ spec.counted of number }
{
    match of {
        Counting::Width(of) => width_end(of, number),
        Counting::First(name, at) => Fixed::EachTo(name, number, at),
        Counting::Last(name, from, at) => Fixed::EachClose(name, from, number, at),
        Counting::Plus(of, name) => Fixed::IndexEnd(
            of,
            Index {
                var: Some(name),
                plus: number,
            },
        ),
    }
}

/// A word where a number is awaited.
pub fn number_word(of: Counting, word: Word) -> Result<Mode, Stop>
    ensures { (k : _) → Turns (spec.number_word (frames_of k) of word.sign word.at) result k }
{
    match word.sign {
        Sign::Number(number) if may_be(&of, number) => Ok(Mode::fixed(counted(of, number))),
        _ => unexpected(word.at),
    }
}

/// A width in brackets was read.
pub fn sized(stack: &mut Stack, of: Sized, width: u32) -> Result<Mode, Stop>
    ensures { Turns (spec.sized_by (frames_of stack.old) of width) result stack.new }
{
    match of {
        Sized::Register(name, at) => {
            stack.define(Def::Register { name, width, at })?;
            Ok(Mode::Awaits(Await::Definition))
        }
        Sized::Type(of) => typed(stack, of, Ty::Bits(width)),
        Sized::Part(parts, name) => sized_part(parts, name, width),
        Sized::Widening => Ok(Mode::fixed(Fixed::WidenComma(width))),
    }
}

/// A part of a pattern with its width was read.
fn sized_part(mut parts: Items<Part>, name: Option<Name>, width: u32) -> Result<Mode, Stop>
    ensures { (k : _) → Turns (spec.sized_by (frames_of k) (sized.Part parts name) width) result k }
{
    match name {
        Some(name) => parts.push(Part::Bind { name, width })?,
        None => parts.push(Part::Skip { width })?,
    }
    Ok(Mode::Awaits(Await::MoreParts(parts)))
}

/// An enum ends.
fn enum_ends(stack: &mut Stack, head: EnumHead) -> Result<Mode, Stop>
    ensures { Turns (machine.enum_ends (frames_of stack.old) head) result stack.new }
{
    let EnumHead { name, members, at } = head;
    stack.define(Def::Enum { name, members, at })?;
    Ok(Mode::Awaits(Await::Definition))
}

/// A member, or the brace.
pub fn member_or_end(stack: &mut Stack, head: EnumHead, word: Word) -> Result<Mode, Stop>
    ensures { Turns (machine.member_or_end (frames_of stack.old) head word) result stack.new }
{
    if is_mark(Mark::CloseBrace, &word.sign) {
        enum_ends(stack, head)
    } else {
        name_word(Naming::Member(head), word)
    }
}

/// What follows a member.
pub fn more_members(stack: &mut Stack, head: EnumHead, word: Word) -> Result<Mode, Stop>
    ensures { Turns (machine.more_members (frames_of stack.old) head word) result stack.new }
{
    if is_mark(Mark::Comma, &word.sign) {
        Ok(Mode::Awaits(Await::MemberOrEnd(head)))
    } else if is_mark(Mark::CloseBrace, &word.sign) {
        enum_ends(stack, head)
    } else {
        unexpected(word.at)
    }
}

/// The first argument type, or the bracket.
pub fn type_or_end(stack: &mut Stack, head: ValHead, word: Word) -> Result<Mode, Stop>
    ensures { Turns (machine.type_or_end (frames_of stack.old) head word) result stack.new }
{
    if is_mark(Mark::Close, &word.sign) {
        Ok(Mode::fixed(Fixed::ValArrow(head)))
    } else {
        type_word(stack, TypeUse::Argument(head), word)
    }
}

/// What follows an argument type.
pub fn more_types(head: ValHead, word: Word) -> Result<Mode, Stop>
    ensures { (k : _) → Turns (machine.more_types (frames_of k) head word) result k }
{
    if is_mark(Mark::Comma, &word.sign) {
        Ok(Mode::Awaits(Await::Type(TypeUse::Argument(head))))
    } else if is_mark(Mark::Close, &word.sign) {
        Ok(Mode::fixed(Fixed::ValArrow(head)))
    } else {
        unexpected(word.at)
    }
}

/// The first parameter, or the bracket.
pub fn param_or_end(head: FunctionHead, word: Word) -> Result<Mode, Stop>
    ensures { (k : _) → Turns (machine.param_or_end (frames_of k) head word) result k }
{
    if is_mark(Mark::Close, &word.sign) {
        Ok(Mode::fixed(Fixed::FunctionArrow(head)))
    } else {
        name_word(Naming::Param(head), word)
    }
}

/// What follows a parameter.
pub fn more_params(head: FunctionHead, word: Word) -> Result<Mode, Stop>
    ensures { (k : _) → Turns (machine.more_params (frames_of k) head word) result k }
{
    if is_mark(Mark::Comma, &word.sign) {
        Ok(Mode::Awaits(Await::Name(Naming::Param(head))))
    } else if is_mark(Mark::Close, &word.sign) {
        Ok(Mode::fixed(Fixed::FunctionArrow(head)))
    } else {
        unexpected(word.at)
    }
}

/// An index.
pub fn index_word(of: IndexUse, word: Word) -> Result<Mode, Stop>
    ensures { (k : _) → Turns (machine.index_word (frames_of k) of word.sign word.at) result k }
{
    match word.sign {
        Sign::Number(plus) if plus <= MAX_INDEX => Ok(Mode::fixed(Fixed::IndexEnd(
            of,
            Index { var: None, plus },
        ))),
        Sign::Name(name) => Ok(Mode::Awaits(Await::IndexName(of, name))),
        _ => unexpected(word.at),
    }
}
