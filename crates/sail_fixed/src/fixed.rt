//! Fixed words: which one comes next, and what it leads to.

ghost use Rattle.std.specs.Prelude.{◌≡◌, ◌∷◌, [], Ok};
ghost use Rattle.sail_machine.specs.Headers as spec;
ghost use Rattle.sail_machine.specs.Frames as m;
ghost use Rattle.sail_machine.specs.Frames.{awaits};
ghost use Rattle.sail_machine.specs.Turns.{defined};
ghost use Rattle.sail_machine.specs.declared.awaited.Await.TheVariants as a;
ghost use Rattle.sail_machine.specs.declared.awaited.Naming.TheVariants as naming;
ghost use Rattle.sail_machine.specs.declared.awaited.Fixed.TheVariants as fixed;
ghost use Rattle.sail_syntax.specs.Program.{order};
ghost use Rattle.sail_frames.specs.Turning.{Turns};
ghost use Rattle.sail_frames.specs.View.{frames_of, mode_of};

use lex_core::Name;
use sail_frames::{Frame, Mode, Stack, Stop, fails, is_sign, opened, unexpected};
use sail_grammar::{Keyword, Mark, Sign, Word};
use sail_heads::sized;
use sail_machine::{
    Await, Binder, Counting, EnumHead, Fixed, Flaw, FunctionHead, IndexUse, Naming, Sized, TypeUse,
    ValHead,
};
use sail_nodes::{check, exit, slice};
use sail_syntax::{Def, Index, Pattern, Ty};
use sail_tops::{pop_arms, pop_asserted, pop_block, pop_indexing, pop_slicing, pop_widening};
use sqlite_items::Items;
use std::alloc::Global;

/// The word that ends an index.
fn index_end(of: &IndexUse) -> Sign
    ensures { result ≡ spec.index_end of.now }
{
    match of {
        IndexUse::High | IndexUse::WithHigh => Sign::Mark(Mark::Dots),
        IndexUse::Low(_) => Sign::Mark(Mark::CloseSquare),
        IndexUse::WithLow(_) => Sign::Mark(Mark::Equals),
    }
}

/// Which word comes next.
fn awaited(fixed: &Fixed) -> Sign
    ensures { result ≡ spec.awaited fixed.now }
{
    match fixed {
        Fixed::OrderWord => Sign::Keyword(Keyword::Order),
        Fixed::OrderEnd => Sign::Keyword(Keyword::Dec),
        Fixed::BitsWord(_) => Sign::Keyword(Keyword::Bits),
        Fixed::EachFrom(_, _) => Sign::Keyword(Keyword::From),
        Fixed::EachTo(_, _, _) => Sign::Keyword(Keyword::To),
        Fixed::RegisterColon(_, _) | Fixed::ValColon(_, _) | Fixed::ParamColon(_, _) => {
            Sign::Mark(Mark::Colon)
        }
        Fixed::BitsClose(_, _)
        | Fixed::AssertClose(_)
        | Fixed::ExitClose(_)
        | Fixed::EachClose(_, _, _, _) => Sign::Mark(Mark::Close),
        Fixed::EnumEquals(_, _) | Fixed::FunctionEquals(_, _) | Fixed::LocalEquals(_, _, _) => {
            Sign::Mark(Mark::Equals)
        }
        Fixed::EnumOpen(_, _) | Fixed::EachBlock(_, _, _, _) => Sign::Mark(Mark::OpenBrace),
        Fixed::ValArrow(_) | Fixed::FunctionArrow(_) => Sign::Mark(Mark::Arrow),
        Fixed::WidenComma(_) => Sign::Mark(Mark::Comma),
        Fixed::Arrow(_) => Sign::Mark(Mark::FatArrow),
        Fixed::IndexEnd(of, _) => index_end(of),
        _ => Sign::Mark(Mark::Open),
    }
}

/// The widened expression comes next.
fn widens(stack: &mut Stack, width: u32, at: usize) -> Result<Mode, Stop>
    ensures { Turns (spec.widens (frames_of stack.old) width at) result stack.new }
{
    match pop_widening(stack) {
        Some((signed, place)) => {
            stack.push(Frame::Widened(signed, width, place))?;
            Ok(Mode::want())
        }
        None => unexpected(at),
    }
}

/// A number comes next.
fn number(of: Counting) -> Mode
    ensures { mode_of result ≡ awaits (a.Number of) }
{
    Mode::Awaits(Await::Number(of))
}

/// The width of a widening comes next.
fn widening_opens(stack: &mut Stack, signed: bool, place: usize, at: usize) -> Result<Mode, Stop>
    ensures { Turns (spec.behind (frames_of stack.old) (fixed.WidenOpen signed place) at) result stack.new }
{
    let mode = number(Counting::Width(Sized::Widening));
    opened(stack, Frame::Widening(signed, place), mode, at)
}

/// An assert was read.
fn asserts(alloc: Global, stack: &mut Stack, text: Name, at: usize) -> Result<Mode, Stop>
    ensures { Turns (spec.asserts (frames_of stack.old) text at) result stack.new }
{
    match pop_asserted(stack) {
        Some((test, place)) => {
            let done = check(alloc, test, text, place)?;
            Ok(Mode::operand(done, place))
        }
        None => unexpected(at),
    }
}

/// The value of a local comes next.
pub fn binds_local(
    alloc: Global,
    stack: &mut Stack,
    binder: Binder,
    name: Name,
    ty: Option<Ty>,
    at: usize,
) -> Result<Mode, Stop>
    ensures { Turns (spec.binds_local (frames_of stack.old) binder name ty at) result stack.new }
{
    match pop_block(alloc, stack) {
        Some((steps, place)) => {
            stack.push(Frame::Binding(steps, binder, name, ty, place))?;
            Ok(Mode::want())
        }
        None => unexpected(at),
    }
}

/// The body of an arm comes next.
pub fn arms_with(
    alloc: Global,
    stack: &mut Stack,
    pattern: Pattern,
    at: usize,
) -> Result<Mode, Stop>
    ensures { Turns (spec.arms_with (frames_of stack.old) pattern at) result stack.new }
{
    match pop_arms(alloc, stack) {
        Some((on, arms, place)) => {
            stack.push(Frame::Armed(on, arms, pattern, place))?;
            Ok(Mode::want())
        }
        None => unexpected(at),
    }
}

/// A slice was read.
fn slices(alloc: Global, stack: &mut Stack, hi: Index, lo: Index, at: usize) -> Result<Mode, Stop>
    ensures { Turns (spec.slices (frames_of stack.old) hi lo at) result stack.new }
{
    match pop_slicing(stack) {
        Some((of, whole, place)) => {
            let done = slice(alloc, of, hi, lo, place)?;
            Ok(Mode::Have(done, whole + 1, place))
        }
        None => unexpected(at),
    }
}

/// What replaces the bits comes next.
fn replaces(stack: &mut Stack, hi: Index, lo: Index, at: usize) -> Result<Mode, Stop>
    ensures { Turns (spec.replaces (frames_of stack.old) hi lo at) result stack.new }
{
    match pop_indexing(stack) {
        Some((of, place)) => {
            stack.push(Frame::Replacing(of, hi, lo, place))?;
            Ok(Mode::want())
        }
        None => unexpected(at),
    }
}

/// An index was read.
fn indexed(
    alloc: Global,
    stack: &mut Stack,
    of: IndexUse,
    index: Index,
    at: usize,
) -> Result<Mode, Stop>
    ensures { Turns (spec.indexed (frames_of stack.old) of index at) result stack.new }
{
    match of {
        IndexUse::High => Ok(Mode::Awaits(Await::Index(IndexUse::Low(index)))),
        IndexUse::Low(hi) => slices(alloc, stack, hi, index, at),
        IndexUse::WithHigh => Ok(Mode::Awaits(Await::Index(IndexUse::WithLow(index)))),
        IndexUse::WithLow(hi) => replaces(stack, hi, index, at),
    }
}

/// A foreach, whose block begins at the last place.
fn loops(
    alloc: Global,
    stack: &mut Stack,
    name: Name,
    from: u32,
    to: u32,
    place: usize,
    at: usize,
) -> Result<Mode, Stop>
    ensures { Turns (spec.loops (frames_of stack.old) name from to place at) result stack.new }
{
    if !stack.has_room(1) {
        return fails(Flaw::TooDeep, at);
    }
    stack.push(Frame::Looping(name, from, to, place))?;
    let mode = Mode::Awaits(Await::Statement(None));
    opened(stack, Frame::Statements(Items::new(alloc), at), mode, at)
}

/// The bracket in front of a width, which holds no expression.
fn width_opens(stack: &Stack, of: Sized, at: usize) -> Result<Mode, Stop>
    ensures { Turns (spec.behind_head (frames_of stack.now) (fixed.BitsOpen of) at) result stack.now }
{
    if stack.has_room(1) {
        Ok(Mode::Awaits(Await::Number(Counting::Width(of))))
    } else {
        fails(Flaw::TooDeep, at)
    }
}

/// The bracket of an exit.
fn exit_opens(stack: &Stack, place: usize, at: usize) -> Result<Mode, Stop>
    ensures { Turns (spec.behind (frames_of stack.now) (fixed.ExitOpen place) at) result stack.now }
{
    if stack.has_room(1) {
        Ok(Mode::fixed(Fixed::ExitClose(place)))
    } else {
        fails(Flaw::TooDeep, at)
    }
}

/// The bracket of a foreach, which holds no expression.
fn foreach_opens(stack: &Stack, place: usize, at: usize) -> Result<Mode, Stop>
    ensures { Turns (spec.behind (frames_of stack.now) (fixed.EachOpen place) at) result stack.now }
{
    if stack.has_room(1) {
        Ok(Mode::Awaits(Await::Name(Naming::Each(place))))
    } else {
        fails(Flaw::TooDeep, at)
    }
}

/// A function's body comes next.
fn body_opens(stack: &mut Stack, head: FunctionHead, ty: Ty) -> Result<Mode, Stop>
    ensures { Turns (Ok (m.body head ty ∷ frames_of stack.old, awaits a.Want)) result stack.new }
{
    stack.push_flat(Frame::Body(head, ty))?;
    Ok(Mode::want())
}

/// The order of bits was read.
fn order_ends(stack: &mut Stack) -> Result<Mode, Stop>
    ensures { Turns (Ok (defined (frames_of stack.old) order, awaits a.Definition)) result stack.new }
{
    stack.define(Def::Order)?;
    Ok(Mode::Awaits(Await::Definition))
}

/// The members of an enum come next.
fn members_come(alloc: Global, name: Name, at: usize) -> Mode
    ensures { mode_of result ≡ awaits (a.Name (naming.Member (record { name = name; members = []; at = at }))) }
{
    let members = Items::new(alloc);
    let head = EnumHead { name, members, at };
    Mode::Awaits(Await::Name(Naming::Member(head)))
}

/// The argument types of a function come next.
fn types_come(alloc: Global, name: Name, at: usize) -> Mode
    ensures { mode_of result ≡ awaits (a.TypeOrEnd (record { name = name; args = []; at = at })) }
{
    let args = Items::new(alloc);
    Mode::Awaits(Await::TypeOrEnd(ValHead { name, args, at }))
}

/// The parameters of a function come next.
fn params_come(alloc: Global, name: Name, at: usize) -> Mode
    ensures { mode_of result ≡ awaits (a.ParamOrEnd (record { name = name; params = []; at = at })) }
{
    let params = Items::new(alloc);
    Mode::Awaits(Await::ParamOrEnd(FunctionHead { name, params, at }))
}

/// The fixed word stands at the place.
fn behind(alloc: Global, stack: &mut Stack, fixed: Fixed, at: usize) -> Result<Mode, Stop>
    ensures { Turns (spec.behind (frames_of stack.old) fixed at) result stack.new }
{
    match fixed {
        Fixed::OrderWord => Ok(Mode::fixed(Fixed::OrderEnd)),
        Fixed::OrderEnd => order_ends(stack),
        Fixed::RegisterColon(name, at) => Ok(Mode::fixed(Fixed::BitsWord(Sized::Register(
            name, at,
        )))),
        Fixed::BitsWord(of) => Ok(Mode::fixed(Fixed::BitsOpen(of))),
        Fixed::BitsOpen(of) => width_opens(stack, of, at),
        Fixed::BitsClose(of, width) => sized(stack, of, width),
        Fixed::EnumEquals(name, at) => Ok(Mode::fixed(Fixed::EnumOpen(name, at))),
        Fixed::EnumOpen(name, at) => Ok(members_come(alloc, name, at)),
        Fixed::ValColon(name, at) => Ok(Mode::fixed(Fixed::ValOpen(name, at))),
        Fixed::ValOpen(name, at) => Ok(types_come(alloc, name, at)),
        Fixed::ValArrow(head) => Ok(Mode::Awaits(Await::Type(TypeUse::Answer(head)))),
        Fixed::FunctionOpen(name, at) => Ok(params_come(alloc, name, at)),
        Fixed::ParamColon(head, name) => Ok(Mode::Awaits(Await::Type(TypeUse::Param(head, name)))),
        Fixed::FunctionArrow(head) => Ok(Mode::Awaits(Await::Type(TypeUse::Returned(head)))),
        Fixed::FunctionEquals(head, ty) => body_opens(stack, head, ty),
        Fixed::FlipOpen(place) => opened(stack, Frame::Flipping(place), Mode::want(), at),
        Fixed::WidenOpen(signed, place) => widening_opens(stack, signed, place, at),
        Fixed::WidenComma(width) => widens(stack, width, at),
        Fixed::AssertOpen(place) => opened(stack, Frame::Asserting(place), Mode::want(), at),
        Fixed::AssertClose(text) => asserts(alloc, stack, text, at),
        Fixed::ExitOpen(place) => exit_opens(stack, place, at),
        Fixed::ExitClose(place) => Ok(Mode::operand(exit(place), place)),
        Fixed::EachOpen(place) => foreach_opens(stack, place, at),
        Fixed::EachFrom(name, place) => Ok(number(Counting::First(name, place))),
        Fixed::EachTo(name, from, place) => Ok(number(Counting::Last(name, from, place))),
        Fixed::EachClose(name, from, to, place) => Ok(Mode::fixed(Fixed::EachBlock(
            name, from, to, place,
        ))),
        Fixed::EachBlock(name, from, to, place) => loops(alloc, stack, name, from, to, place, at),
        Fixed::LocalEquals(binder, name, ty) => binds_local(
            alloc,
            stack,
            binder,
            name,
            Some(ty),
            at,
        ),
        Fixed::Arrow(pattern) => arms_with(alloc, stack, pattern, at),
        Fixed::IndexEnd(of, index) => indexed(alloc, stack, of, index, at),
    }
}

/// Whether the word that is awaited comes.
fn comes(fixed: &Fixed, sign: &Sign) -> bool
    ensures { result ≡ spec.is_sign (spec.awaited fixed.now) sign.now }
{
    is_sign(&awaited(fixed), sign)
}

/// A word where a fixed one is awaited.
pub fn fixed_word(alloc: Global, stack: &mut Stack, fixed: Fixed, word: Word) -> Result<Mode, Stop>
    ensures { Turns (spec.fixed_word (frames_of stack.old) fixed word.sign word.at) result stack.new }
{
    if comes(&fixed, &word.sign) {
        behind(alloc, stack, fixed, word.at)
    } else {
        unexpected(word.at)
    }
}
