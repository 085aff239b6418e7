//! What may come next. A place is where the first token of the thing that is read begins, in bytes of the text.

use crate::heads::{Binder, EnumHead, FunctionHead, ValHead};
use lex_core::Name;
use sail_syntax::{Index, Part, Pattern, Ty};
use sqlite_items::Items;

/// What comes next, where no expression has just ended.
#[derive(Drop)]
pub enum Await {
    /// The order of bits, a definition, or the end of the text.
    Begin,
    /// A definition, or the end of the text.
    Definition,
    /// A fixed word.
    Fixed(Fixed),
    /// A name.
    Name(Naming),
    /// A number.
    Number(Counting),
    /// A type.
    Type(TypeUse),
    /// The first member of an enum or a further one, or the brace behind a last `,`.
    MemberOrEnd(EnumHead),
    /// `,` or the brace behind a member.
    MoreMembers(EnumHead),
    /// The first argument type, or the bracket.
    TypeOrEnd(ValHead),
    /// `,` or the bracket behind an argument type.
    MoreTypes(ValHead),
    /// The first parameter, or the bracket.
    ParamOrEnd(FunctionHead),
    /// `,` or the bracket behind a parameter.
    MoreParams(FunctionHead),
    /// An expression.
    Want,
    /// An operand, behind an infix operator.
    Operand,
    /// An expression, or the bracket behind none.
    Inside,
    /// A statement, or the brace. The place of the `;` in front, if there is one.
    Statement(Option<usize>),
    /// What follows a name with which an operand or an assignment begins.
    Named(Name, usize),
    /// An index.
    Index(IndexUse),
    /// What follows the name of an index.
    IndexName(IndexUse, Name),
    /// `:` or `=` behind the name of a local.
    LocalMore(Binder, Name),
    /// A text in quotes.
    Text,
    /// A pattern, or a part of one behind the others.
    Part(Items<Part>),
    /// What follows a name, or `_`, in a pattern.
    PartNamed(Items<Part>, Option<Name>),
    /// `@` behind parts, or `=>` where they are a pattern.
    MoreParts(Items<Part>),
    /// An arm, or the brace behind a last `,`.
    ArmOrEnd,
}

/// A fixed word, and what it stands behind.
#[derive(Drop)]
pub enum Fixed {
    /// `Order`.
    OrderWord,
    /// `dec`.
    OrderEnd,
    /// `:` of a register.
    RegisterColon(Name, usize),
    /// `bits`.
    BitsWord(Sized),
    /// `(` of a width.
    BitsOpen(Sized),
    /// `)` of a width.
    BitsClose(Sized, u32),
    /// `=` of an enum.
    EnumEquals(Name, usize),
    /// `{` of an enum.
    EnumOpen(Name, usize),
    /// `:` of a `val`.
    ValColon(Name, usize),
    /// `(` of a `val`.
    ValOpen(Name, usize),
    /// `->` of a `val`.
    ValArrow(ValHead),
    /// `(` of a function.
    FunctionOpen(Name, usize),
    /// `:` of a parameter.
    ParamColon(FunctionHead, Name),
    /// `->` of a function.
    FunctionArrow(FunctionHead),
    /// `=` of a function.
    FunctionEquals(FunctionHead, Ty),
    /// `(` behind `~`.
    FlipOpen(usize),
    /// `(` of a widening, with sign bits or with zeros.
    WidenOpen(bool, usize),
    /// `,` behind the width of a widening.
    WidenComma(u32),
    /// `(` of an assert.
    AssertOpen(usize),
    /// `)` behind the text of an assert.
    AssertClose(Name),
    /// `(` of an exit.
    ExitOpen(usize),
    /// `)` of an exit.
    ExitClose(usize),
    /// `(` of a foreach.
    EachOpen(usize),
    /// `from`.
    EachFrom(Name, usize),
    /// `to`.
    EachTo(Name, u32, usize),
    /// `)` of a foreach.
    EachClose(Name, u32, u32, usize),
    /// `{` of a foreach.
    EachBlock(Name, u32, u32, usize),
    /// `=` of a local, behind its type.
    LocalEquals(Binder, Name, Ty),
    /// `=>` behind a pattern.
    Arrow(Pattern),
    /// `..`, `]` or `=` behind an index.
    IndexEnd(IndexUse, Index),
}

/// Whose name comes next.
#[derive(Drop)]
pub enum Naming {
    Register(usize),
    Enum(usize),
    Val(usize),
    Function(usize),
    Member(EnumHead),
    Param(FunctionHead),
    /// The variable of a foreach.
    Each(usize),
    Local(Binder),
}

/// What a number is for.
#[derive(Drop)]
pub enum Counting {
    /// A width, from 1 to 128.
    Width(Sized),
    /// The first bound of a foreach, from 0 to 127.
    First(Name, usize),
    /// The last bound.
    Last(Name, u32, usize),
    /// What is added to the variable of an index, from 0 to 127.
    Plus(IndexUse, Name),
}

/// What a width is for.
#[derive(Drop)]
pub enum Sized {
    Register(Name, usize),
    Type(TypeUse),
    /// A part of a pattern behind these: a name, or `_`.
    Part(Items<Part>, Option<Name>),
    Widening,
}

/// What a type is for.
#[derive(Drop)]
pub enum TypeUse {
    /// An argument of a `val`.
    Argument(ValHead),
    /// The result of a `val`.
    Answer(ValHead),
    /// A parameter of a function.
    Param(FunctionHead, Name),
    /// The result of a function.
    Returned(FunctionHead),
    Local(Binder, Name),
}

/// What an index is for.
#[derive(Drop)]
pub enum IndexUse {
    /// The upper one of a slice.
    High,
    /// The lower one of a slice.
    Low(Index),
    /// The upper one of an update.
    WithHigh,
    /// The lower one of an update.
    WithLow(Index),
}
