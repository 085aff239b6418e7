use crate::patterns::Pattern;
use crate::types::Ty;
use bv_bits::Bits;
use lex_core::Name;
use sqlite_items::{Boxed, Items};

/// An operator that stands between the parts of a chain.
#[derive(Clone, Copy, Debug, PartialEq, Eq)]
pub enum Infix {
    /// `+`, of bits.
    Add,
    /// `-`, of bits.
    Sub,
    /// `*`, of bits.
    Mul,
    /// `&`, of bits or of bool.
    And,
    /// `|`, of bits or of bool.
    Or,
    /// `^`, of bits.
    Xor,
    /// `@`, which joins bits, the high ones first.
    Join,
    /// `==`.
    Eq,
    /// `!=`.
    Ne,
}

/// The number of a bit, counted from 0: a foreach variable's value plus a number, or the number alone.
#[derive(Debug, Drop)]
pub struct Index {
    /// The foreach variable, if there is one.
    pub var: Option<Name>,
    /// From 0 to 127.
    pub plus: u32,
}

/// An expression and its place.
#[cycle(sail)]
#[derive(Debug, Drop)]
pub struct Expr {
    /// Where its first token begins, in bytes of the text. Parentheses round it don't belong to it.
    pub at: usize,
    /// What it is.
    pub node: Node,
}

/// What an expression is.
#[cycle(sail)]
#[derive(Debug, Drop)]
pub enum Node {
    /// `()`.
    Unit,
    /// A hex or binary literal.
    Lit(Bits),
    /// `true` or `false`.
    Truth(bool),
    /// The name of a local, a register or an enum member.
    Var(Name),
    /// Two parts or more with one operator between them, folded from the left; with `==` or `!=`
    /// just two.
    Chain {
        op: Infix,
        parts: Items<Expr>,
    },
    /// `~(of)`: each bit turned round.
    Flip(Boxed<Expr>),
    /// `of[hi .. lo]`: the bits from `hi` down to `lo`.
    Slice {
        of: Boxed<Expr>,
        hi: Index,
        lo: Index,
    },
    /// `[of with hi .. lo = by]`: the bits of `of`, those from `hi` down to `lo` replaced.
    With {
        of: Boxed<Expr>,
        hi: Index,
        lo: Index,
        by: Boxed<Expr>,
    },
    /// `name(args)`: a call of a function of the program or of the prelude.
    Call {
        name: Name,
        args: Items<Expr>,
    },
    /// `zero_extend(to, of)`, or `sign_extend(to, of)` where `signed`; `to` is a width, 1 to 128.
    Widen {
        signed: bool,
        to: u32,
        of: Boxed<Expr>,
    },
    /// `if test then yes else no`, or without `else`.
    If {
        test: Boxed<Expr>,
        yes: Boxed<Expr>,
        no: Option<Boxed<Expr>>,
    },
    /// `match on { arms }`: the first arm that fits.
    Match {
        on: Boxed<Expr>,
        arms: Items<Arm>,
    },
    /// `foreach (var from FROM to TO) body`: the body for each number from the first one to the last
    /// one, both from 0 to 127.
    Foreach {
        var: Name,
        from: u32,
        to: u32,
        body: Boxed<Expr>,
    },
    /// `assert(test, "text")`.
    Assert {
        test: Boxed<Expr>,
        text: Name,
    },
    /// `exit()`.
    Exit,
    /// `to = by`: an assignment to a register or to a `var` local.
    Assign {
        to: Name,
        by: Boxed<Expr>,
    },
    /// `{ stmt; stmt; .. }`.
    Block(Items<Stmt>),
}

/// A statement of a block.
#[cycle(sail)]
#[derive(Debug, Drop)]
pub enum Stmt {
    /// `let name : ty = by`, a local that is never assigned.
    Let {
        name: Name,
        ty: Option<Ty>,
        by: Expr,
    },
    /// `var name : ty = by`, a local that may be assigned.
    Var {
        name: Name,
        ty: Option<Ty>,
        by: Expr,
    },
    /// An expression.
    Do(Expr),
}

/// An arm of a `match`.
#[cycle(sail)]
#[derive(Debug, Drop)]
pub struct Arm {
    /// Which values it is for.
    pub pattern: Pattern,
    /// What it does with one of them.
    pub body: Expr,
}
