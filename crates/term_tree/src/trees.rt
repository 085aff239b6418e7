//! Terms as trees: their forms, widths and heights, whether two are the same, and lists of a few.

ghost use Rattle.std.specs.Prelude.{◌≡◌, ◌≤◌, [], ◌∷◌, IfOk};
ghost use Rattle.term_tree.specs.Terms.{IsTyped, IsTypedArray, width_of, height, array_height, same_op, same_tree, HIGHEST};
ghost use Rattle.term_tree.specs.View.{tree, array_tree};
ghost use Rattle.term_tree.specs.Forms.{IsForm};
ghost use Rattle.term_tree.specs.ArrayForms.{IsArrayForm};

use crate::term::{ArrayTerm, Term};
use bv_bits::{Bits, Op};
use lex_core::{Name, NoMemory};
use sqlite_items::Items;
use std::alloc::Global;

/// How high a term may be.
pub const HIGHEST: u32 = 1024;

/// The width of a term in bits.
pub fn width(term: &Term) -> u32
    requires typed { IsTyped (tree term.now) }
    ensures width { result ≡ width_of (tree term.now) }
{
    match form_of(term) {
        Form::Lit(b) => b.width,
        Form::Var { name: _, width } => width,
        Form::One { op, a } => op.row_width(&[width(a)]).unwrap(),
        Form::Two { op, a, b } => op.row_width(&[width(a), width(b)]).unwrap(),
        Form::Three { op, a, b, c } => op.row_width(&[width(a), width(b), width(c)]).unwrap(),
        Form::Sel { of: _, at: _ } => 8,
    }
}

/// Whether two operators are the same.
pub fn same_op(one: Op, two: Op) -> bool
    ensures same { result ≡ same_op one two }
{
    one == two
}

/// A term, one form at a time, with its parts.
#[derive(Clone, Copy, Drop)]
pub enum Form<'t> {
    /// A literal.
    Lit(Bits),
    /// A variable.
    Var {
        name: &'t Name,
        width: u32,
    },
    /// An operator at one argument.
    One {
        op: Op,
        a: &'t Term,
    },
    /// An operator at two arguments.
    Two {
        op: Op,
        a: &'t Term,
        b: &'t Term,
    },
    /// An operator at three arguments.
    Three {
        op: Op,
        a: &'t Term,
        b: &'t Term,
        c: &'t Term,
    },
    /// The byte of an array variable.
    Sel {
        of: &'t Name,
        at: &'t Term,
    },
}

/// The form of a term.
pub fn form_of<'t>(term: &'t Term) -> Form<'t>
    requires typed { IsTyped (tree term.now) }
    ensures form { IsForm (tree term.now) result }
{
    match term {
        Term::Lit(b) => Form::Lit(*b),
        Term::Var { name, width } => Form::Var {
            name,
            width: *width,
        },
        Term::App { op, args } => match args.as_slice() {
            [a] => Form::One { op: *op, a },
            [a, b] => Form::Two { op: *op, a, b },
            [a, b, c] => Form::Three { op: *op, a, b, c },
            _ => unreachable!(),
        },
        Term::Sel { of, at } => Form::Sel { of, at: at.get() },
    }
}

/// An array term, one form at a time, with its parts.
#[derive(Clone, Copy, Drop)]
pub enum ArrayForm<'t> {
    /// An array variable.
    Var {
        name: &'t Name,
    },
    /// An array, but for the byte at an index.
    Upd {
        of: &'t ArrayTerm,
        at: &'t Term,
        by: &'t Term,
    },
    /// The array `below` below an index, and the array `of` from it on.
    Splice {
        of: &'t ArrayTerm,
        below: &'t ArrayTerm,
        at: &'t Term,
    },
}

/// The form of an array term.
pub fn array_form_of<'t>(array: &'t ArrayTerm) -> ArrayForm<'t>
    ensures form { IsArrayForm (array_tree array.now) result }
{
    match array {
        ArrayTerm::Var(name) => ArrayForm::Var { name },
        ArrayTerm::Upd { of, at, by } => ArrayForm::Upd {
            of: of.get(),
            at: at.get(),
            by: by.get(),
        },
        ArrayTerm::Splice { of, below, at } => ArrayForm::Splice {
            of: of.get(),
            below: below.get(),
            at: at.get(),
        },
    }
}

/// Whether two terms are the same.
pub fn same(one: &Term, two: &Term) -> bool
    requires one_typed { IsTyped (tree one.now) }
    requires two_typed { IsTyped (tree two.now) }
    ensures same { result ≡ same_tree (tree one.now) (tree two.now) }
{
    match form_of(one) {
        Form::Lit(a) => match form_of(two) {
            Form::Lit(b) => a.width == b.width && a.value == b.value,
            _ => false,
        },
        Form::Var { name, width } => match form_of(two) {
            Form::Var {
                name: other,
                width: w,
            } => name.bytes() == other.bytes() && width == w,
            _ => false,
        },
        Form::One { op, a } => match form_of(two) {
            Form::One { op: other, a: b } => same_op(op, other) && same(a, b),
            _ => false,
        },
        Form::Two { op, a, b } => match form_of(two) {
            Form::Two {
                op: other,
                a: c,
                b: d,
            } => same_op(op, other) && (same(a, c) && same(b, d)),
            _ => false,
        },
        Form::Three { op, a, b, c } => match form_of(two) {
            Form::Three {
                op: other,
                a: d,
                b: e,
                c: f,
            } => { same_op(op, other) && (same(a, d) && (same(b, e) && same(c, f))) }
            _ => false,
        },
        Form::Sel { of, at } => match form_of(two) {
            Form::Sel {
                of: other,
                at: index,
            } => of.bytes() == other.bytes() && same(at, index),
            _ => false,
        },
    }
}

/// The height of a term that is at most 1,024 high.
pub fn height(term: &Term) -> u32
    requires typed { IsTyped (tree term.now) }
    requires low { height (tree term.now) ≤ HIGHEST }
    ensures height { result ≡ height (tree term.now) }
{
    match form_of(term) {
        Form::Lit(_) => 1,
        Form::Var { name: _, width: _ } => 1,
        Form::One { op: _, a } => 1 + height(a),
        Form::Two { op: _, a, b } => 1 + height(a).max(height(b)),
        Form::Three { op: _, a, b, c } => 1 + height(a).max(height(b).max(height(c))),
        Form::Sel { of: _, at } => 1 + height(at),
    }
}

/// The height of an array term that is at most 1,024 high.
pub fn array_height(array: &ArrayTerm) -> u32
    requires typed { IsTypedArray (array_tree array.now) }
    requires low { array_height (array_tree array.now) ≤ HIGHEST }
    ensures height { result ≡ array_height (array_tree array.now) }
{
    match array_form_of(array) {
        ArrayForm::Var { name: _ } => 1,
        ArrayForm::Upd { of, at, by } => 1 + array_height(of).max(height(at).max(height(by))),
        ArrayForm::Splice { of, below, at } => 1
            + array_height(of).max(array_height(below).max(height(at))),
    }
}

/// One term as a list.
pub fn list_of_one(alloc: Global, a: Term) -> Result<Items<Term>, NoMemory>
    ensures list { IfOk result (λ xs. xs ≡ a ∷ []) }
{
    Ok(Items::from_vec(vec![in alloc; a]?))
}

/// Two terms as a list.
pub fn list_of_two(alloc: Global, a: Term, b: Term) -> Result<Items<Term>, NoMemory>
    ensures list { IfOk result (λ xs. xs ≡ a ∷ b ∷ []) }
{
    Ok(Items::from_vec(vec![in alloc; a, b]?))
}

/// Three terms as a list.
pub fn list_of_three(alloc: Global, a: Term, b: Term, c: Term) -> Result<Items<Term>, NoMemory>
    ensures list { IfOk result (λ xs. xs ≡ a ∷ b ∷ c ∷ []) }
{
    Ok(Items::from_vec(vec![in alloc; a, b, c]?))
}
