//! Whether the terms of an assertion have the sorts that their places ask for.

ghost use Rattle.std.specs.Prelude.{◌≡◌, ◌++◌, All, IfSome, map};
ghost use Rattle.std.specs.List.{list_any, list_all};
ghost use Rattle.std.specs.Option.{option_map};
ghost use Rattle.term_tree.specs.Terms.{IsTyped, IsTypedArray};
ghost use Rattle.term_tree.specs.View.{tree, array_tree};
ghost use Rattle.assert_core.specs.Assertions.{IsTypedItem};
ghost use Rattle.assert_core.specs.Sorts as spec;
ghost use Rattle.assert_core.specs.View.{item_of, assertion_of};

use crate::assertion::{Assertion, Item};
use lex_core::Name;
use term_tree::{ArrayForm, ArrayTerm, Form, Sort, Term, VarDecl, array_form_of, form_of, width};

/// Whether two sorts are the same.
fn same_sort(one: Sort, two: Sort) -> bool
    ensures { result ≡ spec.same_sort one two }
{
    match one {
        Sort::Bits(a) => match two {
            Sort::Bits(b) => a == b,
            Sort::Array => false,
        },
        Sort::Array => match two {
            Sort::Bits(_) => false,
            Sort::Array => true,
        },
    }
}

/// Whether a variable of this name and sort is declared, as a fixed one or as one of the assertion's own.
#[tactic(auto, using(crate::proofs::ScopeLemmas::declares_append))]
fn declares(fixed: &[VarDecl], own: &[VarDecl], name: &Name, sort: Sort) -> bool
    ensures { result ≡ spec.declares (fixed.now ++ own.now) name.now sort }
{
    is_among(fixed, name, sort) || is_among(own, name, sort)
}

/// Whether a variable of this name and sort is among these.
fn is_among(decls: &[VarDecl], name: &Name, sort: Sort) -> bool
    ensures { result ≡ spec.declares decls.now name.now sort }
{
    decls.iter().any(|decl| decl.name.is(name.bytes()) && same_sort(decl.sort, sort))
}

/// Whether a variable of this name is among these.
fn is_named(decls: &[VarDecl], name: &Name) -> bool
    ensures { result ≡ list_any (spec.is_named name.now) decls.now }
{
    decls.iter().any(|decl| decl.name.is(name.bytes()))
}

/// Whether the names of all variables differ: those of fixed ones, and those of others behind them.
fn names_apart(fixed: &[VarDecl], own: &[VarDecl]) -> bool
    ensures { result ≡ spec.names_apart (fixed.now ++ own.now) }
{
    match fixed {
        [first, rest @ ..] => {
            !is_named(rest, &first.name) && !is_named(own, &first.name) && names_apart(rest, own)
        }
        [] => match own {
            [first, rest @ ..] => !is_named(rest, &first.name) && names_apart(fixed, rest),
            [] => true,
        },
    }
}

/// Whether each variable of a term is declared with its sort.
fn uses_declared(fixed: &[VarDecl], own: &[VarDecl], term: &Term) -> bool
    requires typed { IsTyped (tree term.now) }
    ensures { result ≡ spec.uses_declared (fixed.now ++ own.now) (tree term.now) }
{
    match form_of(term) {
        Form::Lit(_) => true,
        Form::Var { name, width } => declares(fixed, own, name, Sort::Bits(width)),
        Form::One { op: _, a } => uses_declared(fixed, own, a),
        Form::Two { op: _, a, b } => {
            uses_declared(fixed, own, a) && uses_declared(fixed, own, b)
        }
        Form::Three { op: _, a, b, c } => {
            uses_declared(fixed, own, a)
                && (uses_declared(fixed, own, b) && uses_declared(fixed, own, c))
        }
        Form::Sel { of, at } => {
            declares(fixed, own, of, Sort::Array) && uses_declared(fixed, own, at)
        }
    }
}

/// Whether each variable of an array term is declared with its sort.
fn array_uses_declared(fixed: &[VarDecl], own: &[VarDecl], array: &ArrayTerm) -> bool
    requires typed { IsTypedArray (array_tree array.now) }
    ensures { result ≡ spec.array_uses_declared (fixed.now ++ own.now) (array_tree array.now) }
{
    match array_form_of(array) {
        ArrayForm::Var { name } => declares(fixed, own, name, Sort::Array),
        ArrayForm::Upd { of, at, by } => {
            array_uses_declared(fixed, own, of)
                && (uses_declared(fixed, own, at) && uses_declared(fixed, own, by))
        }
        ArrayForm::Splice { of, below, at } => {
            array_uses_declared(fixed, own, of)
                && (array_uses_declared(fixed, own, below) && uses_declared(fixed, own, at))
        }
    }
}

/// Whether a term has so many bits, and each variable of it is declared with its sort.
fn has_width(fixed: &[VarDecl], own: &[VarDecl], bits: u64, term: &Term) -> bool
    requires typed { IsTyped (tree term.now) }
    ensures { result ≡ spec.has_width (fixed.now ++ own.now) bits (tree term.now) }
{
    u64::from(width(term)) == bits && uses_declared(fixed, own, term)
}

/// Whether each variable of a value is declared with its sort, where a value is written.
fn written_fits(fixed: &[VarDecl], own: &[VarDecl], written: &Option<Term>) -> bool
    requires typed { IfSome (option_map tree written.now) IsTyped }
    ensures { result ≡ spec.written_fits (fixed.now ++ own.now) (option_map tree written.now) }
{
    match written {
        Some(term) => uses_declared(fixed, own, term),
        None => true,
    }
}

/// Whether an item has the widths that its place asks for, over declared variables.
fn item_fits(fixed: &[VarDecl], own: &[VarDecl], item: &Item) -> bool
    requires typed { IsTypedItem (item_of item.now) }
    ensures { result ≡ spec.item_fits (fixed.now ++ own.now) (item_of item.now) }
{
    match item {
        Item::Fact(term) => has_width(fixed, own, 1, term),
        Item::Reg { name: _, value } => written_fits(fixed, own, value),
        Item::Mem { at, bytes, value } => {
            has_width(fixed, own, 64, at) && has_width(fixed, own, 8 * u64::from(*bytes), value)
        }
        Item::Arr { at, len, of } => {
            has_width(fixed, own, 64, at)
                && (has_width(fixed, own, 64, len) && array_uses_declared(fixed, own, of))
        }
        Item::Dev { name: _, state: _ } => true,
    }
}

/// Whether all items have the widths that their places ask for, over declared variables.
fn items_fit(fixed: &[VarDecl], own: &[VarDecl], items: &[Item]) -> bool
    requires typed { All (λ i. IsTypedItem (item_of i)) items.now }
    ensures { result ≡ list_all (spec.item_fits (fixed.now ++ own.now)) (map item_of items.now) }
{
    for item in items {
        if !item_fits(fixed, own, item) {
            return false;
        }
    }
    true
}

/// Whether the variables and widths of an assertion fit: the names of the fixed variables and of its own all differ, each
/// variable of its items is one of these with its sort, facts are 1 bit wide, addresses and lengths are 64, and the value
/// of bytes has 8 bits a byte. It takes no memory.
pub fn sorts_fit(fixed: &[VarDecl], assertion: &Assertion) -> bool
    requires typed { All (λ i. IsTypedItem (item_of i)) assertion.now.items }
    ensures { result ≡ spec.sorts_fit fixed.now (assertion_of assertion.now) }
{
    let own = assertion.vars.as_slice();
    names_apart(fixed, own) && items_fit(fixed, own, assertion.items.as_slice())
}
