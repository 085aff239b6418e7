//! Whether replacements are as wide as the variables of their names.

ghost use Rattle.std.specs.Prelude.{◌≡◌, ◌↔◌, true, All, map};
ghost use Rattle.std.specs.List.{list_any};
ghost use Rattle.term_tree.specs.Terms.{IsTyped, IsTypedArray};
ghost use Rattle.term_tree.specs.View.{tree, array_tree};
ghost use Rattle.term_replace.specs.Replacing.{Fits, FitsArray};
ghost use Rattle.term_replace.specs.Replaced.{named_tree, replacements};
ghost use Rattle.term_replace.specs.Fitting.{misfits};

use lex_core::Name;
use term_tree::{ArrayForm, ArrayTerm, Form, Term, array_form_of, form_of, width};

/// Whether each replacement is as wide as every variable of its name in a term. It takes no memory.
pub fn fits(term: &Term, bits: &[(Name, Term)], arrays: &[(Name, ArrayTerm)]) -> bool
    requires term { IsTyped (tree term.now) }
    requires typed { All (λ p. IsTyped p.1) (map named_tree bits.now) }
    ensures exact { (result ≡ true) ↔ Fits (replacements bits.now arrays.now) (tree term.now) }
{
    match form_of(term) {
        Form::Lit(_) => true,
        Form::Var { name, width } => !some_misfit(name, width, bits),
        Form::One { op: _, a } => fits(a, bits, arrays),
        Form::Two { op: _, a, b } => fits(a, bits, arrays) && fits(b, bits, arrays),
        Form::Three { op: _, a, b, c } => fits(a, bits, arrays)
            && (fits(b, bits, arrays) && fits(c, bits, arrays)),
        Form::Sel { of: _, at } => fits(at, bits, arrays),
    }
}

/// Whether each replacement is as wide as every variable of its name in an array term. It takes no memory.
pub fn fits_array(array: &ArrayTerm, bits: &[(Name, Term)], arrays: &[(Name, ArrayTerm)]) -> bool
    requires array { IsTypedArray (array_tree array.now) }
    requires typed { All (λ p. IsTyped p.1) (map named_tree bits.now) }
    ensures exact { (result ≡ true) ↔ FitsArray (replacements bits.now arrays.now) (array_tree array.now) }
{
    match array_form_of(array) {
        ArrayForm::Var { name: _ } => true,
        ArrayForm::Upd { of, at, by } => fits_array(of, bits, arrays)
            && (fits(at, bits, arrays) && fits(by, bits, arrays)),
        ArrayForm::Splice { of, below, at } => fits_array(of, bits, arrays)
            && (fits_array(below, bits, arrays) && fits(at, bits, arrays)),
    }
}

/// Whether some replacement of a variable has another width.
fn some_misfit(name: &Name, wide: u32, bits: &[(Name, Term)]) -> bool
    requires typed { All (λ p. IsTyped p.1) (map named_tree bits.now) }
    ensures value { result ≡ list_any (misfits name.now wide) (map named_tree bits.now) }
{
    for pair in bits {
        if pair.0.is(name.bytes()) && width(&pair.1) != wide {
            return true;
        }
    }
    false
}
