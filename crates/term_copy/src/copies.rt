//! Copies of terms.

ghost use Rattle.std.specs.Prelude.{◌≡◌, IfOk};
ghost use Rattle.term_tree.specs.Terms.{IsTyped, IsTypedArray};
ghost use Rattle.term_tree.specs.View.{tree, array_tree};

use lex_core::NoMemory;
use sqlite_items::Boxed;
use std::alloc::Global;
use term_tree::{
    ArrayForm, ArrayTerm, Form, Term, array_form_of, form_of, list_of_one, list_of_three,
    list_of_two,
};

/// A term of its own that is the same.
pub fn copy(alloc: Global, term: &Term) -> Result<Term, NoMemory>
    requires typed { IsTyped (tree term.now) }
    ensures same { IfOk result (λ t. tree t ≡ tree term.now) }
{
    match form_of(term) {
        Form::Lit(b) => Ok(Term::Lit(b)),
        Form::Var { name, width } => Ok(Term::Var {
            name: name.copy(alloc)?,
            width,
        }),
        Form::One { op, a } => Ok(Term::App {
            op,
            args: list_of_one(alloc, copy(alloc, a)?)?,
        }),
        Form::Two { op, a, b } => Ok(Term::App {
            op,
            args: list_of_two(alloc, copy(alloc, a)?, copy(alloc, b)?)?,
        }),
        Form::Three { op, a, b, c } => Ok(Term::App {
            op,
            args: list_of_three(alloc, copy(alloc, a)?, copy(alloc, b)?, copy(alloc, c)?)?,
        }),
        Form::Sel { of, at } => Ok(Term::Sel {
            of: of.copy(alloc)?,
            at: Boxed::new(alloc, copy(alloc, at)?)?,
        }),
    }
}

/// An array term of its own that is the same.
pub fn copy_array(alloc: Global, array: &ArrayTerm) -> Result<ArrayTerm, NoMemory>
    requires typed { IsTypedArray (array_tree array.now) }
    ensures same { IfOk result (λ f. array_tree f ≡ array_tree array.now) }
{
    match array_form_of(array) {
        ArrayForm::Var { name } => Ok(ArrayTerm::Var(name.copy(alloc)?)),
        ArrayForm::Upd { of, at, by } => Ok(ArrayTerm::Upd {
            of: Boxed::new(alloc, copy_array(alloc, of)?)?,
            at: Boxed::new(alloc, copy(alloc, at)?)?,
            by: Boxed::new(alloc, copy(alloc, by)?)?,
        }),
        ArrayForm::Splice { of, below, at } => Ok(ArrayTerm::Splice {
            of: Boxed::new(alloc, copy_array(alloc, of)?)?,
            below: Boxed::new(alloc, copy_array(alloc, below)?)?,
            at: Boxed::new(alloc, copy(alloc, at)?)?,
        }),
    }
}
