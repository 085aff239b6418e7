// Array terms and their bytes.

ghost use Rattle.std.specs.Prelude.{◌≡◌, [], ◌∷◌, IfOk};
ghost use Rattle.term_tree.specs.Terms.{lit, array, upd, splice, IsTyped, IsTypedArray, IsArrayTerm, IsTerm, IsIndex};
ghost use Rattle.term_tree.specs.View.{tree, array_tree};
ghost use Rattle.term_arena.specs.Answers.{id_term, id_array};

use arena_make::select;
use arena_trees::{intern, intern_array};
use bv_bits::Bits;
use lex_core::{Name, NoMemory};
use sqlite_items::Boxed;
use std::alloc::Global;
use term_arena::{TermId, Terms};
use term_tree::{ArrayTerm, Term, TermFault};

/// An index of 64 bits.
fn index_term(at: u32) -> Term
    ensures tree { tree result ≡ lit (record { width = 64; value = at }) }
    ensures index { IsIndex (tree result) }
{
    Term::Lit(Bits {
        width: 64,
        value: u128::from(at),
    })
}

/// The same, interned.
fn index(terms: &mut Terms, at: u32) -> Result<TermId, TermFault>
    ensures index { IfOk result (λ id. IsIndex (id_term terms.new id)) }
{
    let term = index_term(at);
    intern(terms, &term)
}

/// The array `mem` but for a byte at an index.
fn update_of(alloc: Global, at: u32, by: u8) -> Result<ArrayTerm, NoMemory>
    ensures tree { IfOk result (λ f. array_tree f ≡ upd (array (109 ∷ 101 ∷ 109 ∷ [])) (lit (record { width = 64; value = at })) (lit (record { width = 8; value = by }))) }
{
    let byte = Term::Lit(Bits {
        width: 8,
        value: u128::from(by),
    });
    Ok(ArrayTerm::Upd {
        of: Boxed::new(alloc, ArrayTerm::Var(Name::of(alloc, b"mem")?))?,
        at: Boxed::new(alloc, index_term(at))?,
        by: Boxed::new(alloc, byte)?,
    })
}

/// The array `low` below an index, and `mem` from it on.
fn splice_of(alloc: Global, at: u32) -> Result<ArrayTerm, NoMemory>
    ensures tree { IfOk result (λ f. array_tree f ≡ splice (array (109 ∷ 101 ∷ 109 ∷ [])) (array (108 ∷ 111 ∷ 119 ∷ [])) (lit (record { width = 64; value = at }))) }
{
    Ok(ArrayTerm::Splice {
        of: Boxed::new(alloc, ArrayTerm::Var(Name::of(alloc, b"mem")?))?,
        below: Boxed::new(alloc, ArrayTerm::Var(Name::of(alloc, b"low")?))?,
        at: Boxed::new(alloc, index_term(at))?,
    })
}

/// The numbers of the array, of its byte at an index that is interned before, and of a further literal.
fn selected(terms: &mut Terms, array: &ArrayTerm, at: u32) -> Result<[u32; 3], TermFault>
    requires array { IsArrayTerm (array_tree array.now) }
{
    let at = index(terms, at)?;
    let of = intern_array(terms, array)?;
    let byte = select(terms, of, at)?;
    let further = index(terms, 1_000_000)?;
    Ok([of.number, byte.number, further.number])
}

/// The array `mem` but for the byte 171 at an index, and its byte at another one.
pub fn updated(
    alloc: Global,
    terms: &mut Terms,
    at: u32,
    from: u32,
) -> Result<[u32; 3], TermFault> {
    let array = update_of(alloc, at, 171)?;
    selected(terms, &array, from)
}

/// The array `low` below an index and `mem` from it on, and its byte at another one.
pub fn joined(alloc: Global, terms: &mut Terms, at: u32, from: u32) -> Result<[u32; 3], TermFault> {
    let array = splice_of(alloc, at)?;
    selected(terms, &array, from)
}
