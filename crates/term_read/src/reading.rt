//! Reads terms and array terms.

ghost use Rattle.std.specs.Prelude.{◌≡◌, ◌≤◌, ◌<◌, [], length, IfOk, Ok};
ghost use Rattle.lex_core.specs.Lexing.{cut};
ghost use Rattle.term_tree.specs.Terms.{IsTerm, IsArrayTerm};
ghost use Rattle.term_tree.specs.View.{tree, array_tree};
ghost use Rattle.term_tree.specs.Divisions.{HasNoDivision, ArrayHasNoDivision};
ghost use Rattle.term_read.specs.Reading.{term_from, array_from};
ghost use Rattle.term_read.specs.ReadingView.{frames_of, array_frames_of, Reads, term_at_view, array_at_view, AreDistinct, AreWidths};

use crate::array_reading::{ArrayFrame, ArrayMode, ArrayTurn, array_step};
use crate::term_reading::{Frame, Mode, Turn, step};
use lex_core::{NoMemory, Token};
use sqlite_items::Items;
use std::alloc::{AllocError, Global};
use term_tree::{ArrayTerm, Term, TermFault, VarDecl};
use term_words::token_word;

/// Why no term can be read. A place is the number of bytes before it in the text.
#[derive(Debug, Clone, Copy, PartialEq, Eq)]
pub enum TermReadFault {
    /// No term goes on with the token at this place, or with the end of the text.
    Form { at: usize },
    /// The name at this place isn't declared.
    Unbound { at: usize },
    /// The application whose `(` stands at this place has arguments that its operator doesn't take, or the name at this
    /// place has a sort that doesn't fit.
    WidthDiffers { at: usize },
    /// The term would be 1,025 high, or its brackets nest 1,025 deep, or there was no memory.
    Term(TermFault),
}

impl From<NoMemory> for TermReadFault {
    ghost use Rattle.std.specs.Prelude.{◌≡◌};
    ghost use Rattle.term_tree.specs.declared.term.TermFault.TheVariants as limit;
    ghost use Rattle.term_read.specs.declared.reading.TermReadFault.TheVariants as fault;

    ghost from_gives = { λ _ e. e ≡ fault.Term limit.NoMemory };

    fn from(_error: NoMemory) -> TermReadFault {
        TermReadFault::Term(TermFault::NoMemory)
    }
}

impl From<AllocError> for TermReadFault {
    ghost use Rattle.std.specs.Prelude.{◌≡◌};
    ghost use Rattle.term_tree.specs.declared.term.TermFault.TheVariants as limit;
    ghost use Rattle.term_read.specs.declared.reading.TermReadFault.TheVariants as fault;

    ghost from_gives = { λ _ e. e ≡ fault.Term limit.NoMemory };

    fn from(_error: AllocError) -> TermReadFault {
        TermReadFault::Term(TermFault::NoMemory)
    }
}

/// A term that was read.
#[derive(Drop)]
pub struct TermAt {
    /// The term, as it is made.
    pub term: Term,
    /// The number of the first token behind it.
    pub next: usize,
}

/// An array term that was read.
#[derive(Drop)]
pub struct ArrayAt {
    /// The array term; the terms in it are as they are made.
    pub array: ArrayTerm,
    /// The number of the first token behind it.
    pub next: usize,
}

/// Reads a term word by word, with no bracket open at first.
fn term_among(
    alloc: Global,
    text: &[u8],
    tokens: &[Token],
    from: usize,
    scope: &[VarDecl],
    stack: &mut Items<Frame>,
) -> Result<TermAt, TermReadFault>
    requires none { frames_of stack.old ≡ [] }
    requires tokens { cut text.now ≡ Ok tokens.now }
    requires within { from ≤ length tokens.now }
    requires names { AreDistinct scope.now }
    requires widths { AreWidths scope.now }
    ensures exact { Reads term_at_view (term_from text.now tokens.now from scope.now) result }
    ensures term { IfOk result (λ t. IsTerm (tree t.term)) }
    ensures no_division { IfOk result (λ t. HasNoDivision (tree t.term)) }
    ensures next { IfOk result (λ t. (from < t.next) × (t.next ≤ length tokens.now)) }
{
    let mut mode = Mode::Wanted;
    for number in from..tokens.len() {
        let token = &tokens[number];
        match step(
            alloc,
            scope,
            0,
            stack,
            mode,
            token_word(text, token),
            token.from,
        ) {
            Ok(Turn::Goes(next)) => mode = next,
            Ok(Turn::Ends(term)) => {
                let next = number + 1;
                return Ok(TermAt { term, next });
            }
            Err(fault) => return Err(fault),
        }
    }
    Err(TermReadFault::Form { at: text.len() })
}

/// Reads the term that begins at the token of number `from`, in a scope of variables whose names differ and whose widths
/// are 1 to 128. The tokens are those of the text, and `from` is at most their number.
///
/// A term is a literal, a declared variable, or in brackets an operator, its numbers and its arguments, or `sel`, a
/// declared array variable and an index. Each application is made at its `)`. The first fault in the order of the text is
/// answered: `Form` at the first token with which no term goes on, or at the text's length; `Unbound` at a name that isn't
/// declared; `WidthDiffers` at the `(` of an application as soon as all its arguments are read and don't fit, and at an
/// array variable's name where bits are wanted, or the other way round; `Term(TermTooHigh)` where a term of height 1,025
/// would be made, or at the 1,025th `(` that is open. `Term(NoMemory)` comes for want of memory alone, and
/// `Term(TooManyTerms)` never.
pub fn read_term(
    alloc: Global,
    text: &[u8],
    tokens: &[Token],
    from: usize,
    scope: &[VarDecl],
) -> Result<TermAt, TermReadFault>
    requires tokens { cut text.now ≡ Ok tokens.now }
    requires within { from ≤ length tokens.now }
    requires names { AreDistinct scope.now }
    requires widths { AreWidths scope.now }
    ensures exact { Reads term_at_view (term_from text.now tokens.now from scope.now) result }
    ensures term { IfOk result (λ t. IsTerm (tree t.term)) }
    ensures no_division { IfOk result (λ t. HasNoDivision (tree t.term)) }
    ensures next { IfOk result (λ t. (from < t.next) × (t.next ≤ length tokens.now)) }
{
    let mut stack = Items::new(alloc);
    term_among(alloc, text, tokens, from, scope, &mut stack)
}

/// Reads an array term word by word, with no bracket open at first.
fn array_among(
    alloc: Global,
    text: &[u8],
    tokens: &[Token],
    from: usize,
    scope: &[VarDecl],
    arrays: &mut Items<ArrayFrame>,
) -> Result<ArrayAt, TermReadFault>
    requires none { array_frames_of arrays.old ≡ [] }
    requires tokens { cut text.now ≡ Ok tokens.now }
    requires within { from ≤ length tokens.now }
    requires names { AreDistinct scope.now }
    requires widths { AreWidths scope.now }
    ensures exact { Reads array_at_view (array_from text.now tokens.now from scope.now) result }
    ensures term { IfOk result (λ f. IsArrayTerm (array_tree f.array)) }
    ensures no_division { IfOk result (λ f. ArrayHasNoDivision (array_tree f.array)) }
    ensures next { IfOk result (λ f. (from < f.next) × (f.next ≤ length tokens.now)) }
{
    let mut mode = ArrayMode::Wanted;
    for number in from..tokens.len() {
        let token = &tokens[number];
        match array_step(
            alloc,
            scope,
            arrays,
            mode,
            token_word(text, token),
            token.from,
        ) {
            Ok(ArrayTurn::Goes(next)) => mode = next,
            Ok(ArrayTurn::Ends(array)) => {
                let next = number + 1;
                return Ok(ArrayAt { array, next });
            }
            Err(fault) => return Err(fault),
        }
    }
    Err(TermReadFault::Form { at: text.len() })
}

/// Reads the array term that begins at the token of number `from`, in a scope of variables whose names differ and whose
/// widths are 1 to 128. The tokens are those of the text, and `from` is at most their number.
///
/// An array term is a declared array variable, or in brackets `upd`, an array term, an index and a byte, or in brackets
/// `splice`, the array term that is read from the index on, the one that is read below it, and the index. The first fault
/// in the order of the text is answered, as by `read_term`; `WidthDiffers` stands at the `(` of an `upd` whose index isn't
/// 64 or whose byte isn't 8 bits wide, and of a `splice` whose index isn't 64 bits wide.
pub fn read_array(
    alloc: Global,
    text: &[u8],
    tokens: &[Token],
    from: usize,
    scope: &[VarDecl],
) -> Result<ArrayAt, TermReadFault>
    requires tokens { cut text.now ≡ Ok tokens.now }
    requires within { from ≤ length tokens.now }
    requires names { AreDistinct scope.now }
    requires widths { AreWidths scope.now }
    ensures exact { Reads array_at_view (array_from text.now tokens.now from scope.now) result }
    ensures term { IfOk result (λ f. IsArrayTerm (array_tree f.array)) }
    ensures no_division { IfOk result (λ f. ArrayHasNoDivision (array_tree f.array)) }
    ensures next { IfOk result (λ f. (from < f.next) × (f.next ≤ length tokens.now)) }
{
    let mut arrays = Items::new(alloc);
    array_among(alloc, text, tokens, from, scope, &mut arrays)
}
