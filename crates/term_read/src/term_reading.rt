//! Reads a term word by word, with the brackets that are open on a stack.

ghost use Rattle.std.specs.Prelude.{◌≡◌, ◌≤◌, ◌<◌, ◌+◌, ◌++◌, [], ◌∷◌, true, length, map, ⊤, All, IfOk, IfSome, OnOk, IfErr, MatchOption, MatchResult, is_some, nat_lt, nat_eq, IsSome};
ghost use Rattle.std.specs.Option.{option_map};
ghost use Rattle.bv_bits.specs.Bits.{IsBits, IsWidth, result_width_of};
ghost use Rattle.term_tree.specs.declared.term.TermFault.TheVariants as limit;
ghost use Rattle.term_tree.specs.Terms.{lit, var, IsTerm, IsTyped, height, width_of, HIGHEST, applied};
ghost use Rattle.term_make.specs.Making.{make, within_height};
ghost use Rattle.term_tree.specs.View.{tree};
ghost use Rattle.term_make.specs.Answers.{Answers};
ghost use Rattle.term_words.specs.WordView.{word_view, IsFineWord};
ghost use Rattle.term_words.specs.Scopes.{sort_of as sort_in};
ghost use Rattle.term_words.specs.Operators.{arity as arity_of};
ghost use Rattle.term_read.specs.Reading as spec;
ghost use Rattle.term_read.specs.ReadingView.{frame_view, frames_of, mode_view, whole_view, Turns, AreTerms, HoldTerms, IsFine, IsFineWhole, GoesFine, AreWidths};

use crate::reading::TermReadFault;
use bv_bits::{Bits, Op};
use lex_core::{Name, NoMemory};
use sqlite_items::Items;
use std::alloc::Global;
use term_make::make;
use term_select::byte_of_variable;
use term_tree::{Sort, Term, TermFault, VarDecl, width};
use term_words::{Word, arity, operator, sort_of};

/// How deep brackets nest at most.
pub const DEEPEST: usize = 1024;

/// A bracket that is open, with the place of its `(`.
#[derive(Drop)]
pub enum Frame {
    /// An operator, and the arguments that are read; the next one is to come.
    Arguments {
        at: usize,
        op: Op,
        terms: Items<Term>,
    },
    /// A byte of an array variable, whose index is to come.
    Index {
        at: usize,
        of: Name,
    },
}

/// An application with all its parts.
#[derive(Drop)]
pub enum Whole {
    /// An operator at arguments.
    Application { op: Op, terms: Items<Term> },
    /// The byte of an array variable at an index.
    Selection { of: Name, index: Term },
}

/// What comes next.
#[derive(Drop)]
pub enum Mode {
    /// A term.
    Wanted,
    /// The word behind a `(`.
    Head { at: usize },
    /// The first number of `extract`.
    High { at: usize },
    /// Its second number.
    Low { at: usize, high: u32 },
    /// The number of `zext` or, if signed, of `sext`.
    Extended { at: usize, signed: bool },
    /// The array variable of `sel`.
    OfArray { at: usize },
    /// The `)` of an application.
    Close(Whole),
}

/// What a word leads to.
#[derive(Drop)]
pub enum Turn {
    /// Reading goes on.
    Goes(Mode),
    /// The term ends.
    Ends(Term),
}

/// Opens a bracket.
#[tactic(auto, using(crate::proofs::ReadingLemmas::pushed))]
fn push(stack: &mut Items<Frame>, frame: Frame) -> Result<(), NoMemory>
    ensures { OnOk result (frames_of stack.new ≡ frame_view frame ∷ frames_of stack.old) }
{
    stack.push(frame)?;
    Ok(())
}

/// Closes the innermost bracket.
fn pop(stack: &mut Items<Frame>) -> Option<Frame>
    ensures { MatchOption result ((frames_of stack.old ≡ []) × (frames_of stack.new ≡ [])) (λ f. frames_of stack.old ≡ frame_view f ∷ frames_of stack.new) }
{
    stack.pop()
}

/// How many brackets are open.
#[tactic(auto, using(crate::proofs::ReadingLemmas::open_ones))]
fn depth(stack: &Items<Frame>) -> usize
    ensures { result ≡ length (frames_of stack.now) }
{
    stack.len()
}

/// Closes an application next, if its arguments fit.
fn judged(fits: bool, at: usize, whole: Whole) -> Result<Turn, TermReadFault>
    ensures turn { (k : _) → Turns (spec.judged fits at k (whole_view whole)) result k }
    ensures fine { (k : _) → (fits ≡ true → IsFineWhole (whole_view whole)) → HoldTerms k → GoesFine result k }
{
    if fits {
        Ok(Turn::Goes(Mode::Close(whole)))
    } else {
        Err(TermReadFault::WidthDiffers { at })
    }
}

/// The widths of terms.
fn widths(alloc: Global, terms: &[Term]) -> Result<Vec<u32>, NoMemory>
    requires { AreTerms (map tree terms.now) }
    ensures { IfOk result (λ ws. ws.items ≡ map width_of (map tree terms.now)) }
{
    let mut widths = Vec::new(alloc);
    for term in terms {
        widths.push(width(term))?;
    }
    Ok(widths)
}

/// One more argument is read.
fn argument_read(
    alloc: Global,
    stack: &mut Items<Frame>,
    at: usize,
    op: Op,
    terms: Items<Term>,
) -> Result<Turn, TermReadFault>
    requires terms { AreTerms (map tree terms) }
    requires rest { HoldTerms (frames_of stack.old) }
    ensures turn { Turns (spec.argument_read (nat_lt (length (map tree terms)) (arity_of op)) at op (map tree terms) (frames_of stack.old)) result (frames_of stack.new) }
    ensures fine { GoesFine result (frames_of stack.new) }
{
    if terms.len() < arity(op) {
        push(stack, Frame::Arguments { at, op, terms })?;
        return Ok(Turn::Goes(Mode::Wanted));
    }
    let widths = widths(alloc, terms.as_slice())?;
    let fits = op.row_width(widths.as_slice()).is_some();
    judged(fits, at, Whole::Application { op, terms })
}

/// A term is read inside the brackets that are open.
#[tactic(auto, using(crate::proofs::ReadingLemmas::arguments_held, crate::proofs::ReadingLemmas::index_held, crate::proofs::ReadingLemmas::one_more_read, crate::proofs::ReadingLemmas::more_terms))]
fn given(alloc: Global, stack: &mut Items<Frame>, term: Term) -> Result<Turn, TermReadFault>
    requires term { IsTerm (tree term) }
    requires rest { HoldTerms (frames_of stack.old) }
    ensures turn { Turns (spec.given (frames_of stack.old) (tree term)) result (frames_of stack.new) }
    ensures fine { GoesFine result (frames_of stack.new) }
{
    match pop(stack) {
        None => Ok(Turn::Ends(term)),
        Some(Frame::Arguments { at, op, mut terms }) => {
            terms.push(term)?;
            argument_read(alloc, stack, at, op, terms)
        }
        Some(Frame::Index { at, of }) => {
            let fits = width(&term) == 64;
            judged(fits, at, Whole::Selection { of, index: term })
        }
    }
}

/// Makes an application.
fn make_whole(alloc: Global, whole: Whole) -> Result<Term, TermFault>
    requires { IsFineWhole (whole_view whole) }
    ensures made { Answers tree (spec.whole_made (whole_view whole)) result }
    ensures term { IfOk result (λ t. IsTerm (tree t)) }
{
    match whole {
        Whole::Application { op, terms } => make(alloc, op, terms),
        Whole::Selection { of, index } => byte_of_variable(alloc, &of, index),
    }
}

/// A word where the `)` of an application is wanted.
fn on_close(
    alloc: Global,
    stack: &mut Items<Frame>,
    whole: Whole,
    word: Word<'_>,
    at: usize,
) -> Result<Turn, TermReadFault>
    requires whole { IsFineWhole (whole_view whole) }
    requires rest { HoldTerms (frames_of stack.old) }
    ensures turn { Turns (spec.on_close (frames_of stack.old) (whole_view whole) (word_view word.entry) at) result (frames_of stack.new) }
    ensures fine { GoesFine result (frames_of stack.new) }
{
    match word {
        Word::Close => match make_whole(alloc, whole) {
            Ok(term) => given(alloc, stack, term),
            Err(fault) => Err(TermReadFault::Term(fault)),
        },
        _ => Err(TermReadFault::Form { at }),
    }
}

/// A variable.
#[tactic(auto, using(crate::proofs::ReadingLemmas::variable_term))]
fn declared(alloc: Global, name: &[u8], width: u32) -> Result<Term, NoMemory>
    requires { IsWidth width }
    ensures value { IfOk result (λ t. tree t ≡ var name.now width) }
    ensures term { IfOk result (λ t. IsTerm (tree t)) }
{
    let name = Name::of(alloc, name)?;
    Ok(Term::Var { name, width })
}

/// A literal.
#[tactic(auto, using(crate::proofs::ReadingLemmas::literal_term))]
fn literal(bits: Bits) -> Term
    requires { IsBits bits }
    ensures value { tree result ≡ lit bits }
    ensures term { IsTerm (tree result) }
{
    Term::Lit(bits)
}

/// A name where a term is wanted.
fn variable(
    alloc: Global,
    scope: &[VarDecl],
    stack: &mut Items<Frame>,
    at: usize,
    name: &[u8],
) -> Result<Turn, TermReadFault>
    requires scope { AreWidths scope.now }
    requires rest { HoldTerms (frames_of stack.old) }
    ensures turn { Turns (spec.variable (frames_of stack.old) at name.now (sort_in scope.now name.now)) result (frames_of stack.new) }
    ensures fine { GoesFine result (frames_of stack.new) }
{
    match sort_of(scope, name) {
        None => Err(TermReadFault::Unbound { at }),
        Some(Sort::Bits(width)) => {
            let term = declared(alloc, name, width)?;
            given(alloc, stack, term)
        }
        Some(Sort::Array) => Err(TermReadFault::WidthDiffers { at }),
    }
}

/// A word where a term is wanted, inside so many brackets that aren't on the stack.
fn on_wanted(
    alloc: Global,
    scope: &[VarDecl],
    deep: usize,
    stack: &mut Items<Frame>,
    word: Word<'_>,
    at: usize,
) -> Result<Turn, TermReadFault>
    requires scope { AreWidths scope.now }
    requires word { IsFineWord (word_view word) }
    requires rest { HoldTerms (frames_of stack.old) }
    ensures turn { Turns (spec.on_wanted scope.now deep (frames_of stack.old) (word_view word.entry) at) result (frames_of stack.new) }
    ensures fine { GoesFine result (frames_of stack.new) }
{
    match word {
        Word::Open => {
            if deep < DEEPEST && depth(stack) < DEEPEST - deep {
                Ok(Turn::Goes(Mode::Head { at }))
            } else {
                Err(TermReadFault::Term(TermFault::TermTooHigh))
            }
        }
        Word::Name(name) => variable(alloc, scope, stack, at, name),
        Word::Literal(bits) => given(alloc, stack, literal(bits)),
        _ => Err(TermReadFault::Form { at }),
    }
}

/// The name behind a `(`.
#[tactic(auto, unfolding(crate::specs::Reading::headed))]
fn headed(
    alloc: Global,
    stack: &mut Items<Frame>,
    open_at: usize,
    at: usize,
    name: &[u8],
) -> Result<Turn, TermReadFault>
    requires rest { HoldTerms (frames_of stack.old) }
    ensures turn { Turns (spec.headed (frames_of stack.old) open_at at name.now) result (frames_of stack.new) }
    ensures fine { GoesFine result (frames_of stack.new) }
{
    if name == b"extract".as_slice() {
        return Ok(Turn::Goes(Mode::High { at: open_at }));
    }
    if name == b"zext".as_slice() {
        return Ok(Turn::Goes(Mode::Extended {
            at: open_at,
            signed: false,
        }));
    }
    if name == b"sext".as_slice() {
        return Ok(Turn::Goes(Mode::Extended {
            at: open_at,
            signed: true,
        }));
    }
    if name == b"sel".as_slice() {
        return Ok(Turn::Goes(Mode::OfArray { at: open_at }));
    }
    match operator(name) {
        None => Err(TermReadFault::Form { at }),
        Some(op) => begun(alloc, stack, open_at, op),
    }
}

/// An operator whose arguments are to come.
fn begun(alloc: Global, stack: &mut Items<Frame>, at: usize, op: Op) -> Result<Turn, TermReadFault>
    requires rest { HoldTerms (frames_of stack.old) }
    ensures turn { Turns (spec.begun (frames_of stack.old) at at (Some op)) result (frames_of stack.new) }
    ensures fine { GoesFine result (frames_of stack.new) }
{
    let terms = Items::new(alloc);
    push(stack, Frame::Arguments { at, op, terms })?;
    Ok(Turn::Goes(Mode::Wanted))
}

/// A name where `sel` wants an array variable.
fn selected(
    alloc: Global,
    scope: &[VarDecl],
    stack: &mut Items<Frame>,
    open_at: usize,
    at: usize,
    name: &[u8],
) -> Result<Turn, TermReadFault>
    requires rest { HoldTerms (frames_of stack.old) }
    ensures turn { Turns (spec.selected (frames_of stack.old) open_at at name.now (sort_in scope.now name.now)) result (frames_of stack.new) }
    ensures fine { GoesFine result (frames_of stack.new) }
{
    match sort_of(scope, name) {
        None => Err(TermReadFault::Unbound { at }),
        Some(Sort::Bits(_)) => Err(TermReadFault::WidthDiffers { at }),
        Some(Sort::Array) => {
            let of = Name::of(alloc, name)?;
            push(stack, Frame::Index { at: open_at, of })?;
            Ok(Turn::Goes(Mode::Wanted))
        }
    }
}

/// A word behind a `(`.
fn on_head(
    alloc: Global,
    stack: &mut Items<Frame>,
    open_at: usize,
    word: Word<'_>,
    at: usize,
) -> Result<Turn, TermReadFault>
    requires { HoldTerms (frames_of stack.old) }
    ensures turn { Turns (spec.on_head (frames_of stack.old) open_at (word_view word.entry) at) result (frames_of stack.new) }
    ensures fine { GoesFine result (frames_of stack.new) }
{
    match word {
        Word::Name(name) => headed(alloc, stack, open_at, at, name),
        _ => Err(TermReadFault::Form { at }),
    }
}

/// A word where the first number of `extract` is wanted.
fn on_high(open_at: usize, word: Word<'_>, at: usize) -> Result<Turn, TermReadFault>
    ensures turn { (k : _) → Turns (spec.on_high k open_at (word_view word.entry) at) result k }
    ensures fine { (k : _) → HoldTerms k → GoesFine result k }
{
    match word {
        Word::Number(high) => Ok(Turn::Goes(Mode::Low { at: open_at, high })),
        _ => Err(TermReadFault::Form { at }),
    }
}

/// A word where its second number is wanted.
fn on_low(
    alloc: Global,
    stack: &mut Items<Frame>,
    open_at: usize,
    high: u32,
    word: Word<'_>,
    at: usize,
) -> Result<Turn, TermReadFault>
    requires { HoldTerms (frames_of stack.old) }
    ensures turn { Turns (spec.on_low (frames_of stack.old) open_at high (word_view word.entry) at) result (frames_of stack.new) }
    ensures fine { GoesFine result (frames_of stack.new) }
{
    match word {
        Word::Number(low) => begun(alloc, stack, open_at, Op::Extract { hi: high, lo: low }),
        _ => Err(TermReadFault::Form { at }),
    }
}

/// The operator that widens, with sign or without.
fn widening(signed: bool, to: u32) -> Op
    ensures { result ≡ spec.widening signed to }
{
    if signed {
        Op::SExt { to }
    } else {
        Op::ZExt { to }
    }
}

/// A word where the number of `zext` or `sext` is wanted.
fn on_extended(
    alloc: Global,
    stack: &mut Items<Frame>,
    open_at: usize,
    signed: bool,
    word: Word<'_>,
    at: usize,
) -> Result<Turn, TermReadFault>
    requires { HoldTerms (frames_of stack.old) }
    ensures turn { Turns (spec.on_extended (frames_of stack.old) open_at signed (word_view word.entry) at) result (frames_of stack.new) }
    ensures fine { GoesFine result (frames_of stack.new) }
{
    match word {
        Word::Number(to) => begun(alloc, stack, open_at, widening(signed, to)),
        _ => Err(TermReadFault::Form { at }),
    }
}

/// A word where the array variable of `sel` is wanted.
fn on_array(
    alloc: Global,
    scope: &[VarDecl],
    stack: &mut Items<Frame>,
    open_at: usize,
    word: Word<'_>,
    at: usize,
) -> Result<Turn, TermReadFault>
    requires { HoldTerms (frames_of stack.old) }
    ensures turn { Turns (spec.on_array scope.now (frames_of stack.old) open_at (word_view word.entry) at) result (frames_of stack.new) }
    ensures fine { GoesFine result (frames_of stack.new) }
{
    match word {
        Word::Name(name) => selected(alloc, scope, stack, open_at, at, name),
        _ => Err(TermReadFault::Form { at }),
    }
}

/// The next word of a term, inside so many brackets that aren't on the stack.
pub fn step(
    alloc: Global,
    scope: &[VarDecl],
    deep: usize,
    stack: &mut Items<Frame>,
    mode: Mode,
    word: Word<'_>,
    at: usize,
) -> Result<Turn, TermReadFault>
    requires scope { AreWidths scope.now }
    requires word { IsFineWord (word_view word) }
    requires mode { IsFine (mode_view mode) }
    requires rest { HoldTerms (frames_of stack.old) }
    ensures turn { Turns (spec.step scope.now deep (frames_of stack.old) (mode_view mode) (record { word = word_view word.entry; at = at })) result (frames_of stack.new) }
    ensures fine { GoesFine result (frames_of stack.new) }
{
    match mode {
        Mode::Wanted => on_wanted(alloc, scope, deep, stack, word, at),
        Mode::Head { at: open_at } => on_head(alloc, stack, open_at, word, at),
        Mode::High { at: open_at } => on_high(open_at, word, at),
        Mode::Low { at: open_at, high } => on_low(alloc, stack, open_at, high, word, at),
        Mode::Extended {
            at: open_at,
            signed,
        } => on_extended(alloc, stack, open_at, signed, word, at),
        Mode::OfArray { at: open_at } => on_array(alloc, scope, stack, open_at, word, at),
        Mode::Close(whole) => on_close(alloc, stack, whole, word, at),
    }
}
