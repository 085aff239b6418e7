//! Reads an array term word by word, with the brackets that are open on two stacks.

ghost use Rattle.std.specs.Prelude.{◌≡◌, ◌≤◌, ◌<◌, ◌+◌, ◌^◌, ◌∷◌, [], true, length, IfOk, Ok, OnOk, MatchOption, nat_lt};
ghost use Rattle.term_tree.specs.Terms.{upd, splice, IsTerm, IsArrayTerm, array_height, HIGHEST};
ghost use Rattle.term_tree.specs.View.{tree, array_tree};
ghost use Rattle.term_print.specs.Words.{closes};
ghost use Rattle.term_words.specs.WordView.{word_view, IsFineWord};
ghost use Rattle.term_words.specs.Scopes.{sort_of as sort_in};
ghost use Rattle.term_read.specs.Reading as spec;
ghost use Rattle.term_read.specs.ReadingView.{frames_of, mode_view, HoldTerms, IsFine, Turns, GoesFine, AreWidths, array_frame_view, array_frames_of, slot_view, array_mode_view, ArrayTurns, HoldArrays, IsFineSlot, IsFineArray, IsFineArrayMode, ArrayGoesFine};

use crate::reading::TermReadFault;
use crate::term_reading::{DEEPEST, Frame, Mode, Turn, step};
use lex_core::{Name, NoMemory};
use sqlite_items::{Boxed, Items};
use std::alloc::Global;
use term_tree::{ArrayTerm, HIGHEST, Sort, Term, TermFault, VarDecl, array_height, height, width};
use term_words::{Word, sort_of};

/// A bracket that is open, where an array term is to come, with the place of its `(`.
#[derive(Drop)]
pub enum ArrayFrame {
    /// The array of `upd`.
    Updated { at: usize },
    /// The first array of `splice`.
    Spliced { at: usize },
    /// Its second array.
    SplicedBelow { at: usize, of: ArrayTerm },
}

/// The bracket in which a term is to come, with the place of its `(`.
#[derive(Drop)]
pub enum Slot {
    /// The index of `upd`.
    UpdatedAt {
        at: usize,
        of: ArrayTerm,
    },
    /// Its byte.
    UpdatedBy {
        at: usize,
        of: ArrayTerm,
        index: Term,
    },
    /// The index of `splice`.
    SplicedAt {
        at: usize,
        of: ArrayTerm,
        below: ArrayTerm,
    },
}

/// What comes next.
#[derive(Drop)]
pub enum ArrayMode {
    /// An array term.
    Wanted,
    /// The word behind a `(`.
    Head {
        at: usize,
    },
    /// A term, or more of it, with the brackets that are open in it.
    InTerm {
        slot: Slot,
        stack: Items<Frame>,
        mode: Mode,
    },
    /// The `)` of an array term.
    Close(ArrayTerm),
}

/// What a word leads to.
#[derive(Drop)]
pub enum ArrayTurn {
    /// Reading goes on.
    Goes(ArrayMode),
    /// The array term ends.
    Ends(ArrayTerm),
}

/// Opens a bracket.
#[tactic(auto, using(crate::proofs::ReadingLemmas::array_pushed))]
fn push_array(arrays: &mut Items<ArrayFrame>, frame: ArrayFrame) -> Result<(), NoMemory>
    ensures { OnOk result (array_frames_of arrays.new ≡ array_frame_view frame ∷ array_frames_of arrays.old) }
{
    arrays.push(frame)?;
    Ok(())
}

/// Closes the innermost bracket.
fn pop_array(arrays: &mut Items<ArrayFrame>) -> Option<ArrayFrame>
    ensures { MatchOption result ((array_frames_of arrays.old ≡ []) × (array_frames_of arrays.new ≡ [])) (λ f. array_frames_of arrays.old ≡ array_frame_view f ∷ array_frames_of arrays.new) }
{
    arrays.pop()
}

/// How many brackets are open.
#[tactic(auto, using(crate::proofs::ReadingLemmas::open_arrays))]
fn array_depth(arrays: &Items<ArrayFrame>) -> usize
    ensures value { result ≡ length (array_frames_of arrays.now) }
    ensures small { result + 1 < 2 ^ 64 }
{
    arrays.as_slice().len()
}

/// A term is wanted in a bracket.
fn term_wanted(alloc: Global, slot: Slot) -> ArrayTurn
    ensures turn { (a : _) → ArrayTurns (spec.array_goes a (spec.in_term (slot_view slot) [] spec.wanted)) (Ok result) a }
    ensures fine { (a : _) → IsFineSlot (slot_view slot) → HoldArrays a → ArrayGoesFine (Ok result) a }
{
    ArrayTurn::Goes(ArrayMode::InTerm {
        slot,
        stack: Items::new(alloc),
        mode: Mode::Wanted,
    })
}

/// An array term is read inside the brackets that are open.
fn array_given(
    alloc: Global,
    arrays: &mut Items<ArrayFrame>,
    array: ArrayTerm,
) -> Result<ArrayTurn, TermReadFault>
    requires array { IsArrayTerm (array_tree array) }
    requires rest { HoldArrays (array_frames_of arrays.old) }
    ensures turn { ArrayTurns (spec.array_given (array_frames_of arrays.old) (array_tree array)) result (array_frames_of arrays.new) }
    ensures fine { ArrayGoesFine result (array_frames_of arrays.new) }
{
    match pop_array(arrays) {
        None => Ok(ArrayTurn::Ends(array)),
        Some(ArrayFrame::Updated { at }) => Ok(term_wanted(
            alloc,
            Slot::UpdatedAt { at, of: array },
        )),
        Some(ArrayFrame::Spliced { at }) => {
            push_array(arrays, ArrayFrame::SplicedBelow { at, of: array })?;
            Ok(ArrayTurn::Goes(ArrayMode::Wanted))
        }
        Some(ArrayFrame::SplicedBelow { at, of }) => Ok(term_wanted(
            alloc,
            Slot::SplicedAt {
                at,
                of,
                below: array,
            },
        )),
    }
}

/// An array whose parts are boxed, but for the byte that comes in.
fn updated_by(
    alloc: Global,
    of: Boxed<ArrayTerm>,
    at: Boxed<Term>,
    by: Term,
) -> Result<ArrayTerm, NoMemory>
    ensures { IfOk result (λ f. array_tree f ≡ upd (array_tree of) (tree at) (tree by)) }
{
    let by = Boxed::new(alloc, by)?;
    Ok(ArrayTerm::Upd { of, at, by })
}

/// A boxed array, but for the byte at an index.
fn updated(
    alloc: Global,
    of: Boxed<ArrayTerm>,
    index: Term,
    by: Term,
) -> Result<ArrayTerm, NoMemory>
    ensures { IfOk result (λ f. array_tree f ≡ upd (array_tree of) (tree index) (tree by)) }
{
    let at = Boxed::new(alloc, index)?;
    updated_by(alloc, of, at, by)
}

/// An array, but for the byte at an index.
fn update(alloc: Global, of: ArrayTerm, index: Term, by: Term) -> Result<ArrayTerm, NoMemory>
    ensures { IfOk result (λ f. array_tree f ≡ upd (array_tree of) (tree index) (tree by)) }
{
    let of = Boxed::new(alloc, of)?;
    updated(alloc, of, index, by)
}

/// Closes an array term next, if its parts fit.
fn array_judged(fits: bool, at: usize, array: ArrayTerm) -> Result<ArrayTurn, TermReadFault>
    ensures turn { (a : _) → ArrayTurns (spec.array_judged fits at a (array_tree array)) result a }
    ensures fine { (a : _) → (fits ≡ true → IsFineArray (array_tree array)) → HoldArrays a → ArrayGoesFine result a }
{
    if fits {
        Ok(ArrayTurn::Goes(ArrayMode::Close(array)))
    } else {
        Err(TermReadFault::WidthDiffers { at })
    }
}

/// The byte of `upd` is read.
fn update_read(
    alloc: Global,
    at: usize,
    of: ArrayTerm,
    index: Term,
    by: Term,
) -> Result<ArrayTurn, TermReadFault>
    requires of { IsArrayTerm (array_tree of) }
    requires index { IsTerm (tree index) }
    requires by { IsTerm (tree by) }
    ensures turn { (a : _) → ArrayTurns (spec.filled a (spec.updated_by at (array_tree of) (tree index)) (tree by)) result a }
    ensures fine { (a : _) → HoldArrays a → ArrayGoesFine result a }
{
    let fits = width(&index) == 64 && width(&by) == 8;
    let array = update(alloc, of, index, by)?;
    array_judged(fits, at, array)
}

/// Two boxed arrays, the one below an index and the other from it on.
fn joined_at(
    alloc: Global,
    of: Boxed<ArrayTerm>,
    below: Boxed<ArrayTerm>,
    index: Term,
) -> Result<ArrayTerm, NoMemory>
    ensures { IfOk result (λ f. array_tree f ≡ splice (array_tree of) (array_tree below) (tree index)) }
{
    let at = Boxed::new(alloc, index)?;
    Ok(ArrayTerm::Splice { of, below, at })
}

/// An array below an index, and a boxed one from it on.
fn joined_below(
    alloc: Global,
    of: Boxed<ArrayTerm>,
    below: ArrayTerm,
    index: Term,
) -> Result<ArrayTerm, NoMemory>
    ensures { IfOk result (λ f. array_tree f ≡ splice (array_tree of) (array_tree below) (tree index)) }
{
    let below = Boxed::new(alloc, below)?;
    joined_at(alloc, of, below, index)
}

/// Two arrays, the one below an index and the other from it on.
fn joined(
    alloc: Global,
    of: ArrayTerm,
    below: ArrayTerm,
    index: Term,
) -> Result<ArrayTerm, NoMemory>
    ensures { IfOk result (λ f. array_tree f ≡ splice (array_tree of) (array_tree below) (tree index)) }
{
    let of = Boxed::new(alloc, of)?;
    joined_below(alloc, of, below, index)
}

/// The index of `splice` is read.
fn splice_read(
    alloc: Global,
    at: usize,
    of: ArrayTerm,
    below: ArrayTerm,
    index: Term,
) -> Result<ArrayTurn, TermReadFault>
    requires of { IsArrayTerm (array_tree of) }
    requires below { IsArrayTerm (array_tree below) }
    requires index { IsTerm (tree index) }
    ensures turn { (a : _) → ArrayTurns (spec.filled a (spec.spliced_at at (array_tree of) (array_tree below)) (tree index)) result a }
    ensures fine { (a : _) → HoldArrays a → ArrayGoesFine result a }
{
    let fits = width(&index) == 64;
    let array = joined(alloc, of, below, index)?;
    array_judged(fits, at, array)
}

/// A term is read in its bracket.
fn filled(alloc: Global, slot: Slot, term: Term) -> Result<ArrayTurn, TermReadFault>
    requires slot { IsFineSlot (slot_view slot) }
    requires term { IsTerm (tree term) }
    ensures turn { (a : _) → ArrayTurns (spec.filled a (slot_view slot) (tree term)) result a }
    ensures fine { (a : _) → HoldArrays a → ArrayGoesFine result a }
{
    match slot {
        Slot::UpdatedAt { at, of } => Ok(term_wanted(
            alloc,
            Slot::UpdatedBy {
                at,
                of,
                index: term,
            },
        )),
        Slot::UpdatedBy { at, of, index } => update_read(alloc, at, of, index, term),
        Slot::SplicedAt { at, of, below } => splice_read(alloc, at, of, below, term),
    }
}

/// A name where an array term is wanted.
fn array_variable(
    alloc: Global,
    scope: &[VarDecl],
    arrays: &mut Items<ArrayFrame>,
    at: usize,
    name: &[u8],
) -> Result<ArrayTurn, TermReadFault>
    requires { HoldArrays (array_frames_of arrays.old) }
    ensures turn { ArrayTurns (spec.array_variable (array_frames_of arrays.old) at name.now (sort_in scope.now name.now)) result (array_frames_of arrays.new) }
    ensures fine { ArrayGoesFine result (array_frames_of arrays.new) }
{
    match sort_of(scope, name) {
        None => Err(TermReadFault::Unbound { at }),
        Some(Sort::Bits(_)) => Err(TermReadFault::WidthDiffers { at }),
        Some(Sort::Array) => {
            let name = Name::of(alloc, name)?;
            array_given(alloc, arrays, ArrayTerm::Var(name))
        }
    }
}

/// A word where an array term is wanted.
fn on_array_wanted(
    alloc: Global,
    scope: &[VarDecl],
    arrays: &mut Items<ArrayFrame>,
    word: Word<'_>,
    at: usize,
) -> Result<ArrayTurn, TermReadFault>
    requires { HoldArrays (array_frames_of arrays.old) }
    ensures turn { ArrayTurns (spec.on_array_wanted scope.now (array_frames_of arrays.old) (word_view word.entry) at) result (array_frames_of arrays.new) }
    ensures fine { ArrayGoesFine result (array_frames_of arrays.new) }
{
    match word {
        Word::Open => {
            if array_depth(arrays) < DEEPEST {
                Ok(ArrayTurn::Goes(ArrayMode::Head { at }))
            } else {
                Err(TermReadFault::Term(TermFault::TermTooHigh))
            }
        }
        Word::Name(name) => array_variable(alloc, scope, arrays, at, name),
        _ => Err(TermReadFault::Form { at }),
    }
}

/// A word behind a `(`.
fn on_array_head(
    arrays: &mut Items<ArrayFrame>,
    open_at: usize,
    word: Word<'_>,
    at: usize,
) -> Result<ArrayTurn, TermReadFault>
    requires { HoldArrays (array_frames_of arrays.old) }
    ensures turn { ArrayTurns (spec.on_array_head (array_frames_of arrays.old) open_at (word_view word.entry) at) result (array_frames_of arrays.new) }
    ensures fine { ArrayGoesFine result (array_frames_of arrays.new) }
{
    let frame = match word {
        Word::Name(name) if name == b"upd".as_slice() => ArrayFrame::Updated { at: open_at },
        Word::Name(name) if name == b"splice".as_slice() => ArrayFrame::Spliced { at: open_at },
        _ => return Err(TermReadFault::Form { at }),
    };
    push_array(arrays, frame)?;
    Ok(ArrayTurn::Goes(ArrayMode::Wanted))
}

/// An array term is closed.
fn array_closed(
    alloc: Global,
    arrays: &mut Items<ArrayFrame>,
    array: ArrayTerm,
) -> Result<ArrayTurn, TermReadFault>
    requires array { IsFineArray (array_tree array) }
    requires rest { HoldArrays (array_frames_of arrays.old) }
    ensures turn { ArrayTurns (spec.on_array_close (array_frames_of arrays.old) (array_tree array) closes 0) result (array_frames_of arrays.new) }
    ensures fine { ArrayGoesFine result (array_frames_of arrays.new) }
{
    if is_high(&array) {
        Err(TermReadFault::Term(TermFault::TermTooHigh))
    } else {
        array_given(alloc, arrays, array)
    }
}

/// A word where the `)` of an array term is wanted.
fn on_array_close(
    alloc: Global,
    arrays: &mut Items<ArrayFrame>,
    array: ArrayTerm,
    word: Word<'_>,
    at: usize,
) -> Result<ArrayTurn, TermReadFault>
    requires array { IsFineArray (array_tree array) }
    requires rest { HoldArrays (array_frames_of arrays.old) }
    ensures turn { ArrayTurns (spec.on_array_close (array_frames_of arrays.old) (array_tree array) (word_view word.entry) at) result (array_frames_of arrays.new) }
    ensures fine { ArrayGoesFine result (array_frames_of arrays.new) }
{
    match word {
        Word::Close => array_closed(alloc, arrays, array),
        _ => Err(TermReadFault::Form { at }),
    }
}

/// Whether an array term whose parts are at most 1,024 high is higher.
fn is_high(array: &ArrayTerm) -> bool
    requires { IsFineArray (array_tree array.now) }
    ensures { result ≡ nat_lt HIGHEST (array_height (array_tree array.now)) }
{
    let highest = match array {
        ArrayTerm::Var(_) => 0,
        ArrayTerm::Upd { of, at, by } => array_height(of.get()).max(height(at.get()).max(height(
            by.get(),
        ))),
        ArrayTerm::Splice { of, below, at } => array_height(of.get()).max(array_height(
            below.get(),
        ).max(height(at.get()))),
    };
    highest >= HIGHEST
}

/// What a word of a term in its bracket leads to.
fn in_turn(
    alloc: Global,
    slot: Slot,
    stack: Items<Frame>,
    turn: Result<Turn, TermReadFault>,
) -> Result<ArrayTurn, TermReadFault>
    requires slot { IsFineSlot (slot_view slot) }
    requires fine { GoesFine turn (frames_of stack) }
    ensures turn { (a : _) (t : _) → Turns t turn (frames_of stack) → ArrayTurns (spec.in_turn a (slot_view slot) t) result a }
    ensures fine { (a : _) → HoldArrays a → ArrayGoesFine result a }
{
    match turn {
        Ok(Turn::Goes(mode)) => Ok(ArrayTurn::Goes(ArrayMode::InTerm { slot, stack, mode })),
        Ok(Turn::Ends(term)) => filled(alloc, slot, term),
        Err(fault) => Err(fault),
    }
}

/// The next word of a term in its bracket, inside so many open brackets.
fn in_term(
    alloc: Global,
    scope: &[VarDecl],
    deep: usize,
    slot: Slot,
    mut stack: Items<Frame>,
    mode: Mode,
    word: Word<'_>,
    at: usize,
) -> Result<ArrayTurn, TermReadFault>
    requires scope { AreWidths scope.now }
    requires word { IsFineWord (word_view word) }
    requires slot { IsFineSlot (slot_view slot) }
    requires mode { IsFine (mode_view mode) }
    requires rest { HoldTerms (frames_of stack) }
    ensures turn { (a : _) → ArrayTurns (spec.in_turn a (slot_view slot) (spec.step scope.now deep (frames_of stack) (mode_view mode) (record { word = word_view word.entry; at = at }))) result a }
    ensures fine { (a : _) → HoldArrays a → ArrayGoesFine result a }
{
    let turn = step(alloc, scope, deep, &mut stack, mode, word, at);
    in_turn(alloc, slot, stack, turn)
}

/// The next word of an array term.
pub fn array_step(
    alloc: Global,
    scope: &[VarDecl],
    arrays: &mut Items<ArrayFrame>,
    mode: ArrayMode,
    word: Word<'_>,
    at: usize,
) -> Result<ArrayTurn, TermReadFault>
    requires scope { AreWidths scope.now }
    requires word { IsFineWord (word_view word) }
    requires mode { IsFineArrayMode (array_mode_view mode) }
    requires rest { HoldArrays (array_frames_of arrays.old) }
    ensures turn { ArrayTurns (spec.array_step scope.now (array_frames_of arrays.old) (array_mode_view mode) (record { word = word_view word.entry; at = at })) result (array_frames_of arrays.new) }
    ensures fine { ArrayGoesFine result (array_frames_of arrays.new) }
{
    match mode {
        ArrayMode::Wanted => on_array_wanted(alloc, scope, arrays, word, at),
        ArrayMode::Head { at: open_at } => on_array_head(arrays, open_at, word, at),
        ArrayMode::InTerm { slot, stack, mode } => {
            let deep = array_depth(arrays) + 1;
            in_term(alloc, scope, deep, slot, stack, mode, word, at)
        }
        ArrayMode::Close(array) => on_array_close(alloc, arrays, array, word, at),
    }
}
