//! What a word stands for where something certain is wanted.

ghost use Rattle.std.specs.Prelude.{◌≡◌, ◌≤◌, ◌<◌, true, IfOk, IfSome, length};
ghost use Rattle.bv_bits.specs.Bits.{IsBits};
ghost use Rattle.lex_core.specs.Want.{Gives};
ghost use Rattle.term_words.specs.WordView.{word_view, IsFineWord};
ghost use Rattle.trace_read.specs.Readers.{is_want, left, Reads};
ghost use Rattle.trace_read.specs.Taking as spec;
ghost use Rattle.trace_read.specs.Words as words;
ghost use Rattle.trace_plain.specs.Rules.{var_name};

use crate::fault::TraceFault;
use crate::rest::{Placed, Rest};
use crate::word_tables::{Head, failure_of, head_of};
use bv_bits::Bits;
use lex_core::RegDecl;
use term_words::Word;
use trace_plain::FailKind;

/// A name.
fn name_at<'a>(x: Placed<'a>) -> Result<&'a [u8], TraceFault>
    ensures { Gives is_want (λ y. y.now) (words.name_at (word_view x.entry.word) x.entry.at) result }
{
    match x.word {
        Word::Name(name) => Ok(name),
        _ => Err(TraceFault::TraceForm { at: x.at }),
    }
}

/// A number.
fn number_at(x: Placed<'_>) -> Result<u32, TraceFault>
    ensures { Gives is_want (λ n. n) (words.number_at (word_view x.entry.word) x.entry.at) result }
{
    match x.word {
        Word::Number(number) => Ok(number),
        _ => Err(TraceFault::TraceForm { at: x.at }),
    }
}

/// A literal.
fn literal_at(x: Placed<'_>) -> Result<Bits, TraceFault>
    requires { IsFineWord (word_view x.word) }
    ensures exact { Gives is_want (λ b. b) (words.literal_at (word_view x.entry.word) x.entry.at) result }
    ensures fits { IfOk result (λ b. IsBits b) }
{
    match x.word {
        Word::Literal(bits) => Ok(bits),
        _ => Err(TraceFault::TraceForm { at: x.at }),
    }
}

/// The number of the first register of a name.
#[tactic(auto, unfolding(crate::specs::Words::register_number))]
fn register_number(registers: &[RegDecl], name: &[u8]) -> Option<usize>
    ensures value { result ≡ words.register_number registers.now name.now }
    ensures within { IfSome result (λ r. r < length registers.now) }
{
    for (number, register) in registers.iter().enumerate() {
        if register.name.is(name) {
            return Some(number);
        }
    }
    None
}

/// The event or end that begins.
#[tactic(auto, unfolding(crate::specs::Taking::one, crate::specs::Words::head))]
pub fn head(rest: Rest<'_>) -> Result<(Head, Rest<'_>), TraceFault>
    ensures { Reads (λ h. h) (spec.one words.head (left rest.entry)) result }
{
    let (x, rest) = rest.first()?;
    let own = name_at(x)?;
    match head_of(own) {
        Some(head) => Ok((head, rest)),
        None => Err(TraceFault::TraceForm { at: x.at }),
    }
}

/// A failure.
#[tactic(auto, unfolding(crate::specs::Taking::one, crate::specs::Words::failure))]
pub fn failure(rest: Rest<'_>) -> Result<(FailKind, Rest<'_>), TraceFault>
    ensures { Reads (λ k. k) (spec.one words.failure (left rest.entry)) result }
{
    let (x, rest) = rest.first()?;
    let own = name_at(x)?;
    match failure_of(own) {
        Some(kind) => Ok((kind, rest)),
        None => Err(TraceFault::TraceForm { at: x.at }),
    }
}

/// A register, by its name.
#[tactic(auto, unfolding(crate::specs::Taking::one, crate::specs::Words::register))]
pub fn register<'a>(registers: &[RegDecl], rest: Rest<'a>) -> Result<(usize, Rest<'a>), TraceFault>
    ensures exact { Reads (λ r. r) (spec.one (words.register registers.now) (left rest.entry)) result }
    ensures within { IfOk result (λ x. x.0 < length registers.now) }
{
    let (x, rest) = rest.first()?;
    let own = name_at(x)?;
    match register_number(registers, own) {
        Some(number) => Ok((number, rest)),
        None => Err(TraceFault::Unbound { at: x.at }),
    }
}

/// The variable of this number, whose name this is.
#[tactic(auto, unfolding(crate::specs::Taking::one, crate::specs::Words::variable))]
pub fn variable<'a>(number: u32, name: &[u8], rest: Rest<'a>) -> Result<(u32, Rest<'a>), TraceFault>
    requires { name.now ≡ var_name number }
    ensures { Reads (λ n. n) (spec.one (words.variable number) (left rest.entry)) result }
{
    let (x, rest) = rest.first()?;
    let own = name_at(x)?;
    if own != name {
        return Err(TraceFault::TraceForm { at: x.at });
    }
    Ok((number, rest))
}

/// Whether an access may have so many bytes.
#[tactic(auto, using(crate::proofs::CountLemmas::few_bytes))]
fn is_byte_count(count: u32) -> bool
    ensures value { result ≡ words.is_byte_count count }
    ensures few { result ≡ true → count ≤ 16 }
{
    count == 1 || count == 2 || count == 4 || count == 8 || count == 16
}

/// How many bytes an access has.
#[tactic(auto, unfolding(crate::specs::Taking::one, crate::specs::Words::byte_count))]
pub fn byte_count(rest: Rest<'_>) -> Result<(u32, Rest<'_>), TraceFault>
    ensures exact { Reads (λ n. n) (spec.one words.byte_count (left rest.entry)) result }
    ensures count { IfOk result (λ x. words.is_byte_count x.0 ≡ true) }
    ensures few { IfOk result (λ x. x.0 ≤ 16) }
{
    let (x, rest) = rest.first()?;
    let count = number_at(x)?;
    if !is_byte_count(count) {
        return Err(TraceFault::TraceForm { at: x.at });
    }
    Ok((count, rest))
}

/// How many children there are, at least one.
#[tactic(auto, unfolding(crate::specs::Taking::one, crate::specs::Words::child_count))]
pub fn child_count(rest: Rest<'_>) -> Result<(u32, Rest<'_>), TraceFault>
    ensures exact { Reads (λ n. n) (spec.one words.child_count (left rest.entry)) result }
    ensures some { IfOk result (λ x. 0 < x.0) }
{
    let (x, rest) = rest.first()?;
    let count = number_at(x)?;
    if count == 0 {
        return Err(TraceFault::TraceForm { at: x.at });
    }
    Ok((count, rest))
}

/// A literal of a width.
#[tactic(auto, unfolding(crate::specs::Taking::one, crate::specs::Words::value))]
pub fn value(rest: Rest<'_>, width: u32) -> Result<(Bits, Rest<'_>), TraceFault>
    ensures exact { Reads (λ b. b) (spec.one (words.value width) (left rest.entry)) result }
    ensures fits { IfOk result (λ x. IsBits x.0) }
{
    let (x, rest) = rest.first()?;
    let bits = literal_at(x)?;
    if bits.width != width {
        return Err(TraceFault::WidthDiffers { at: x.at });
    }
    Ok((bits, rest))
}
