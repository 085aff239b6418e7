//! The rules of the first proof form, one reader each.

ghost use Rattle.std.specs.Prelude.{◌≡◌, IfOk};
ghost use Rattle.bv_bits.specs.Bits.{IsBits};
ghost use Rattle.proof_form.specs.ProofForm as spec;
ghost use Rattle.proof_form.specs.ProofForm.{AreBits};
ghost use Rattle.proof_words.specs.ProofFormReaders.{Gives, left};
ghost use Rattle.proof_form.specs.ProofFormPoints.{point_of};

use crate::form::{NamedProof, NamedValue};
use lex_core::Name;
use proof_words::{Rest, Stop};
use sqlite_items::Items;
use std::alloc::Global;

/// An exit or a block: its name, its address, and the values of its registers.
#[derive(Drop)]
struct Point {
    name: Name,
    at: u64,
    values: Items<NamedValue>,
}

/// One after the other, two marks.
#[tactic(auto, unfolding(crate::specs::ProofForm::marks))]
fn marks<'a>(rest: Rest<'a>, one: &[u8], other: &[u8]) -> Result<Rest<'a>, Stop>
    ensures { Gives left result (spec.marks one.now other.now (left rest.entry)) }
{
    let rest = rest.mark(one)?;
    rest.mark(other)
}

/// `reg NAME = LITERAL ;`
#[tactic(auto, unfolding(crate::specs::ProofForm::item))]
fn item(alloc: Global, rest: Rest<'_>) -> Result<(NamedValue, Rest<'_>), Stop>
    ensures exact { Gives (λ x. (x.0, left x.1)) result (spec.item (left rest.entry)) }
    ensures fits { IfOk result (λ x. IsBits x.0.value) }
{
    let rest = rest.word(b"reg")?;
    let (name, rest) = rest.name()?;
    let rest = rest.mark(b"=")?;
    let (value, rest) = rest.literal()?;
    let rest = rest.mark(b";")?;
    let register = Name::of(alloc, name)?;
    Ok((NamedValue { register, value }, rest))
}

/// Items up to the end.
fn items(alloc: Global, rest: Rest<'_>) -> Result<Items<NamedValue>, Stop>
    ensures exact { Gives (λ x. x) result (spec.items (left rest.entry)) }
    ensures fits { IfOk result (λ x. AreBits x) }
{
    let mut values = Items::new(alloc);
    let mut behind = rest;
    while !behind.tokens.is_empty() {
        match item(alloc, behind) {
            Ok((value, next)) => {
                values.push(value)?;
                behind = next;
            }
            Err(stop) => return Err(stop),
        }
    }
    Ok(values)
}

/// Items in braces.
#[tactic(auto, unfolding(crate::specs::ProofForm::braces))]
fn braces(alloc: Global, rest: Rest<'_>) -> Result<(Items<NamedValue>, Rest<'_>), Stop>
    ensures exact { Gives (λ x. (x.0, left x.1)) result (spec.braces (left rest.entry)) }
    ensures fits { IfOk result (λ x. AreBits x.0) }
{
    let rest = rest.mark(b"{")?;
    let (inside, rest) = rest.up_to_close()?;
    Ok((items(alloc, inside)?, rest))
}

/// `islaris_proof 1 spec NAME {`
#[tactic(auto, unfolding(crate::specs::ProofForm::head))]
fn head(alloc: Global, rest: Rest<'_>) -> Result<(Name, Rest<'_>), Stop>
    ensures { Gives (λ x. (x.0, left x.1)) result (spec.head (left rest.entry)) }
{
    let rest = rest.word(b"islaris_proof")?;
    let rest = rest.version()?;
    let rest = rest.word(b"spec")?;
    let (name, rest) = rest.free_name()?;
    let rest = rest.mark(b"{")?;
    Ok((Name::of(alloc, name)?, rest))
}

/// `code LO HI ;`
#[tactic(auto, unfolding(crate::specs::ProofForm::code))]
fn code(rest: Rest<'_>) -> Result<((u64, u64), Rest<'_>), Stop>
    ensures { Gives (λ x. (x.0, left x.1)) result (spec.code (left rest.entry)) }
{
    let rest = rest.word(b"code")?;
    let (lo, rest) = rest.address()?;
    let (hi, rest) = rest.address()?;
    let rest = rest.mark(b";")?;
    Ok(((lo, hi), rest))
}

/// What stands behind the address of an exit or a block: its items, and `steps {`.
#[tactic(auto, unfolding(crate::specs::ProofForm::body))]
fn body(alloc: Global, rest: Rest<'_>) -> Result<(Items<NamedValue>, Rest<'_>), Stop>
    ensures exact { Gives (λ x. (x.0, left x.1)) result (spec.body (left rest.entry)) }
    ensures fits { IfOk result (λ x. AreBits x.0) }
{
    let (values, rest) = braces(alloc, rest)?;
    let rest = rest.word(b"steps")?;
    let rest = rest.mark(b"{")?;
    Ok((values, rest))
}

/// `exit NAME at ADDRESS { items } steps { }`, where the address has all its digits.
#[tactic(auto, unfolding(crate::specs::ProofForm::exit))]
fn exit(alloc: Global, rest: Rest<'_>) -> Result<(Point, Rest<'_>), Stop>
    ensures exact { Gives (λ x. (point_of x.0, left x.1)) result (spec.exit (left rest.entry)) }
    ensures fits { IfOk result (λ x. AreBits x.0.values) }
{
    let rest = rest.word(b"exit")?;
    let (name, rest) = rest.free_name()?;
    let rest = rest.word(b"at")?;
    let (at, rest) = rest.full_address()?;
    let (values, rest) = body(alloc, rest)?;
    let rest = rest.mark(b"}")?;
    let name = Name::of(alloc, name)?;
    Ok((Point { name, at, values }, rest))
}

/// `block NAME at ADDRESS { items } steps {`
#[tactic(auto, unfolding(crate::specs::ProofForm::block))]
fn block(alloc: Global, rest: Rest<'_>) -> Result<(Point, Rest<'_>), Stop>
    ensures exact { Gives (λ x. (point_of x.0, left x.1)) result (spec.block (left rest.entry)) }
    ensures fits { IfOk result (λ x. AreBits x.0.values) }
{
    let rest = rest.word(b"block")?;
    let (name, rest) = rest.free_name()?;
    let rest = rest.word(b"at")?;
    let (at, rest) = rest.address()?;
    let (values, rest) = body(alloc, rest)?;
    let name = Name::of(alloc, name)?;
    Ok((Point { name, at, values }, rest))
}

/// `exit NAME ( ) ( ) ; } }` with this name.
#[tactic(auto, unfolding(crate::specs::ProofForm::tail))]
fn tail<'a>(rest: Rest<'a>, name: &[u8]) -> Result<Rest<'a>, Stop>
    ensures { Gives left result (spec.tail name.now (left rest.entry)) }
{
    let rest = rest.word(b"exit")?;
    let rest = rest.word(name)?;
    let rest = marks(rest, b"(", b")")?;
    let rest = marks(rest, b"(", b")")?;
    let rest = rest.mark(b";")?;
    marks(rest, b"}", b"}")
}

/// All of the tokens as a proof.
#[tactic(auto, unfolding(crate::specs::ProofForm::whole))]
pub fn whole(alloc: Global, rest: Rest<'_>) -> Result<NamedProof, Stop>
    ensures exact { Gives (λ x. x) result (spec.whole (left rest.entry)) }
    ensures fits { IfOk result (λ p. AreBits p.wanted × AreBits p.entry) }
{
    let (spec, rest) = head(alloc, rest)?;
    let ((lo, hi), rest) = code(rest)?;
    let (exit, rest) = exit(alloc, rest)?;
    let (block, rest) = block(alloc, rest)?;
    let rest = tail(rest, exit.name.bytes())?;
    if !rest.tokens.is_empty() || exit.name.is(block.name.bytes()) {
        return Err(Stop::Outside);
    }
    Ok(NamedProof {
        spec,
        lo,
        hi,
        exit: exit.name,
        exit_at: exit.at,
        wanted: exit.values,
        block: block.name,
        entry_at: block.at,
        entry: block.values,
    })
}
