//! The constants of a run: its code, where it is entered and left, and the registers' values there.

ghost use Rattle.std.specs.Prelude.{◌≡◌, ◌≢◌, ◌<◌, ℕ, true, map, IfSome};
ghost use Rattle.constants_walk.specs.Conditions as spec;
ghost use Rattle.constants_walk.specs.Conditions.{IsEntered};
ghost use Rattle.constants_walk.specs.RegisterPlaces.{ArePlaced, pair_of, has as has_item};

use crate::register_places::{PlacedValue, has};
use proof_form::NamedProof;
use sqlite_items::Items;

/// The constants of a run. Addresses are in bytes.
#[derive(Drop)]
pub struct ConstantsData {
    /// The address of the first byte of the code.
    pub lo: u64,
    /// The address behind the last byte of the code.
    pub hi: u64,
    /// The address where the code is entered.
    pub entry_at: u64,
    /// The registers' values there.
    pub entry: Items<PlacedValue>,
    /// The address where the code is left.
    pub exit_at: u64,
    /// The registers' values that are wanted there.
    pub exit: Items<PlacedValue>,
}

/// Whether the address is in the range.
fn is_in(lo: u64, hi: u64, at: u64) -> bool
    ensures { result ≡ spec.is_in lo hi at }
{
    lo <= at && at < hi
}

/// Whether the code is entered inside and left outside.
fn is_entered(proof: &NamedProof) -> bool
    ensures { result ≡ spec.is_entered proof.now }
{
    is_in(proof.lo, proof.hi, proof.entry_at) && !is_in(proof.lo, proof.hi, proof.exit_at)
}

/// Whether each of so many registers but `pc` has a value.
#[tactic(auto, unfolding(crate::specs::Conditions::covers))]
fn covers(registers: usize, pc: usize, values: &[PlacedValue]) -> bool
    ensures { result ≡ spec.covers registers pc values.now }
{
    for register in 0..registers {
        if register != pc && !has(values, register) {
            return false;
        }
    }
    true
}

/// The constants of a proof, where its registers are placed: `entry` where the code is entered, `exit` where it is left.
/// `registers` is how many registers there are, and `pc` the number of the program counter. None if the exit is in the
/// code, the entry isn't, or a register other than `pc` has no value at the entry.
#[tactic(auto, unfolding(crate::specs::Conditions::constants))]
pub fn constants(
    proof: &NamedProof,
    entry: Items<PlacedValue>,
    exit: Items<PlacedValue>,
    registers: usize,
    pc: usize,
) -> Option<ConstantsData>
    ensures exact { result ≡ spec.constants proof.now entry exit registers pc }
    ensures entered { IfSome result IsEntered }
    ensures full { IfSome result (λ c. (k : ℕ) → k < registers → k ≢ pc → has_item c.entry k ≡ true) }
    ensures placed { (widths : _) → ArePlaced widths pc (map pair_of entry) → ArePlaced widths pc (map pair_of exit)
        → IfSome result (λ c. ArePlaced widths pc (map pair_of c.entry) × ArePlaced widths pc (map pair_of c.exit)) }
{
    if !is_entered(proof) || !covers(registers, pc, entry.as_slice()) {
        return None;
    }
    Some(ConstantsData {
        lo: proof.lo,
        hi: proof.hi,
        entry_at: proof.entry_at,
        entry,
        exit_at: proof.exit_at,
        exit,
    })
}
