//! A text is read, and the program that it spells is printed.

ghost use Rattle.std.specs.Prelude.{IfOk, string_bytes};
ghost use Rattle.lex_core.specs.Want.{Gives};
ghost use Rattle.sail_reader.specs.Reading.{is_want};
ghost use Rattle.sail_reprint.specs.Reprint.{IsReprint, reprinted};

use sail_print::print;
use sail_reader::{SailFault, read};
use std::alloc::Global;

/// The text in the form in which programs are printed, or the first fault of reading it.
///
/// Where what is given is within the limits of length and of nesting, it is read as the same program but for places, and given again of itself.
#[tactic(auto, using(sail_round_trip::proofs::RoundTripLemmas::read_utf8, crate::proofs::ReprintLemmas::is_reprint))]
pub fn reprint(alloc: Global, text: &[u8]) -> Result<String, SailFault>
    ensures exact { Gives is_want string_bytes (reprinted text.now) result }
    ensures again { IfOk result (λ s. IsReprint text.now (string_bytes s)) }
{
    let program = read(alloc, text)?;
    match print(alloc, &program) {
        Ok(printed) => Ok(printed),
        Err(_) => Err(SailFault::NoMemory),
    }
}
