//! Reads a proof file of the first form.

ghost use Rattle.std.specs.Prelude.{◌≡◌, IfOk};
ghost use Rattle.proof_form.specs.ProofForm as spec;
ghost use Rattle.proof_form.specs.ProofForm.{proof_form, Fits};

use crate::rules::whole;
use bv_bits::Bits;
use lex_core::{LexFault, Name, NoMemory, tokens};
use proof_words::{Rest, Stop, is_word};
use sqlite_items::Items;
use std::alloc::Global;

/// A register and its value, by the register's name.
#[derive(Drop)]
pub struct NamedValue {
    pub register: Name,
    pub value: Bits,
}

/// A proof file of the first form: one specification of a run over constants, with one exit and one block.
/// Addresses are in bytes.
#[derive(Drop)]
pub struct NamedProof {
    /// The name of the specification.
    pub spec: Name,
    /// The address of the first byte of the code.
    pub lo: u64,
    /// The address behind the last byte of the code.
    pub hi: u64,
    /// The name of the exit.
    pub exit: Name,
    /// The address where the code is left.
    pub exit_at: u64,
    /// The registers that the exit speaks of, in the order of the text.
    pub wanted: Items<NamedValue>,
    /// The name of the block.
    pub block: Name,
    /// The address where the code is entered.
    pub entry_at: u64,
    /// The registers that the block speaks of, in the order of the text.
    pub entry: Items<NamedValue>,
}

/// What a text is as a proof file.
#[derive(Drop)]
pub enum ReadProof {
    /// No proof file: the text has no token, and `at` is its length in bytes, or its first token, which begins at `at`,
    /// isn't the word `islaris_proof`.
    NoProof { at: usize },
    /// A text that can't be cut into tokens, or isn't of the first form.
    Outside,
    /// A proof file of the first form.
    Read(NamedProof),
}

/// Reads the text of a proof file, which has to be of the first form: version 1, one specification of a run over
/// constants with one range of code, one exit without steps, and one block whose one step goes to the exit.
///
/// Names of the specification, the exit and the block are none that the grammar of proof files quotes, and begin with
/// no `_`; the exit and the block have two names. `NoMemory` comes for want of memory alone. The text is gone through
/// a fixed number of times.
#[tactic(auto, using(crate::proofs::ProofFormCut::outside_at_fault, crate::proofs::ProofFormCut::from_tokens))]
pub fn read_proof(alloc: Global, text: &[u8]) -> Result<ReadProof, NoMemory>
    ensures exact { IfOk result (λ r. r ≡ proof_form text.now) }
    ensures fits { IfOk result (λ r. Fits r) }
{
    let tokens = match tokens(alloc, text) {
        Ok(tokens) => tokens,
        Err(LexFault::NoMemory) => return Err(NoMemory),
        Err(_) => return Ok(ReadProof::Outside),
    };
    of_tokens(alloc, Rest::new(text, tokens.as_slice()))
}

/// What a text is that has these tokens.
fn of_tokens(alloc: Global, rest: Rest<'_>) -> Result<ReadProof, NoMemory>
    ensures exact { IfOk result (λ r. r ≡ spec.of_tokens rest.entry.text.now rest.entry.tokens.now) }
    ensures fits { IfOk result (λ r. Fits r) }
{
    if let Some(at) = no_proof(rest) {
        return Ok(ReadProof::NoProof { at });
    }
    match whole(alloc, rest) {
        Ok(proof) => Ok(ReadProof::Read(proof)),
        Err(Stop::Outside) => Ok(ReadProof::Outside),
        Err(Stop::NoMemory) => Err(NoMemory),
    }
}

/// The place where a text stops to be a proof file at once: its length if it has no token, or its first token if that
/// isn't `islaris_proof`.
fn no_proof(rest: Rest<'_>) -> Option<usize>
    ensures { result ≡ spec.no_proof rest.entry.text.now rest.entry.tokens.now }
{
    match rest.tokens {
        [] => Some(rest.text.len()),
        [first, ..] => if is_word(rest.text, first, b"islaris_proof") {
            None
        } else {
            Some(first.from)
        },
    }
}
