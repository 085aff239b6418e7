//! Laws of the first proof form, over the definitions alone.

ghost use Rattle.std.specs.Prelude.{◌≡◌, List, Ok};
ghost use Rattle.lex_core.specs.declared.token.Token.{Token};
ghost use Rattle.lex_core.specs.Lexing.{cut};
ghost use Rattle.proof_form.specs.declared.form.NamedProof.{NamedProof};
ghost use Rattle.proof_form.specs.ProofForm.{proof_form};
ghost use Rattle.proof_words.specs.ProofFormWords.{Spell, lexemes};
ghost use Rattle.proof_form.specs.ProofFormSpelling.{spelling, AreNames};

use crate::form::ReadProof;

/// What is read is spelled: the text is cut into tokens that are, one by one, the words of the proof that is read, and
/// the proof's names are free. So two texts that are read as one proof have the same words.
pub fn read_is_spelled(text: &[u8])
    ensures { (p : NamedProof) → proof_form text.now ≡ ReadProof.Read p
        → (ts : List Token) × (cut text.now ≡ Ok ts) × Spell (spelling p) (lexemes text.now ts) × AreNames p }
{}

/// What is spelled is read: a text that is cut into tokens that are, one by one, the words of a proof with free names is
/// read as that proof.
pub fn spelled_is_read(text: &[u8])
    ensures { (p : NamedProof) (ts : List Token) → cut text.now ≡ Ok ts → Spell (spelling p) (lexemes text.now ts)
        → AreNames p → proof_form text.now ≡ ReadProof.Read p }
{}
