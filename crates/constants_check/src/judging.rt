//! What is said of three texts.

ghost use Rattle.std.specs.Prelude.{◌≡◌, ◌≢◌, IfOk, Some, codes};
ghost use Rattle.std.specs.Fmt.{decimal};
ghost use Rattle.elf_image.specs.Image.{image_of};
ghost use Rattle.elf_image.specs.declared.fault.ImageFault.TheVariants as fault_is;
ghost use Rattle.sail_syntax.specs.View.{program_of};
ghost use Rattle.proof_form.specs.ProofForm.{proof_form, AreBits};
ghost use Rattle.constants_check.specs.Verdict as spec;
ghost use Rattle.constants_check.specs.Verdict.{verdict};
ghost use Rattle.report_text.specs.Outcome.{accept, refuse, said_of};
ghost use Rattle.report_text.specs.Names.{row_named};
ghost use Rattle.constants_text.specs.Texts.{on_run_text};

use constants_text::{Block, Exit, SpecReport, address, decimal, join, on_file, on_run, report};
use constants_walk::{Failure, RunEnd, code_of, constants, place_registers, run_constants};
use elf_image::{Image, ImageFault, load};
use lex_core::NoMemory;
use proof_form::{NamedProof, ReadProof, read_proof};
use report_text::numbers::{
    CLASS, FAILS, KIND, NO_PROOF, NOT_YET, ORDER, OUTSIDE, OVERLAP, RANGE, TOO_LARGE, TOO_MANY,
    TOUCHES, TRUNCATED, WRONG_END,
};
use report_text::{Names, Outcome, Status};
use sail_typed::Typed;
use sail_verdict::{Judged, judge_sail};
use sqlite_items::Items;
use std::alloc::Global;

/// The file has a form that isn't read yet.
fn not_yet(alloc: Global, name: &str) -> Result<Outcome, NoMemory>
    ensures { IfOk result (λ a. said_of a ≡ spec.not_yet name.now) }
{
    let text = on_file(alloc, b"input", NOT_YET, name.as_bytes(), b"0")?;
    Ok(Outcome {
        status: Status::Input,
        text,
    })
}

/// The file is no image, by this number and with these fields.
fn bad_image(alloc: Global, name: &str, number: u32, fields: &[u8]) -> Result<Outcome, NoMemory>
    ensures { IfOk result (λ a. said_of a ≡ spec.bad_image name.now number fields.now) }
{
    let text = on_file(alloc, b"input", number, name.as_bytes(), fields)?;
    Ok(Outcome {
        status: Status::Input,
        text,
    })
}

/// The segments of the file have too many bytes.
fn too_large(alloc: Global, name: &str) -> Result<Outcome, NoMemory>
    ensures { IfOk result (λ a. said_of a ≡ spec.too_large name.now) }
{
    let text = on_file(alloc, b"limit", TOO_LARGE, name.as_bytes(), b"")?;
    Ok(Outcome {
        status: Status::Limit,
        text,
    })
}

/// Two segments of the file share an address.
fn overlap(alloc: Global, name: &str, first: u32, second: u32) -> Result<Outcome, NoMemory>
    ensures { IfOk result (λ a. said_of a ≡ spec.no_image name.now (ImageFault.Overlap first second)) }
{
    let first = decimal(alloc, first as u64)?;
    let second = decimal(alloc, second as u64)?;
    let fields = join(alloc, &[&first, b" ", &second])?;
    bad_image(alloc, name, OVERLAP, &fields)
}

/// The file is no image, by its first refusal.
fn no_image(alloc: Global, name: &str, fault: ImageFault) -> Result<Outcome, NoMemory>
    ensures said { IfOk result (λ a. said_of a ≡ spec.no_image name.now fault) }
    ensures wanting { IfOk result (λ _. fault ≢ fault_is.NoMemory) }
{
    match fault {
        ImageFault::Truncated { at } => {
            let place = decimal(alloc, at)?;
            bad_image(alloc, name, TRUNCATED, &place)
        }
        ImageFault::Class => bad_image(alloc, name, CLASS, b""),
        ImageFault::Order => bad_image(alloc, name, ORDER, b""),
        ImageFault::Kind => bad_image(alloc, name, KIND, b""),
        ImageFault::Overlap { i, j } => overlap(alloc, name, i, j),
        ImageFault::Range { i } => {
            let segment = decimal(alloc, i as u64)?;
            bad_image(alloc, name, RANGE, &segment)
        }
        ImageFault::TooLarge => too_large(alloc, name),
        ImageFault::NoMemory => Err(NoMemory),
    }
}

/// The text is no proof file, which shows at this place.
fn no_proof(alloc: Global, name: &str, at: usize) -> Result<Outcome, NoMemory>
    ensures { IfOk result (λ a. said_of a ≡ spec.no_proof name.now at) }
{
    let place = decimal(alloc, at as u64)?;
    let text = on_file(alloc, b"input", NO_PROOF, name.as_bytes(), &place)?;
    Ok(Outcome {
        status: Status::Input,
        text,
    })
}

/// The report of a proof that is accepted after so many instructions.
fn accepted(alloc: Global, proof: &NamedProof, count: u32) -> Result<Outcome, NoMemory>
    ensures { IfOk result (λ a. said_of a ≡ accept (spec.report_of proof.now count)) }
{
    let mut exits = Items::new(alloc);
    exits.push(Exit {
        name: proof.exit.copy(alloc)?,
        address: proof.exit_at,
    })?;
    let mut blocks = Items::new(alloc);
    blocks.push(Block {
        name: proof.block.copy(alloc)?,
        address: proof.entry_at,
        instructions: count,
        certificates: 0,
    })?;
    let name = proof.spec.copy(alloc)?;
    let spec = SpecReport {
        name,
        exits,
        blocks,
    };
    let text = report(alloc, &[spec])?;
    Ok(Outcome {
        status: Status::Accepted,
        text,
    })
}

/// A refusal of the proof's block at an address.
fn refused(
    alloc: Global,
    proof: &NamedProof,
    number: u32,
    at: u64,
    more: &[u8],
) -> Result<Outcome, NoMemory>
    ensures { IfOk result (λ a. said_of a ≡ refuse (on_run_text (codes "refused") number proof.now.spec proof.now.block (Some at) more.now)) }
{
    let spec = proof.spec.bytes();
    let block = proof.block.bytes();
    let text = on_run(alloc, b"refused", number, spec, block, Some(at), more)?;
    Ok(Outcome {
        status: Status::Refused,
        text,
    })
}

/// A fetch that isn't wholly inside the code.
fn outside(alloc: Global, proof: &NamedProof, pc: u64) -> Result<Outcome, NoMemory>
    ensures { IfOk result (λ a. said_of a ≡ spec.on_end proof.now (RunEnd.Outside pc)) }
{
    let place = address(alloc, pc)?;
    let more = join(alloc, &[b"pc ", &place])?;
    refused(alloc, proof, OUTSIDE, pc, &more)
}

/// One instruction too many.
fn too_many(alloc: Global, proof: &NamedProof, pc: u64) -> Result<Outcome, NoMemory>
    ensures { IfOk result (λ a. said_of a ≡ spec.on_end proof.now (RunEnd.TooMany pc)) }
{
    let spec = proof.spec.bytes();
    let block = proof.block.bytes();
    let text = on_run(alloc, b"limit", TOO_MANY, spec, block, Some(pc), b"")?;
    Ok(Outcome {
        status: Status::Limit,
        text,
    })
}

/// The word for a failure.
fn failure_text(why: Failure) -> &'static [u8]
    ensures { result.now ≡ spec.failure_text why }
{
    match why {
        Failure::Match => b"match",
        Failure::Assert => b"assert",
        Failure::Exit => b"exit",
    }
}

/// An instruction that fails.
fn fails(alloc: Global, proof: &NamedProof, why: Failure, pc: u64) -> Result<Outcome, NoMemory>
    ensures { IfOk result (λ a. said_of a ≡ spec.on_end proof.now (RunEnd.Fails why pc)) }
{
    let more = join(alloc, &[b"fail ", failure_text(why)])?;
    refused(alloc, proof, FAILS, pc, &more)
}

/// What is said of the end of a run.
fn on_end(alloc: Global, proof: &NamedProof, end: RunEnd) -> Result<Outcome, NoMemory>
    ensures { IfOk result (λ a. said_of a ≡ spec.on_end proof.now end) }
{
    match end {
        RunEnd::Accepted { count } => accepted(alloc, proof, count),
        RunEnd::Wrong { at } => {
            let more = b"condition 0 goal 0b0 why false";
            refused(alloc, proof, WRONG_END, at, more)
        }
        RunEnd::Outside { pc } => outside(alloc, proof, pc),
        RunEnd::Touches { pc } => refused(alloc, proof, TOUCHES, pc, b"nouse"),
        RunEnd::Fails { why, pc } => fails(alloc, proof, why, pc),
        RunEnd::TooMany { pc } => too_many(alloc, proof, pc),
    }
}

/// With a program that types and what the proof file says: its conditions, and then its run.
fn judge_proof(
    alloc: Global,
    row: &Names<'_>,
    typed: &Typed,
    image: &Image,
    proof: &NamedProof,
) -> Result<Outcome, NoMemory>
    requires wanted { AreBits proof.now.wanted }
    requires entry { AreBits proof.now.entry }
    ensures { IfOk result (λ a. spec.on_constants (row_named row.now) (program_of typed.now) proof.now (spec.constants_for (program_of typed.now) proof.now image.now.memory)
        ≡ Some (said_of a)) }
{
    let registers = typed.registers();
    let pc = typed.pc();
    let Some(entry) = place_registers(alloc, registers, pc, proof.entry.as_slice())? else {
        return not_yet(alloc, row.proof);
    };
    let Some(wanted) = place_registers(alloc, registers, pc, proof.wanted.as_slice())? else {
        return not_yet(alloc, row.proof);
    };
    let Some(given) = constants(proof, entry, wanted, registers.len(), pc) else {
        return not_yet(alloc, row.proof);
    };
    let Some(code) = code_of(alloc, image, given.lo, given.hi)? else {
        return not_yet(alloc, row.proof);
    };
    let end = run_constants(alloc, typed, &given, code.as_slice())?;
    on_end(alloc, proof, end)
}

/// With a program that types and an image.
fn judge_loaded(
    alloc: Global,
    row: &Names<'_>,
    typed: &Typed,
    image: &Image,
    proof: &[u8],
) -> Result<Outcome, NoMemory>
    ensures { IfOk result (λ a. spec.on_proof (row_named row.now) (program_of typed.now) image.now.memory (proof_form proof.now) ≡ Some (said_of a)) }
{
    match read_proof(alloc, proof)? {
        ReadProof::NoProof { at } => no_proof(alloc, row.proof, at),
        ReadProof::Outside => not_yet(alloc, row.proof),
        ReadProof::Read(proof) => judge_proof(alloc, row, typed, image, &proof),
    }
}

/// With a program that types.
fn judge_image(
    alloc: Global,
    row: &Names<'_>,
    typed: &Typed,
    image: &[u8],
    proof: &[u8],
) -> Result<Outcome, NoMemory>
    ensures { IfOk result (λ a. spec.on_image (row_named row.now) (program_of typed.now) proof.now (image_of image.now) ≡ Some (said_of a)) }
{
    match load(alloc, image) {
        Ok(image) => judge_loaded(alloc, row, typed, &image, proof),
        Err(fault) => no_image(alloc, row.image, fault),
    }
}

/// What is said of three texts in files of these names: the first of them that can't be read, as `input 12 FILE bits(8) bool 186`, or what the run of the
/// specification comes to. `NoMemory` comes for want of memory alone.
#[tactic(auto, unfolding(crate::specs::Verdict::verdict))]
pub fn judge(
    alloc: Global,
    row: &Names<'_>,
    sail: &[u8],
    image: &[u8],
    proof: &[u8],
) -> Result<Outcome, NoMemory>
    ensures { IfOk result (λ a. verdict (row_named row.now) sail.now image.now proof.now ≡ Some (said_of a)) }
{
    match judge_sail(alloc, row.sail, sail)? {
        Judged::Typed(typed) => judge_image(alloc, row, &typed, image, proof),
        Judged::Faulty(outcome) => Ok(outcome),
    }
}
