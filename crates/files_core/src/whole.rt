//! The reading of a whole file and the writing of a whole text.

ghost use Rattle.std.specs.Prelude.{◌≡◌, ◌≤◌, IfOk, vec_len};
ghost use Rattle.files_core.specs.Causes.{HasCause, WriteCause};
ghost use Rattle.files_core.specs.Reads.{IsWholeAnswer, ToldLonger, IsAnswerToLonger};
ghost use Rattle.files_core.specs.Writes.{IsWholeWrite};

use crate::answers::{InFault, OutFault, ReadAnswer, WriteAnswer};
use crate::files::Files;
use crate::sink::Sink;
use std::alloc::Global;

/// Bytes that a whole read asks for at a time.
const PIECE: usize = 65536;

/// All bytes of the file of that name, if there are at most `limit`.
///
/// `TooLong` comes as soon as byte `limit + 1` was got. `Missing` and `Failed` are handed on from the read that gave
/// them, so their count rose in this call. `NoMemory` comes from a read, or where the bytes find no room.
pub fn read_all<F: Files>(
    alloc: Global,
    files: &mut F,
    name: &str,
    limit: u64,
) -> Result<Vec<u8>, InFault>
    ensures answer { IsWholeAnswer (F.store files.old) name.now limit result }
    ensures longer { ToldLonger (F.store files.old) name.now limit → IsAnswerToLonger result }
    ensures within { IfOk result (λ text. vec_len text ≤ limit) }
    ensures cause { HasCause result F.Files files.old files.new }
    ensures store { F.store files.new ≡ F.store files.old }
    ensures faults { F.faults files.old ≤ F.faults files.new }
    ensures missing { F.missing files.old ≤ F.missing files.new }
{
    let Ok(mut buf) = vec![in alloc; 0u8; PIECE] else {
        return Err(InFault::NoMemory);
    };
    let mut text = Vec::new(alloc);
    while text.len() as u64 <= limit {
        match files.read_at(name, text.len() as u64, &mut buf) {
            ReadAnswer::Got(0) => return Ok(text),
            ReadAnswer::Got(count) => {
                if text.extend_from_slice(&buf[..count]).is_err() {
                    return Err(InFault::NoMemory);
                }
            }
            ReadAnswer::Missing => return Err(InFault::Missing),
            ReadAnswer::Failed => return Err(InFault::Failed),
            ReadAnswer::NoMemory => return Err(InFault::NoMemory),
        }
    }
    Err(InFault::TooLong)
}

/// Writes the whole text.
///
/// After a fault a prefix of the text is written, and no more. `Failed` is handed on from the write that gave it, so
/// the count of faults rose in this call. `NoMemory` comes from a write alone.
pub fn write_all<S: Sink>(out: &mut S, text: &[u8]) -> Result<(), OutFault>
    ensures answer { IsWholeWrite (S.bytes out.old) text.now result (S.bytes out.new) }
    ensures cause { WriteCause result S.Sink out.old out.new }
    ensures faults { S.faults out.old ≤ S.faults out.new }
{
    let mut rest = text;
    while !rest.is_empty() {
        match out.write(rest) {
            WriteAnswer::Took(count) => rest = &rest[count..],
            WriteAnswer::Failed => return Err(OutFault::Failed),
            WriteAnswer::NoMemory => return Err(OutFault::NoMemory),
        }
    }
    Ok(())
}
