//! The image of a file, or its first refusal.

ghost use Rattle.std.specs.Prelude.{◌≡◌, ◌≤◌, ◌<◌, AllPairs, All, Ok, IfOk, IfErr, length, nat_lt};
ghost use Rattle.elf_image.specs.declared.fault.ImageFault.TheVariants as fault;
ghost use Rattle.elf_image.specs.declared.segment.Segment.{Segment};
ghost use Rattle.elf_image.specs.Segments.{segments_of};
ghost use Rattle.elf_image.specs.Image.{IsRefusal, all_placed, image_of, memory_size, placed, raw_image};

use crate::fault::ImageFault;
use crate::fields::has_magic;
use crate::image::Image;
use crate::overlap::sorted;
use crate::segment::{Segment, exceed_limit, header_fault, read_segments};
use crate::symbols::read_tables;
use crate::{IMAGE_LIMIT, RAW_ADDRESS};
use std::alloc::Global;

/// The image of a file that is no ELF file: its bytes from `RAW_ADDRESS` on.
fn raw(alloc: Global, file: &[u8]) -> Result<Image, ImageFault>
    requires { length file.now ≤ IMAGE_LIMIT }
    ensures ok { IfOk result (λ i. i ≡ raw_image file.now) }
    ensures err { IfErr result (λ f. f ≡ fault.NoMemory) }
{
    let mut segments = Vec::new(alloc);
    if !file.is_empty() {
        let size = file.len() as u64;
        segments.push(Segment {
            number: 0,
            offset: 0,
            addr: RAW_ADDRESS,
            file_size: size,
            size,
        })?;
    }
    Ok(Image::new(file.to_vec(alloc)?, segments, Vec::new(alloc)))
}

/// The image of the segments of an ELF file, or the refusal of their sizes or of a pair that shares an address.
fn place(alloc: Global, file: &[u8], segments: &[Segment]) -> Result<Image, ImageFault>
    requires header { 64 ≤ length file.now }
    requires segments { segments_of file.now ≡ Ok segments.now }
    ensures ok { IfOk result (λ i. placed file.now segments.now ≡ Ok i) }
    ensures err { IfErr result (IsRefusal (placed file.now segments.now)) }
{
    if exceed_limit(segments) {
        return Err(ImageFault::TooLarge);
    }
    match sorted(alloc, segments) {
        Err(fault) => Err(fault),
        Ok(sorted) => {
            let tables = read_tables(alloc, file)?;
            Ok(Image::new(file.to_vec(alloc)?, sorted, tables))
        }
    }
}

/// The image of a file, or the first of its refusals, in this order.
///
/// 1. A file of more than `IMAGE_LIMIT` bytes is `TooLarge`. A file that doesn't begin with 7f 45 4c 46 is a raw image:
///    its bytes from `RAW_ADDRESS` on, without symbols.
/// 2. The ELF header: `Truncated`, `Class`, `Order`, `Kind`.
/// 3. The program headers, from `e_phoff` on and in their order. One that isn't wholly there is `Truncated`. Each other
///    one that is a `PT_LOAD` with a `p_memsz` above 0 is a segment: where `p_memsz` is below `p_filesz`, or `p_vaddr`
///    plus `p_memsz` passes 2^64, it is `Range`, and else where its bytes pass the file's end it is `Truncated`.
/// 4. Segments of more than `IMAGE_LIMIT` bytes in all are `TooLarge`.
/// 5. The least pair of segments that share an address is `Overlap`.
///
/// Bytes of a segment from `p_filesz` on are zero. Symbols come from the section headers of type `SHT_SYMTAB`, in order,
/// and nothing is refused for them: what isn't wholly in the file is passed over.
/// Want of memory is `NoMemory`, at any point.
pub fn load(alloc: Global, bytes: &[u8]) -> Result<Image, ImageFault>
    ensures ok { IfOk result (λ i. image_of bytes.now ≡ Ok i) }
    ensures err { IfErr result (IsRefusal (image_of bytes.now)) }
{
    if bytes.len() as u64 > IMAGE_LIMIT {
        return Err(ImageFault::TooLarge);
    }
    if !has_magic(bytes) {
        return raw(alloc, bytes);
    }
    if let Some(fault) = header_fault(bytes) {
        return Err(fault);
    }
    match read_segments(alloc, bytes) {
        Err(fault) => Err(fault),
        Ok(segments) => place(alloc, bytes, &segments),
    }
}
