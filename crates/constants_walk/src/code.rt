//! The bytes of the code in an image.

ghost use Rattle.std.specs.Prelude.{◌≡◌, IfOk};
ghost use Rattle.std.specs.FinMap.{get};
ghost use Rattle.constants_walk.specs.Conditions.{code_in};

use elf_image::Image;
use lex_core::NoMemory;
use sqlite_items::Items;
use std::alloc::Global;

/// The image's byte at an address; none where it has no byte there.
fn byte_at(image: &Image, at: u64) -> Option<u8>
    ensures { result ≡ get image.now.memory at }
{
    match image.bytes_at(at, 1) {
        Some(number) => Some(number as u8),
        None => None,
    }
}

/// The image's bytes from one address up to below another; none where the image lacks one of them. `NoMemory` comes for
/// want of memory alone.
pub fn code_of(
    alloc: Global,
    image: &Image,
    lo: u64,
    hi: u64,
) -> Result<Option<Items<u8>>, NoMemory>
    ensures exact { IfOk result (λ code. code ≡ code_in image.now.memory lo hi) }
{
    let mut code = Items::new(alloc);
    for at in lo..hi {
        match byte_at(image, at) {
            Some(byte) => code.push(byte)?,
            None => return Ok(None),
        }
    }
    Ok(Some(code))
}
