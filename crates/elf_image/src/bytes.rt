//! Bytes by address, as segments of a file give them.

ghost use Rattle.std.specs.Prelude.{◌≡◌, ◌+◌, ◌*◌, ◌^◌, ◌<◌, ◌≤◌, All, AllPairs, IfSome, nat_lt};
ghost use Rattle.std.specs.FinMap.{get};
ghost use Rattle.state_core.specs.Memory.{number_at, read_number};
ghost use Rattle.elf_image.specs.declared.segment.Segment.{Segment};
ghost use Rattle.elf_image.specs.Segments.{end, memory_of};
ghost use Rattle.elf_image.specs.Image.{IsSound};

use crate::segment::Segment;

/// How many addresses there are.
const ADDRESSES: u128 = 1 << 64;

/// The byte at an address; none where no segment has that address.
fn byte_at(file: &[u8], segments: &[Segment], addr: u64) -> Option<u8>
    requires sound { All (IsSound file.now) segments.now }
    requires apart { AllPairs (λ (s t : Segment). end s ≤ t.addr) segments.now }
    ensures { result ≡ get (memory_of file.now segments.now) addr }
{
    let begun = segments.partition_point(|segment| segment.addr <= addr);
    if begun == 0 {
        return None;
    }
    let segment = segments[begun - 1];
    let offset = addr - segment.addr;
    if offset >= segment.size {
        return None;
    }
    if offset >= segment.file_size {
        return Some(0);
    }
    Some(file[(segment.offset + offset) as usize])
}

/// The `count` bytes from an address on, as a little-endian number; none where one of them isn't there.
fn number_at(file: &[u8], segments: &[Segment], addr: u64, count: u32) -> Option<u128>
    requires sound { All (IsSound file.now) segments.now }
    requires apart { AllPairs (λ (s t : Segment). end s ≤ t.addr) segments.now }
    requires few { count ≤ 16 }
    requires room { addr + count ≤ 2 ^ 64 }
    ensures value { result ≡ number_at (memory_of file.now segments.now) addr count }
    ensures fits { IfSome result (λ n. n < 2 ^ (8 * count)) }
{
    if count == 0 {
        return Some(0);
    }
    let byte = byte_at(file, segments, addr)?;
    if count == 1 {
        return Some(u128::from(byte));
    }
    let rest = number_at(file, segments, addr + 1, count - 1)?;
    Some(u128::from(byte) + 256 * rest)
}

/// The same, and none where they pass the last address.
pub fn read_number(file: &[u8], segments: &[Segment], addr: u64, count: u32) -> Option<u128>
    requires sound { All (IsSound file.now) segments.now }
    requires apart { AllPairs (λ (s t : Segment). end s ≤ t.addr) segments.now }
    requires few { count ≤ 16 }
    ensures value { result ≡ read_number (memory_of file.now segments.now) addr count }
    ensures fits { IfSome result (λ n. n < 2 ^ (8 * count)) }
{
    if u128::from(addr) + u128::from(count) > ADDRESSES {
        return None;
    }
    number_at(file, segments, addr, count)
}
