//! The numbers of refusals and limits that are printed, and the most bytes of a file.

/// The Sail text or the proof file is longer than its limit.
pub const TEXT_TOO_LONG: u32 = 9;

/// The Sail text has no function `instr`.
pub const NO_FUNCTION: u32 = 13;

/// The ELF file ends within a part that it names.
pub const TRUNCATED: u32 = 16;

/// The ELF file isn't one of 64 bits.
pub const CLASS: u32 = 17;

/// The ELF file's numbers don't have the low byte first.
pub const ORDER: u32 = 18;

/// The ELF file is for another machine.
pub const KIND: u32 = 19;

/// Two segments of the ELF file share an address.
pub const OVERLAP: u32 = 20;

/// A segment of the ELF file has more bytes in the file than in memory, or ends behind the last address.
pub const RANGE: u32 = 21;

/// The image is longer than its limit, as a file or by the sizes of its segments.
pub const TOO_LARGE: u32 = 22;

/// An instruction accesses memory or a device, and nothing is owned there.
pub const TOUCHES: u32 = 34;

/// The text is no proof file.
pub const NO_PROOF: u32 = 39;

/// The code is left elsewhere than at the exit, or with other values.
pub const WRONG_END: u32 = 44;

/// The run makes more than the most instructions.
pub const TOO_MANY: u32 = 46;

/// An instruction fails: no arm of a match fits, the test of an assert is false, or the exit.
pub const FAILS: u32 = 48;

/// A fetch isn't wholly inside the code.
pub const OUTSIDE: u32 = 51;

/// The file has a form that isn't read yet.
pub const NOT_YET: u32 = 57;

/// Most bytes of a Sail text.
pub const SAIL_LIMIT: u64 = 1048576;

/// Most bytes of an image.
pub const IMAGE_LIMIT: u64 = 16777216;

/// Most bytes of a proof file.
pub const PROOF_LIMIT: u64 = 16777216;

/// The status where a write failed.
pub const WRITE_FAULT: u8 = 6;

/// The status where memory is wanting.
pub const WANT_OF_MEMORY: u8 = 8;
