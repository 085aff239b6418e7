//! The numbers of the faults of Sail texts that are printed. A text that is too long has number 9, one without `instr` 13.

/// A byte that begins no token, or that no text may hold.
pub const BAD_BYTE: u32 = 1;

/// A comment that isn't closed.
pub const OPEN_COMMENT: u32 = 2;

/// A text that isn't closed on its line.
pub const OPEN_TEXT: u32 = 3;

/// A number of ten digits, or a literal of more than 128 bits.
pub const TOO_WIDE: u32 = 4;

/// No continuation is in the grammar.
pub const UNEXPECTED: u32 = 5;

/// An infix operator behind another one in the same chain.
pub const MIXED: u32 = 6;

/// Nesting becomes 129. A limit.
pub const TOO_DEEP: u32 = 7;

/// The 1,025th register, enum or function. A limit.
pub const TOO_MANY_OF_A_KIND: u32 = 8;

/// There is no such name.
pub const UNKNOWN: u32 = 10;

/// The name is taken.
pub const TWICE: u32 = 11;

/// Another type than the one that is asked for.
pub const TYPE_DIFFERS: u32 = 12;

/// There is no register PC of 64 bits.
pub const NO_PC: u32 = 14;

/// The function isn't complete above its call.
pub const LATER: u32 = 15;

/// Calls are stacked higher than 32. A limit.
pub const CALL_HEIGHT: u32 = 52;

/// The function `instr16` doesn't take a word of 16 bits or doesn't give unit.
pub const BAD_INSTR16: u32 = 59;
