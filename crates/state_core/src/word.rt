//! The words of instructions.

/// The word of an instruction: 2 or 4 bytes, and the number in them, the first byte lowest. Words are ordered by their
/// numbers, and of two words of one number the one of fewer bytes comes first.
#[derive(Clone, Copy, Debug, PartialEq, Eq, PartialOrd, Ord)]
pub struct Word {
    /// Below 2^(8 * bytes).
    pub bits: u32,
    /// 2 or 4.
    pub bytes: u32,
}
