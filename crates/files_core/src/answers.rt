//! What reads and writes answer.

use thiserror::Error;

/// What one read of a file gives.
#[derive(Clone, Copy, Debug, PartialEq, Eq)]
pub enum ReadAnswer {
    /// So many bytes, written to the front of the buffer; none into a buffer with room is the end of the file.
    Got(usize),
    /// There is no file of that name. The count of missing answers rose.
    Missing,
    /// The read failed. The count of faults rose.
    Failed,
    /// Want of memory.
    NoMemory,
}

/// What one write gives.
#[derive(Clone, Copy, Debug, PartialEq, Eq)]
pub enum WriteAnswer {
    /// So many bytes from the front of the piece were written.
    Took(usize),
    /// The write failed, and nothing was written. The count of faults rose.
    Failed,
    /// Want of memory, and nothing was written.
    NoMemory,
}

/// Why a file was not read whole.
#[derive(Clone, Copy, Debug, PartialEq, Eq, Error)]
pub enum InFault {
    /// There is no file of that name.
    #[error("the file is missing")]
    Missing,
    /// A read failed.
    #[error("a read failed")]
    Failed,
    /// The file has more bytes than the limit.
    #[error("the file is too long")]
    TooLong,
    /// Want of memory.
    #[error("out of memory")]
    NoMemory,
}

/// Why a text was not written whole.
#[derive(Clone, Copy, Debug, PartialEq, Eq, Error)]
pub enum OutFault {
    /// A write failed.
    #[error("a write failed")]
    Failed,
    /// Want of memory.
    #[error("out of memory")]
    NoMemory,
}
