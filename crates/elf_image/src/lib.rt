//! Images of programs: the bytes and the symbols of an ELF file, or the bytes of a raw one.
#![tactic(auto)]

mod bytes;
mod fault;
mod fields;
mod image;
pub mod laws;
mod loading;
mod overlap;
mod segment;
mod symbols;

pub use fault::ImageFault;
pub use image::Image;
pub use loading::load;

/// The most bytes that a file may have, and that all segments of an ELF file may have in memory.
pub const IMAGE_LIMIT: u64 = 16_777_216;

/// The address of the first byte of a file that is no ELF file.
pub const RAW_ADDRESS: u64 = 0x8000_0000;
