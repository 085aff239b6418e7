//! Proof files as trees: devices, procedures and specifications, with their assertions, steps and certificates.
#![tactic(auto)]

mod fault;
mod steps;
mod tree;

pub use fault::ProofFault;
pub use steps::{Bind, CertText, Move, Step};
pub use tree::{Addr, Block, ExitSpec, Head, Proc, Proof, Sample, Spec, Supplied, Unit};
