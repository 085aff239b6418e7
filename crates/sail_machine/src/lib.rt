//! What the machine that reads Sail texts awaits, and the faults that it finds: the types that its definition and the reader share.
#![tactic(auto)]

mod awaited;
mod fault;
mod heads;
pub mod laws;

pub use awaited::{Await, Counting, Fixed, IndexUse, Naming, Sized, TypeUse};
pub use fault::{Fault, Flaw};
pub use heads::{Binder, EnumHead, FunctionHead, ValHead};
