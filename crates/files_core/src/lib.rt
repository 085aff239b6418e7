//! Where the program's bytes come from and go to: files and a sink as traits, whole reads and whole writes over them.
#![tactic(auto)]

mod answers;
mod files;
mod held_files;
mod held_sinks;
mod host;
mod laws;
mod sink;
mod whole;

pub use answers::{InFault, OutFault, ReadAnswer, WriteAnswer};
pub use files::Files;
pub use held_files::{File, HonestFiles, MemFiles};
pub use held_sinks::{MemSink, WholeSink};
pub use host::{HostFiles, HostSink};
pub use laws::rose_or_at_the_end;
pub use sink::Sink;
pub use whole::{read_all, write_all};
