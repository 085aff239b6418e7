//! Verifies machine code: checks a proof file against a Sail text and an image, and prints what it says.
#![tactic(auto)]

use files_core::{HostFiles, HostSink};
use islaris_cli::islaris;
use lex_core::NoMemory;
use report_text::numbers::WANT_OF_MEMORY;
use std::alloc::Global;
use std::env;
use std::io::ErrorKind;
use std::process::ExitCode;
use std::rt::Env;

/// The words behind the program's own name. There are none where one of them isn't UTF-8: that is no command either.
fn words<R: Env>(alloc: Global, rt: &R) -> Result<Vec<String>, NoMemory> {
    let mut words = Vec::new(alloc);
    match env::args(&(rt, alloc)) {
        Ok(args) => {
            for word in args.skip(1) {
                words.push(word)?;
            }
            Ok(words)
        }
        Err(error) => match error.kind() {
            ErrorKind::OutOfMemory => Err(NoMemory),
            _ => Ok(words),
        },
    }
}

fn main(rt: HostRuntime) -> ExitCode {
    let alloc = rt.alloc();
    let Ok(words) = words(alloc, &rt) else {
        return ExitCode::from(WANT_OF_MEMORY);
    };
    let mut files = HostFiles::new(alloc, &rt);
    let mut out = HostSink::new(rt.stdout());
    ExitCode::from(islaris(alloc, &words, &mut files, &mut out))
}
