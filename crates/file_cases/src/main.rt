//! Runs the cases of `files_core` that standard input names, one a line, and prints each with its result.
//!
//! `faulty READS FILE.. : READ..` reads from files in memory of which some reads fail, `honest FILE.. : READ..` from files
//! whose reads don't, `host : READ..` from those of the system. `narrow MOST WRITES : WRITE..` writes to a sink in memory of
//! which some writes fail, `whole : WRITE..` to one that keeps all, `out : WRITE..` to standard output. The README says the rest.
#![tactic(auto)]

mod parsing;
mod reads;
mod writes;

use case_lines::is_comment;
use files_core::{Files, HonestFiles, HostFiles, HostSink, MemFiles, MemSink, WholeSink};
use lex_core::NoMemory;
use parsing::{files_of, most_of, numbers_of};
use reads::reads;
use std::alloc::Global;
use std::io;
use writes::writes;

/// Reads from files in memory of which some reads fail.
fn faulty(alloc: Global, failing: &str, files: &[&str], asked: &str) -> Result<String, NoMemory> {
    let files = files_of(alloc, files)?;
    let mut files = MemFiles::new(files, numbers_of(alloc, failing)?)?;
    reads(alloc, &mut files, asked)
}

/// Reads from files in memory whose reads don't fail.
fn honest(alloc: Global, files: &[&str], asked: &str) -> Result<String, NoMemory> {
    let mut files = HonestFiles::new(files_of(alloc, files)?)?;
    reads(alloc, &mut files, asked)
}

/// Reads from files that are held in memory.
fn held(alloc: Global, words: &[&str], asked: &str) -> Result<String, NoMemory> {
    match words {
        ["faulty", failing, files @ ..] => faulty(alloc, failing, files, asked),
        ["honest", files @ ..] => honest(alloc, files, asked),
        _ => Ok(String::from_str(alloc, "no such case")?),
    }
}

/// What was told, and the bytes that were kept.
fn with_bytes(alloc: Global, told: &str, bytes: &[u8]) -> Result<String, NoMemory> {
    let bytes = case_lines::spelled(alloc, bytes)?;
    Ok(format!(in alloc; "{told}| {bytes}")?)
}

/// Writes to a sink in memory of which some writes fail.
fn narrow(alloc: Global, most: &str, failing: &str, asked: &str) -> Result<String, NoMemory> {
    let mut sink = MemSink::new(alloc, most_of(most), numbers_of(alloc, failing)?)?;
    let told = writes(alloc, &mut sink, asked)?;
    with_bytes(alloc, told.as_str(), sink.bytes())
}

/// Writes to a sink in memory that keeps all.
fn whole(alloc: Global, asked: &str) -> Result<String, NoMemory> {
    let mut sink = WholeSink::new(alloc)?;
    let told = writes(alloc, &mut sink, asked)?;
    with_bytes(alloc, told.as_str(), sink.bytes())
}

/// Writes to a sink that is held in memory.
fn kept(alloc: Global, words: &[&str], asked: &str) -> Result<String, NoMemory> {
    match words {
        ["narrow", most, failing] => narrow(alloc, most, failing, asked),
        ["whole"] => whole(alloc, asked),
        _ => held(alloc, words, asked),
    }
}

/// What the case on this line comes to, where `host` reads from the system.
fn case<F: Files>(alloc: Global, host: &mut F, line: &str) -> Result<String, NoMemory> {
    let Some((front, asked)) = line.split_once(" : ") else {
        return Ok(String::from_str(alloc, "no such case")?);
    };
    if front == "host" {
        return reads(alloc, host, asked);
    }
    let words = case_lines::words(alloc, front)?;
    kept(alloc, words.as_slice(), asked)
}

/// What the line comes to, where `out` writes to standard output.
fn told<F: Files>(rt: &HostRuntime, host: &mut F, line: &str) -> Result<String, NoMemory> {
    match line.strip_prefix("out : ") {
        Some(asked) => writes(rt.alloc(), &mut HostSink::new(rt.stdout()), asked),
        None => case(rt.alloc(), host, line),
    }
}

/// Prints a line and what it comes to.
fn tell<F: Files>(rt: &HostRuntime, host: &mut F, line: &str) -> io::Result<()> {
    if is_comment(line) {
        return println!(rt; "{line}");
    }
    match told(rt, host, line) {
        Ok(told) => println!(rt; "{line} = {told}"),
        Err(_) => println!(rt; "{line} = no memory"),
    }
}

fn main(rt: HostRuntime) -> io::Result<()> {
    let alloc = rt.alloc();
    let mut host = HostFiles::new(alloc, &rt);
    for line in rt.lines(alloc) {
        let line = line?;
        tell(&rt, &mut host, line.as_str())?;
    }
    Ok(())
}
