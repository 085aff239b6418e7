//! Memory, and the accesses of a program to it.

ghost use Rattle.std.specs.Prelude.{◌≤◌};

use case_lines::{hex_bytes, number, number_32, number_64};
use lex_core::NoMemory;
use sqlite_items::Items;
use state_core::memory::{fetch, load, store};
use state_core::{Answers, DevMap, Log, Range, State};
use std::alloc::{AllocError, Global};

/// A state and what stands round it.
#[derive(Drop)]
pub struct Machine {
    state: State,
    devs: DevMap,
    answers: Answers,
    log: Log,
}

/// The address that a word spells, and 0 for another word.
fn address(word: &str) -> u64 {
    number_64(word).unwrap_or(0)
}

/// The count of bytes that a word spells, at most 16.
fn count(word: &str) -> u32
    ensures { result ≤ 16 }
{
    number_32(word).unwrap_or(0).min(16)
}

/// The number that a word spells, and 0 for another word.
fn value(word: &str) -> u128 {
    number(word).unwrap_or(0)
}

/// The number of two bytes that a word spells, and 0 for another word.
fn short(word: &str) -> u16 {
    u16::try_from(value(word)).unwrap_or(0)
}

/// Want of memory, as the caller has it.
fn wanting<T: Drop>(answer: Result<T, NoMemory>) -> Result<T, AllocError> {
    match answer {
        Ok(value) => Ok(value),
        Err(NoMemory) => Err(AllocError),
    }
}

impl Machine {
    /// No byte, no device, no answer, nothing done.
    pub fn new(alloc: Global) -> Result<Machine, AllocError> {
        Ok(Machine {
            state: wanting(State::new(alloc, &[]))?,
            devs: DevMap {
                ranges: Items::new(alloc),
            },
            answers: Answers {
                list: Items::new(alloc),
                next: 0,
            },
            log: Log {
                accesses: Items::new(alloc),
                events: Items::new(alloc),
            },
        })
    }

    /// Adds bytes from an address on.
    fn add(&mut self, alloc: Global, at: u64, digits: &str) -> Result<(), AllocError> {
        let mut next = at;
        for byte in hex_bytes(alloc, digits)?.as_slice() {
            wanting(self.state.add_byte(next, *byte))?;
            next = next.wrapping_add(1);
        }
        Ok(())
    }

    /// Begins again.
    fn begin(&mut self, alloc: Global) -> Result<(), AllocError> {
        *self = Machine::new(alloc)?;
        Ok(())
    }

    /// Adds a device.
    fn device(&mut self, lo: u64, hi: u64) -> Result<(), AllocError> {
        self.devs.ranges.push(Range { lo, hi })
    }

    /// Takes a line that builds, and says whether it is one.
    fn built(&mut self, alloc: Global, words: &[&str]) -> Result<bool, AllocError> {
        match words {
            ["new"] => self.begin(alloc)?,
            ["bytes", at, digits] => self.add(alloc, address(at), digits)?,
            ["device", lo, hi] => self.device(address(lo), address(hi))?,
            ["answer", answer] => self.answers.list.push(value(answer))?,
            _ => return Ok(false),
        }
        Ok(true)
    }

    /// What a read of the state itself answers.
    fn read(&self, alloc: Global, at: u64, bytes: &str) -> Result<String, AllocError> {
        match self.state.read_bytes(at, count(bytes)) {
            Some(number) => format!(in alloc; " = {number:#x}"),
            None => String::from_str(alloc, " = none"),
        }
    }

    /// What a write of the state itself answers.
    fn write(
        &mut self,
        alloc: Global,
        at: u64,
        bytes: &str,
        number: u128,
    ) -> Result<String, AllocError> {
        let done = self.state.write_bytes(at, count(bytes), number);
        format!(in alloc; " = {done}")
    }

    /// What a read or a write of the state itself answers.
    fn plain(&mut self, alloc: Global, words: &[&str]) -> Result<String, AllocError> {
        match words {
            ["read", at, bytes] => self.read(alloc, address(at), bytes),
            ["write", at, bytes, number] => self.write(alloc, address(at), bytes, value(number)),
            _ => String::from_str(alloc, " = no such case"),
        }
    }

    /// What a fetch answers.
    fn fetched(&mut self, alloc: Global, at: u64, bytes: &str) -> Result<String, AllocError> {
        let word = fetch(&self.devs, at, count(bytes), &self.state, &mut self.log);
        format!(in alloc; " = {word:?}")
    }

    /// What a load answers.
    fn loaded(&mut self, alloc: Global, at: u64, bytes: &str) -> Result<String, AllocError> {
        let loaded = load(
            &self.devs,
            at,
            count(bytes),
            &self.state,
            &mut self.answers,
            &mut self.log,
        );
        format!(in alloc; " = {loaded:?}")
    }

    /// What a store of two bytes answers.
    fn stored(&mut self, alloc: Global, at: u64, number: u16) -> Result<String, AllocError> {
        let stored = store(
            &self.devs,
            at,
            2,
            u128::from(number),
            &mut self.state,
            &mut self.log,
        );
        format!(in alloc; " = {stored:?}")
    }

    /// What an access of a program answers.
    fn accessed(&mut self, alloc: Global, words: &[&str]) -> Result<String, AllocError> {
        match words {
            ["fetch", at, bytes] => self.fetched(alloc, address(at), bytes),
            ["load", at, bytes] => self.loaded(alloc, address(at), bytes),
            ["store", at, "2", number] => self.stored(alloc, address(at), short(number)),
            _ => self.plain(alloc, words),
        }
    }

    /// What the log and the answers hold, or what an access answers.
    fn listed(&mut self, alloc: Global, words: &[&str]) -> Result<String, AllocError> {
        match words {
            ["accesses"] => format!(in alloc; " = {:?}", self.log.accesses.as_slice()),
            ["events"] => format!(in alloc; " = {:?}", self.log.events.as_slice()),
            ["taken"] => format!(in alloc; " = {}", self.answers.next),
            _ => self.accessed(alloc, words),
        }
    }

    /// What is told of a line's words.
    pub fn told(&mut self, alloc: Global, words: &[&str]) -> Result<String, AllocError> {
        if self.built(alloc, words)? {
            Ok(String::new(alloc))
        } else {
            self.listed(alloc, words)
        }
    }
}
