//! The world that an evaluation changes.

ghost use Rattle.std.specs.Prelude.{◌≡◌, ◌<◌, ◌≤◌, ◌^◌, ◌*◌, length, IfOk};
ghost use Rattle.bv_bits.specs.Bits.{IsBits};
ghost use Rattle.state_core.specs.Memory.{load, store, fetch, logged, nothing};
ghost use Rattle.state_core.specs.State.{register_of, widths_of};
ghost use Rattle.state_core.specs.World.{world_of};
ghost use Rattle.state_core.specs.declared.kinds.AccessKind.TheVariants.{Fetch, Read, Write};
ghost use Rattle.eval_rules.specs.Moments.{access_moments};
ghost use Rattle.eval_rules.specs.Names.{with_bits, with_value, in_state};
ghost use Rattle.eval_parts.specs.Worlds.{Accesses, LeavesPassed, stop_at};

use bv_bits::Bits;
use sail_values::{Stop, Value, is_vector};
use state_core::memory::{fetch, load, store};
use state_core::{Answers, DevMap, Log, MemStop, State};
use std::marker::Model;

/// The state of the machine, the answers of devices that are left, and what was done so far, which contracts see as one world.
#[derive(Drop)]
pub struct World {
    state: State,
    answers: Answers,
    log: Log,
}

impl Model for World {
    ghost use Rattle.state_core.specs.World.{World, world_of};
    ghost use Rattle.eval_parts.specs.Worlds.{world_code};

    ghost Value = { World };

    ghost coded = { world_code };

    ghost view = { λ w. world_of w.state w.answers w.log };
}

/// Why an access at a place of the text gives nothing.
fn stop_at(at: usize, stop: MemStop) -> Stop
    ensures { result ≡ stop_at at stop }
{
    match stop {
        MemStop::Fault(kind) => Stop::Fault { kind, at },
        MemStop::NoAnswer => Stop::NoAnswer,
        MemStop::NoMemory => Stop::NoMemory,
    }
}

impl World {
    /// The world of a state, the answers that are left and what was done.
    pub fn new(state: State, answers: Answers, log: Log) -> World
        ensures { result ≡ world_of state answers log }
    {
        World {
            state,
            answers,
            log,
        }
    }

    /// The state.
    pub fn state(&self) -> &State
        ensures { result.now ≡ self.now.state }
    {
        &self.state
    }

    /// What was done so far.
    pub fn log(&self) -> &Log
        ensures accesses { result.now.accesses ≡ self.now.accesses }
        ensures events { result.now.events ≡ self.now.events }
    {
        &self.log
    }

    /// The value of a register; nothing of no width where there is no such register.
    pub fn register(&self, reg: usize) -> Bits
        ensures { result ≡ register_of self.now.state reg }
    {
        if reg < self.state.count() {
            self.state.get_reg(reg)
        } else {
            Bits { width: 0, value: 0 }
        }
    }

    /// The value of a register that is there.
    pub fn get(&self, reg: usize) -> Bits
        requires there { reg < length self.now.state.registers }
        ensures value { result ≡ register_of self.now.state reg }
        ensures fits { IsBits result }
    {
        self.state.get_reg(reg)
    }

    fn put_bits(&mut self, reg: usize, bits: Bits)
        ensures value { self.new ≡ in_state (with_bits reg bits self.old.state) self.old }
        ensures widths { widths_of self.new.state ≡ widths_of self.old.state }
    {
        if is_vector(bits) && bits.width == self.register(reg).width {
            self.state.set_reg(reg, bits);
        }
    }

    /// Writes a value to a register: a bit vector of its width, else nothing.
    pub fn put(&mut self, reg: usize, value: Value)
        ensures value { self.new ≡ in_state (with_value reg value self.old.state) self.old }
        ensures widths { widths_of self.new.state ≡ widths_of self.old.state }
    {
        if let Value::Bits(bits) = value {
            self.put_bits(reg, bits);
        }
    }

    /// A fetch of so many bytes at an address, at a place of the text.
    pub fn fetch(&mut self, devs: &DevMap, addr: u64, bytes: u32, at: usize) -> Result<u128, Stop>
        requires few { bytes ≤ 16 }
        ensures value { Accesses (λ n. n) at result self.new (fetch devs.now.ranges addr bytes self.old) }
        ensures fits { IfOk result (λ n. n < 2 ^ (8 * bytes)) }
        ensures passed { LeavesPassed result self.new self.old (access_moments (logged Fetch addr bytes self.old) (fetch devs.now.ranges addr bytes self.old)) }
        ensures widths { widths_of self.new.state ≡ widths_of self.old.state }
    {
        match fetch(devs, addr, bytes, &self.state, &mut self.log) {
            Ok(value) => Ok(value),
            Err(stop) => Err(stop_at(at, stop)),
        }
    }

    /// A read of so many bytes at an address, at a place of the text.
    pub fn load(&mut self, devs: &DevMap, addr: u64, bytes: u32, at: usize) -> Result<u128, Stop>
        requires few { bytes ≤ 16 }
        ensures value { Accesses (λ n. n) at result self.new (load devs.now.ranges addr bytes self.old) }
        ensures fits { IfOk result (λ n. n < 2 ^ (8 * bytes)) }
        ensures passed { LeavesPassed result self.new self.old (access_moments (logged Read addr bytes self.old) (load devs.now.ranges addr bytes self.old)) }
        ensures widths { widths_of self.new.state ≡ widths_of self.old.state }
    {
        match load(
            devs,
            addr,
            bytes,
            &self.state,
            &mut self.answers,
            &mut self.log,
        ) {
            Ok(value) => Ok(value),
            Err(stop) => Err(stop_at(at, stop)),
        }
    }

    /// A write of the bytes of a value at an address, at a place of the text.
    pub fn store(
        &mut self,
        devs: &DevMap,
        addr: u64,
        bytes: u32,
        value: u128,
        at: usize,
    ) -> Result<(), Stop>
        requires few { bytes ≤ 16 }
        requires fits { value < 2 ^ (8 * bytes) }
        ensures value { Accesses (λ _. nothing) at result self.new (store devs.now.ranges addr bytes value self.old) }
        ensures passed { LeavesPassed result self.new self.old (access_moments (logged Write addr bytes self.old) (store devs.now.ranges addr bytes value self.old)) }
        ensures widths { widths_of self.new.state ≡ widths_of self.old.state }
    {
        match store(devs, addr, bytes, value, &mut self.state, &mut self.log) {
            Ok(()) => Ok(()),
            Err(stop) => Err(stop_at(at, stop)),
        }
    }
}
