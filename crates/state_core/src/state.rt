//! The state: registers by their numbers, and bytes by address.

ghost use Rattle.std.specs.Prelude.{◌≡◌, ◌+◌, ◌*◌, ◌^◌, ◌<◌, ◌≤◌, true, false, length, map, All, IfOk, OnOk, OnErr, IfSome, is_some, slice_set};
ghost use Rattle.std.specs.FinMap.{empty, insert};
ghost use Rattle.bv_bits.specs.Bits.{IsBits, IsWidth};
ghost use Rattle.state_core.specs.State.{IsState, register_of, zero_of};
ghost use Rattle.state_core.specs.Memory.{read_number, with_number};

use crate::bytes::{Bytes, number, passes_end, put_number};
use bv_bits::Bits;
use lex_core::NoMemory;
use sqlite_items::Items;
use std::alloc::Global;
use std::marker::Model;

/// The state of the machine, which contracts see as the list of the registers' values, in the order of their numbers,
/// and a finite map from addresses to bytes.
#[derive(Debug, Drop)]
pub struct State {
    registers: Items<Bits>,
    memory: Bytes,
}

impl Model for State {
    ghost use Rattle.state_core.specs.State.{State, IsState, state_code};

    ghost Value = { State };

    ghost coded = { state_code };

    ghost view = { λ s. record { registers = s.registers; memory = s.memory } };

    ghost invariant = { λ s. IsState (record { registers = s.registers; memory = s.memory }) };
}

impl State {
    /// Registers of these widths, from 1 to 128 bits, that are all zero, and no byte of memory.
    pub fn new(alloc: Global, widths: &[u32]) -> Result<State, NoMemory>
        requires widths { All IsWidth widths.now }
        ensures { IfOk result (λ s. s ≡ record { registers = map zero_of widths.now; memory = empty }) }
    {
        let mut registers = Items::new(alloc);
        for width in widths {
            registers.push(Bits {
                width: *width,
                value: 0,
            })?;
        }
        Ok(State {
            registers,
            memory: Bytes::new(alloc),
        })
    }

    /// The number of registers. A state holds values alone.
    pub fn count(&self) -> usize
        ensures value { result ≡ length self.now.registers }
        ensures registers { All IsBits self.now.registers }
        ensures values { IsState self.now }
    {
        self.registers.len()
    }

    /// The value of a register, by its number.
    pub fn get_reg(&self, reg: usize) -> Bits
        requires there { reg < length self.now.registers }
        ensures value { result ≡ register_of self.now reg }
        ensures fits { IsBits result }
    {
        self.registers.as_slice()[reg]
    }

    /// Gives a register another value of its width; nothing else changes.
    pub fn set_reg(&mut self, reg: usize, value: Bits)
        requires there { reg < length self.old.registers }
        requires fits { IsBits value }
        requires width { value.width ≡ (register_of self.old reg).width }
        ensures { self.new ≡ record self.old { registers = slice_set self.old.registers reg value } }
    {
        self.registers.set(reg, value);
    }

    /// Puts a byte at an address, over the one that may be there. After want of memory nothing has changed.
    pub fn add_byte(&mut self, addr: u64, byte: u8) -> Result<(), NoMemory>
        ensures ok { OnOk result (self.new ≡ record self.old { memory = insert self.old.memory addr byte }) }
        ensures err { OnErr result (self.new ≡ self.old) }
    {
        self.memory.add(addr, byte)?;
        Ok(())
    }

    /// The little-endian number that stands in so many bytes, at most 16, from an address on; none where they pass
    /// the last address or one of them isn't there.
    pub fn read_bytes(&self, addr: u64, bytes: u32) -> Option<u128>
        requires few { bytes ≤ 16 }
        ensures value { result ≡ read_number self.now.memory addr bytes }
        ensures fits { IfSome result (λ n. n < 2 ^ (8 * bytes)) }
    {
        if passes_end(addr, bytes) {
            return None;
        }
        number(&self.memory, addr, bytes)
    }

    /// Overwrites so many bytes, at most 16, from an address on by the low ones of a value, the lowest first; nothing
    /// else changes. It answers false, and changes nothing, where they pass the last address or one of them isn't there.
    pub fn write_bytes(&mut self, addr: u64, bytes: u32, value: u128) -> bool
        requires few { bytes ≤ 16 }
        ensures answer { result ≡ is_some (read_number self.old.memory addr bytes) }
        ensures written { result ≡ true → self.new ≡ record self.old { memory = with_number self.old.memory addr bytes value } }
        ensures refused { result ≡ false → self.new ≡ self.old }
    {
        if self.read_bytes(addr, bytes).is_none() {
            return false;
        }
        put_number(&mut self.memory, addr, bytes, value);
        true
    }
}
