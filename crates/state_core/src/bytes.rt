//! Bytes by address, and numbers of several of them, the lowest byte first.

ghost use Rattle.std.specs.Prelude.{◌≡◌, ◌+◌, ◌*◌, ◌^◌, ◌<◌, ◌≤◌, OnOk, OnErr, IsSome, IfSome, nat_lt};
ghost use Rattle.std.specs.FinMap as map;
ghost use Rattle.std.specs.Ordering.{nat_cmp};
ghost use Rattle.state_core.specs.Memory.{number_at, with_number};

use std::alloc::{AllocError, Global};
use std::collections::BTreeMap;
use std::marker::Model;

/// The number of addresses: the last one is one less.
const ADDRESSES: u128 = 1 << 64;

/// Bytes by address, which contracts see as a finite map.
#[derive(Debug, Drop)]
pub struct Bytes {
    by_address: BTreeMap<u64, u8>,
}

impl Model for Bytes {
    ghost use Rattle.std.specs.Prelude.{ℕ};
    ghost use Rattle.std.specs.FinMap as map;
    ghost use Rattle.std.specs.Ordering.{nat_cmp};
    ghost use Rattle.std.specs.Coded.{coded_ℕ};

    ghost Value = { map.FinMap nat_cmp ℕ };

    ghost coded = { map.code coded_ℕ coded_ℕ };

    ghost view = { λ b. map.from_entries b.by_address.entries };
}

impl Bytes {
    /// No byte at all.
    pub fn new(alloc: Global) -> Bytes
        ensures { result ≡ map.empty }
    {
        Bytes {
            by_address: BTreeMap::new(alloc),
        }
    }

    /// The byte at an address; none where there is no such byte.
    pub fn get(&self, addr: u64) -> Option<u8>
        ensures { result ≡ map.get self.now addr }
    {
        self.by_address.get(&addr).copied()
    }

    /// Puts a byte at an address, over the one that may be there.
    pub fn add(&mut self, addr: u64, byte: u8) -> Result<(), AllocError>
        ensures ok { OnOk result (self.new ≡ map.insert self.old addr byte) }
        ensures err { OnErr result (self.new ≡ self.old) }
    {
        self.by_address.insert(addr, byte)?;
        Ok(())
    }

    /// Overwrites a byte that is there, which takes no memory.
    pub fn set(&mut self, addr: u64, byte: u8)
        requires { IsSome (map.get self.old addr) }
        ensures { self.new ≡ map.insert self.old addr byte }
    {
        match self.by_address.insert(addr, byte) {
            Ok(_) => {}
            Err(_) => unreachable!(),
        }
    }
}

/// Whether so many bytes from an address on pass the last address.
pub fn passes_end(addr: u64, bytes: u32) -> bool
    ensures { result ≡ nat_lt (2 ^ 64) (addr + bytes) }
{
    u128::from(addr) + u128::from(bytes) > ADDRESSES
}

/// The `count` bytes from an address on, as a little-endian number; none where one of them isn't there.
pub fn number(bytes: &Bytes, addr: u64, count: u32) -> Option<u128>
    requires few { count ≤ 16 }
    requires room { addr + count ≤ 2 ^ 64 }
    ensures value { result ≡ number_at bytes.now addr count }
    ensures fits { IfSome result (λ n. n < 2 ^ (8 * count)) }
{
    if count == 0 {
        return Some(0);
    }
    let byte = bytes.get(addr)?;
    if count == 1 {
        return Some(u128::from(byte));
    }
    let rest = number(bytes, addr + 1, count - 1)?;
    Some(u128::from(byte) + 256 * rest)
}

/// Overwrites the `count` bytes from an address on, which are there, by the low bytes of a value, the lowest first.
pub fn put_number(bytes: &mut Bytes, addr: u64, count: u32, value: u128)
    requires there { IsSome (number_at bytes.old addr count) }
    requires room { addr + count ≤ 2 ^ 64 }
    ensures { bytes.new ≡ with_number bytes.old addr count value }
{
    if count > 0 {
        bytes.set(addr, (value % 256) as u8);
        if count > 1 {
            put_number(bytes, addr + 1, count - 1, value / 256);
        }
    }
}
