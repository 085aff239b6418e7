//! What is told of a world.

use eval_parts::World;
use lex_core::NoMemory;
use sail_typed::Typed;
use state_core::{Access, AccessKind, DevEvent};
use std::alloc::Global;

/// The registers that aren't zero.
fn registers(alloc: Global, typed: &Typed, world: &World) -> Result<String, NoMemory> {
    let mut told = String::new(alloc);
    for (reg, register) in typed.registers().iter().enumerate() {
        let bits = world.register(reg);
        if bits.value != 0 {
            let name = String::from_utf8_lossy(alloc, register.name.bytes())?;
            let one = format!(in alloc; " {name}={:#x}", bits.value)?;
            told.push_str(one.as_str())?;
        }
    }
    Ok(told)
}

/// The letter of an access.
fn letter(kind: AccessKind) -> char {
    match kind {
        AccessKind::Fetch => 'f',
        AccessKind::Read => 'r',
        AccessKind::Write => 'w',
    }
}

/// An access: what it is for, where, and its bytes.
fn access(alloc: Global, access: &Access) -> Result<String, NoMemory> {
    let kind = letter(access.kind);
    Ok(format!(in alloc; " {kind}{:#x}+{}", access.addr, access.bytes)?)
}

/// The reads and writes; fetches are only counted.
fn accesses(alloc: Global, world: &World) -> Result<String, NoMemory> {
    let all = world.log().accesses.as_slice();
    let mut told = format!(in alloc; " accesses {}", all.len())?;
    for one in all {
        if one.kind != AccessKind::Fetch {
            let one = access(alloc, one)?;
            told.push_str(one.as_str())?;
        }
    }
    Ok(told)
}

/// A device event.
fn event(alloc: Global, event: &DevEvent) -> Result<String, NoMemory> {
    let what = if event.write { "told" } else { "heard" };
    Ok(format!(in alloc;
        " {what} {:#x}+{} {:#x}",
        event.addr, event.bytes, event.value
    )?)
}

/// The device events.
fn events(alloc: Global, world: &World) -> Result<String, NoMemory> {
    let mut told = String::new(alloc);
    for one in world.log().events.as_slice() {
        let one = event(alloc, one)?;
        told.push_str(one.as_str())?;
    }
    Ok(told)
}

/// The registers that aren't zero, the accesses and the device events.
pub fn behind(alloc: Global, typed: &Typed, world: &World) -> Result<String, NoMemory> {
    let registers = registers(alloc, typed, world)?;
    let accesses = accesses(alloc, world)?;
    let events = events(alloc, world)?;
    Ok(format!(in alloc; "{registers}{accesses}{events}")?)
}
