//! The accesses of a program: fetches, loads and stores, each noted in the log.

ghost use Rattle.std.specs.Prelude.{◌≡◌, ◌+◌, ◌*◌, ◌^◌, ◌<◌, ◌≤◌, drop, Err, IfOk};
ghost use Rattle.state_core.specs.Agrees.{Agrees, IsMoment};
ghost use Rattle.state_core.specs.Memory.{fetch, load, store, answered, nothing, touches_range, lies_in, touches, in_device};
ghost use Rattle.state_core.specs.World.{world_of};
ghost use Rattle.state_core.specs.State.{State};
ghost use Rattle.state_core.specs.declared.kinds.AccessKind.TheVariants.{Fetch, Read, Write};
ghost use Rattle.state_core.specs.declared.kinds.Answers.{Answers};
ghost use Rattle.state_core.specs.declared.kinds.MemStop.TheVariants.{NoMemory};

use crate::bytes::passes_end;
use crate::kinds::{Access, AccessKind, Answers, DevEvent, DevMap, FaultKind, Log, MemStop, Range};
use crate::state::State;
use std::alloc::AllocError;

impl From<AllocError> for MemStop {
    ghost use Rattle.std.specs.Prelude.{◌≡◌};
    ghost use Rattle.state_core.specs.declared.kinds.MemStop.TheVariants.{NoMemory};

    ghost from_gives = { λ _ stop. stop ≡ NoMemory };

    fn from(_error: AllocError) -> MemStop {
        MemStop::NoMemory
    }
}

impl Range {
    /// Whether some of so many bytes from an address on lies in the range.
    fn touches(self, addr: u64, bytes: u32) -> bool
        ensures { result ≡ touches_range addr bytes self }
    {
        let end = u128::from(addr) + u128::from(bytes);
        u128::from(addr.max(self.lo)) < end.min(u128::from(self.hi))
    }

    /// Whether so many bytes from an address on lie in the range.
    fn holds(self, addr: u64, bytes: u32) -> bool
        ensures { result ≡ lies_in addr bytes self }
    {
        self.lo <= addr && u128::from(addr) + u128::from(bytes) <= u128::from(self.hi)
    }
}

impl DevMap {
    /// Whether some of so many bytes from an address on lies in a device range.
    fn touches(&self, addr: u64, bytes: u32) -> bool
        ensures { result ≡ touches self.now.ranges addr bytes }
    {
        self.ranges
            .as_slice()
            .iter()
            .any(|range| range.touches(addr, bytes))
    }

    /// Whether so many bytes from an address on lie in one device range.
    fn holds(&self, addr: u64, bytes: u32) -> bool
        ensures { result ≡ in_device self.now.ranges addr bytes }
    {
        self.ranges
            .as_slice()
            .iter()
            .any(|range| range.holds(addr, bytes))
    }
}

/// The fetch of an instruction of so many bytes, at most 16, which is noted in the log first. A range that passes the
/// last address is `NoByte`, else one that touches a device range is `BadDevice`, else one with a byte that isn't there
/// is `NoByte`.
pub fn fetch(
    devs: &DevMap,
    addr: u64,
    bytes: u32,
    state: &State,
    log: &mut Log,
) -> Result<u128, MemStop>
    requires few { bytes ≤ 16 }
    ensures value { (answers : Answers) → Agrees (λ n. n) result (world_of state.now answers log.new) (fetch devs.now.ranges addr bytes (world_of state.now answers log.old)) }
    ensures fits { IfOk result (λ n. n < 2 ^ (8 * bytes)) }
    ensures moment { (answers : Answers) → IsMoment result Fetch addr bytes (world_of state.now answers log.old) (world_of state.now answers log.new) }
{
    log.accesses.push(Access {
        kind: AccessKind::Fetch,
        addr,
        bytes,
    })?;
    if passes_end(addr, bytes) {
        return Err(MemStop::Fault(FaultKind::NoByte));
    }
    if devs.touches(addr, bytes) {
        return Err(MemStop::Fault(FaultKind::BadDevice));
    }
    match state.read_bytes(addr, bytes) {
        Some(value) => Ok(value),
        None => Err(MemStop::Fault(FaultKind::NoByte)),
    }
}

/// The low bytes, at most 16, of the next answer of a device, noted as an event.
fn answer(addr: u64, bytes: u32, answers: &mut Answers, log: &mut Log) -> Result<u128, MemStop>
    requires few { bytes ≤ 16 }
    ensures value { (state : State) → Agrees (λ n. n) result (world_of state answers.new log.new) (answered (drop answers.old.next answers.old.list) addr bytes (world_of state answers.old log.old)) }
    ensures list { answers.new.list ≡ answers.old.list }
    ensures fits { IfOk result (λ n. n < 2 ^ (8 * bytes)) }
    ensures moment { result ≡ Err NoMemory → (answers.new ≡ answers.old) × (log.new ≡ log.old) }
{
    match answers.list.as_slice().get(answers.next) {
        None => Err(MemStop::NoAnswer),
        Some(answer) => {
            let value = if bytes < 16 {
                *answer % (1 << (8 * bytes))
            } else {
                *answer
            };
            log.events.push(DevEvent {
                write: false,
                addr,
                bytes,
                value,
            })?;
            answers.next += 1;
            Ok(value)
        }
    }
}

/// A read of so many bytes, at most 16, which is noted in the log first. A range that passes the last address is
/// `NoByte`. One that touches no device range reads memory, and a byte that isn't there is `NoByte`. One that lies in
/// a device range takes the low bytes of the next answer, or stops with `NoAnswer`. Any other one is `BadDevice`. The list
/// of answers stays as it is, and the number of the next one tells those that are left.
pub fn load(
    devs: &DevMap,
    addr: u64,
    bytes: u32,
    state: &State,
    answers: &mut Answers,
    log: &mut Log,
) -> Result<u128, MemStop>
    requires few { bytes ≤ 16 }
    ensures value { Agrees (λ n. n) result (world_of state.now answers.new log.new) (load devs.now.ranges addr bytes (world_of state.now answers.old log.old)) }
    ensures list { answers.new.list ≡ answers.old.list }
    ensures fits { IfOk result (λ n. n < 2 ^ (8 * bytes)) }
    ensures moment { IsMoment result Read addr bytes (world_of state.now answers.old log.old) (world_of state.now answers.new log.new) }
{
    log.accesses.push(Access {
        kind: AccessKind::Read,
        addr,
        bytes,
    })?;
    if passes_end(addr, bytes) {
        return Err(MemStop::Fault(FaultKind::NoByte));
    }
    if devs.touches(addr, bytes) {
        if devs.holds(addr, bytes) {
            return answer(addr, bytes, answers, log);
        }
        return Err(MemStop::Fault(FaultKind::BadDevice));
    }
    match state.read_bytes(addr, bytes) {
        Some(value) => Ok(value),
        None => Err(MemStop::Fault(FaultKind::NoByte)),
    }
}

/// A write of the bytes, at most 16, of a value below 2^(8 * bytes), which is noted in the log first. A range that
/// passes the last address is `NoByte`. One that touches no device range overwrites memory, the lowest byte first, and
/// a byte that isn't there is `NoByte`. One that lies in a device range is noted as an event. Any other one is
/// `BadDevice`.
pub fn store(
    devs: &DevMap,
    addr: u64,
    bytes: u32,
    value: u128,
    state: &mut State,
    log: &mut Log,
) -> Result<(), MemStop>
    requires few { bytes ≤ 16 }
    requires fits { value < 2 ^ (8 * bytes) }
    ensures value { (answers : Answers) → Agrees (λ _. nothing) result (world_of state.new answers log.new) (store devs.now.ranges addr bytes value (world_of state.old answers log.old)) }
    ensures moment { (answers : Answers) → IsMoment result Write addr bytes (world_of state.old answers log.old) (world_of state.new answers log.new) }
{
    log.accesses.push(Access {
        kind: AccessKind::Write,
        addr,
        bytes,
    })?;
    if passes_end(addr, bytes) {
        return Err(MemStop::Fault(FaultKind::NoByte));
    }
    if devs.touches(addr, bytes) {
        if !devs.holds(addr, bytes) {
            return Err(MemStop::Fault(FaultKind::BadDevice));
        }
        log.events.push(DevEvent {
            write: true,
            addr,
            bytes,
            value,
        })?;
        return Ok(());
    }
    if state.write_bytes(addr, bytes, value) {
        Ok(())
    } else {
        Err(MemStop::Fault(FaultKind::NoByte))
    }
}
