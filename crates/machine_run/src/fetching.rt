//! The fetch of a word.

ghost use Rattle.std.specs.Prelude.{◌≡◌, ◌<◌, ◌^◌, true, IfOk};
ghost use Rattle.eval_parts.specs.Worlds.{Accesses, LeavesPassed};
ghost use Rattle.machine_run.specs.Passed.{fetch_moments, second_moments, word_moments};
ghost use Rattle.machine_run.specs.Words as spec;
ghost use Rattle.state_core.specs.Memory.{fetch};
ghost use Rattle.state_core.specs.State.{widths_of};
ghost use Rattle.state_core.specs.Word.{IsWord};

use eval_parts::World;
use sail_values::Stop;
use state_core::{DevMap, FaultKind, Word};

/// A word of four bytes that is fetched at once.
fn fetch_once(devs: &DevMap, addr: u64, at: usize, world: &mut World) -> Result<Word, Stop>
    ensures value { Accesses (λ w. w) at result world.new (spec.at_once (fetch devs.now.ranges addr 4 world.old)) }
    ensures passed { LeavesPassed result world.new world.old (fetch_moments devs.now.ranges addr 4 world.old) }
    ensures word { IfOk result IsWord }
    ensures widths { widths_of world.new.state ≡ widths_of world.old.state }
{
    let bits = world.fetch(devs, addr, 4, at)?;
    let bits = bits as u32;
    Ok(Word { bytes: 4, bits })
}

/// The two bytes behind the first ones of a word, with these.
fn fetch_second(
    devs: &DevMap,
    addr: u64,
    low: u32,
    at: usize,
    world: &mut World,
) -> Result<Word, Stop>
    requires low { low < 2 ^ 16 }
    ensures value { Accesses (λ w. w) at result world.new (spec.joined low (fetch devs.now.ranges addr 2 world.old)) }
    ensures passed { LeavesPassed result world.new world.old (fetch_moments devs.now.ranges addr 2 world.old) }
    ensures word { IfOk result IsWord }
    ensures widths { widths_of world.new.state ≡ widths_of world.old.state }
{
    let high = world.fetch(devs, addr, 2, at)?;
    let high = high as u32;
    Ok(Word {
        bytes: 4,
        bits: low + 65536 * high,
    })
}

/// What follows the first two bytes of a word.
fn fetch_rest(
    devs: &DevMap,
    addr: u64,
    low: u32,
    at: usize,
    world: &mut World,
) -> Result<Word, Stop>
    requires low { low < 2 ^ 16 }
    ensures value { Accesses (λ w. w) at result world.new (spec.second devs.now.ranges addr low world.old) }
    ensures passed { LeavesPassed result world.new world.old (second_moments devs.now.ranges addr low world.old) }
    ensures word { IfOk result IsWord }
    ensures widths { widths_of world.new.state ≡ widths_of world.old.state }
{
    if low % 4 != 3 {
        return Ok(Word {
            bytes: 2,
            bits: low,
        });
    }
    match addr.checked_add(2) {
        Some(next) => fetch_second(devs, next, low, at, world),
        None => Err(Stop::Fault {
            kind: FaultKind::NoByte,
            at,
        }),
    }
}

/// A word that is fetched two bytes at a time.
fn fetch_parts(devs: &DevMap, addr: u64, at: usize, world: &mut World) -> Result<Word, Stop>
    ensures value { Accesses (λ w. w) at result world.new (spec.in_parts devs.now.ranges addr (fetch devs.now.ranges addr 2 world.old)) }
    ensures passed { LeavesPassed result world.new world.old (word_moments true devs.now.ranges addr world.old) }
    ensures word { IfOk result IsWord }
    ensures widths { widths_of world.new.state ≡ widths_of world.old.state }
{
    let low = world.fetch(devs, addr, 2, at)?;
    let low = low as u32;
    fetch_rest(devs, addr, low, at, world)
}

/// The word at an address: four bytes, or, where there are words of two bytes, two bytes and two more where their lowest two bits are 11. A fault
/// stands at the place that is given. Each fetch is noted. After want of memory the world is one that the fetches pass.
pub fn fetch_word(
    devs: &DevMap,
    short: bool,
    addr: u64,
    at: usize,
    world: &mut World,
) -> Result<Word, Stop>
    ensures value { Accesses (λ w. w) at result world.new (spec.fetch_word short devs.now.ranges addr world.old) }
    ensures passed { LeavesPassed result world.new world.old (word_moments short devs.now.ranges addr world.old) }
    ensures word { IfOk result IsWord }
    ensures widths { widths_of world.new.state ≡ widths_of world.old.state }
{
    if short {
        fetch_parts(devs, addr, at, world)
    } else {
        fetch_once(devs, addr, at, world)
    }
}
