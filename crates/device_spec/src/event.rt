//! What a device makes of an event.

ghost use Rattle.std.specs.Prelude.{◌≡◌, ◌<◌, ◌^◌, ◌*◌, ◌&&◌, All, map};
ghost use Rattle.device_spec.specs.Devices as spec;
ghost use Rattle.device_spec.specs.Devices.{IsTransition};
ghost use Rattle.device_spec.specs.View.{device_of, transition_of};

use crate::device::{DevSpec, Transition};
use bv_bits::Bits;
use state_core::DevEvent;
use term_tree::value_one;

/// The variable of conditions.
const VALUE: &[u8] = b"v";

/// Whether a transition leaves the state by an event of this direction, address and number of bytes.
fn is_candidate(transition: &Transition, q: u32, event: &DevEvent) -> bool
    ensures { result ≡ spec.is_candidate q event.now (transition_of transition.now) }
{
    transition.from == q
        && transition.write == event.write
        && transition.addr == event.addr
        && transition.bytes == event.bytes
}

/// Whether the condition of a transition holds of a value.
fn holds(transition: &Transition, value: u128) -> bool
    requires transition { IsTransition (transition_of transition.now) }
    requires fits { value < 2 ^ (8 * transition.now.bytes) }
    ensures { result ≡ spec.holds value (transition_of transition.now) }
{
    match &transition.when {
        None => true,
        Some(condition) => {
            let bits = Bits {
                width: 8 * transition.bytes,
                value,
            };
            value_one(condition, VALUE, bits).value == 1
        }
    }
}

/// Whether a transition is a candidate of an event whose condition holds.
fn takes(transition: &Transition, q: u32, event: &DevEvent) -> bool
    requires transition { IsTransition (transition_of transition.now) }
    requires fits { event.now.value < 2 ^ (8 * event.now.bytes) }
    ensures { result ≡ (spec.is_candidate q event.now (transition_of transition.now) && spec.holds event.now.value (transition_of transition.now)) }
{
    is_candidate(transition, q, event) && holds(transition, event.value)
}

/// The state that an event leads to by some transitions: that of the first one that it takes.
fn next_by(transitions: &[Transition], q: u32, event: &DevEvent) -> Option<u32>
    requires transitions { All (λ t. IsTransition (transition_of t)) transitions.now }
    requires fits { event.now.value < 2 ^ (8 * event.now.bytes) }
    ensures { result ≡ spec.next_by (map transition_of transitions.now) q event.now }
{
    for transition in transitions {
        if takes(transition, q, event) {
            return Some(transition.to);
        }
    }
    None
}

/// The state that an event leads to from a state: that of the first transition, in order, that leaves the state, has the
/// event's direction, address and number of bytes, and whose condition holds of its value; none where there is no such
/// one. Byte counts are 1 to 16, conditions are 1 bit wide, and the value has at most 8 bits a byte. It takes no memory.
pub fn next(dev: &DevSpec, q: u32, event: &DevEvent) -> Option<u32>
    requires transitions { All (λ t. IsTransition (transition_of t)) dev.now.transitions }
    requires fits { event.now.value < 2 ^ (8 * event.now.bytes) }
    ensures { result ≡ spec.next_of (device_of dev.now) q event.now }
{
    next_by(dev.transitions.as_slice(), q, event)
}
