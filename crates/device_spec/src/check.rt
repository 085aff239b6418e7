//! The check of devices: their ranges, and the places and states of their transitions.

ghost use Rattle.std.specs.Prelude.{◌≡◌, [], map};
ghost use Rattle.std.specs.List.{list_any};
ghost use Rattle.device_spec.specs.Checked as spec;
ghost use Rattle.device_spec.specs.View.{device_of, transition_of};

use crate::device::{DevFault, DevSpec, Transition};

/// Whether an address lies in both ranges, none of which is empty.
fn overlaps(one: &DevSpec, two: &DevSpec) -> bool
    ensures { result ≡ spec.overlaps (device_of one.now) (device_of two.now) }
{
    one.lo < two.hi && two.lo < one.hi
}

/// Whether the bytes of a transition lie in its device's range.
fn is_inside(dev: &DevSpec, transition: &Transition) -> bool
    ensures { result ≡ spec.is_inside (device_of dev.now) (transition_of transition.now) }
{
    dev.lo <= transition.addr
        && u128::from(transition.addr) + u128::from(transition.bytes) <= u128::from(dev.hi)
}

/// Looks at a transition: first at its place, then at the state that it leaves, then at the one that it leads to.
fn check_transition(dev: &DevSpec, transition: &Transition) -> Result<(), DevFault>
    ensures { result ≡ spec.answer (spec.transition_fault (device_of dev.now) (transition_of transition.now)) }
{
    if !is_inside(dev, transition) {
        Err(DevFault::BadRange)
    } else if transition.from >= dev.states {
        Err(DevFault::BadState { q: transition.from })
    } else if transition.to >= dev.states {
        Err(DevFault::BadState { q: transition.to })
    } else {
        Ok(())
    }
}

/// Looks at the transitions of a device in order.
fn check_transitions(dev: &DevSpec) -> Result<(), DevFault>
    ensures { result ≡ spec.answer (spec.transitions_fault (device_of dev.now) (map transition_of dev.now.transitions)) }
{
    for transition in dev.transitions.as_slice() {
        check_transition(dev, transition)?;
    }
    Ok(())
}

/// Whether a device's range shares an address with one of these.
fn overlaps_any(dev: &DevSpec, earlier: &[DevSpec]) -> bool
    ensures { result ≡ list_any (spec.overlaps (device_of dev.now)) (map device_of earlier.now) }
{
    for other in earlier {
        if overlaps(dev, other) {
            return true;
        }
    }
    false
}

/// Looks at a device behind earlier ones: first at its range, then at its transitions.
fn check_device(earlier: &[DevSpec], dev: &DevSpec) -> Result<(), DevFault>
    ensures { result ≡ spec.answer (spec.device_fault (map device_of earlier.now) (device_of dev.now)) }
{
    if dev.lo >= dev.hi || overlaps_any(dev, earlier) {
        Err(DevFault::BadRange)
    } else {
        check_transitions(dev)
    }
}

/// Whether the devices can stand together: no range is empty or shares an address with another, and each transition lies
/// in its device's range and leads from one of its states to one. The answer is the first fault: devices are looked at in
/// order, each one's range before its transitions, and of a transition first its place, then the state that it leaves,
/// then the one that it leads to. It takes no memory.
pub fn check_devices(devs: &[DevSpec]) -> Result<(), DevFault>
    ensures { result ≡ spec.answer (spec.devices_fault [] (map device_of devs.now)) }
{
    for number in 0..devs.len() {
        check_device(&devs[..number], &devs[number])?;
    }
    Ok(())
}
