//! The first fault so far, by its place and its number.

ghost use Rattle.std.specs.Prelude.{◌≡◌};
ghost use Rattle.type_rules.specs.Faults.{number, sooner, better};
ghost use Rattle.type_names.specs.Borrowed.{why_of, fault_of, maybe_fault};

use crate::borrowed::{FaultRef, WhyRef};

fn number(why: WhyRef<'_>) -> u32
    ensures { result ≡ number (why_of why.entry) }
{
    match why {
        WhyRef::Unknown(_) => 10,
        WhyRef::Twice(_) => 11,
        WhyRef::Differs { .. } => 12,
        WhyRef::Later(_) => 15,
        WhyRef::TooHigh(_) => 52,
    }
}

/// Whether the one fault comes before the other.
fn sooner(one: FaultRef<'_>, other: FaultRef<'_>) -> bool
    ensures { result ≡ sooner (fault_of one.entry) (fault_of other.entry) }
{
    one.at < other.at || one.at == other.at && number(one.why) < number(other.why)
}

fn better<'a>(best: Option<FaultRef<'a>>, fault: FaultRef<'a>) -> Option<FaultRef<'a>>
    ensures { maybe_fault result ≡ better (maybe_fault best.entry) (fault_of fault.entry) }
{
    match best {
        None => Some(fault),
        Some(first) => {
            if sooner(fault, first) {
                Some(fault)
            } else {
                Some(first)
            }
        }
    }
}

/// Says that something is wrong at a place: the first fault so far stays, or this one comes before it.
pub fn say<'a>(at: usize, why: WhyRef<'a>, best: &mut Option<FaultRef<'a>>)
    ensures { maybe_fault best.new ≡ better (maybe_fault best.old) (record { at = at; why = why_of why.entry }) }
{
    *best = better(*best, FaultRef { at, why });
}
