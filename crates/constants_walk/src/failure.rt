//! Why an instruction fails.

ghost use Rattle.std.specs.Prelude.{◌≡◌};
ghost use Rattle.constants_walk.specs.Failing as spec;

use state_core::FaultKind;

/// Why an instruction fails: a fault that the Sail text itself makes.
#[derive(Clone, Copy)]
pub enum Failure {
    /// No arm of a match fits.
    Match,
    /// The test of an assert is false.
    Assert,
    /// The exit.
    Exit,
}

/// The failure that a kind of fault is; none where the fault is one of memory or of a device.
pub fn failure_by(kind: FaultKind) -> Option<Failure>
    ensures { result ≡ spec.failure_by kind }
{
    match kind {
        FaultKind::MatchFail => Some(Failure::Match),
        FaultKind::AssertFail => Some(Failure::Assert),
        FaultKind::Exit => Some(Failure::Exit),
        FaultKind::NoByte | FaultKind::BadDevice => None,
    }
}
