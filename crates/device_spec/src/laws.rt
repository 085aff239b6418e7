//! Laws of devices: facts over the definitions alone, each the contract of a function that does nothing.

ghost use Rattle.device_spec.specs.Laws.{AcceptedExactly};

/// Devices are accepted exactly where their ranges and transitions are as they should be.
pub fn accepted_exactly()
    ensures { AcceptedExactly }
{}
