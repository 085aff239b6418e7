//! What the readers of texts have in common: rules of reading that go on one after the other, and small facts of truth values, bytes and options.
#![tactic(auto)]
