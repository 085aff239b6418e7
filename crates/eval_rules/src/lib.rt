//! The meaning of the whole Sail profile: what expressions do, as definitions.
#![tactic(auto)]
