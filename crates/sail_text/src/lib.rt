//! The definition of the text of a program of the Sail profile: how it is printed.
#![tactic(auto)]
