//! What an evaluation reads and doesn't change.

use sail_syntax::Def;
use sail_typed::Typed;
use state_core::DevMap;

/// What an evaluation reads and doesn't change.
#[derive(Clone, Copy)]
pub struct Setting<'a> {
    /// The program, with what its names stand for.
    pub typed: &'a Typed,
    /// Where the devices are.
    pub devs: &'a DevMap,
    /// The definitions whose functions may be called: all of the program's, or those above a function.
    pub defs: &'a [Def],
}
