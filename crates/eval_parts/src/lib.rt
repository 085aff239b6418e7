//! The small steps of evaluation, as code: locals, names, parts of values, patterns, and the functions of the prelude.
#![tactic(auto)]

mod locals;
mod names;
mod parts;
mod patterns;
mod prelude;
mod world;

pub use locals::Locals;
pub use names::{bound, read, write};
pub use parts::{index_at, sliced, updated};
pub use patterns::{enter, fits};
pub use prelude::given_call;
pub use world::World;
