//! What comes next.

ghost use Rattle.std.specs.Prelude.{◌≡◌};
ghost use Rattle.sail_machine.specs.declared.awaited.Await.TheVariants as a;
ghost use Rattle.sail_machine.specs.Frames.{awaits, have};
ghost use Rattle.sail_frames.specs.View.{mode_of};
ghost use Rattle.sail_syntax.specs.View.{tree};

use sail_machine::{Await, Fixed};
use sail_syntax::Expr;

/// What comes next.
#[derive(Drop)]
pub enum Mode {
    /// One of these.
    Awaits(Await),
    /// What follows an operand with so many slices, whose first token begins at the place.
    Have(Expr, u32, usize),
    /// What follows an expression that no operator continues.
    Whole(Expr),
}

impl Mode {
    /// A fixed word.
    pub fn fixed(word: Fixed) -> Mode
        ensures { mode_of result ≡ awaits (a.Fixed word) }
    {
        Mode::Awaits(Await::Fixed(word))
    }

    /// What follows an operand without slices, whose first token begins at the place.
    pub fn operand(done: Expr, at: usize) -> Mode
        ensures { mode_of result ≡ have (tree done) 0 at }
    {
        Mode::Have(done, 0, at)
    }

    /// An expression.
    pub fn want() -> Mode
        ensures { mode_of result ≡ awaits a.Want }
    {
        Mode::Awaits(Await::Want)
    }
}
