//! Laws of evaluations with their moments: facts over the definitions alone, each the contract of a function that does nothing.

ghost use Rattle.eval_uses.specs.UseLaws.{OfEach, LeavesOthers, EndsAlike, DoesAlike, IsQuiet, ReachesPassed};

/// What the moments of an evaluation don't tell stays as it is: a register that no moment writes, the widths of all, and memory,
/// answers, accesses and events where there is no access. What was done only grows.
pub fn moments_keep()
    ensures { OfEach LeavesOthers }
{}

/// From two worlds that are alike for the moments from the one, evaluation ends alike, in worlds that are alike, and the moments
/// from the other do the same.
pub fn alike_ends()
    ensures ends { OfEach EndsAlike }
    ensures same { OfEach DoesAlike }
{}

/// Without an access evaluation depends on the registers alone, and leaves the rest of the world.
pub fn quiet()
    ensures { OfEach IsQuiet }
{}

/// The world that an evaluation reaches is that of its beginning or of one of its moments.
pub fn each_passed()
    ensures { OfEach ReachesPassed }
{}
