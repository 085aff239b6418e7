//! Laws of assertions: facts over the definitions alone, each the contract of a function that does nothing.

ghost use Rattle.assert_core.specs.Laws.{ClaimsRestOnScope, SortsFitExactly};

use term_tree::laws::agreeing_values;

/// The test of sorts holds exactly where the variables and widths fit.
pub fn sorts_fit_exactly()
    ensures { SortsFitExactly }
{}

/// What an assertion claims rests on the values of its own and the fixed variables alone.
pub fn claims_rest_on_scope()
    ensures { ClaimsRestOnScope }
{
    agreeing_values();
}
