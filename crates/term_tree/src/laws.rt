//! Laws of terms and of their values: facts over the definitions alone, each the contract of a function that does nothing.

ghost use Rattle.term_tree.specs.Laws.{AgreeingBytes, AgreeingValues, SameOpIsEqual, SameTreeIsEqual, ValueFits, WrittenAreValues};

/// Operators and terms are the same exactly where they are equal.
pub fn same_terms()
    ensures operators { SameOpIsEqual }
    ensures terms { SameTreeIsEqual }
{}

/// A typed term has a value of its width in all values that variables may have, and what pairs write down are such values.
pub fn values_of_terms()
    ensures fits { ValueFits }
    ensures written { WrittenAreValues }
{}

/// A term has one value in two valuations that are the same at each of its variables, and an array term has the same byte
/// at each index.
pub fn agreeing_values()
    ensures values { AgreeingValues }
    ensures bytes { AgreeingBytes }
{}
