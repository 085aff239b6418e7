//! Laws of what is replaced: facts over the definitions alone, each the contract of a function that does nothing.

ghost use Rattle.term_replace.specs.Laws.{ReplacedAreMade, ReplacedArraysAreMade, ReplacedIsTyped, ReplacedArrayIsTyped, ReplacedAreTyped, ReplacedArraysAreTyped, ReplacedKeepsValue, ReplacedKeepsBytes, ReplacedAreValues, SubstitutedHasNoDivision, SubstitutedArrayHasNoDivision, SubstitutedHoldsOnly, SubstitutedArrayHoldsOnly};
ghost use Rattle.term_replace.specs.NormalLaws.{SubstitutedIsNormal, SubstitutedArrayIsNormal};

/// A term with replaced variables is typed, as wide, and has the value of the term where each replaced variable has its
/// replacement's value, and these are values that there are; of an array term the same holds for each byte.
pub fn replaced_variables()
    ensures on_the_way { ReplacedAreMade }
    ensures arrays_on_the_way { ReplacedArraysAreMade }
    ensures typed { ReplacedIsTyped }
    ensures arrays_typed { ReplacedArrayIsTyped }
    ensures typed_on_the_way { ReplacedAreTyped }
    ensures arrays_typed_on_the_way { ReplacedArraysAreTyped }
    ensures value { ReplacedKeepsValue }
    ensures bytes { ReplacedKeepsBytes }
    ensures are_values { ReplacedAreValues }
{}

/// No rule fits any application in a term or an array term whose variables are replaced by terms in which none does.
pub fn normal_changes()
    ensures substituted { SubstitutedIsNormal }
    ensures substituted_array { SubstitutedArrayIsNormal }
{}

/// A term or array term without divisions, its variables replaced by such terms, holds none; and it holds no variable but
/// those of what stands for its variables.
pub fn parts_of_replaced_terms()
    ensures divisions { SubstitutedHasNoDivision }
    ensures array_divisions { SubstitutedArrayHasNoDivision }
    ensures variables { SubstitutedHoldsOnly }
    ensures array_variables { SubstitutedArrayHoldsOnly }
{}
