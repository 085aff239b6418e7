//! Laws of what is made: facts over the definitions alone, each the contract of a function that does nothing.

ghost use Rattle.term_make.specs.Laws.{MadeExactly, BuiltExactly, MadeByFirstRule, AskedAreMade, MadeIsNoLarger, MadeIsTyped, AskedAreTyped, MadeKeepsValue, MadeHoldsNoDivision, MadeHoldsOnly, HighInARow, OutsideInARow, OutsideIsHigh};
ghost use Rattle.term_make.specs.Normal.{MadeIsNormal, NormalIsMade};

/// What is made of an application is what the rules say and nothing else: by the first rule that fits, each application on
/// its right side made in turn. It is no larger, typed, as wide, and has the value of the application as it stands.
pub fn made_terms()
    ensures exactly { MadeExactly }
    ensures built { BuiltExactly }
    ensures first_rule { MadeByFirstRule }
    ensures on_the_way { AskedAreMade }
    ensures no_larger { MadeIsNoLarger }
    ensures typed { MadeIsTyped }
    ensures typed_on_the_way { AskedAreTyped }
    ensures value { MadeKeepsValue }
{}

/// No rule fits any application in what is made of terms in which none does; and such a term is what is made of it, where
/// it isn't too high.
pub fn normal_terms()
    ensures made { MadeIsNormal }
    ensures stays { NormalIsMade }
{}

/// What is made of an application that holds no division holds none, and it holds no variable but the application's.
pub fn parts_of_made_terms()
    ensures divisions { MadeHoldsNoDivision }
    ensures variables { MadeHoldsOnly }
{}

/// Of two terms that are made in a row, none is within the height where the one or the other isn't, and that is so exactly
/// where a term or an array term on the way is too high.
pub fn made_in_a_row()
    ensures high { HighInARow }
    ensures outside { OutsideInARow }
    ensures any { OutsideIsHigh }
{}
