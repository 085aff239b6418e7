//! Laws of what is selected: facts over the definitions alone, each the contract of a function that does nothing.

ghost use Rattle.term_select.specs.Laws.{SelectedAreMade, SelectedIsTyped, SelectedAreTyped, SelectedIsByte, SelectedHasNoDivision, SelectedHoldsOnly, SelectedIsNormal};

/// What is selected is the byte of the array term at the value of the index.
pub fn selected_bytes()
    ensures on_the_way { SelectedAreMade }
    ensures typed { SelectedIsTyped }
    ensures typed_on_the_way { SelectedAreTyped }
    ensures value { SelectedIsByte }
{}

/// No rule fits any application in what is selected of terms in which none does.
pub fn normal_selected_bytes()
    ensures selected { SelectedIsNormal }
{}

/// What is selected of parts without divisions holds none, and it holds no variable but theirs.
pub fn parts_of_selected_bytes()
    ensures divisions { SelectedHasNoDivision }
    ensures variables { SelectedHoldsOnly }
{}
