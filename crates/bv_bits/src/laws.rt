//! Laws of the operators: facts over the definitions alone, each the contract of a function that does nothing.

ghost use Rattle.bv_bits.specs.Corners.{UDivByZero, URemByZero, SDivByZero, SRemByZero, SDivOfLeast, SRemOfLeast, ShlPastWidth, LShrPastWidth, AShrPastWidth, ShlByZero, LShrByZero, AShrByZero, NegOfZero, AddWithin, AddPast, SubWithin, SubPast, IteAtOne, IteElse, EqTells, NeTells, ULtTells, ULeTells, UGtTells, UGeTells, SLtTells, SLeTells, SGtTells, SGeTells, ImpTells, ExtractOfAll, ZExtToOwn, SExtToOwn};
ghost use Rattle.bv_bits.specs.BitLaws.{SameBits, NoBitPastWidth, NotBits, AndBits, OrBits, XorBits, ImpBit, IteBits, TruthBit, ConcatLow, ConcatHigh, ExtractBits, ZExtBits, SExtLow, SExtHigh, ShlBits, ShlLow, LShrBits, AShrBits, AShrHigh, CarryFirst, CarryNext, CarryOut, AddBits, SubBits, NegBits, TurnedBits, SignedByTurned, ProductStep};

/// By zero each quotient is all ones, and each rest is the dividend.
pub fn division_by_zero()
    ensures udiv { UDivByZero }
    ensures urem { URemByZero }
    ensures sdiv { SDivByZero }
    ensures srem { SRemByZero }
{}

/// The least signed number by -1 is itself, with no rest.
pub fn least_by_minus_one()
    ensures sdiv { SDivOfLeast }
    ensures srem { SRemOfLeast }
{}

/// A shift by the width or more leaves no bit, or the sign bit at each place.
pub fn shifts_past_width()
    ensures shl { ShlPastWidth }
    ensures lshr { LShrPastWidth }
    ensures ashr { AShrPastWidth }
{}

/// A shift by 0 changes nothing.
pub fn shifts_by_zero()
    ensures shl { ShlByZero }
    ensures lshr { LShrByZero }
    ensures ashr { AShrByZero }
{}

/// Sums and differences, within the width and past it.
pub fn sums_and_differences()
    ensures neg { NegOfZero }
    ensures add_within { AddWithin }
    ensures add_past { AddPast }
    ensures sub_within { SubWithin }
    ensures sub_past { SubPast }
{}

/// A choice is its second argument where the first is 1, and else its third.
pub fn choice()
    ensures at_one { IteAtOne }
    ensures otherwise { IteElse }
{}

/// When a relation is 1, and when it is 0.
pub fn truth_values()
    ensures equal { EqTells }
    ensures unequal { NeTells }
    ensures ult { ULtTells }
    ensures ule { ULeTells }
    ensures ugt { UGtTells }
    ensures uge { UGeTells }
    ensures slt { SLtTells }
    ensures sle { SLeTells }
    ensures sgt { SGtTells }
    ensures sge { SGeTells }
    ensures imp { ImpTells }
{}

/// All bits of a value, and a value at its own width, are the value.
pub fn own_width()
    ensures extract { ExtractOfAll }
    ensures zext { ZExtToOwn }
    ensures sext { SExtToOwn }
{}

/// A value is its bits below its width.
pub fn bits_of_a_value()
    ensures same { SameBits }
    ensures past_width { NoBitPastWidth }
{}

/// The bits of what goes bit by bit, of a choice and of a truth value.
pub fn bits_of_logic()
    ensures not { NotBits }
    ensures and { AndBits }
    ensures or { OrBits }
    ensures xor { XorBits }
    ensures imp { ImpBit }
    ensures ite { IteBits }
    ensures truth { TruthBit }
{}

/// The bits of joined, cut and widened values.
pub fn bits_of_parts()
    ensures concat_low { ConcatLow }
    ensures concat_high { ConcatHigh }
    ensures extract { ExtractBits }
    ensures zext { ZExtBits }
    ensures sext_low { SExtLow }
    ensures sext_high { SExtHigh }
{}

/// The bits of shifted values.
pub fn bits_of_shifts()
    ensures shl { ShlBits }
    ensures shl_low { ShlLow }
    ensures lshr { LShrBits }
    ensures ashr { AShrBits }
    ensures ashr_high { AShrHigh }
{}

/// The carries of a sum, from the first one to the one out of the width.
pub fn carries()
    ensures first { CarryFirst }
    ensures next { CarryNext }
    ensures out { CarryOut }
{}

/// The bits of sums and differences, by their carries.
pub fn bits_of_sums()
    ensures add { AddBits }
    ensures sub { SubBits }
    ensures neg { NegBits }
{}

/// Signed order is the order of the numbers with their sign bits turned.
pub fn signed_order()
    ensures bits { TurnedBits }
    ensures order { SignedByTurned }
{}

/// A product grows by one row for each bit of its second factor.
pub fn product_rows()
    ensures { ProductStep }
{}
