//! Operators by their names.

use bv_bits::Op;
use case_lines::number_32;

/// The operator of that name, of those that have no number behind them.
fn plain(name: &str) -> Option<Op> {
    match name {
        "not" => Some(Op::Not),
        "neg" => Some(Op::Neg),
        "and" => Some(Op::And),
        "or" => Some(Op::Or),
        "xor" => Some(Op::Xor),
        "imp" => Some(Op::Imp),
        "add" => Some(Op::Add),
        "sub" => Some(Op::Sub),
        "mul" => Some(Op::Mul),
        "udiv" => Some(Op::UDiv),
        "urem" => Some(Op::URem),
        "sdiv" => Some(Op::SDiv),
        "srem" => Some(Op::SRem),
        "shl" => Some(Op::Shl),
        "lshr" => Some(Op::LShr),
        "ashr" => Some(Op::AShr),
        other => relation(other),
    }
}

/// The operator of that name, of those that compare, join or choose.
fn relation(name: &str) -> Option<Op> {
    match name {
        "eq" => Some(Op::Eq),
        "ne" => Some(Op::Ne),
        "ult" => Some(Op::ULt),
        "ule" => Some(Op::ULe),
        "ugt" => Some(Op::UGt),
        "uge" => Some(Op::UGe),
        "slt" => Some(Op::SLt),
        "sle" => Some(Op::SLe),
        "sgt" => Some(Op::SGt),
        "sge" => Some(Op::SGe),
        "concat" => Some(Op::Concat),
        "ite" => Some(Op::Ite),
        _ => None,
    }
}

/// The operator of that name and of the numbers behind it, and the words behind these.
pub fn operator<'a, 'b>(name: &str, words: &'a [&'b str]) -> Option<(Op, &'a [&'b str])> {
    match words {
        [hi, lo, rest @ ..] if name == "extract" => {
            let hi = number_32(hi)?;
            let lo = number_32(lo)?;
            Some((Op::Extract { hi, lo }, rest))
        }
        [to, rest @ ..] if name == "zext" => Some((Op::ZExt { to: number_32(to)? }, rest)),
        [to, rest @ ..] if name == "sext" => Some((Op::SExt { to: number_32(to)? }, rest)),
        _ => Some((plain(name)?, words)),
    }
}
