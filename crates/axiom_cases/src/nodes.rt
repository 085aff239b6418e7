//! Subterms as text.

use axiom_rules::{Node, Sub};
use bv_bits::Op;
use case_lines::{number, number_32};
use term_words::operator;

/// The division of a name; terms that are written down hold none.
fn division(name: &str) -> Option<Op> {
    match name {
        "udiv" => Some(Op::UDiv),
        "urem" => Some(Op::URem),
        "sdiv" => Some(Op::SDiv),
        "srem" => Some(Op::SRem),
        _ => None,
    }
}

/// The operator of a name without numbers behind it.
fn plain(name: &str) -> Option<Op> {
    match operator(name.as_bytes()) {
        Some(op) => Some(op),
        None => division(name),
    }
}

/// The operator of a name and of the numbers behind it, and the words behind these.
fn operator_of<'a, 'b>(name: &str, words: &'a [&'b str]) -> Option<(Op, &'a [&'b str])> {
    match words {
        [hi, lo, rest @ ..] if name == "extract" => {
            let hi = number_32(hi)?;
            let lo = number_32(lo)?;
            Some((Op::Extract { hi, lo }, rest))
        }
        [to, rest @ ..] if name == "zext" => Some((Op::ZExt { to: number_32(to)? }, rest)),
        [to, rest @ ..] if name == "sext" => Some((Op::SExt { to: number_32(to)? }, rest)),
        _ => Some((plain(name)?, words)),
    }
}

/// The node of an operator at the numbers of its arguments.
fn applied(name: &str, words: &[&str]) -> Option<Node> {
    let (op, rest) = operator_of(name, words)?;
    match rest {
        [a] => Some(Node::One {
            op,
            a: number_32(a)?,
        }),
        [a, b] => Some(Node::Two {
            op,
            a: number_32(a)?,
            b: number_32(b)?,
        }),
        [a, b, c] => Some(Node::Three {
            op,
            a: number_32(a)?,
            b: number_32(b)?,
            c: number_32(c)?,
        }),
        _ => None,
    }
}

/// The node that words spell: `var`, `lit VALUE`, `sel ARRAY INDEX`, or an operator and its arguments.
fn node(words: &[&str]) -> Option<Node> {
    match words {
        [what] if *what == "var" => Some(Node::Variable),
        [what, value] if *what == "lit" => Some(Node::Literal(number(value)?)),
        [what, array, at] if *what == "sel" => Some(Node::Byte {
            array: number_32(array)?,
            at: number_32(at)?,
        }),
        [name, rest @ ..] => applied(name, rest),
        _ => None,
    }
}

/// The subterm that words spell: its width and its node.
pub fn sub(words: &[&str]) -> Option<Sub> {
    match words {
        [width, rest @ ..] => Some(Sub {
            width: number_32(width)?,
            node: node(rest)?,
        }),
        _ => None,
    }
}
