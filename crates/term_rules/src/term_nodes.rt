//! Terms as what the rewrite rules look at: each stands for itself.

ghost use Rattle.term_tree.specs.View.{tree};

use crate::rules::{Nodes, Shape};
use term_tree::{Term, same, width};

/// Terms that stand for themselves.
#[derive(Clone, Copy, Drop)]
pub struct Trees;

impl<'t> Nodes<&'t Term> for Trees {
    ghost tree = { λ _ t. tree t.now };

    fn shape(&self, of: &'t Term) -> Shape<&'t Term> {
        match of {
            Term::Lit(b) => Shape::Lit(*b),
            Term::App { op, args } => match args.as_slice() {
                [a] => Shape::One { op: *op, a },
                [a, b] => Shape::Two { op: *op, a, b },
                [_, _, _] => Shape::Other,
                _ => unreachable!(),
            },
            _ => Shape::Other,
        }
    }

    fn width(&self, of: &'t Term) -> u32 {
        width(of)
    }

    fn same(&self, a: &'t Term, b: &'t Term) -> bool {
        same(a, b)
    }
}
