//! The functions above a place of a program, with their heights.

ghost use Rattle.std.specs.Prelude.{◌≡◌, [], ◌∷◌, ◌++◌, IfOk, OnOk, OnErr, Some, bytes_eq, if◌then◌else◌};
ghost use Rattle.std.specs.BTreeMap.{get_by, IsUnchanged};
ghost use Rattle.std.specs.Cmp.Lexicographic.{slice_cmp};
ghost use Rattle.std.specs.Ordering.{nat_cmp};
ghost use Rattle.sail_syntax.specs.Tree.{Text};
ghost use Rattle.sail_syntax.specs.View.{tree};
ghost use Rattle.type_rules.specs.Heights.{height_of, own_height};

use crate::depths::deepest;
use lex_core::NoMemory;
use sail_syntax::Expr;
use std::alloc::Global;
use std::collections::BTreeMap;
use std::marker::Model;

/// A function and its height.
#[derive(Clone, Copy)]
struct HeightRef<'a> {
    name: &'a [u8],
    calls: usize,
}

/// The functions above a place of a program, each with its height, which contracts see as a list with the newest first.
/// A name is found in logarithmic time.
#[derive(Drop)]
pub struct Heights<'a> {
    heights: Vec<HeightRef<'a>>,
    newest: BTreeMap<&'a [u8], usize>,
}

impl<'a> Model for Heights<'a> {
    ghost use Rattle.std.specs.Prelude.{List};
    ghost use Rattle.std.specs.Coded.{coded_list};
    ghost use Rattle.type_rules.specs.Heights.{Height};
    ghost use Rattle.type_heights.specs.Table.{height_code, heights_of, IsFiled};

    ghost Value = { List Height };

    ghost coded = { coded_list height_code };

    ghost view = { λ s. heights_of s.heights.items };

    ghost invariant = { λ s. IsFiled s.newest (heights_of s.heights.items) };
}

/// Files a function as the newest; for want of memory it is filed nowhere.
fn file<'a>(
    heights: &mut Vec<HeightRef<'a>>,
    newest: &mut BTreeMap<&'a [u8], usize>,
    name: &'a [u8],
    calls: usize,
) -> Result<(), NoMemory>
    ensures listed { OnOk result (heights.new.items ≡ heights.old.items ++ record { name = name.entry; calls = calls } ∷ []) }
    ensures found { OnOk result ((x : Text) → get_by (λ k. slice_cmp nat_cmp x k.now) newest.new
        ≡ (if bytes_eq name.now x then Some calls else get_by (λ k. slice_cmp nat_cmp x k.now) newest.old)) }
    ensures still_listed { OnErr result (heights.new.items ≡ heights.old.items) }
    ensures still_found { OnErr result (IsUnchanged newest.old newest.new) }
{
    heights.push(HeightRef { name, calls })?;
    match newest.insert(name, calls) {
        Ok(_) => Ok(()),
        Err(_) => {
            let _ = heights.pop();
            Err(NoMemory)
        }
    }
}

impl<'a> Heights<'a> {
    /// No function.
    pub fn new(alloc: Global) -> Heights<'a>
        ensures { result ≡ [] }
    {
        Heights {
            heights: Vec::new(alloc),
            newest: BTreeMap::new(alloc),
        }
    }

    /// The height of a name: 0 of what is no function above; of two functions the newer one counts.
    pub fn height(&self, name: &[u8]) -> usize
        ensures { result ≡ height_of name.now self.now }
    {
        match self.newest.get(name) {
            Some(calls) => *calls,
            None => 0,
        }
    }

    /// A function whose body this is enters as the newest, and its height is given: one more than the greatest of those that it calls.
    pub fn enter(&mut self, name: &'a [u8], body: &Expr) -> Result<usize, NoMemory>
        ensures height { IfOk result (λ n. n ≡ own_height self.old (tree body.now)) }
        ensures entered { OnOk result (self.new ≡ record { name = name.now; calls = own_height self.old (tree body.now) } ∷ self.old) }
    {
        let calls = deepest(self, body) + 1;
        file(&mut self.heights, &mut self.newest, name, calls)?;
        Ok(calls)
    }
}
