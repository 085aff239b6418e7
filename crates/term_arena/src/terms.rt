// Interned terms: the list of nodes, and what it tells.

ghost use Rattle.std.specs.Prelude.{◌≡◌, ◌≢◌, ◌≤◌, ◌<◌, ◌++◌, ◌⊎◌, [], ◌∷◌, length, slice_get, Some, Err, IfOk, OnErr};
ghost use Rattle.term_tree.specs.Terms.{Text, Tree, sel, IsTyped, IsTypedArray, width_of, HIGHEST};
ghost use Rattle.term_arena.specs.Nodes.{term_at, array_at, meaning_at, meaning_by, meanings_of, as_term, Keeps};
ghost use Rattle.term_arena.specs.declared.keeping.TheConstants.{LIMIT};
ghost use Rattle.term_arena.specs.Arena.{IsArena, IsTypedMeaning, width_in, height_in, asked_node, arguments};
ghost use Rattle.term_arena.specs.Keeping.{IsIn, HasArray, TypedAreNamed, TypedArraysAreNamed, EqualTermsAreOne, EqualArraysAreOne};
ghost use Rattle.term_arena.specs.Answers.{literal_of, node_of, IsArrayTop, FindsArray};

use crate::keeping::{keep, key_of};
use crate::names::Names;
use crate::node::{ArrayId, ArrayNode, Facts, Key, NewNode, TermId, TermNode};
use bv_bits::{Bits, Op};
use indexmap::IndexSet;
use lex_core::NoMemory;
use std::alloc::Global;
use std::marker::Model;
use term_rules::{Nodes, Shape};
use term_tree::{HIGHEST, TermFault};

/// Interned terms, which contracts see as one list of distinct nodes of terms and of array terms. A number stands for the
/// node at that place, and the parts of a node stand before it.
///
/// Each node is there once, so equal terms have equal numbers. Nodes are only added, so a number keeps its term. There are
/// at most 1,048,576 nodes, and no term or array term is more than 1,024 high.
#[derive(Drop)]
pub struct Terms {
    alloc: Global,
    keys: IndexSet<Key>,
    facts: Vec<Facts>,
    names: Names,
}

impl Model for Terms {
    ghost use Rattle.std.specs.Prelude.{List, map};
    ghost use Rattle.term_arena.specs.Nodes.{Node};
    ghost use Rattle.term_arena.specs.Arena.{plain, IsKept};

    ghost Value = { List Node };

    ghost view = { λ t. map (plain t.names) t.keys.keys };

    ghost invariant = { λ t. IsKept t.names t.keys.keys t.facts.items };
}

impl Terms {
    /// No terms.
    pub fn new(alloc: Global) -> Result<Terms, NoMemory>
        ensures { IfOk result (λ t. t ≡ []) }
    {
        Ok(Terms {
            alloc,
            keys: IndexSet::new(alloc),
            facts: Vec::new(alloc),
            names: Names::new(alloc),
        })
    }

    /// What holds of every list of interned terms. Nothing is done.
    pub fn laws(&self)
        ensures arena { IsArena self.now }
        ensures terms { TypedAreNamed self.now }
        ensures arrays { TypedArraysAreNamed self.now }
        ensures equal { EqualTermsAreOne self.now }
        ensures equal_arrays { EqualArraysAreOne self.now }
    {
        let _nodes = &self.keys;
    }

    /// The bits of a literal, and none of any other term.
    pub fn literal(&self, id: TermId) -> Option<Bits>
        requires id { IsTyped (term_at self.now id.number) }
        ensures { result ≡ literal_of (term_at self.now id.number) }
    {
        match self.keys.get_index(id.number as usize).unwrap() {
            Key::Lit(b) => Some(*b),
            _ => None,
        }
    }

    /// The width of a term in bits.
    pub fn width(&self, id: TermId) -> u32
        requires id { IsTyped (term_at self.now id.number) }
        ensures { result ≡ width_of (term_at self.now id.number) }
    {
        self.facts[id.number as usize].width
    }

    /// The node of a term.
    pub fn node(&self, id: TermId) -> TermNode<'_>
        requires id { IsTyped (term_at self.now id.number) }
        ensures node { slice_get self.now id.number ≡ Some (node_of result) }
        ensures term { term_at self.now id.number ≡ as_term (meaning_by (meanings_of self.now) (node_of result)) }
    {
        let place = id.number as usize;
        match self.keys.get_index(place).unwrap() {
            Key::Lit(b) => TermNode::Lit(*b),
            Key::Var { name, width } => TermNode::Var {
                name: self.names.get(*name),
                width: *width,
            },
            Key::One { op, a: _ } => TermNode::App {
                op: *op,
                args: &self.facts[place].args[..1],
            },
            Key::Two { op, a: _, b: _ } => TermNode::App {
                op: *op,
                args: &self.facts[place].args[..2],
            },
            Key::Three {
                op,
                a: _,
                b: _,
                c: _,
            } => TermNode::App {
                op: *op,
                args: &self.facts[place].args[..3],
            },
            Key::Sel { of, at } => TermNode::Sel {
                of: self.names.get(*of),
                at: *at,
            },
            _ => unreachable!(),
        }
    }

    /// The node of an array term.
    pub fn array_node(&self, id: ArrayId) -> ArrayNode
        requires id { IsTypedArray (array_at self.now id.number) }
        ensures { IsArrayTop self.now id result }
    {
        match self.keys.get_index(id.number as usize).unwrap() {
            Key::Array { name: _ } => ArrayNode::Var,
            Key::Upd { of, at, by } => ArrayNode::Upd {
                of: *of,
                at: *at,
                by: *by,
            },
            Key::Splice { of, below, at } => ArrayNode::Splice {
                of: *of,
                below: *below,
                at: *at,
            },
            _ => unreachable!(),
        }
    }

    /// The node of the array variable of which a term is a byte, if it has one.
    pub fn array_of_byte(&self, byte: TermId) -> Option<ArrayId>
        requires byte { IsTyped (term_at self.now byte.number) }
        ensures { (f : Text) (i : Tree) → term_at self.now byte.number ≡ sel f i → FindsArray self.now f result }
    {
        let Key::Sel { of, at: _ } = self.keys.get_index(byte.number as usize).unwrap() else {
            return None;
        };
        match self.keys.get_index_of(&Key::Array { name: *of }) {
            Some(place) => Some(ArrayId {
                number: place as u32,
            }),
            None => None,
        }
    }

    /// The allocator.
    pub fn alloc(&self) -> Global {
        self.alloc
    }

    /// The height of a term.
    fn height(&self, id: TermId) -> u32
        requires id { IsTyped (term_at self.now id.number) }
        ensures height { result ≡ height_in (meaning_at self.now id.number) }
        ensures low { result ≤ HIGHEST }
    {
        self.facts[id.number as usize].height
    }

    /// The height of an array term.
    fn array_height(&self, id: ArrayId) -> u32
        requires id { IsTypedArray (array_at self.now id.number) }
        ensures height { result ≡ height_in (meaning_at self.now id.number) }
        ensures low { result ≤ HIGHEST }
    {
        self.facts[id.number as usize].height
    }

    /// The width of what a node stands for; 0 of an array term.
    fn width_of_new(&self, node: NewNode<'_>) -> u32
        requires typed { IsTypedMeaning (meaning_by (meanings_of self.now) (asked_node self.now node)) }
        ensures { result ≡ width_in (meaning_by (meanings_of self.now) (asked_node self.now node.entry)) }
    {
        match node {
            NewNode::Lit(b) => b.width,
            NewNode::Var { name: _, width } => width,
            NewNode::One { op, a } => op.row_width(&[self.width(a)]).unwrap(),
            NewNode::Two { op, a, b } => op.row_width(&[self.width(a), self.width(b)]).unwrap(),
            NewNode::Three { op, a, b, c } => op
                .row_width(&[self.width(a), self.width(b), self.width(c)])
                .unwrap(),
            NewNode::Sel { of: _, at: _ } => 8,
            NewNode::SelOf { of: _, at: _ } => 8,
            NewNode::Array { name: _ } => 0,
            NewNode::Upd {
                of: _,
                at: _,
                by: _,
            } => 0,
            NewNode::Splice {
                of: _,
                below: _,
                at: _,
            } => 0,
        }
    }

    /// The height of what a node stands for.
    fn height_of_new(&self, node: NewNode<'_>) -> u32
        requires typed { IsTypedMeaning (meaning_by (meanings_of self.now) (asked_node self.now node)) }
        ensures { result ≡ height_in (meaning_by (meanings_of self.now) (asked_node self.now node.entry)) }
    {
        match node {
            NewNode::Lit(_) => 1,
            NewNode::Var { name: _, width: _ } => 1,
            NewNode::One { op: _, a } => 1 + self.height(a),
            NewNode::Two { op: _, a, b } => 1 + self.height(a).max(self.height(b)),
            NewNode::Three { op: _, a, b, c } => 1
                + self.height(a).max(self.height(b).max(self.height(c))),
            NewNode::Sel { of: _, at } => 1 + self.height(at),
            NewNode::SelOf { of: _, at } => 1 + self.height(at),
            NewNode::Array { name: _ } => 1,
            NewNode::Upd { of, at, by } => 1
                + self
                    .array_height(of)
                    .max(self.height(at).max(self.height(by))),
            NewNode::Splice { of, below, at } => {
                1 + self
                    .array_height(of)
                    .max(self.array_height(below).max(self.height(at)))
            }
        }
    }

    /// Adds a node, where it isn't there yet.
    pub(crate) fn add(&mut self, node: NewNode<'_>) -> Result<u32, TermFault>
        requires typed { IsTypedMeaning (meaning_by (meanings_of self.old) (asked_node self.old node)) }
        requires array { HasArray self.old node }
        ensures made { IfOk result (λ i. slice_get self.new i ≡ Some (asked_node self.old node.entry)) }
        ensures means { IfOk result (λ i. meaning_at self.new i ≡ meaning_by (meanings_of self.old) (asked_node self.old node.entry)) }
        ensures low { IfOk result (λ i. height_in (meaning_by (meanings_of self.old) (asked_node self.old node.entry)) ≤ HIGHEST) }
        ensures kept { Keeps self.old self.new }
        ensures added { (self.new ≡ self.old) ⊎ (self.new ≡ self.old ++ asked_node self.old node.entry ∷ []) }
        ensures err { OnErr result (self.new ≡ self.old) }
        ensures full { result ≡ Err TermFault.TooManyTerms → (length self.old ≡ LIMIT) × (IsIn (asked_node self.old node.entry) self.old → ⊥) }
        ensures high { result ≡ Err TermFault.TermTooHigh → HIGHEST < height_in (meaning_by (meanings_of self.old) (asked_node self.old node.entry)) }
    {
        let width = self.width_of_new(node);
        let height = self.height_of_new(node);
        if height > HIGHEST {
            return Err(TermFault::TermTooHigh);
        }
        let key = match key_of(self.alloc, &mut self.names, &self.keys, node) {
            Ok(key) => key,
            Err(_) => return Err(TermFault::NoMemory),
        };
        let row = Facts {
            width,
            height,
            args: arguments(key),
        };
        let place = match keep(&mut self.keys, &mut self.facts, key, row) {
            Ok(place) => place,
            Err(fault) => return Err(fault),
        };
        Ok(place as u32)
    }
}

/// The arguments of an operator, filled up to three.
fn arguments(key: Key) -> [TermId; 3]
    ensures { result ≡ arguments key }
{
    let none = TermId { number: 0 };
    match key {
        Key::One { op: _, a } => [a, none, none],
        Key::Two { op: _, a, b } => [a, b, none],
        Key::Three { op: _, a, b, c } => [a, b, c],
        _ => [none, none, none],
    }
}

impl Nodes<TermId> for Terms {
    ghost tree = { λ terms id. term_at terms id.number };

    fn shape(&self, of: TermId) -> Shape<TermId> {
        match self.keys.get_index(of.number as usize).unwrap() {
            Key::Lit(b) => Shape::Lit(*b),
            Key::One { op, a } => Shape::One { op: *op, a: *a },
            Key::Two { op, a, b } => Shape::Two {
                op: *op,
                a: *a,
                b: *b,
            },
            _ => Shape::Other,
        }
    }

    fn width(&self, of: TermId) -> u32 {
        self.facts[of.number as usize].width
    }

    fn same(&self, a: TermId, b: TermId) -> bool {
        let _nodes = &self.keys;
        a == b
    }
}
