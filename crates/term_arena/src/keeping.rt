// Nodes that are kept: each once.

ghost use Rattle.std.specs.Prelude.{◌≡◌, ◌≢◌, ◌≤◌, ◌<◌, ◌++◌, ◌⊎◌, [], ◌∷◌, length, map, false, slice_get, Some, Err, All, AllPairs, IfOk, OnErr};
ghost use Rattle.term_arena.specs.Texts.{Grows};
ghost use Rattle.term_arena.specs.Arena.{plain, IsNamed, asked_node};
ghost use Rattle.term_arena.specs.Keeping.{Added, IsIn, HasArray};

use crate::names::Names;
use crate::node::{Facts, Key, NewNode};
use indexmap::IndexSet;
use lex_core::NoMemory;
use std::alloc::Global;
use term_tree::TermFault;

/// The most nodes that are kept.
pub const LIMIT: usize = 1_048_576;

/// Puts a node behind the others with what is known of it, where it isn't there yet; its place.
pub fn keep(
    keys: &mut IndexSet<Key>,
    facts: &mut Vec<Facts>,
    key: Key,
    row: Facts,
) -> Result<usize, TermFault>
    requires { length facts.old.items ≡ length keys.old.keys }
    ensures stored { IfOk result (λ i. slice_get keys.new.keys i ≡ Some key) }
    ensures added { IfOk result (λ i. Added key row keys.old.keys keys.new.keys facts.old.items facts.new.items) }
    ensures once { IfOk result (λ i. AllPairs (λ x y. x ≢ y) keys.new.keys) }
    ensures small { IfOk result (λ i. length keys.old.keys ≤ LIMIT → length keys.new.keys ≤ LIMIT) }
    ensures err { OnErr result ((keys.new.keys ≡ keys.old.keys) × (facts.new.items ≡ facts.old.items)) }
    ensures full { result ≡ Err TermFault.TooManyTerms → (length keys.old.keys ≡ LIMIT) × (IsIn key keys.old.keys → ⊥) }
    ensures low { result ≢ Err TermFault.TermTooHigh }
{
    let count = keys.len();
    if count == LIMIT && !keys.contains(&key) {
        return Err(TermFault::TooManyTerms);
    }
    let Ok(()) = facts.push(row) else {
        return Err(TermFault::NoMemory);
    };
    let Ok((index, _)) = keys.insert_full(key) else {
        facts.truncate(count);
        return Err(TermFault::NoMemory);
    };
    if keys.len() == count {
        facts.truncate(count);
    }
    Ok(index)
}

/// The node that is asked for, as it is kept; its name gets a number.
pub fn key_of(
    alloc: Global,
    names: &mut Names,
    keys: &IndexSet<Key>,
    node: NewNode<'_>,
) -> Result<Key, NoMemory>
    requires named { All (IsNamed (length names.old)) keys.now.keys }
    requires once { AllPairs (λ x y. x ≢ y) names.old }
    requires array { HasArray (map (plain names.old) keys.now.keys) node }
    ensures key { IfOk result (λ k. plain names.new k ≡ asked_node (map (plain names.old) keys.now.keys) node.entry) }
    ensures named { IfOk result (λ k. IsNamed (length names.new) k) }
    ensures grows { Grows names.old names.new }
    ensures once { AllPairs (λ x y. x ≢ y) names.new }
{
    match node {
        NewNode::Lit(b) => Ok(Key::Lit(b)),
        NewNode::Var { name, width } => match names.number(alloc, name) {
            Ok(name) => Ok(Key::Var { name, width }),
            Err(fault) => Err(fault),
        },
        NewNode::One { op, a } => Ok(Key::One { op, a }),
        NewNode::Two { op, a, b } => Ok(Key::Two { op, a, b }),
        NewNode::Three { op, a, b, c } => Ok(Key::Three { op, a, b, c }),
        NewNode::Sel { of, at } => match names.number(alloc, of) {
            Ok(of) => Ok(Key::Sel { of, at }),
            Err(fault) => Err(fault),
        },
        NewNode::SelOf { of, at } => match keys.get_index(of.number as usize) {
            Some(Key::Array { name }) => Ok(Key::Sel { of: *name, at }),
            _ => unreachable!(),
        },
        NewNode::Array { name } => match names.number(alloc, name) {
            Ok(name) => Ok(Key::Array { name }),
            Err(fault) => Err(fault),
        },
        NewNode::Upd { of, at, by } => Ok(Key::Upd { of, at, by }),
        NewNode::Splice { of, below, at } => Ok(Key::Splice { of, below, at }),
    }
}
