// Nodes that are added, by the contract of whatever may add terms.

ghost use Rattle.std.specs.Prelude.{◌≡◌, IfOk, OnErr};
ghost use Rattle.term_tree.specs.Terms.{IsTyped, IsTypedArray, IsTerm, IsArrayTerm};
ghost use Rattle.term_arena.specs.Nodes.{as_term, as_array, meaning_by, meanings_of};
ghost use Rattle.term_arena.specs.Arena.{asked_node};
ghost use Rattle.term_arena.specs.Keeping.{HasArray};
ghost use Rattle.term_arena.specs.Answers.{id_term, id_array};
ghost use Rattle.term_arena.specs.Said.{sole};
ghost use Rattle.term_arena.specs.Makes.{Makes};

use crate::node::{ArrayId, NewNode, TermId};
use crate::terms::Terms;
use term_tree::TermFault;

impl Terms {
    /// Adds the node of a term, where it isn't there yet.
    pub fn add_term(&mut self, node: NewNode<'_>) -> Result<TermId, TermFault>
        requires typed { IsTyped (as_term (meaning_by (meanings_of self.old) (asked_node self.old node))) }
        requires array { HasArray self.old node }
        ensures makes { Makes self.old self.new id_term result (λ last. sole as_term (meaning_by (meanings_of last) (asked_node self.old node.entry))) }
        ensures term { IfOk result (λ id. IsTerm (id_term self.new id)) }
    {
        self.laws();
        match self.add(node) {
            Ok(number) => Ok(TermId { number }),
            Err(fault) => Err(fault),
        }
    }

    /// Adds the node of an array term, where it isn't there yet.
    pub fn add_array(&mut self, node: NewNode<'_>) -> Result<ArrayId, TermFault>
        requires typed { IsTypedArray (as_array (meaning_by (meanings_of self.old) (asked_node self.old node))) }
        requires array { HasArray self.old node }
        ensures makes { Makes self.old self.new id_array result (λ last. sole as_array (meaning_by (meanings_of last) (asked_node self.old node.entry))) }
        ensures array { IfOk result (λ id. IsArrayTerm (id_array self.new id)) }
        ensures err { OnErr result (self.new ≡ self.old) }
    {
        self.laws();
        match self.add(node) {
            Ok(number) => Ok(ArrayId { number }),
            Err(fault) => Err(fault),
        }
    }
}
