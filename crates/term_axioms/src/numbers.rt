// Subterms with their parts by numbers.

ghost use Rattle.std.specs.Prelude.{◌≡◌, ◌+◌, ◌<◌, ◌^◌, ◌∷◌, [], ℕ, true, length, map, take, slice_get, Some, IfOk, OnOk, All};
ghost use Rattle.term_tree.specs.Terms.{Text, Tree, sel, IsTyped};
ghost use Rattle.term_arena.specs.Nodes.{term_at};
ghost use Rattle.term_arena.specs.Answers.{id_term};
ghost use Rattle.term_copy.specs.Parts.{is_among};
ghost use Rattle.axiom_trees.specs.Listed.{PartsIn, IsListed};
ghost use Rattle.axiom_trees.specs.Numbered.{number_in, array_in, node_in, sub_in};
ghost use Rattle.term_axioms.specs.Listing.{trees};
ghost use Rattle.term_axioms.specs.Arrays.{number_for, first_byte};

use crate::arrays::Arrays;
use crate::places::Places;
use axiom_rules::{Node, Sub};
use lex_core::NoMemory;
use term_arena::{TermId, TermNode, Terms};

/// The number of a subterm.
pub fn number(terms: &Terms, places: &Places, id: TermId) -> u32
    requires listed { IsListed (trees terms.now places.now) }
    requires there { is_among (id_term terms.now id) (trees terms.now places.now) ≡ true }
    ensures { result ≡ number_in (trees terms.now places.now) (id_term terms.now id) }
{
    terms.laws();
    places.place(id)
}

/// The top of a subterm, its parts by their numbers. Of a byte this is the number of the array.
fn node_of(terms: &Terms, places: &Places, id: TermId, array: u32) -> Node
    requires term { IsTyped (id_term terms.now id) }
    requires listed { IsListed (trees terms.now places.now) }
    requires parts { PartsIn (trees terms.now places.now) (id_term terms.now id) }
    requires array { (f : Text) (i : Tree) → id_term terms.now id ≡ sel f i → array ≡ array_in (trees terms.now places.now) f }
    ensures { result ≡ node_in (trees terms.now places.now) (id_term terms.now id) }
{
    terms.laws();
    match terms.node(id) {
        TermNode::Lit(b) => Node::Literal(b.value),
        TermNode::Var { name: _, width: _ } => Node::Variable,
        TermNode::App { op, args } => match args {
            [a] => Node::One {
                op,
                a: number(terms, places, *a),
            },
            [a, b] => Node::Two {
                op,
                a: number(terms, places, *a),
                b: number(terms, places, *b),
            },
            [a, b, c] => Node::Three {
                op,
                a: number(terms, places, *a),
                b: number(terms, places, *b),
                c: number(terms, places, *c),
            },
            _ => unreachable!(),
        },
        TermNode::Sel { of: _, at } => Node::Byte {
            array,
            at: number(terms, places, at),
        },
    }
}

/// The number of the array of which the subterm at a place is a byte, which may be this place; arrays of bytes before it have
/// theirs.
fn array_of(
    terms: &Terms,
    places: &Places,
    arrays: &mut Arrays,
    id: TermId,
    here: u32,
) -> Result<u32, NoMemory>
    requires term { IsTyped (id_term terms.now id) }
    requires at { slice_get (trees terms.now places.now) here ≡ Some (id_term terms.now id) }
    requires before { (f : Text) → number_for arrays.old f ≡ first_byte (take here (trees terms.now places.now)) f }
    ensures number { IfOk result (λ n. (f : Text) (i : Tree) → id_term terms.now id ≡ sel f i → n ≡ array_in (trees terms.now places.now) f) }
    ensures after { OnOk result ((f : Text) → number_for arrays.new f ≡ first_byte (take (here + 1) (trees terms.now places.now)) f) }
{
    let _ = places;
    match terms.node(id) {
        TermNode::Sel { of, at: _ } => match arrays.get(of.bytes()) {
            Some(number) => Ok(number),
            None => {
                arrays.put(terms.alloc(), of.bytes(), here)?;
                Ok(here)
            }
        },
        TermNode::Lit(_) => Ok(here),
        TermNode::Var { name: _, width: _ } => Ok(here),
        TermNode::App { op: _, args: _ } => Ok(here),
    }
}

/// The subterm at a place.
fn sub_at(
    terms: &Terms,
    places: &Places,
    arrays: &mut Arrays,
    id: TermId,
    here: u32,
) -> Result<Sub, NoMemory>
    requires listed { IsListed (trees terms.now places.now) }
    requires at { slice_get (trees terms.now places.now) here ≡ Some (id_term terms.now id) }
    requires before { (f : Text) → number_for arrays.old f ≡ first_byte (take here (trees terms.now places.now)) f }
    ensures sub { IfOk result (λ s. s ≡ sub_in (trees terms.now places.now) (id_term terms.now id)) }
    ensures after { OnOk result ((f : Text) → number_for arrays.new f ≡ first_byte (take (here + 1) (trees terms.now places.now)) f) }
{
    let array = array_of(terms, places, arrays, id, here)?;
    Ok(Sub {
        width: terms.width(id),
        node: node_of(terms, places, id, array),
    })
}

/// The subterms, their parts by their numbers.
pub fn subs(terms: &Terms, places: &Places) -> Result<Vec<Sub>, NoMemory>
    requires listed { IsListed (trees terms.now places.now) }
    ensures { IfOk result (λ s. s.items ≡ map (sub_in (trees terms.now places.now)) (trees terms.now places.now)) }
{
    terms.laws();
    let mut arrays = Arrays::new(terms.alloc());
    let mut subs = Vec::new(terms.alloc());
    for (here, number) in places.as_slice().iter().enumerate() {
        let id = TermId { number: *number };
        subs.push(sub_at(terms, places, &mut arrays, id, here as u32)?)?;
    }
    Ok(subs)
}

/// The numbers of terms.
pub fn numbers(terms: &Terms, places: &Places, ids: &[TermId]) -> Result<Vec<u32>, NoMemory>
    requires listed { IsListed (trees terms.now places.now) }
    requires there { All (λ id. is_among (id_term terms.now id) (trees terms.now places.now) ≡ true) ids.now }
    ensures { IfOk result (λ l. l.items ≡ map (number_in (trees terms.now places.now)) (map (id_term terms.now) ids.now)) }
{
    let mut numbers = Vec::new(terms.alloc());
    for id in ids {
        numbers.push(number(terms, places, *id))?;
    }
    Ok(numbers)
}
