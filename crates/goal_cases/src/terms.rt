//! Terms as text, over the variables of the cases.

ghost use Rattle.std.specs.Prelude.{◌≡◌, ◌≤◌, ◌++◌, ◌∷◌, [], length, IfOk, IfSome, OnOk, Ok};
ghost use Rattle.lex_core.specs.Lexing.{cut};
ghost use Rattle.term_tree.specs.Terms.{IsTerm};
ghost use Rattle.term_tree.specs.View.{tree};
ghost use Rattle.term_read.specs.ReadingView.{AreDistinct, AreWidths};

use lex_core::{Name, NoMemory, Token, tokens};
use sqlite_items::Items;
use std::alloc::Global;
use term_read::{TermAt, TermReadFault, read_term};
use term_tree::{Sort, Term, VarDecl};

/// Declares a variable.
fn declare(
    alloc: Global,
    scope: &mut Items<VarDecl>,
    name: &[u8],
    sort: Sort,
) -> Result<(), NoMemory>
    ensures { OnOk result (scope.new ≡ scope.old ++ record { name = name.now; sort = sort } ∷ []) }
{
    let name = Name::of(alloc, name)?;
    scope.push(VarDecl { name, sort })?;
    Ok(())
}

/// Declares the variables of the cases, where there are none yet.
fn declare_all(alloc: Global, scope: &mut Items<VarDecl>) -> Result<(), NoMemory>
    requires { scope.old ≡ [] }
    ensures { OnOk result (AreDistinct scope.new × AreWidths scope.new) }
{
    declare(alloc, scope, b"p", Sort::Bits(1))?;
    declare(alloc, scope, b"q", Sort::Bits(1))?;
    declare(alloc, scope, b"b", Sort::Bits(8))?;
    declare(alloc, scope, b"x", Sort::Bits(64))?;
    declare(alloc, scope, b"y", Sort::Bits(64))?;
    declare(alloc, scope, b"F", Sort::Array)?;
    declare(alloc, scope, b"G", Sort::Array)
}

/// The variables of the cases.
fn scope(alloc: Global) -> Result<Items<VarDecl>, NoMemory>
    ensures { IfOk result (λ s. AreDistinct s × AreWidths s) }
{
    let mut scope = Items::new(alloc);
    declare_all(alloc, &mut scope)?;
    Ok(scope)
}

/// The term that tokens spell.
fn term_of(alloc: Global, text: &[u8], tokens: &[Token]) -> Result<TermAt, TermReadFault>
    requires { cut text.now ≡ Ok tokens.now }
    ensures { IfOk result (λ t. IsTerm (tree t.term)) }
{
    let scope = scope(alloc)?;
    read_term(alloc, text, tokens, 0, scope.as_slice())
}

/// The term that a text spells.
pub fn term(alloc: Global, text: &[u8]) -> Option<Term>
    ensures { IfSome result (λ t. IsTerm (tree t)) }
{
    match tokens(alloc, text) {
        Ok(found) => match term_of(alloc, text, found.as_slice()) {
            Ok(read) => Some(read.term),
            Err(_) => None,
        },
        Err(_) => None,
    }
}
