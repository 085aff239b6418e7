//! The variables that the texts may name, and the faults of reading as text.

ghost use Rattle.std.specs.Prelude.{◌≡◌, ◌++◌, ◌∷◌, [], IfOk, OnOk};
ghost use Rattle.term_read.specs.ReadingView.{AreDistinct, AreWidths};

use lex_core::{Name, NoMemory};
use sqlite_items::Items;
use std::alloc::{AllocError, Global};
use term_read::TermReadFault;
use term_tree::{Sort, TermFault, VarDecl};

/// Declares a variable.
fn declare(
    alloc: Global,
    scope: &mut Items<VarDecl>,
    name: &[u8],
    sort: Sort,
) -> Result<(), NoMemory>
    ensures { OnOk result (scope.new ≡ scope.old ++ record { name = name.now; sort = sort } ∷ []) }
{
    let name = Name::of(alloc, name)?;
    scope.push(VarDecl { name, sort })?;
    Ok(())
}

/// Declares the variables of the cases, where there are none yet.
fn declare_all(alloc: Global, scope: &mut Items<VarDecl>) -> Result<(), NoMemory>
    requires { scope.old ≡ [] }
    ensures { OnOk result (AreDistinct scope.new × AreWidths scope.new) }
{
    declare(alloc, scope, b"x", Sort::Bits(64))?;
    declare(alloc, scope, b"i", Sort::Bits(64))?;
    declare(alloc, scope, b"j", Sort::Bits(64))?;
    declare(alloc, scope, b"b", Sort::Bits(8))?;
    declare(alloc, scope, b"t", Sort::Bits(1))?;
    declare(alloc, scope, b"q", Sort::Bits(4))?;
    declare(alloc, scope, b"w", Sort::Bits(128))?;
    declare(alloc, scope, b"F", Sort::Array)?;
    declare(alloc, scope, b"G", Sort::Array)?;
    declare(alloc, scope, b"add", Sort::Bits(8))
}

/// Three variables of 64 bits, others of 8, 1, 4 and 128 bits, two arrays, and a variable that is named as an operator.
pub fn scope(alloc: Global) -> Result<Items<VarDecl>, NoMemory>
    ensures { IfOk result (λ s. AreDistinct s × AreWidths s) }
{
    let mut scope = Items::new(alloc);
    declare_all(alloc, &mut scope)?;
    Ok(scope)
}

/// A fault at a place.
fn placed(alloc: Global, fault: &str, at: usize) -> Result<String, AllocError> {
    format!(in alloc; "{fault} {at}")
}

/// Why no term was read or made.
pub fn fault_text(alloc: Global, fault: TermReadFault) -> Result<String, AllocError> {
    match fault {
        TermReadFault::Form { at } => placed(alloc, "Form", at),
        TermReadFault::Unbound { at } => placed(alloc, "Unbound", at),
        TermReadFault::WidthDiffers { at } => placed(alloc, "WidthDiffers", at),
        TermReadFault::Term(TermFault::TermTooHigh) => String::from_str(alloc, "TermTooHigh"),
        TermReadFault::Term(_) => String::from_str(alloc, "NoMemory"),
    }
}
