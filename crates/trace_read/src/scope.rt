//! The variables of a path.

ghost use Rattle.std.specs.Prelude.{◌≡◌, ◌≤◌, ◌<◌, IfOk, OnOk, length, take};
ghost use Rattle.bv_bits.specs.Bits.{IsWidth};
ghost use Rattle.trace_plain.specs.Rules.{var_name};
ghost use Rattle.trace_read.specs.Readers.{IsPath};
ghost use Rattle.trace_read.specs.Paths as spec;
ghost use Rattle.trace_read.specs.declared.reading.TheConstants.{MOST};

use lex_core::{Name, NoMemory};
use sqlite_items::Items;
use std::alloc::Global;
use term_tree::{Sort, VarDecl};

/// The name of the variable of a number: `v` and the number.
pub fn variable_name(alloc: Global, number: u32) -> Result<Name, NoMemory>
    ensures { IfOk result (λ x. x ≡ var_name number) }
{
    let text = format!(in alloc; "v{number}")?;
    Name::of(alloc, text.as_bytes())
}

/// Binds one more variable, of so many bits.
#[tactic(auto, using(crate::proofs::ScopeLemmas::path_more))]
pub fn bind(alloc: Global, scope: &mut Items<VarDecl>, width: u32) -> Result<(), NoMemory>
    requires path { IsPath scope.old }
    requires room { length scope.old < MOST }
    requires width { IsWidth width }
    ensures bound { OnOk result (scope.new ≡ spec.bound width scope.old) }
    ensures path { OnOk result (IsPath scope.new) }
{
    let name = variable_name(alloc, scope.len() as u32)?;
    scope.push(VarDecl {
        name,
        sort: Sort::Bits(width),
    })?;
    Ok(())
}

/// Leaves the first so many variables.
pub fn cut_back(scope: &mut Items<VarDecl>, count: usize)
    requires path { IsPath scope.old }
    requires within { count ≤ length scope.old }
    ensures left { scope.new ≡ take count scope.old }
    ensures path { IsPath scope.new }
{
    while scope.len() > count {
        scope.pop();
    }
}
