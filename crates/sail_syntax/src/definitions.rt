ghost use Rattle.std.specs.Prelude.{◌≡◌, IfOk, IfSome, slice_get};
ghost use Rattle.std.specs.Option.{option_copied, option_map};
ghost use Rattle.sail_syntax.specs.Program.{function, function_of, function_place, is_function, registers_of};
ghost use Rattle.sail_syntax.specs.View.{definition_of, program_of};

use crate::tree::Expr;
use crate::types::{Param, Ty};
use lex_core::{Name, NoMemory, RegDecl};
use sqlite_items::Items;
use std::alloc::Global;

/// A definition of a program. Its place `at` is where its first token begins, in bytes of the text.
#[derive(Debug, Drop)]
pub enum Def {
    /// `default Order dec`.
    Order,
    /// `register name : bits(width)`, from 1 to 128 bits.
    Register {
        name: Name,
        width: u32,
        at: usize,
    },
    /// `enum name = { members }`.
    Enum {
        name: Name,
        members: Items<Name>,
        at: usize,
    },
    /// `val name : (args) -> result`, the types of a function that is defined later.
    Val {
        name: Name,
        args: Items<Ty>,
        result: Ty,
        at: usize,
    },
    /// `function name(params) -> result = body`.
    Function {
        name: Name,
        params: Items<Param>,
        result: Ty,
        body: Expr,
        at: usize,
    },
}

/// A program: its definitions, in the order of the text.
#[derive(Debug, Drop)]
pub struct Program {
    /// From the first to the last.
    pub defs: Items<Def>,
}

impl Def {
    /// Whether it is the function of this name.
    fn is_function(&self, name: &[u8]) -> bool
        ensures { result ≡ is_function name.now (definition_of self.now) }
    {
        match self {
            Def::Function { name: own, .. } => own.is(name),
            _ => false,
        }
    }
}

impl Program {
    /// The first function of this name; none where the program has no function of it.
    pub fn function(&self, name: &[u8]) -> Option<&Def>
        ensures { option_map definition_of (option_copied result)
            ≡ option_map function (function_of (program_of self.now) name.now) }
    {
        for def in self.defs.as_slice() {
            if def.is_function(name) {
                return Some(def);
            }
        }
        None
    }

    /// The number of the first function of this name among the definitions, counted from 0; none where
    /// the program has no function of it.
    #[tactic(auto, using(crate::proofs::FunctionAt::function_at))]
    pub fn function_place(&self, name: &[u8]) -> Option<usize>
        ensures place { result ≡ function_place (program_of self.now) name.now }
        ensures found { IfSome result (λ place. slice_get (program_of self.now) place
            ≡ option_map function (function_of (program_of self.now) name.now)) }
    {
        for (place, def) in self.defs.as_slice().iter().enumerate() {
            if def.is_function(name) {
                return Some(place);
            }
        }
        None
    }
}

/// The names and widths of the program's registers, in the order of their definitions.
pub fn registers(alloc: Global, program: &Program) -> Result<Items<RegDecl>, NoMemory>
    ensures { IfOk result (λ all. all ≡ registers_of (program_of program.now)) }
{
    let mut all = Items::new(alloc);
    for def in program.defs.as_slice() {
        if let Def::Register { name, width, .. } = def {
            all.push(RegDecl {
                name: name.copy(alloc)?,
                width: *width,
            })?;
        }
    }
    Ok(all)
}
