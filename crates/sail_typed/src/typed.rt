//! The check of a program's types, and the program that passed it.

ghost use Rattle.std.specs.Prelude.{◌≡◌, Some, None};
ghost use Rattle.std.specs.List.{position};
ghost use Rattle.lex_core.specs.Want.{Gives};
ghost use Rattle.sail_syntax.specs.Program.{registers_of};
ghost use Rattle.sail_syntax.specs.View.{program_of};
ghost use Rattle.type_rules.specs.Program.{type_fault, is_pc, pc_number};
ghost use Rattle.sail_names.specs.Things.{find_thing, things_of};
ghost use Rattle.sail_typed.specs.Checked.{checked, is_want, register_at};

use lex_core::{Name, NoMemory, RegDecl};
use sail_names::{Thing, names_of, thing_of};
use sail_syntax::{Program, registers};
use sqlite_items::Items;
use std::alloc::Global;
use std::collections::BTreeMap;
use std::marker::Model;
use type_programs::type_fault;
use type_rules::TypeFault;

/// A program that is typed, which contracts see as the program itself.
#[derive(Drop)]
pub struct Typed {
    program: Program,
    registers: Items<RegDecl>,
    pc: usize,
    things: BTreeMap<Vec<u8>, Thing>,
}

impl Model for Typed {
    ghost use Rattle.sail_syntax.specs.declared.definitions.Program.{Program};
    ghost use Rattle.sail_syntax.specs.contracts.definitions.Program.{the_row};
    ghost use Rattle.sail_syntax.specs.View.{program_of};
    ghost use Rattle.sail_typed.specs.Checked.{IsPrepared};

    ghost Value = { Program };

    ghost coded = { the_row.coded };

    ghost view = { λ t. t.program };

    ghost invariant = { λ t. IsPrepared (program_of t.program) t.registers t.pc t.things };
}

/// The number of the first register PC of 64 bits.
fn pc_number(registers: &[RegDecl]) -> Option<usize>
    ensures { result ≡ position is_pc registers.now }
{
    registers
        .iter()
        .position(|register| register.name.is(b"PC") && register.width == 64)
}

/// The program as a typed one, or the fault that is told of it: of all faults that can be said, the first by its place and then by its number; then that
/// `instr`, PC or a fitting `instr16` is missing.
#[tactic(auto, using(crate::proofs::PcLemmas::typed_has_pc))]
pub fn check(alloc: Global, program: Program) -> Result<Typed, TypeFault>
    ensures exact { Gives is_want (λ t. t) (checked program) result }
{
    match type_fault(alloc, &program) {
        Ok(None) => (),
        Ok(Some(fault)) => return Err(fault),
        Err(NoMemory) => return Err(TypeFault::NoMemory),
    }
    let registers = match registers(alloc, &program) {
        Ok(registers) => registers,
        Err(NoMemory) => return Err(TypeFault::NoMemory),
    };
    let things = match names_of(alloc, &program) {
        Ok(things) => things,
        Err(NoMemory) => return Err(TypeFault::NoMemory),
    };
    let Some(pc) = pc_number(registers.as_slice()) else {
        return Err(TypeFault::NoPc);
    };
    Ok(Typed {
        program,
        registers,
        pc,
        things,
    })
}

impl Typed {
    /// The program.
    pub fn program(&self) -> &Program
        ensures value { result.now ≡ self.now }
        ensures typed { type_fault (program_of self.now) ≡ None }
    {
        &self.program
    }

    /// The names and widths of its registers, in the order of their definitions.
    pub fn registers(&self) -> &[RegDecl]
        ensures { result.now ≡ registers_of (program_of self.now) }
    {
        self.registers.as_slice()
    }

    /// The number of the register of this name among the registers, from 0; none where no register has it.
    pub fn register(&self, name: &Name) -> Option<usize>
        ensures { result ≡ register_at name.now (registers_of (program_of self.now)) }
    {
        self.registers
            .as_slice()
            .iter()
            .position(|register| register.name.is(name.bytes()))
    }

    /// What a name of the program stands for where it is evaluated; none where the program has no such name.
    pub fn thing(&self, name: &[u8]) -> Option<Thing>
        ensures { result ≡ find_thing name.now (things_of (program_of self.now)) }
    {
        thing_of(&self.things, name)
    }

    /// The number of the register PC, which has 64 bits.
    pub fn pc(&self) -> usize
        ensures { pc_number (program_of self.now) ≡ Some result }
    {
        self.pc
    }
}
