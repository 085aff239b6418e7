//! What the names of a program stand for where it is evaluated.

use lex_core::Name;

/// A function of the prelude.
#[derive(Clone, Copy, Debug)]
pub enum Given {
    /// `not`, of bool.
    Not,
    /// `lt_u`: whether one number is below another.
    LtU,
    /// `lt_s`: the same, of numbers in two's complement.
    LtS,
    /// `shift_left`.
    ShiftLeft,
    /// `shift_right`, where zeros come in.
    ShiftRight,
    /// `shift_right_arith`, where copies of the sign bit come in.
    ShiftRightArith,
    /// `div_u`.
    DivU,
    /// `rem_u`.
    RemU,
    /// `div_s`.
    DivS,
    /// `rem_s`.
    RemS,
    /// `mem_read_k`: a read of so many bytes.
    Read { bytes: u32 },
    /// `mem_write_k`: a write of so many bytes.
    Write { bytes: u32 },
}

/// What a name of a program stands for, numbers from 0.
#[derive(Clone, Copy, Debug)]
pub enum Thing {
    /// The register of this number.
    Register(usize),
    /// A member of an enum: the number of the enum among the text's enums, and of the member in it.
    Member { of: usize, index: usize },
    /// A function of the prelude.
    Given(Given),
    /// The function that is the definition of this number.
    Function(usize),
}

/// A name, and what it stands for.
#[derive(Debug, Drop)]
pub struct Named {
    /// The name.
    pub name: Name,
    /// What it stands for.
    pub thing: Thing,
}
