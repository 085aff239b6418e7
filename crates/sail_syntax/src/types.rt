ghost use Rattle.std.specs.Prelude.{◌≡◌, IfOk};
ghost use Rattle.sail_syntax.specs.Types.{is_same_type};

use lex_core::{Name, NoMemory};
use std::alloc::Global;

/// The type of a value.
#[derive(Debug, Drop)]
pub enum Ty {
    /// `unit`, which has the one value `()`.
    Unit,
    /// `bool`.
    Bool,
    /// `bits(width)`: vectors of so many bits, from 1 to 128.
    Bits(u32),
    /// The enum of this name.
    Enum(Name),
}

/// A parameter of a function.
#[derive(Debug, Drop)]
pub struct Param {
    /// The name that the body has for the argument.
    pub name: Name,
    /// The type of the argument.
    pub ty: Ty,
}

impl Ty {
    /// Whether the other type is the same one.
    pub fn is(&self, other: &Ty) -> bool
        ensures { result ≡ is_same_type self.now other.now }
    {
        match (self, other) {
            (Ty::Unit, Ty::Unit) => true,
            (Ty::Bool, Ty::Bool) => true,
            (Ty::Bits(width), Ty::Bits(other)) => *width == *other,
            (Ty::Enum(name), Ty::Enum(other)) => name.is(other.bytes()),
            _ => false,
        }
    }

    /// An equal type.
    pub fn copy(&self, alloc: Global) -> Result<Ty, NoMemory>
        ensures { IfOk result (λ ty. ty ≡ self.now) }
    {
        match self {
            Ty::Unit => Ok(Ty::Unit),
            Ty::Bool => Ok(Ty::Bool),
            Ty::Bits(width) => Ok(Ty::Bits(*width)),
            Ty::Enum(name) => Ok(Ty::Enum(name.copy(alloc)?)),
        }
    }
}
