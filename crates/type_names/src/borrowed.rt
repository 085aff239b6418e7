//! Types, locals and faults as they are borrowed from a program while it is typed: they take no memory.

ghost use Rattle.std.specs.Prelude.{◌≡◌, IfOk};
ghost use Rattle.sail_syntax.specs.Types.{is_same_type};
ghost use Rattle.sail_syntax.specs.declared.types.Ty.TheVariants as ty;
ghost use Rattle.type_names.specs.Borrowed.{type_of};

use lex_core::{Name, NoMemory};
use sail_syntax::Ty;
use std::alloc::Global;

/// A type, whose name is borrowed.
#[derive(Clone, Copy)]
pub enum TyRef<'a> {
    /// `unit`.
    Unit,
    /// `bool`.
    Bool,
    /// `bits(width)`.
    Bits(u32),
    /// The enum of this name.
    Enum(&'a [u8]),
}

/// What a local name stands for.
#[derive(Clone, Copy)]
pub enum SortRef<'a> {
    /// A value of this type, if the type is known; and whether it may be assigned.
    Holds {
        ty: Option<TyRef<'a>>,
        assigned: bool,
    },
    /// The number of a foreach, from the first one to the last one.
    Counts {
        from: u32,
        to: u32,
    },
}

/// A local name, and what it stands for.
#[derive(Clone, Copy)]
pub struct LocalRef<'a> {
    /// The name.
    pub name: &'a [u8],
    /// What it stands for.
    pub sort: SortRef<'a>,
}

/// What is wrong at a place.
#[derive(Clone, Copy)]
pub enum WhyRef<'a> {
    /// There is no such name here, or none of the kind that stands here.
    Unknown(&'a [u8]),
    /// The name is taken.
    Twice(&'a [u8]),
    /// The place asks for one type, and what stands there has another.
    Differs { want: TyRef<'a>, got: TyRef<'a> },
    /// The function isn't complete above this place.
    Later(&'a [u8]),
    /// The function calls too deep.
    TooHigh(&'a [u8]),
}

/// A fault and where it stands, in bytes of the text.
#[derive(Clone, Copy)]
pub struct FaultRef<'a> {
    /// Where it stands.
    pub at: usize,
    /// What is wrong there.
    pub why: WhyRef<'a>,
}

impl<'a> TyRef<'a> {
    /// A type, borrowed.
    pub fn of(ty: &'a Ty) -> TyRef<'a>
        ensures { type_of result ≡ ty.now }
    {
        match ty {
            Ty::Unit => TyRef::Unit,
            Ty::Bool => TyRef::Bool,
            Ty::Bits(width) => TyRef::Bits(*width),
            Ty::Enum(name) => TyRef::Enum(name.bytes()),
        }
    }

    /// Whether the other type is the same one.
    pub fn is(self, other: TyRef<'_>) -> bool
        ensures { result ≡ is_same_type (type_of self.entry) (type_of other.entry) }
    {
        match self {
            TyRef::Unit => other.is_unit(),
            TyRef::Bool => other.is_bool(),
            TyRef::Bits(width) => other.has_width(width),
            TyRef::Enum(name) => other.has_name(name),
        }
    }

    fn is_unit(self) -> bool
        ensures { result ≡ is_same_type ty.Unit (type_of self.entry) }
    {
        match self {
            TyRef::Unit => true,
            TyRef::Bool | TyRef::Bits(_) | TyRef::Enum(_) => false,
        }
    }

    fn is_bool(self) -> bool
        ensures { result ≡ is_same_type ty.Bool (type_of self.entry) }
    {
        match self {
            TyRef::Bool => true,
            TyRef::Unit | TyRef::Bits(_) | TyRef::Enum(_) => false,
        }
    }

    fn has_width(self, width: u32) -> bool
        ensures { result ≡ is_same_type (ty.Bits width) (type_of self.entry) }
    {
        match self {
            TyRef::Bits(own) => width == own,
            TyRef::Unit | TyRef::Bool | TyRef::Enum(_) => false,
        }
    }

    fn has_name(self, name: &[u8]) -> bool
        ensures { result ≡ is_same_type (ty.Enum name.now) (type_of self.entry) }
    {
        match self {
            TyRef::Enum(own) => name == own,
            TyRef::Unit | TyRef::Bool | TyRef::Bits(_) => false,
        }
    }

    /// The type with a name of its own.
    pub fn owned(self, alloc: Global) -> Result<Ty, NoMemory>
        ensures { IfOk result (λ own. own ≡ type_of self.entry) }
    {
        match self {
            TyRef::Unit => Ok(Ty::Unit),
            TyRef::Bool => Ok(Ty::Bool),
            TyRef::Bits(width) => Ok(Ty::Bits(width)),
            TyRef::Enum(name) => Ok(Ty::Enum(Name::of(alloc, name)?)),
        }
    }
}
