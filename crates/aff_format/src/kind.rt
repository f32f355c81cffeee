// The types of a node.
ghost use Rattle.std.specs.Prelude.{◌≡◌};
ghost use Rattle.aff_format.specs.Kind.{kind_code, kind_of, KindGiven, element_size, entry_size, is_void};

use crate::edition::Edition;
use std::error::Error;
use std::fmt;

#[derive(Clone, Copy, Debug, PartialEq, Eq)]
pub enum Kind {
    Void = 1,
    Char = 2,
    Int = 3,
    Double = 4,
    Complex = 5,
}

// A code that no kind has. Not one type with `UnknownEdition`: its text says what was asked for.
#[derive(Clone, Copy, Debug, PartialEq, Eq)]
pub struct UnknownKind(pub u64);

impl fmt::Display for UnknownKind {
    ghost use Rattle.std.specs.Prelude.{Some};
    ghost use Rattle.aff_format.specs.Kind.{unknown_kind_text};

    ghost output = { λ e. Some (unknown_kind_text e) };

    fn fmt<W: fmt::Write>(&self, f: &mut fmt::Formatter<W>) -> fmt::Result {
        write!(f, "no kind has the code {}", self.0)
    }
}

impl Error for UnknownKind {}

// The kind of a code: any number may be asked for.
impl TryFrom<u64> for Kind {
    type Error = UnknownKind;

    ghost try_from_gives = { KindGiven };

    fn try_from(code: u64) -> Result<Self, UnknownKind> {
        match code {
            1 => Ok(Kind::Void),
            2 => Ok(Kind::Char),
            3 => Ok(Kind::Int),
            4 => Ok(Kind::Double),
            5 => Ok(Kind::Complex),
            _ => Err(UnknownKind(code)),
        }
    }
}

impl Kind {
    // The code of the kind in a file.
    pub fn code(self) -> u8
        ensures { result ≡ kind_code self }
    {
        self as u8
    }

    // The kind of a code, if there is one. One line over TryFrom, for the callers that want an Option.
    pub fn from_code(code: u64) -> Option<Kind>
        ensures { result ≡ kind_of code }
    {
        Kind::try_from(code).ok()
    }

    // Bytes of an element.
    pub fn element_size(self) -> usize
        ensures { result ≡ element_size self }
    {
        match self {
            Kind::Void => 0,
            Kind::Char => 1,
            Kind::Int => 4,
            Kind::Double => 8,
            Kind::Complex => 16,
        }
    }

    pub fn is_void(self) -> bool
        ensures { result ≡ is_void self }
    {
        self == Kind::Void
    }

    // Bytes of the tree entry of such a node.
    pub fn entry_size(self) -> usize
        ensures { result ≡ entry_size self }
    {
        if self.is_void() {
            Edition::VOID_ENTRY
        } else {
            Edition::DATA_ENTRY
        }
    }
}
