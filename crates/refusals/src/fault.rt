// What a reader finds wrong with a message, and where.
ghost use Rattle.std.specs.Prelude.{◌≡◌};
ghost use Rattle.refusals.specs.Numbers.{fault_number};

use std::error::Error;
use std::fmt;

// How a field of a message departs from the format.
#[derive(Clone, Copy, PartialEq, Eq, Debug)]
pub enum FaultKind {
    // fewer bytes are left than the field's head, or its content, takes
    CutOff,
    WrongTag,
    // the field has another length than the one that it must have
    WrongLength,
    // bytes stand behind the last field
    LeftOver,
}

impl FaultKind {
    pub fn number(self) -> u8
        ensures { result ≡ fault_number self }
    {
        match self {
            FaultKind::CutOff => 81,
            FaultKind::WrongTag => 82,
            FaultKind::WrongLength => 83,
            FaultKind::LeftOver => 84,
        }
    }
}

// A fault with its place: the offset of the field's tag in the message, or of the first byte left over.
#[derive(Clone, Copy, PartialEq, Eq, Debug)]
pub struct Fault {
    pub kind: FaultKind,
    pub place: usize,
}

impl fmt::Display for FaultKind {
    fn fmt<W: fmt::Write>(&self, f: &mut fmt::Formatter<W>) -> fmt::Result {
        let words = match *self {
            FaultKind::CutOff => "a field is cut off",
            FaultKind::WrongTag => "a field has the wrong tag",
            FaultKind::WrongLength => "a field has the wrong length",
            FaultKind::LeftOver => "bytes are left over behind the last field",
        };
        f.write_str(words)
    }
}

impl fmt::Display for Fault {
    fn fmt<W: fmt::Write>(&self, f: &mut fmt::Formatter<W>) -> fmt::Result {
        let Fault { kind, place } = *self;
        let number = kind.number();
        write!(f, "{number}: {kind}, at byte {place}")
    }
}

impl Error for Fault {}
