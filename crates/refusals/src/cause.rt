// Why the exchange says no to an answer.
ghost use Rattle.std.specs.Prelude.{◌≡◌};
ghost use Rattle.refusals.specs.Numbers.{cause_number, place as place_of};
ghost use Rattle.refusals.specs.declared.cause.Cause.TheVariants.{Reader};

use crate::fault::Fault;
use std::error::Error;
use std::fmt;

// A no carries its cause: a fault of the reader as the reader gave it, or the first check that fails.
#[derive(Clone, Copy, PartialEq, Eq, Debug)]
pub enum Cause {
    Reader(Fault),
    ResidueNotBelowModulus { offset: usize },
    NoPermutation { layer: usize },
    ShapeMissing { layer: usize },
    // by the commitment's number, 1 to 3: the place that is told with the number of this cause
    NotOpened { commitment: usize },
}

impl Cause {
    pub fn number(self) -> u8
        ensures { result ≡ cause_number self }
    {
        match self {
            Cause::Reader(fault) => fault.kind.number(),
            Cause::ResidueNotBelowModulus { .. } => 85,
            Cause::NoPermutation { .. } => 86,
            Cause::ShapeMissing { .. } => 87,
            Cause::NotOpened { .. } => 88,
        }
    }

    pub fn place(self) -> usize
        ensures { result ≡ place_of self }
    {
        match self {
            Cause::Reader(fault) => fault.place,
            Cause::ResidueNotBelowModulus { offset } => offset,
            Cause::NoPermutation { layer } => layer,
            Cause::ShapeMissing { layer } => layer,
            Cause::NotOpened { commitment } => commitment,
        }
    }
}

impl From<Fault> for Cause {
    ghost from_gives = { λ fault cause. cause ≡ Reader fault };

    fn from(fault: Fault) -> Cause {
        Cause::Reader(fault)
    }
}

impl fmt::Display for Cause {
    fn fmt<W: fmt::Write>(&self, f: &mut fmt::Formatter<W>) -> fmt::Result {
        match *self {
            Cause::Reader(fault) => write!(f, "{fault}"),
            Cause::ResidueNotBelowModulus { offset } => write!(
                f,
                "85: a residue is not below the modulus, at byte {offset}"
            ),
            Cause::NoPermutation { layer } => write!(
                f,
                "86: the list of layer {layer} is no permutation"
            ),
            Cause::ShapeMissing { layer } => write!(f, "87: layer {layer} lacks its shape"),
            Cause::NotOpened { commitment } => write!(
                f,
                "88: commitment {commitment} is not opened"
            ),
        }
    }
}

impl Error for Cause {}
