ghost use Rattle.std.specs.Prelude.{◌≡◌, Some};
ghost use Rattle.listing.specs.Wanting.{wanting_text, unlisted_text};
ghost use Rattle.listing.specs.declared.fault.Fault.TheVariants.{Reader, Planting, NoMemory as Memory};
ghost use Rattle.listing.specs.declared.unlisted.Unlisted.TheVariants.{Refused, Wanting};

use crate::fault::Fault;
use description::{Refusal, Shape};
use forest::PlantFault;
use std::alloc::AllocError;
use std::error::Error;
use std::fmt;

/// What a description may ask for, and the program does not do yet.
#[derive(Clone, Copy, PartialEq, Eq, Debug)]
pub enum NotYet {
    /// Another shape than the line.
    Shaped(Shape),
    /// A step.
    Stepped,
}

/// Why a description is not listed.
#[derive(Clone, Copy, PartialEq, Eq, Debug)]
pub enum Unlisted {
    /// It is at fault, or there was no memory.
    Refused(Fault),
    /// It asks for what is not there yet.
    Wanting(NotYet),
}

impl NotYet {
    /// It in a sentence.
    pub fn sentence(&self) -> &'static str
        ensures { result.now ≡ wanting_text self.now }
    {
        match self {
            NotYet::Shaped(_) =>
                "this version serves the line shape only, and the description has another shape",
            NotYet::Stepped => "this version takes no steps, and the description has some",
        }
    }
}

/// Its sentence.
impl fmt::Display for NotYet {
    ghost output = { λ what. Some (wanting_text what) };

    fn fmt<W: fmt::Write>(&self, f: &mut fmt::Formatter<W>) -> fmt::Result {
        f.write_str(self.sentence())
    }
}

impl Error for NotYet {}

/// The fault's words, or the sentence.
impl fmt::Display for Unlisted {
    ghost output = { λ unlisted. Some (unlisted_text unlisted) };

    fn fmt<W: fmt::Write>(&self, f: &mut fmt::Formatter<W>) -> fmt::Result {
        match self {
            Unlisted::Refused(fault) => write!(f, "{fault}"),
            Unlisted::Wanting(what) => write!(f, "{what}"),
        }
    }
}

impl Error for Unlisted {}

impl From<Refusal> for Unlisted {
    ghost from_gives = { λ refusal u. u ≡ Refused (Reader refusal) };

    fn from(refusal: Refusal) -> Unlisted {
        Unlisted::Refused(Fault::Reader(refusal))
    }
}

impl From<PlantFault> for Unlisted {
    ghost from_gives = { λ fault u. u ≡ Refused (Planting fault) };

    fn from(fault: PlantFault) -> Unlisted {
        Unlisted::Refused(Fault::Planting(fault))
    }
}

impl From<AllocError> for Unlisted {
    ghost from_gives = { λ _ u. u ≡ Refused Memory };

    fn from(_e: AllocError) -> Unlisted {
        Unlisted::Refused(Fault::NoMemory)
    }
}

impl From<NotYet> for Unlisted {
    ghost from_gives = { λ missing u. u ≡ Wanting missing };

    fn from(missing: NotYet) -> Unlisted {
        Unlisted::Wanting(missing)
    }
}
