ghost use Rattle.std.specs.Prelude.{◌≡◌};
ghost use Rattle.description.specs.Told.{told};
ghost use Rattle.description.specs.declared.refusal.Refusal.TheVariants.{NoMemory as Memory};

use std::alloc::AllocFailed;

/// Why a description was not read; `at` is where the head, row or step at fault begins.
#[derive(Clone, Copy, PartialEq, Eq, Debug)]
pub enum Refusal {
    /// The input has more than 8,192 bytes.
    TooLong,
    /// A step's tag is none of 6, 7 and 8.
    UnknownTag { at: usize },
    /// Fewer bytes are left than the part has.
    CutOff { at: usize },
    /// A value is outside its bounds.
    Outside { at: usize },
    /// There was no memory for what was read.
    NoMemory,
}

impl Refusal {
    /// The refusal's number.
    // Listings print numbers for the number and for the place: docs/REFUSALS.md.
    pub fn number(&self) -> u8
        ensures { result ≡ (told self.now).0 }
    {
        match self {
            Refusal::CutOff { .. } => 1,
            Refusal::UnknownTag { .. } => 2,
            Refusal::Outside { .. } => 4,
            Refusal::TooLong => 5,
            Refusal::NoMemory => 17,
        }
    }

    /// The place of the part at fault, or 0 where none is.
    pub fn at(&self) -> usize
        ensures { result ≡ (told self.now).1 }
    {
        match self {
            Refusal::CutOff { at } | Refusal::UnknownTag { at } | Refusal::Outside { at } => *at,
            Refusal::TooLong | Refusal::NoMemory => 0,
        }
    }
}

impl<T: Drop> From<AllocFailed<T>> for Refusal {
    ghost from_gives = { λ _ r. r ≡ Memory };

    fn from(_e: AllocFailed<T>) -> Refusal {
        Refusal::NoMemory
    }
}
