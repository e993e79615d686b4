ghost use Rattle.std.specs.Prelude.{◌≡◌, Some};
ghost use Rattle.listing.specs.Told.{told};
ghost use Rattle.listing.specs.Text.{layer_word, fault_words};

use description::Refusal;
use forest::PlantFault;
use std::error::Error;
use std::fmt;

/// Where a fault is found.
#[derive(Clone, Copy, PartialEq, Eq, Debug)]
pub enum Layer {
    Reader,
    Mesh,
    Forest,
}

/// The word for a layer.
impl fmt::Display for Layer {
    ghost output = { λ layer. Some (layer_word layer) };

    fn fmt<W: fmt::Write>(&self, f: &mut fmt::Formatter<W>) -> fmt::Result {
        f.write_str(match self {
            Layer::Reader => "reader",
            Layer::Mesh => "mesh",
            Layer::Forest => "forest",
        })
    }
}

/// Why there is no listing.
#[derive(Clone, Copy, PartialEq, Eq, Debug)]
pub enum Fault {
    /// The description is damaged.
    Reader(Refusal),
    /// Its mesh is faulty, or it cannot be planted.
    Planting(PlantFault),
    /// There was no heap memory for the leaves.
    NoMemory,
}

impl Fault {
    /// Where it is found.
    pub fn layer(&self) -> Layer
        ensures { result ≡ (told self.now).0 }
    {
        match self {
            Fault::Reader(_) => Layer::Reader,
            Fault::Planting(PlantFault::Mesh(_)) => Layer::Mesh,
            Fault::Planting(PlantFault::TooDeep)
            | Fault::Planting(PlantFault::NoRoom)
            | Fault::NoMemory => Layer::Forest,
        }
    }

    /// Its number.
    // Listings print numbers for the number and for the place: docs/REFUSALS.md.
    pub fn number(&self) -> u8
        ensures { result ≡ (told self.now).1 }
    {
        match self {
            Fault::Reader(refusal) => refusal.number(),
            Fault::Planting(fault) => fault.number(),
            Fault::NoMemory => 17,
        }
    }

    /// Its place: a byte for the reader, a joint row counted from 1 for the mesh, or 0.
    pub fn at(&self) -> usize
        ensures { result ≡ (told self.now).2 }
    {
        match self {
            Fault::Reader(refusal) => refusal.at(),
            Fault::Planting(fault) => fault.at(),
            Fault::NoMemory => 0,
        }
    }
}

/// What its line says.
impl fmt::Display for Fault {
    ghost output = { λ fault. Some (fault_words fault) };

    fn fmt<W: fmt::Write>(&self, f: &mut fmt::Formatter<W>) -> fmt::Result {
        let layer = self.layer();
        let number = self.number();
        let at = self.at();
        write!(f, "E {layer} {number} {at}")
    }
}

impl Error for Fault {}
