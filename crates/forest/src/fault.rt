ghost use Rattle.std.specs.Prelude.{◌≡◌};
ghost use Rattle.forest.specs.declared.fault.PlantFault.TheVariants.{Mesh as OfMesh};
ghost use Rattle.forest.specs.Faults.{told};

use mesh::MeshFault;

/// Why a planting is refused.
#[derive(Clone, Copy, PartialEq, Eq, Debug)]
pub enum PlantFault {
    /// The mesh is faulty.
    Mesh(MeshFault),
    /// The planted level is deeper than the scheme.
    TooDeep,
    /// There are more leaves than memory.
    NoRoom,
}

impl From<MeshFault> for PlantFault {
    ghost from_gives = { λ fault e. e ≡ OfMesh fault };

    fn from(fault: MeshFault) -> PlantFault {
        Self::Mesh(fault)
    }
}

impl PlantFault {
    /// The number of the fault.
    // Listings print numbers for the number and for the place: docs/REFUSALS.md.
    pub fn number(&self) -> u8
        ensures { result ≡ (told self.now).0 }
    {
        match self {
            PlantFault::Mesh(fault) => fault.number(),
            PlantFault::TooDeep => 10,
            PlantFault::NoRoom => 11,
        }
    }

    /// Its place: the mesh's joint row, counted from 1, or 0.
    pub fn at(&self) -> usize
        ensures { result ≡ (told self.now).1 }
    {
        match self {
            PlantFault::Mesh(fault) => fault.at(),
            PlantFault::TooDeep | PlantFault::NoRoom => 0,
        }
    }
}
