ghost use Rattle.std.specs.Prelude.{◌≡◌};
ghost use Rattle.mesh.specs.Faults.{told};

/// Why a mesh is refused: the first fault of its check. Rows are counted from 1.
#[derive(Clone, Copy, PartialEq, Eq, Debug)]
pub enum MeshFault {
    /// The number of roots is outside 1 to 256, or there are more than 1,024 joint rows.
    Counts,
    /// A root, a face or the turn of the row is not there.
    Absent { row: usize },
    /// The two faces of the row have different sorts.
    SortsDiffer { row: usize },
    /// The row joins a face to itself, or an earlier row joins one of its root faces already.
    Taken { row: usize },
}

impl MeshFault {
    /// The number of the fault.
    // Listings print numbers for the number and for the place: docs/REFUSALS.md.
    pub fn number(&self) -> u8
        ensures { result ≡ (told self.now).0 }
    {
        match self {
            MeshFault::Counts => 6,
            MeshFault::Absent { .. } => 7,
            MeshFault::SortsDiffer { .. } => 8,
            MeshFault::Taken { .. } => 9,
        }
    }

    /// Its place: the row, counted from 1, or 0.
    pub fn at(&self) -> usize
        ensures { result ≡ (told self.now).1 }
    {
        match self {
            MeshFault::Counts => 0,
            MeshFault::Absent { row } | MeshFault::SortsDiffer { row } | MeshFault::Taken { row } =>
                *row,
        }
    }
}
