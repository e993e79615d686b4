ghost use Rattle.std.specs.Prelude.{◌≡◌, ◌-◌};
ghost use Rattle.triangle.specs.Face.{face_of, HasFace};

use grid::NoSuchFace;

/// A face of a triangle, named by how it lies to the anchor. Face f has the two corners other than f.
#[derive(Clone, Copy, PartialEq, Eq, Debug)]
pub(crate) enum Face {
    /// The short side that does not meet the anchor: face 0.
    Far,
    /// The long side: face 1.
    Long,
    /// The short side at the anchor: face 2.
    Near,
}

impl TryFrom<u8> for Face {
    type Error = NoSuchFace;

    ghost try_from_gives = { HasFace };

    fn try_from(face: u8) -> Result<Self, NoSuchFace> {
        match face {
            0 => Ok(Face::Far),
            1 => Ok(Face::Long),
            2 => Ok(Face::Near),
            _ => Err(NoSuchFace(face)),
        }
    }
}

impl From<Face> for u8 {
    ghost from_gives = { λ face number. number ≡ face_of face };

    fn from(face: Face) -> u8 {
        match face {
            Face::Far => 0,
            Face::Long => 1,
            Face::Near => 2,
        }
    }
}

impl Face {
    /// The face that lies against this one from the other side: the cell there is turned by half a turn.
    pub(crate) fn opposite(self) -> Face
        ensures { face_of result ≡ 2 - face_of self }
    {
        match self {
            Face::Far => Face::Near,
            Face::Long => Face::Long,
            Face::Near => Face::Far,
        }
    }
}
