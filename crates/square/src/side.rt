ghost use Rattle.std.specs.Prelude.{◌≡◌};
ghost use Rattle.models.specs.Moving.{square_opposite};
ghost use Rattle.square.specs.Side.{face_of, HasFace};

use grid::NoSuchFace;

/// A face of a square, named for the side at which it lies: faces 0 to 3.
#[derive(Clone, Copy, PartialEq, Eq, Debug)]
pub(crate) enum Side {
    Left,
    Right,
    Bottom,
    Top,
}

impl TryFrom<u8> for Side {
    type Error = NoSuchFace;

    ghost try_from_gives = { HasFace };

    fn try_from(face: u8) -> Result<Self, NoSuchFace> {
        match face {
            0 => Ok(Side::Left),
            1 => Ok(Side::Right),
            2 => Ok(Side::Bottom),
            3 => Ok(Side::Top),
            _ => Err(NoSuchFace(face)),
        }
    }
}

impl From<Side> for u8 {
    ghost from_gives = { λ side face. face ≡ face_of side };

    fn from(side: Side) -> u8 {
        match side {
            Side::Left => 0,
            Side::Right => 1,
            Side::Bottom => 2,
            Side::Top => 3,
        }
    }
}

impl Side {
    /// The face that lies against this one from the other side.
    pub(crate) fn opposite(self) -> Side
        ensures { face_of result ≡ square_opposite (face_of self) }
    {
        match self {
            Side::Left => Side::Right,
            Side::Right => Side::Left,
            Side::Bottom => Side::Top,
            Side::Top => Side::Bottom,
        }
    }
}
