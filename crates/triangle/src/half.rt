ghost use Rattle.std.specs.Prelude.{◌≡◌, ◌+◌, ◌*◌, ◌<◌, ◌≤◌};
ghost use Rattle.models.specs.Triangle.{triangle_child, triangle_type};
ghost use Rattle.triangle.specs.Half.{type_of, HasType};

use grid::Place;

/// The type of a cell: which half it is of a square that is cut from its anchor to the corner across.
#[derive(Clone, Copy, PartialEq, Eq, Debug)]
pub(crate) enum Half {
    /// The half with the corner (x + 1, y): type 0.
    Lower,
    /// The half with the corner (x, y + 1): type 1.
    Upper,
}

/// A number that no type of a cell has.
#[derive(Clone, Copy, PartialEq, Eq, Debug)]
pub(crate) struct NoSuchType(pub(crate) u8);

impl TryFrom<u8> for Half {
    type Error = NoSuchType;

    ghost try_from_gives = { HasType };

    fn try_from(ty: u8) -> Result<Self, NoSuchType> {
        match ty {
            0 => Ok(Half::Lower),
            1 => Ok(Half::Upper),
            _ => Err(NoSuchType(ty)),
        }
    }
}

impl From<Half> for u8 {
    ghost from_gives = { λ half ty. ty ≡ type_of half };

    fn from(half: Half) -> u8 {
        match half {
            Half::Lower => 0,
            Half::Upper => 1,
        }
    }
}

impl Half {
    /// The type of the cell at a place: of the child numbers only 1 and 2 tell it, and the last of them does.
    pub(crate) fn at(place: Place) -> Half
        ensures { type_of result ≡ triangle_type place.level.number place.number }
    {
        for i in 0..place.level.number {
            match (place.number >> (2 * i)) % 4 {
                1 => return Half::Lower,
                2 => return Half::Upper,
                _ => {}
            }
        }
        Half::Lower
    }

    /// How a child lies in a parent of this type: dx, dy and its own type.
    pub(crate) fn child(self, number: u64) -> (u32, u32, Half)
        requires { number < 4 }
        ensures value { (result.0, result.1, type_of result.2) ≡ triangle_child (type_of self) number }
        ensures bounds { (result.0 < 2) × (result.1 < 2) }
        ensures inside { result.1 + type_of result.2 ≤ result.0 + 2 * type_of self }
    {
        match (self, number) {
            (Half::Lower, 0) => (0, 0, Half::Lower),
            (Half::Lower, 1) => (1, 0, Half::Lower),
            (Half::Lower, 2) => (1, 0, Half::Upper),
            (Half::Lower, _) => (1, 1, Half::Lower),
            (Half::Upper, 0) => (0, 0, Half::Upper),
            (Half::Upper, 1) => (0, 1, Half::Lower),
            (Half::Upper, 2) => (0, 1, Half::Upper),
            (Half::Upper, _) => (1, 1, Half::Upper),
        }
    }
}
