//! Places of squares in Morton order: bit 2i of the place is bit i of x, bit 2i + 1 is bit i of y.
ghost use Rattle.std.specs.Prelude.{◌≡◌, ◌^◌, ◌<◌};
ghost use Rattle.models.specs.Square.{square_at};
ghost use Rattle.models.specs.Moving.{lowered as lowered_place, raised as raised_place, square_beyond};
ghost use Rattle.square.specs.Place.{x_at, y_at};
ghost use Rattle.square.specs.Side.{face_of};

use crate::side::Side;
use grid::{Level, Place};

/// The coordinate x of a place.
pub(crate) fn x_of(place: Place) -> u32
    ensures value { result ≡ x_at place }
    ensures within { result < 2 ^ place.level.number }
{
    let mut x = 0;
    for i in (0..place.level.number).rev() {
        // One bit: `try_from` would have an error that cannot occur, and `u32::from` of a test is longer to read and to prove.
        x = x * 2 + ((place.number >> (2 * i)) % 2) as u32;
    }
    x
}

/// The coordinate y of a place: the bits of x in the place with its last bit dropped.
pub(crate) fn y_of(place: Place) -> u32
    ensures value { result ≡ y_at place }
    ensures within { result < 2 ^ place.level.number }
{
    x_of(Place {
        level: place.level,
        number: place.number >> 1,
    })
}

/// The place of the square at (x, y).
pub(crate) fn place_of(level: Level, x: u32, y: u32) -> u64
    ensures { result ≡ square_at level.number x y }
{
    let mut place = 0;
    for i in (0..level.number).rev() {
        place = place * 4 + u64::from((y >> i) % 2 * 2 + (x >> i) % 2);
    }
    place
}

/// The place one cell back along the axis whose bits are `along`, or none at the edge: the borrow runs through the bits between.
fn lowered(place: u64, along: u64, beside: u64) -> Option<u64>
    ensures { result ≡ lowered_place place along beside }
{
    let coordinate = place & along;
    if coordinate == 0 {
        return None;
    }
    Some(((coordinate - 1) & along) | (place & beside))
}

/// The place one cell on along the axis whose bits are `along`, or none at the edge: the carry runs through the bits between.
fn raised(place: u64, along: u64, beside: u64) -> Option<u64>
    requires place { place < 2 ^ 36 }
    requires beside { beside < 2 ^ 36 }
    ensures { result ≡ raised_place place along beside }
{
    if place & along == along {
        return None;
    }
    Some((((place | beside) + 1) & along) | (place & beside))
}

/// The place across a face, or none at the root's edge.
pub(crate) fn beyond(place: Place, side: Side) -> Option<u64>
    ensures { result ≡ square_beyond place.level.number (x_at place) (y_at place) (face_of side) }
{
    let x_bits = place.level.places() / 3;
    let y_bits = 2 * x_bits;
    match side {
        Side::Left => lowered(place.number, x_bits, y_bits),
        Side::Right => raised(place.number, x_bits, y_bits),
        Side::Bottom => lowered(place.number, y_bits, x_bits),
        Side::Top => raised(place.number, y_bits, x_bits),
    }
}
