ghost use Rattle.std.specs.Prelude.{◌≡◌, ◌<◌, replicate, unwrap_or};
ghost use Rattle.scheme.specs.Plan.{outline_of};
ghost use Rattle.models.specs.Moving.{square_number};
ghost use Rattle.models.specs.Square.{square as square_meaning, square_plan, square_cell, square_place, square_rim, square_on_face, SquareBits, SquareUndoes, SquareThere, SquareShares, SquareFaceChildren};
ghost use Rattle.square.specs.Place.{x_at, y_at};
ghost use Rattle.square.specs.Side.{face_of};
ghost use Rattle.std.proofs.Common.{lit≤};
ghost use Rattle.models.proofs.SquareLaws.{square_lawful};
ghost use Rattle.models.proofs.SquareOnPlan.{square_nested, square_flat, square_agrees};

use crate::morton::{beyond, place_of, x_of, y_of};
use crate::side::Side;
use grid::{DEPTH, Level, Place, turned};
use models::Anchor;
use scheme::{Crossing, Flat, Scheme};

/// The digit width of the square: a cell has four children.
const WIDTH: u8 = 2;

/// The faces of a square: left, right, bottom, top.
const FACES: u8 = 4;

/// The square, its places in Morton order.
#[derive(Clone, Copy, PartialEq, Eq, Debug)]
pub struct Square;

/// Where a cell lies along the root's face.
fn number_along(place: Place, side: Side) -> u64
    ensures { result ≡ square_number (x_at place) (y_at place) (face_of side) }
{
    match side {
        Side::Left | Side::Right => u64::from(y_of(place)),
        Side::Bottom | Side::Top => u64::from(x_of(place)),
    }
}

/// The place of the cell at an edge number of a root face.
fn rim(level: Level, side: Side, number: u32) -> u64
    ensures { result ≡ square_rim level.number (face_of side) number }
{
    let last = level.row_length() - 1;
    match side {
        Side::Left => place_of(level, 0, number),
        Side::Right => place_of(level, last, number),
        Side::Bottom => place_of(level, number, 0),
        Side::Top => place_of(level, number, last),
    }
}

/// The children with two corners on a face, rising.
fn child_on(side: Side, number: u8) -> u8
    requires { number < 2 }
    ensures { result ≡ square_on_face (face_of side) number }
{
    match side {
        Side::Left => number * 2,
        Side::Right => number * 2 + 1,
        Side::Bottom => number,
        Side::Top => number + 2,
    }
}

/// The cell at a place, or none where there is no such place.
fn cell_at(level: u8, place: u64) -> Option<Anchor>
    ensures { result ≡ square_cell 18 level place }
{
    let place = Place::new(level, place)?;
    let x = x_of(place);
    let y = y_of(place);
    Some(Anchor { x, y, ty: 0 })
}

/// The place of a cell, or none where there is no such cell.
fn place_there(level: u8, x: u32, y: u32, ty: u8) -> Option<u64>
    ensures { result ≡ square_place 18 level x y ty }
{
    let level = Level::new(level)?;
    let length = level.row_length();
    if x >= length || y >= length || ty > 0 {
        return None;
    }
    Some(place_of(level, x, y))
}

impl Square {
    /// The square: cells share the corners of the face that they cross, and the face children are the children with two
    /// corners on the face.
    pub fn new() -> Square
        ensures shares { SquareShares }
        ensures children { SquareFaceChildren }
    {
        Square
    }

    /// The cell at a place, or none where there is no such place. Bit 2i of the place is bit i of x, bit 2i + 1 is bit i of y.
    pub fn cell(&self, level: u8, place: u64) -> Option<Anchor>
        ensures value { result ≡ square_cell 18 level place }
        ensures bits { SquareBits }
    {
        cell_at(level, place)
    }

    /// The place of a cell, or none where there is no such cell. It undoes `cell`.
    pub fn place_at(&self, level: u8, x: u32, y: u32, ty: u8) -> Option<u64>
        ensures value { result ≡ square_place 18 level x y ty }
        ensures undoes { SquareUndoes }
        ensures there { SquareThere }
    {
        place_there(level, x, y, ty)
    }
}

impl Scheme for Square {
    ghost meaning = { λ _. square_meaning 18 };

    ghost lawful = { λ s. square_lawful 18 (lit≤ tt) };

    fn width(&self) -> u8 {
        WIDTH
    }

    fn faces(&self) -> u8 {
        FACES
    }

    fn depth(&self) -> u8 {
        DEPTH
    }

    fn across(&self, level: u8, place: u64, face: u8) -> Option<Crossing> {
        let place = Place::new(level, place)?;
        let side = Side::try_from(face).ok()?;
        Some(match beyond(place, side) {
            Some(next) => Crossing::Inside((next, side.opposite().into())),
            None => Crossing::Edge(face, number_along(place, side)),
        })
    }

    fn at_edge(&self, level: u8, face: u8, number: u64) -> Option<(u64, u8)> {
        let level = Level::new(level)?;
        let side = Side::try_from(face).ok()?;
        let number = level.along(number)?;
        Some((rim(level, side, number), face))
    }

    fn face_child(&self, level: u8, place: u64, face: u8, number: u8) -> Option<(u8, u8)> {
        let place = Place::new(level, place)?;
        let side = Side::try_from(face).ok()?;
        if place.level.number >= DEPTH || number >= 2 {
            return None;
        }
        Some((child_on(side, number), face))
    }

    // This and the sizes above are each shape's own constants, asked by the trait: what all shapes could share is no shorter.
    fn sort(&self, face: u8) -> Option<u8> {
        (face < FACES).then_some(0)
    }

    fn turned(&self, sort: u8, level: u8, number: u64) -> Option<u64> {
        turned(sort, level, number)
    }
}

/// The corners of a square: (x, y), (x + 1, y), (x, y + 1), (x + 1, y + 1); or none where there is no such place.
// Four pairs in an array, as the rules have it: `Flat::outline`.
fn corners(level: u8, place: u64) -> Option<[(u32, u32); 4]>
    ensures { unwrap_or result (replicate 4 (0, 0)) ≡ outline_of (square_plan 18) level place }
{
    let place = Place::new(level, place)?;
    let level = place.level;
    let x = u64::from(x_of(place));
    let y = u64::from(y_of(place));
    let (left, right) = (level.ticks(x)?, level.ticks(x + 1)?);
    let (bottom, top) = (level.ticks(y)?, level.ticks(y + 1)?);
    Some([(left, bottom), (right, bottom), (left, top), (right, top)])
}

impl Flat for Square {
    const CORNERS: usize = 4;

    ghost plan = { λ _. square_plan 18 };

    ghost nested = { λ s. square_nested 18 (lit≤ tt) };

    ghost flat = { λ s. square_flat 18 };

    ghost agrees = { λ s. square_agrees 18 };

    fn corner_count(&self) -> usize {
        Self::CORNERS
    }

    fn narrow(&self) -> u8 {
        WIDTH
    }

    fn sides(&self) -> u8 {
        FACES
    }

    fn outline(&self, level: u8, place: u64) -> [(u32, u32); 4] {
        corners(level, place).unwrap_or([(0, 0); 4])
    }
}
