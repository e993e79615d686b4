ghost use Rattle.std.specs.Prelude.{◌≡◌, ◌^◌, ◌<◌, replicate, unwrap_or};
ghost use Rattle.scheme.specs.Plan.{outline_of};
ghost use Rattle.models.specs.Triangle.{triangle as triangle_meaning, triangle_plan, triangle_cell, triangle_place, triangle_rim, triangle_on_face, TriangleOrder, TriangleUndoes, TriangleThere, TriangleShares, TriangleFaceChildren};
ghost use Rattle.triangle.specs.Face.{face_of};
ghost use Rattle.triangle.specs.Half.{type_of};
ghost use Rattle.std.proofs.Common.{lit≤};
ghost use Rattle.models.proofs.TriangleLaws.{triangle_lawful};
ghost use Rattle.models.proofs.TriangleOnPlan.{triangle_nested, triangle_flat, triangle_agrees};

use crate::cell::Cell;
use crate::face::Face;
use crate::half::Half;
use grid::{DEPTH, Level, Place, turned};
use models::Anchor;
use scheme::{Crossing, Flat, Scheme};

/// The digit width of the triangle: a cell has four children.
const WIDTH: u8 = 2;

/// The faces of a triangle: face f has the two corners other than f.
const FACES: u8 = 3;

/// The triangle, its places in planar tetrahedral Morton order.
#[derive(Clone, Copy, PartialEq, Eq, Debug)]
pub struct Triangle;

/// The place of the cell at an edge number of a root face.
fn rim(level: Level, face: Face, number: u32) -> u64
    requires { number < 2 ^ level.number }
    ensures { result ≡ triangle_rim level.number (face_of face) number }
{
    let (x, y) = match face {
        Face::Far => (level.row_length() - 1, number),
        Face::Long => (number, number),
        Face::Near => (number, 0),
    };
    let half = Half::Lower;
    Cell { level, x, y, half }.place()
}

/// The children with two corners on a face, rising.
fn child_on(half: Half, face: Face, number: u8) -> u8
    requires { number < 2 }
    ensures { result ≡ triangle_on_face (type_of half) (face_of face) number }
{
    match (half, face) {
        (Half::Lower, Face::Far) => number * 2 + 1,
        (Half::Lower, Face::Near) => number,
        (Half::Upper, Face::Far) => number + 2,
        (Half::Upper, Face::Near) => number * 2,
        (_, Face::Long) => number * 3,
    }
}

/// The cell at a place, or none where there is no such place.
fn cell_at(level: u8, place: u64) -> Option<Anchor>
    ensures { result ≡ triangle_cell 18 level place }
{
    let place = Place::new(level, place)?;
    Some(Cell::at(place).into())
}

/// The place of a cell, or none where there is no such cell.
fn place_there(level: u8, x: u32, y: u32, ty: u8) -> Option<u64>
    ensures { result ≡ triangle_place 18 level x y ty }
{
    let half = Half::try_from(ty).ok()?;
    let cell = Cell::new(Level::new(level)?, x, y, half)?;
    Some(cell.place())
}

impl Triangle {
    /// The triangle: cells share the corners of the face that they cross, and the face children are the children with two
    /// corners on the face.
    pub fn new() -> Triangle
        ensures shares { TriangleShares }
        ensures children { TriangleFaceChildren }
    {
        Triangle
    }

    /// The cell at a place, or none where there is no such place. The root is (0, 0) of type 0, and a child lies in its
    /// parent by the table of the parent's type.
    pub fn cell(&self, level: u8, place: u64) -> Option<Anchor>
        ensures value { result ≡ triangle_cell 18 level place }
        ensures order { TriangleOrder }
    {
        cell_at(level, place)
    }

    /// The place of a cell, or none where there is no such cell. It undoes `cell`.
    pub fn place_at(&self, level: u8, x: u32, y: u32, ty: u8) -> Option<u64>
        ensures value { result ≡ triangle_place 18 level x y ty }
        ensures undoes { TriangleUndoes }
        ensures there { TriangleThere }
    {
        place_there(level, x, y, ty)
    }
}

impl Scheme for Triangle {
    ghost meaning = { λ _. triangle_meaning 18 };

    ghost lawful = { λ s. triangle_lawful 18 (lit≤ tt) };

    fn width(&self) -> u8 {
        WIDTH
    }

    fn faces(&self) -> u8 {
        FACES
    }

    fn depth(&self) -> u8 {
        DEPTH
    }

    fn across(&self, level: u8, place: u64, face: u8) -> Option<Crossing> {
        let place = Place::new(level, place)?;
        let face = Face::try_from(face).ok()?;
        Some(Cell::at(place).crossing(face))
    }

    fn at_edge(&self, level: u8, face: u8, number: u64) -> Option<(u64, u8)> {
        let level = Level::new(level)?;
        let its_face = Face::try_from(face).ok()?;
        let number = level.along(number)?;
        Some((rim(level, its_face, number), face))
    }

    fn face_child(&self, level: u8, place: u64, face: u8, number: u8) -> Option<(u8, u8)> {
        let place = Place::new(level, place)?;
        let its_face = Face::try_from(face).ok()?;
        if place.level.number >= DEPTH || number >= 2 {
            return None;
        }
        Some((child_on(Half::at(place), its_face, number), face))
    }

    // This and the sizes above are each shape's own constants, asked by the trait: what all shapes could share is no shorter.
    fn sort(&self, face: u8) -> Option<u8> {
        (face < FACES).then_some(0)
    }

    fn turned(&self, sort: u8, level: u8, number: u64) -> Option<u64> {
        turned(sort, level, number)
    }
}

/// The corners of a triangle: its anchor (x, y), then (x + 1, y) for type 0 or (x, y + 1) for type 1, then (x + 1, y + 1);
/// or none where there is no such place.
// Four pairs in an array, as the rules have it: `Flat::outline`.
fn corners(level: u8, place: u64) -> Option<[(u32, u32); 4]>
    ensures { unwrap_or result (replicate 4 (0, 0)) ≡ outline_of (triangle_plan 18) level place }
{
    let Cell { level, x, y, half } = Cell::at(Place::new(level, place)?);
    let (x, y) = (u64::from(x), u64::from(y));
    let (left, right) = (level.ticks(x)?, level.ticks(x + 1)?);
    let (bottom, top) = (level.ticks(y)?, level.ticks(y + 1)?);
    let second = match half {
        Half::Lower => (right, bottom),
        Half::Upper => (left, top),
    };
    Some([(left, bottom), second, (right, top), (0, 0)])
}

impl Flat for Triangle {
    const CORNERS: usize = 3;

    ghost plan = { λ _. triangle_plan 18 };

    ghost nested = { λ s. triangle_nested 18 (lit≤ tt) };

    ghost flat = { λ s. triangle_flat 18 };

    ghost agrees = { λ s. triangle_agrees 18 };

    fn corner_count(&self) -> usize {
        Self::CORNERS
    }

    fn narrow(&self) -> u8 {
        WIDTH
    }

    fn sides(&self) -> u8 {
        FACES
    }

    fn outline(&self, level: u8, place: u64) -> [(u32, u32); 4] {
        corners(level, place).unwrap_or([(0, 0); 4])
    }
}
