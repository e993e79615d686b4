//! Cells of triangles, and their places in planar tetrahedral Morton order.
ghost use Rattle.std.specs.Prelude.{◌≡◌, ◌+◌, ◌-◌, ◌*◌, ◌/◌, ◌%◌, ◌^◌, ◌<◌, ◌≤◌, IsSome, IfSome, ◌↔◌, option_map};
ghost use Rattle.triangle.specs.Half.{type_of};

use crate::face::Face;
use crate::half::Half;
use grid::{Level, Place};
use models::Anchor;
use scheme::Crossing;

/// A cell: its level, its anchor in cell sides, and its type.
#[derive(Clone, Copy, PartialEq, Eq, Debug)]
pub(crate) struct Cell {
    pub(crate) level: Level,
    pub(crate) x: u32,
    pub(crate) y: u32,
    pub(crate) half: Half,
    ghost column: { x < 2 ^ level.number },
    // y ≤ x for type 0, and y < x for type 1
    ghost row: { y + type_of half ≤ x },
}

impl From<Cell> for Anchor {
    ghost use Rattle.triangle.specs.Cell.{anchored};

    ghost from_gives = { λ cell anchor. anchor ≡ anchored cell };

    fn from(cell: Cell) -> Anchor {
        Anchor {
            x: cell.x,
            y: cell.y,
            ty: cell.half.into(),
        }
    }
}

impl Cell {
    ghost use Rattle.models.specs.Triangle.{triangle_parent, triangle_number, triangle_step, TriangleCell};
    ghost use Rattle.models.specs.Moving.{anchor, triangle_anchor, triangle_beyond, triangle_edge_number, child_of};
    ghost use Rattle.triangle.specs.Cell.{anchored, place_of};
    ghost use Rattle.triangle.specs.Face.{face_of};

    /// The cell with this anchor and type, or none where there is no such cell.
    pub(crate) fn new(level: Level, x: u32, y: u32, half: Half) -> Option<Cell>
        ensures there { IsSome result ↔ TriangleCell level.number x y (type_of half) }
        ensures level { IfSome result (λ cell. cell.level.number ≡ level.number) }
        ensures value { IfSome result (λ cell. (cell.x ≡ x) × (cell.y ≡ y) × (cell.half ≡ half)) }
    {
        // One test for both halves: by a match of them the place of a cell took a third longer at shallow levels.
        let under_diagonal = y < x || (y == x && half == Half::Lower);
        if x >= level.row_length() || !under_diagonal {
            return None;
        }
        Some(Cell { level, x, y, half })
    }

    /// The root.
    fn root() -> Cell
        ensures level { result.level.number ≡ 0 }
        ensures value { anchored result ≡ anchor 0 0 0 }
    {
        Cell {
            level: Level { number: 0 },
            x: 0,
            y: 0,
            half: Half::Lower,
        }
    }

    /// The cell at a place, from the root down.
    pub(crate) fn at(place: Place) -> Cell
        ensures level { result.level.number ≡ place.level.number }
        ensures value { anchored result ≡ triangle_anchor place.level.number place.number }
    {
        let mut cell = Cell::root();
        for i in (0..place.level.number).rev() {
            cell = cell.child((place.number >> (2 * i)) % 4);
        }
        cell
    }

    /// A child of the cell.
    fn child(self, number: u64) -> Cell
        requires level { self.level.number < 18 }
        requires number { number < 4 }
        ensures level { result.level.number ≡ self.level.number + 1 }
        ensures value { anchored result ≡ child_of (anchored self) number }
    {
        let (dx, dy, half) = self.half.child(number);
        Cell {
            level: Level {
                number: self.level.number + 1,
            },
            x: 2 * self.x + dx,
            y: 2 * self.y + dy,
            half,
        }
    }

    /// The place of the cell, from its last digit back.
    pub(crate) fn place(self) -> u64
        ensures { result ≡ place_of self }
    {
        let mut cell = self;
        let mut place = 0;
        for i in 0..self.level.number {
            place += cell.child_number() << (2 * i);
            cell = cell.parent();
        }
        place
    }

    /// Which child of its parent the cell is.
    fn child_number(self) -> u64
        ensures { result ≡ triangle_number (self.x % 2) (self.y % 2) (type_of self.half) }
    {
        // no match of the four cases: at edge takes twice as long by it
        let (dx, dy) = (self.x % 2, self.y % 2);
        if dx == dy {
            u64::from(3 * dx)
        } else {
            1 + u64::from(u8::from(self.half))
        }
    }

    /// The cell's parent.
    fn parent(self) -> Cell
        requires { 0 < self.level.number }
        ensures level { result.level.number ≡ self.level.number - 1 }
        ensures x { result.x ≡ self.x / 2 }
        ensures y { result.y ≡ self.y / 2 }
        ensures half { type_of result.half ≡ triangle_parent (self.x % 2) (self.y % 2) (type_of self.half) }
    {
        let (dx, dy) = (self.x % 2, self.y % 2);
        // A digit tells it where the two differ: by `dx < dy` at edge took half as long again.
        let half = if dx == dy {
            self.half
        } else if dy == 0 {
            Half::Lower
        } else {
            Half::Upper
        };
        Cell {
            level: Level {
                number: self.level.number - 1,
            },
            x: self.x / 2,
            y: self.y / 2,
            half,
        }
    }

    /// The cell across a face, of the other type, or none at the root's edge, which only type 0 meets.
    fn beyond(self, face: Face) -> Option<Cell>
        ensures level { IfSome result (λ cell. cell.level.number ≡ self.level.number) }
        ensures value { option_map anchored result ≡
            triangle_beyond self.level.number self.x self.y (type_of self.half) (face_of face) }
    {
        let Cell { level, x, y, half } = self;
        let (x, y, half) = match (half, face) {
            (Half::Lower, Face::Far) if x + 1 == level.row_length() => return None,
            (Half::Lower, Face::Far) => (x + 1, y, Half::Upper),
            (Half::Lower, Face::Long) if x == y => return None,
            (Half::Lower, Face::Long) => (x, y, Half::Upper),
            (Half::Lower, Face::Near) if y == 0 => return None,
            (Half::Lower, Face::Near) => (x, y - 1, Half::Upper),
            (Half::Upper, Face::Far) => (x, y + 1, Half::Lower),
            (Half::Upper, Face::Long) => (x, y, Half::Lower),
            (Half::Upper, Face::Near) => (x - 1, y, Half::Lower),
        };
        Some(Cell { level, x, y, half })
    }

    /// Where the cell lies along the root's face.
    fn number_along(self, face: Face) -> u64
        ensures { result ≡ triangle_edge_number self.x self.y (face_of face) }
    {
        match face {
            Face::Far => u64::from(self.y),
            Face::Long | Face::Near => u64::from(self.x),
        }
    }

    /// What lies across a face of the cell.
    pub(crate) fn crossing(self, face: Face) -> Crossing
        ensures { result ≡ triangle_step self.level.number self.x self.y (type_of self.half) (face_of face) }
    {
        match self.beyond(face) {
            Some(next) => Crossing::Inside((next.place(), face.opposite().into())),
            None => Crossing::Edge(face.into(), self.number_along(face)),
        }
    }
}
