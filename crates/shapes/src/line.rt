ghost use Rattle.std.specs.Prelude.{◌≡◌, replicate, unwrap_or};
ghost use Rattle.scheme.specs.Plan.{outline_of};
ghost use Rattle.shapes.specs.Segment.{line as line_meaning, line_plan, LineShares, LineFaceChildKeeps, LineExamples, AllEdgesBreakTheLaws};
ghost use Rattle.std.proofs.Common.{lit≤};
ghost use Rattle.shapes.specs.LineLaws.{line_lawful};
ghost use Rattle.shapes.specs.LineOnPlan.{line_nested, line_flat, line_agrees};

use grid::{DEPTH, Level};
use scheme::{Crossing, Flat, Scheme};

/// The digit width of the line: a cell has two children.
const WIDTH: u8 = 1;

/// The faces of a line's cell: its ends. They stay numbers in the code, since each question tells them apart in one match, and
/// an enum with its conversions would be longer.
const FACES: u8 = 2;

/// The line: a cell is a stretch, its two faces are its ends.
#[derive(Clone, Copy, PartialEq, Eq, Debug)]
pub struct Line;

impl Line {
    /// The line, whose cells share the corner of the face that they cross.
    pub fn new() -> Line
        ensures shares { LineShares }
        ensures keeps { LineFaceChildKeeps }
        ensures examples { LineExamples }
        ensures counterexample { AllEdgesBreakTheLaws }
    {
        Line
    }
}

impl Scheme for Line {
    ghost meaning = { λ _. line_meaning 18 };

    ghost lawful = { λ s. line_lawful 18 (lit≤ tt) };

    fn width(&self) -> u8 {
        WIDTH
    }

    fn faces(&self) -> u8 {
        FACES
    }

    fn depth(&self) -> u8 {
        DEPTH
    }

    fn across(&self, level: u8, place: u64, face: u8) -> Option<Crossing> {
        let level = Level::new(level)?;
        let x = level.along(place)?;
        match face {
            0 if x == 0 => Some(Crossing::Edge(0, 0)),
            0 => Some(Crossing::Inside((place - 1, 1))),
            1 if x + 1 == level.row_length() => Some(Crossing::Edge(1, 0)),
            1 => Some(Crossing::Inside((place + 1, 0))),
            _ => None,
        }
    }

    fn at_edge(&self, level: u8, face: u8, number: u64) -> Option<(u64, u8)> {
        let level = Level::new(level)?;
        match (face, number) {
            (0, 0) => Some((0, 0)),
            (1, 0) => Some((u64::from(level.row_length()) - 1, 1)),
            _ => None,
        }
    }

    fn face_child(&self, level: u8, place: u64, face: u8, number: u8) -> Option<(u8, u8)> {
        if level >= DEPTH || face >= FACES || number >= 1 {
            return None;
        }
        Level::new(level)?.along(place)?;
        Some((face, face))
    }

    // This and the sizes above are each shape's own constants, asked by the trait: what all shapes could share is no shorter.
    fn sort(&self, face: u8) -> Option<u8> {
        (face < FACES).then_some(0)
    }

    fn turned(&self, sort: u8, level: u8, number: u64) -> Option<u64> {
        (sort == 0 && level <= DEPTH && number < 1).then_some(number)
    }
}

/// The corners of a line's cell, both with y 0, or none where there is no such cell.
// Four pairs in an array, as the rules have it: `Flat::outline`.
fn ends(level: u8, place: u64) -> Option<[(u32, u32); 4]>
    ensures { unwrap_or result (replicate 4 (0, 0)) ≡ outline_of (line_plan 18) level place }
{
    let level = Level::new(level)?;
    level.along(place)?;
    Some([
        (level.ticks(place)?, 0),
        (level.ticks(place + 1)?, 0),
        (0, 0),
        (0, 0),
    ])
}

impl Flat for Line {
    const CORNERS: usize = 2;

    ghost plan = { λ _. line_plan 18 };

    ghost nested = { λ s. line_nested 18 (lit≤ tt) };

    ghost flat = { λ s. line_flat 18 };

    ghost agrees = { λ s. line_agrees 18 };

    fn corner_count(&self) -> usize {
        Self::CORNERS
    }

    fn narrow(&self) -> u8 {
        WIDTH
    }

    fn sides(&self) -> u8 {
        FACES
    }

    fn outline(&self, level: u8, place: u64) -> [(u32, u32); 4] {
        ends(level, place).unwrap_or([(0, 0); 4])
    }
}
