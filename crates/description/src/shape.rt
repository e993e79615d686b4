ghost use Rattle.std.specs.Prelude.{◌≤◌, ◌++◌, ◌↔◌, IsTrue, Some, codes, decimal};
ghost use Rattle.description.specs.Format.{scheme_of, Decodes};
ghost use Rattle.description.specs.Words.{shape_word};

use std::error::Error;
use std::fmt;

/// The shape of a mesh's cells.
#[derive(Clone, Copy, PartialEq, Eq, Debug)]
pub enum Shape {
    Line,
    Square,
    Triangle,
    Prism,
    Hexahedron,
}

/// A number that no shape's scheme has.
#[derive(Clone, Copy, PartialEq, Eq, Debug)]
pub struct UnknownScheme(pub u8);

impl Shape {
    /// Are the cells in the plane?
    pub(crate) fn is_flat(self) -> bool
        ensures { IsTrue result ↔ (scheme_of self ≤ 3) }
    {
        matches!(self, Shape::Line | Shape::Square | Shape::Triangle)
    }
}

/// A shape by its scheme's number.
impl TryFrom<u8> for Shape {
    type Error = UnknownScheme;

    ghost try_from_gives = { Decodes };

    fn try_from(scheme: u8) -> Result<Shape, UnknownScheme> {
        match scheme {
            1 => Ok(Shape::Line),
            2 => Ok(Shape::Square),
            3 => Ok(Shape::Triangle),
            4 => Ok(Shape::Prism),
            5 => Ok(Shape::Hexahedron),
            _ => Err(UnknownScheme(scheme)),
        }
    }
}

/// A shape's word, as a listing names it.
impl fmt::Display for Shape {
    ghost output = { λ shape. Some (shape_word shape) };

    fn fmt<W: fmt::Write>(&self, f: &mut fmt::Formatter<W>) -> fmt::Result {
        f.write_str(match self {
            Shape::Line => "line",
            Shape::Square => "square",
            Shape::Triangle => "triangle",
            Shape::Prism => "prism",
            Shape::Hexahedron => "hexahedron",
        })
    }
}

impl fmt::Display for UnknownScheme {
    ghost output = { λ e. Some (codes "no shape has the scheme " ++ decimal e.0) };

    fn fmt<W: fmt::Write>(&self, f: &mut fmt::Formatter<W>) -> fmt::Result {
        write!(f, "no shape has the scheme {}", self.0)
    }
}

impl Error for UnknownScheme {}
