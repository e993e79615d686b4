//! Answers as they are printed.
use models::Anchor;
use scheme::Crossing;
use std::fmt;

/// An answer to a question of a scheme.
#[derive(Clone, Copy)]
pub(crate) enum Answer {
    /// A number alone, printed `7`.
    Number(u64),
    /// A place or a child number and a face of that cell, printed `7.1`.
    Faced(u64, u8),
    /// What lies across: a place and a face as `i7.1`, or a root face and an edge number as `e1.7`.
    Across(Crossing),
    /// A point in ticks, printed `7,8`.
    Point(u32, u32),
    /// The coordinates of a cell and its type, printed `7,8,1`.
    Cell(Anchor),
}

impl From<u64> for Answer {
    fn from(number: u64) -> Answer {
        Answer::Number(number)
    }
}

impl From<u8> for Answer {
    fn from(sort: u8) -> Answer {
        Answer::Number(u64::from(sort))
    }
}

impl From<(u64, u8)> for Answer {
    fn from((place, face): (u64, u8)) -> Answer {
        Answer::Faced(place, face)
    }
}

impl From<(u8, u8)> for Answer {
    fn from((child, face): (u8, u8)) -> Answer {
        Answer::Faced(u64::from(child), face)
    }
}

impl From<(u32, u32)> for Answer {
    fn from((x, y): (u32, u32)) -> Answer {
        Answer::Point(x, y)
    }
}

impl From<Anchor> for Answer {
    fn from(anchor: Anchor) -> Answer {
        Answer::Cell(anchor)
    }
}

impl From<Crossing> for Answer {
    fn from(crossing: Crossing) -> Answer {
        Answer::Across(crossing)
    }
}

impl fmt::Display for Answer {
    fn fmt<W: fmt::Write>(&self, f: &mut fmt::Formatter<W>) -> fmt::Result {
        match *self {
            Answer::Number(number) => write!(f, "{number}"),
            Answer::Faced(place, face) => write!(f, "{place}.{face}"),
            Answer::Across(Crossing::Inside((place, face))) => write!(f, "i{place}.{face}"),
            Answer::Across(Crossing::Edge(face, number)) => write!(f, "e{face}.{number}"),
            Answer::Point(x, y) => write!(f, "{x},{y}"),
            Answer::Cell(Anchor { x, y, ty }) => write!(f, "{x},{y},{ty}"),
        }
    }
}
