//! Whether the values of a part are within their bounds.
ghost use Rattle.std.specs.Prelude.{◌↔◌, IsTrue};
ghost use Rattle.description.specs.Bounds.{HeadWithin, RowFits, RowWithin, WindowFits, RangeFits, RangeWithin};
ghost use Rattle.description.specs.Parts.{held, FlatWithin};

use crate::head::Head;
use crate::step::{RangeStep, WindowStep};
use mesh::Joint;

/// The most roots.
const MOST_ROOTS: u16 = 256;

/// The most joint rows.
const MOST_ROWS: u16 = 1024;

/// The deepest level, limit or target.
const DEEPEST: u8 = 18;

/// The largest coordinate of a window.
const FARTHEST: u32 = 262_144;

impl Head {
    /// Are the counts and levels within their bounds? Any shape is.
    pub(crate) fn is_within(&self) -> bool
        ensures { IsTrue result ↔ HeadWithin (held self.now) }
    {
        1 <= self.roots
            && self.roots <= MOST_ROOTS
            && self.level <= DEEPEST
            && self.limit <= DEEPEST
            && self.rows <= MOST_ROWS
    }
}

/// A row within its bounds fits its bytes as well; that it does is a premise, since a borrowed value tells no range.
pub(crate) fn is_row_within(row: &Joint) -> bool
    ensures { RowFits row.now → (IsTrue result ↔ RowWithin row.now) }
{
    row.turn <= 1
}

impl WindowStep {
    /// Is it granted in the plane?
    pub(crate) fn is_within(&self) -> bool
        ensures { WindowFits self.now → (IsTrue result ↔ FlatWithin self.now) }
    {
        self.target <= DEEPEST
            && self.x0 <= self.x1
            && self.y0 <= self.y1
            && self.x1 <= FARTHEST
            && self.y1 <= FARTHEST
    }
}

impl RangeStep {
    /// Is the target no deeper than the deepest level, and the range not falling?
    pub(crate) fn is_within(&self) -> bool
        ensures { RangeFits self.now → (IsTrue result ↔ RangeWithin self.now) }
    {
        self.target <= DEEPEST && self.first <= self.last
    }
}
