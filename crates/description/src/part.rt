ghost use Rattle.std.specs.Prelude.{◌≡◌, ℕ, ◌++◌, List, MatchOption};
ghost use Rattle.description.specs.Format.{head_bytes, row_bytes, window_bytes, range_bytes};
ghost use Rattle.description.specs.Bounds.{HeadFits, HeadWithin, RowFits, RowWithin, WindowFits, RangeFits, RangeWithin};
ghost use Rattle.description.specs.Faults.{Beyond};
ghost use Rattle.description.specs.Parts.{held, FlatWithin};

use crate::bounds::is_row_within;
use crate::head::Head;
use crate::shape::Shape;
use crate::step::{RangeStep, WindowStep};
use mesh::Joint;

/// A part of a description that stands in N bytes.
pub(crate) trait Part<const N: usize>: Copy {
    // The bytes that hold the part.
    ghost bytes_of: { Self → List ℕ };

    // Each value is within its bounds.
    ghost within: { Self → Type 0 };

    // The bytes begin with values of which one is outside its bounds, which is the refusal of this number.
    ghost outside: { ℕ → List ℕ → Type 0 };

    /// The part that the bytes hold, or nothing where a value is outside its bounds.
    fn of(bytes: &[u8; N]) -> Option<Self>
        ensures { MatchOption result
            ((more : List ℕ) → outside 4 (bytes.now ++ more))
            (λ part. within part × (bytes.now ≡ bytes_of part)) };
}

impl Part<7> for Head {
    ghost bytes_of = { λ h. head_bytes (held h) };

    ghost within = { λ h. HeadWithin (held h) };

    ghost outside = { Beyond head_bytes HeadFits HeadWithin };

    fn of(bytes: &[u8; 7]) -> Option<Head> {
        let [scheme, roots1, roots0, level, limit, rows1, rows0] = *bytes;
        let head = Head {
            shape: Shape::try_from(scheme).ok()?,
            roots: u16::from_be_bytes([roots1, roots0]),
            level,
            limit,
            rows: u16::from_be_bytes([rows1, rows0]),
        };
        head.is_within().then_some(head)
    }
}

impl Part<7> for Joint {
    ghost bytes_of = { row_bytes };

    ghost within = { RowWithin };

    ghost outside = { Beyond row_bytes RowFits RowWithin };

    fn of(bytes: &[u8; 7]) -> Option<Joint> {
        let [root1, root0, face, other1, other0, other_face, turn] = *bytes;
        let row = Joint {
            root: u16::from_be_bytes([root1, root0]),
            face,
            other_root: u16::from_be_bytes([other1, other0]),
            other_face,
            turn,
        };
        is_row_within(&row).then_some(row)
    }
}

impl Part<19> for WindowStep {
    ghost bytes_of = { window_bytes };

    ghost within = { FlatWithin };

    ghost outside = { Beyond window_bytes WindowFits FlatWithin };

    fn of(bytes: &[u8; 19]) -> Option<WindowStep> {
        let window = WindowStep {
            root: u16::from_be_bytes([bytes[0], bytes[1]]),
            target: bytes[2],
            x0: u32::from_be_bytes([bytes[3], bytes[4], bytes[5], bytes[6]]),
            y0: u32::from_be_bytes([bytes[7], bytes[8], bytes[9], bytes[10]]),
            x1: u32::from_be_bytes([bytes[11], bytes[12], bytes[13], bytes[14]]),
            y1: u32::from_be_bytes([bytes[15], bytes[16], bytes[17], bytes[18]]),
        };
        window.is_within().then_some(window)
    }
}

impl Part<19> for RangeStep {
    ghost bytes_of = { range_bytes };

    ghost within = { RangeWithin };

    ghost outside = { Beyond range_bytes RangeFits RangeWithin };

    fn of(bytes: &[u8; 19]) -> Option<RangeStep> {
        let range = RangeStep {
            root: u16::from_be_bytes([bytes[0], bytes[1]]),
            target: bytes[2],
            first: u64::from_be_bytes([
                bytes[3], bytes[4], bytes[5], bytes[6], bytes[7], bytes[8], bytes[9], bytes[10],
            ]),
            last: u64::from_be_bytes([
                bytes[11], bytes[12], bytes[13], bytes[14], bytes[15], bytes[16], bytes[17],
                bytes[18],
            ]),
        };
        range.is_within().then_some(range)
    }
}
