ghost use Rattle.std.specs.Prelude.{◌≡◌, ◌≤◌};
ghost use Rattle.scheme.specs.Scheme.{Model, Lawful};

use crate::crossing::Crossing;

/// An element scheme: how one root is cut into cells, level by level, and how their faces meet.
///
/// Its meaning is a plain model, and its law that the model keeps the bounds and the six laws.
/// Every question is answered by the meaning, with `None` exactly outside the bounds.
pub trait Scheme {
    ghost meaning: { Self → Model };

    /// The digit width w: a cell has 2^w children.
    fn width(&self) -> u8
        ensures value { result ≡ (meaning self.now).w }
        ensures bounds { (1 ≤ result) × (result ≤ 4) };

    /// The number of faces of a cell.
    fn faces(&self) -> u8
        ensures value { result ≡ (meaning self.now).F }
        ensures bounds { (2 ≤ result) × (result ≤ 8) };

    /// The deepest level.
    fn depth(&self) -> u8
        ensures value { result ≡ (meaning self.now).D }
        ensures bounds { result ≤ 18 };

    /// What lies across a face of a cell.
    fn across(&self, level: u8, place: u64, face: u8) -> Option<Crossing>
        ensures { result ≡ (meaning self.now).across level place face };

    /// The place and face that lie at an edge number of a root face.
    fn at_edge(&self, level: u8, face: u8, number: u64) -> Option<(u64, u8)>
        ensures { result ≡ (meaning self.now).at_edge level face number };

    /// The face child `number` of a cell's face: a child number and a face of that child.
    fn face_child(&self, level: u8, place: u64, face: u8, number: u8) -> Option<(u8, u8)>
        ensures { result ≡ (meaning self.now).face_child level place face number };

    /// The sort of a root face: only faces of one sort may be joined.
    fn sort(&self, face: u8) -> Option<u8>
        ensures { result ≡ (meaning self.now).sort face };

    /// An edge number of a face of this sort, turned over.
    fn turned(&self, sort: u8, level: u8, number: u64) -> Option<u64>
        ensures { result ≡ (meaning self.now).turned sort level number };

    ghost lawful: { (s : Self) → Lawful (meaning s) };
}
