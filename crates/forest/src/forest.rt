ghost use Rattle.std.specs.Prelude.{◌≡◌, ◌≤◌, min, true, unwrap_or, take, vec_len};
ghost use Rattle.std.specs.Option.{ForSome};
ghost use Rattle.tiling.specs.Positions.{fills, Blank};

use crate::signature::Signature;
use mesh::Mesh;
use tiling::Leaf;

/// A forest over a mesh: the leaves come first in its memory, in curve order, and the other records are blank.
///
/// Memory past 65,536 records is never touched or counted. A dead forest, which a refused planting leaves, has no leaves.
#[derive(Drop)]
pub struct Forest {
    // The rules hand the memory in and never grow it, leaves first and then blanks, so it is longer than its leaves.
    pub(crate) memory: Vec<Leaf>,
    /// How many of its records are leaves, or `None` in a dead forest.
    pub(crate) count: Option<usize>,
    pub(crate) mesh: Mesh,
    pub(crate) level: u8,
    pub(crate) signature: Signature,
    ghost room: { ForSome count (λ n. (n ≤ vec_len memory) × (n ≤ 65536)) },
    ghost few: { ForSome count (λ _. mesh.roots ≤ 256) },
    ghost ground: { ForSome count (λ n. fills signature.width signature.depth mesh.roots (take n memory.items) ≡ true) },
    ghost blanks: { Blank memory.items (unwrap_or count 0) (min (vec_len memory) 65536) },
}
