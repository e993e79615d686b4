//! What a forest tells.
ghost use Rattle.std.specs.Prelude.{◌≡◌, true};
ghost use Rattle.scheme.specs.Scheme.{Model};
ghost use Rattle.tiling.specs.Cells.{Tiles};
ghost use Rattle.forest.specs.Signs.{Signs};
ghost use Rattle.forest.specs.Planting.{alive, leaves as leaves_of};

use crate::forest::Forest;
use mesh::Mesh;
use tiling::Leaf;

impl Forest {
    /// The records that are leaves.
    fn front(&self) -> &[Leaf]
        ensures { result.now ≡ leaves_of self.now }
    {
        &self.records()[..self.count.unwrap_or(0)]
    }

    /// The leaves, in curve order. While the forest is alive they tile the ground.
    pub fn leaves(&self) -> &[Leaf]
        ensures value { result.now ≡ leaves_of self.now }
        ensures ground { (m : Model) → Signs m self.now.signature → alive self.now ≡ true → Tiles m self.now.mesh.roots result.now }
    {
        self.front()
    }

    /// All records of the memory: the leaves, then blanks, and what lies past 65,536 records.
    pub fn records(&self) -> &[Leaf]
        ensures { result.now ≡ self.now.memory.items }
    {
        self.memory.as_slice()
    }

    /// Was its planting granted?
    pub fn is_alive(&self) -> bool
        ensures { result ≡ alive self.now }
    {
        self.count.is_some()
    }

    /// The mesh that it was planted on.
    pub fn mesh(&self) -> &Mesh
        ensures { result.now ≡ self.now.mesh }
    {
        &self.mesh
    }

    /// The level that every root was cut to when it was planted.
    pub fn planted_level(&self) -> u8
        ensures { result ≡ self.now.level }
    {
        self.level
    }
}
