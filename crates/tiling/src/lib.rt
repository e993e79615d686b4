//! Leaves along the curve: what it means that a list of leaves tiles the ground, and its theory.

#![tactic(auto)]

mod leaf;

ghost use Rattle.tiling.specs.Theorems.{TilingIsChain, TilingIsTest, EvenCut, TilingExamples};

pub use leaf::Leaf;

/// What the theory of tiling shows. No program need call it.
pub fn tiling_stands()
    ensures chain { TilingIsChain }
    ensures test { TilingIsTest }
    ensures even { EvenCut }
    ensures examples { TilingExamples }
{}
