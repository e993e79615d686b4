//! What squares, triangles and the product of two flat schemes mean, and the proofs of their laws; the line's stand in `shapes`.

#![tactic(auto)]

mod anchor;

ghost use Rattle.models.specs.Figures.{Figures};

pub use anchor::Anchor;

/// The figures of docs/RULES.md hold of the models. No program need call it.
pub fn figures_stand()
    ensures { Figures }
{}
