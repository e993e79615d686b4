//! The product of two flat schemes, whose cells are the pairs of theirs.

#![tactic(auto)]

mod carried;
mod product;
mod weaving;

pub use product::Product;
use shapes::Line;
use square::Square;
use triangle::Triangle;

/// The prism: triangle by line.
pub type Prism = Product<Triangle, Line>;

/// The hexahedron: square by line.
pub type Hexahedron = Product<Square, Line>;
