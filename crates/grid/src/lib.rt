//! What the flat shapes share: levels, lengths in ticks, how many cells there are, and turning an edge over.

#![tactic(auto)]

mod counts;
mod face;
mod lengths;
mod level;
mod place;

pub use counts::{places, row_length, turned, turned_over};
pub use face::NoSuchFace;
pub use lengths::ticks;
pub use level::{DEPTH, Level};
pub use place::Place;
