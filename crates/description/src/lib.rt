//! Reads a mesh description: a head, joint rows and steps, from at most 8,192 bytes.

#![tactic(auto)]

mod bounds;
mod description;
mod head;
mod lists;
mod part;
mod parts;
mod reader;
mod reading;
mod refusal;
mod shape;
mod step;

pub use description::Description;
pub use reading::read;
pub use refusal::Refusal;
pub use shape::{Shape, UnknownScheme};
pub use step::{RangeStep, Step, WindowStep};
