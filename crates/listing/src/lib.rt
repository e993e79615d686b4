//! Answers a mesh description with the listing of its forest, or with the fault that forbids it.

#![tactic(auto)]

mod fault;
mod listing;
mod planning;
mod text;
mod unlisted;

pub use fault::{Fault, Layer};
pub use listing::Listing;
pub use planning::respond;
pub use unlisted::{NotYet, Unlisted};
