//! The line, the simplest flat scheme: what it means, the proofs of its laws, and its code.

#![tactic(auto)]

mod line;

pub use line::Line;
