//! The square, its places in Morton order.

#![tactic(auto)]

mod morton;
mod side;
mod square;

pub use square::Square;
