//! The triangle, its places in planar tetrahedral Morton order.

#![tactic(auto)]

mod cell;
mod face;
mod half;
mod triangle;

pub use triangle::Triangle;
