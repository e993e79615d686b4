//! Forests: the leaves of a mesh's roots, planted evenly in memory that is handed in.

#![tactic(auto)]

mod cut;
mod even_cut;
mod fault;
mod forest;
mod look;
mod plant;
mod sign;
mod signature;

pub use fault::PlantFault;
pub use forest::Forest;
pub use signature::Signature;
