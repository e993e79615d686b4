//! Meshes: a number of roots, and the joint rows that lay their faces against each other.

#![tactic(auto)]

mod check;
mod cross;
mod ends;
mod fault;
mod joint;
mod mesh;

pub use fault::MeshFault;
pub use joint::Joint;
pub use mesh::Mesh;
