use crate::shape::Shape;
use crate::step::Step;
use mesh::Joint;

/// A mesh, as planted, and the steps to take on it.
#[derive(Drop)]
pub struct Description {
    pub shape: Shape,
    pub roots: u16,
    /// The level that each root is planted at.
    pub level: u8,
    /// The deepest level that a cell may reach.
    pub limit: u8,
    pub joints: Vec<Joint>,
    pub steps: Vec<Step>,
}
