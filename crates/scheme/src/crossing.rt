/// What lies across a face of a cell, at the cell's own level.
#[derive(Clone, Copy, PartialEq, Eq, Debug)]
pub enum Crossing {
    /// The cell at this place, entered by this face of it.
    Inside((u64, u8)),
    /// This face of the root, at this edge number.
    Edge(u8, u64),
}
