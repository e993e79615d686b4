use crate::shape::Shape;

/// The head's values.
#[derive(Clone, Copy)]
pub(crate) struct Head {
    pub shape: Shape,
    pub roots: u16,
    pub level: u8,
    pub limit: u8,
    pub rows: u16,
}
