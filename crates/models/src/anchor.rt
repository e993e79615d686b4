/// Where a cell of a square or of a triangle stands on the plan: its anchor, in cell sides of its level,
/// and its type, which is 0 for a square and 0 or 1 for a triangle.
#[derive(Clone, Copy, PartialEq, Eq, Debug)]
pub struct Anchor {
    pub x: u32,
    pub y: u32,
    // A number, as the rules and the public answers have it; the crate `triangle` works with an enum.
    pub ty: u8,
}
