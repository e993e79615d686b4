/// A cell of a forest, by its root, its level and its place at that level.
#[derive(Clone, Copy, PartialEq, Eq, Debug)]
pub struct Leaf {
    pub root: u16,
    pub level: u8,
    pub place: u64,
}

impl Leaf {
    /// A record that is no leaf.
    // Zeros, and no option of a leaf: the rules say what a blank record holds.
    pub const BLANK: Leaf = Leaf {
        root: 0,
        level: 0,
        place: 0,
    };
}
