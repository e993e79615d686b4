use description::Shape;
use forest::Forest;

/// A forest to list, with the splits and merges of all its steps.
#[derive(Drop)]
pub struct Listing {
    pub(crate) shape: Shape,
    pub(crate) forest: Forest,
    pub(crate) splits: u64,
    pub(crate) merges: u64,
}
