//! What an even cut writes, and blanks.
ghost use Rattle.std.specs.Prelude.{◌≡◌, ◌<◌, ◌≤◌, ◌↔◌, length, take, replicate, IsTrue};
ghost use Rattle.tiling.specs.Cells.{blank};
ghost use Rattle.tiling.specs.Positions.{even, Blank};
ghost use Rattle.forest.specs.Cuts.{cell_count, leaf_count, cut_leaves};

use crate::even_cut::EvenCut;
use tiling::Leaf;

/// Stores a blank in every record that is lent.
pub(crate) fn blank_out(records: &mut [Leaf])
    ensures { records.new ≡ replicate (length records.old) blank }
{
    records.fill(Leaf::BLANK);
}

impl EvenCut {
    /// How many cells a root has.
    fn cells(&self) -> usize
        ensures { result ≡ cell_count self.now }
    {
        1usize << (self.width * self.level)
    }

    /// How many leaves all roots have.
    fn count(&self) -> usize
        ensures { result ≡ leaf_count self.now }
    {
        usize::from(self.roots) * self.cells()
    }

    /// Does memory of `cap` records hold all leaves?
    pub(crate) fn fits(&self, cap: usize) -> bool
        ensures { IsTrue result ↔ (leaf_count self.now ≤ cap) }
    {
        self.count() <= cap
    }

    /// The leaf `i` of all roots, in curve order.
    fn leaf(&self, i: usize) -> Leaf
        requires { i < leaf_count self.now }
        ensures { result ≡ even self.now.width self.now.level i }
    {
        let cells = self.cells();
        // No `From` leads from usize to these two types, and a `TryFrom` has an error that cannot occur.
        Leaf {
            root: (i / cells) as u16,
            level: self.level,
            place: (i % cells) as u64,
        }
    }

    /// Writes all leaves, in curve order.
    fn write(&self, records: &mut [Leaf])
        requires { length records.old ≡ leaf_count self.now }
        ensures { records.new ≡ cut_leaves self.now }
    {
        for (i, record) in records.iter_mut().enumerate() {
            *record = self.leaf(i);
        }
    }

    /// Writes all leaves, in curve order, and blanks after them, and answers how many leaves there are.
    pub(crate) fn fill(&self, records: &mut [Leaf]) -> usize
        requires { leaf_count self.now ≤ length records.old }
        ensures count { result ≡ leaf_count self.now }
        ensures front { take result records.new ≡ cut_leaves self.now }
        ensures rest { Blank records.new result (length records.old) }
    {
        let count = self.count();
        self.write(&mut records[..count]);
        blank_out(&mut records[count..]);
        count
    }
}
