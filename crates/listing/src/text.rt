//! The text of a listing, and the line of a fault.
ghost use Rattle.std.specs.Prelude.{◌≡◌, ◌++◌, IfOk, string_bytes, OnOk};
ghost use Rattle.listing.specs.Text.{leaf_lines, fault_line, listing_text};

use crate::fault::Fault;
use crate::listing::Listing;
use std::alloc::{AllocError, Global};
use std::fmt::Write;
use tiling::Leaf;

impl Fault {
    /// The line that tells the fault.
    pub fn line(&self, heap: Global) -> Result<String, AllocError>
        ensures { IfOk result (λ s. string_bytes s ≡ fault_line self.now) }
    {
        format!(in heap; "{self}\n")
    }
}

/// Adds the lines of the leaves to the text.
fn add_leaves(text: &mut String, leaves: &[Leaf]) -> Result<(), AllocError>
    ensures { OnOk result (string_bytes text.new ≡ string_bytes text.old ++ leaf_lines 0 leaves.now) }
{
    for (number, leaf) in leaves.iter().enumerate() {
        let Leaf { root, level, place } = *leaf;
        write!(text, "L {number} {root} {level} {place}\n")?;
    }
    Ok(())
}

impl Listing {
    /// The lines of the listing: the forest's, and then one for each leaf.
    pub fn text(&self, heap: Global) -> Result<String, AllocError>
        ensures { IfOk result (λ s. string_bytes s ≡ listing_text self.now) }
    {
        let shape = self.shape;
        let roots = self.forest.mesh().roots;
        let leaves = self.forest.leaves();
        let count = leaves.len();
        let splits = self.splits;
        let merges = self.merges;
        let mut text = format!(in heap; "F {shape} {roots} {count} {splits} {merges}\n")?;
        add_leaves(&mut text, leaves)?;
        Ok(text)
    }
}
