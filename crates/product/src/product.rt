ghost use Rattle.models.specs.Product.{product as product_meaning};
ghost use Rattle.product.specs.Cells.{CellsOf};
ghost use Rattle.models.proofs.ProductLaws.{product_lawful};

use crate::carried::carried;
use crate::weaving::Weaving;
use scheme::{Crossing, Flat, Scheme};

/// The bits that all digits of a place have at most.
const PLACE_BITS: u8 = 54;

/// The product of two flat schemes: its cells are the pairs of their cells.
///
/// The faces of the first come first and have sort 0, those of the second have sort 1. Across a face of one factor the
/// place in the other stays.
#[derive(Clone, Copy, PartialEq, Eq, Debug)]
pub struct Product<A, B> {
    pub first: A,
    pub second: B,
}

impl<A: Flat, B: Flat> Product<A, B> {
    /// How the places of the factors are woven at a level, unless it is too deep.
    fn cells(&self, level: u8) -> Option<Weaving>
        ensures { CellsOf (A.Scheme.meaning self.now.first) (B.Scheme.meaning self.now.second) level result }
    {
        if level > self.depth() {
            return None;
        }
        Some(Weaving {
            low: self.first.narrow(),
            high: self.second.narrow(),
            level,
        })
    }
}

impl<A: Flat, B: Flat> Scheme for Product<A, B> {
    ghost meaning = { λ s. product_meaning (A.Scheme.meaning s.first) (B.Scheme.meaning s.second) };

    ghost lawful = { λ s.
        product_lawful (A.Scheme.meaning s.first) (B.Scheme.meaning s.second)
        (A.Scheme.lawful s.first) (B.Scheme.lawful s.second)
        (A.Flat.flat s.first) (B.Flat.flat s.second) };

    fn width(&self) -> u8 {
        self.first.narrow() + self.second.narrow()
    }

    fn faces(&self) -> u8 {
        self.first.sides() + self.second.sides()
    }

    fn depth(&self) -> u8 {
        let depth = self.first.depth().min(self.second.depth());
        depth.min(PLACE_BITS / self.width())
    }

    fn across(&self, level: u8, place: u64, face: u8) -> Option<Crossing> {
        let cells = self.cells(level)?;
        let (first, second) = cells.parts(place)?;
        let faces = self.first.sides();
        if face < faces {
            let crossing = self.first.across(level, first, face)?;
            let edges = cells.first_edges();
            Some(carried(
                crossing,
                0,
                |place| cells.weave(place, second),
                |number| edges.weave(number, second),
            ))
        } else {
            let crossing = self.second.across(level, second, face - faces)?;
            let edges = cells.second_edges();
            Some(carried(
                crossing,
                faces,
                |place| cells.weave(first, place),
                |number| edges.weave(first, number),
            ))
        }
    }

    fn at_edge(&self, level: u8, face: u8, number: u64) -> Option<(u64, u8)> {
        let cells = self.cells(level)?;
        let faces = self.first.sides();
        if face < faces {
            let (edge, second) = cells.first_edges().parts(number)?;
            let (first, its_face) = self.first.at_edge(level, face, edge)?;
            Some((cells.weave(first, second), its_face))
        } else {
            let (first, edge) = cells.second_edges().parts(number)?;
            let (second, its_face) = self.second.at_edge(level, face - faces, edge)?;
            Some((cells.weave(first, second), faces + its_face))
        }
    }

    fn face_child(&self, level: u8, place: u64, face: u8, number: u8) -> Option<(u8, u8)> {
        if level >= self.depth() {
            return None;
        }
        let cells = self.cells(level)?;
        let (first, second) = cells.parts(place)?;
        let faces = self.first.sides();
        if face < faces {
            let (edge, digit) = cells.first_edges().digits(number)?;
            let (child, its_face) = self.first.face_child(level, first, face, edge)?;
            Some((cells.pair(child, digit), its_face))
        } else {
            let (digit, edge) = cells.second_edges().digits(number)?;
            let (child, its_face) = self.second.face_child(level, second, face - faces, edge)?;
            Some((cells.pair(digit, child), faces + its_face))
        }
    }

    // The two sorts stay numbers: the trait answers and asks a sort as a number, so that an enum would be turned into one
    // here, and back in `turned`.
    fn sort(&self, face: u8) -> Option<u8> {
        let faces = self.first.sides();
        if face < faces {
            Some(0)
        } else if face < faces + self.second.sides() {
            Some(1)
        } else {
            None
        }
    }

    fn turned(&self, sort: u8, level: u8, number: u64) -> Option<u64> {
        let cells = self.cells(level)?;
        // the faces of a flat factor are all of its sort 0
        match sort {
            0 => {
                let edges = cells.first_edges();
                let (edge, second) = edges.parts(number)?;
                let turned_edge = self.first.turned(0, level, edge)?;
                Some(edges.weave(turned_edge, second))
            }
            1 => {
                let edges = cells.second_edges();
                let (first, edge) = edges.parts(number)?;
                let turned_edge = self.second.turned(0, level, edge)?;
                Some(edges.weave(first, turned_edge))
            }
            _ => None,
        }
    }
}
