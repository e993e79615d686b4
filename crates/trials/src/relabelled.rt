ghost use Rattle.trials.specs.Relabelling.{relabelled};
ghost use Rattle.trials.specs.RelabellingLemmas.{relabelled_lawful};

use scheme::{Crossing, Scheme};

/// A scheme as the one below it, but for the sorts: each face has its own number, so no two faces
/// of different numbers may be joined.
#[derive(Clone, Copy)]
pub struct Relabelled<S> {
    pub below: S,
}

impl<S: Scheme> Scheme for Relabelled<S> {
    ghost meaning = { λ s. relabelled (S.Scheme.meaning s.below) };

    ghost lawful = { λ s. relabelled_lawful (S.Scheme.meaning s.below) (S.Scheme.lawful s.below) };

    fn width(&self) -> u8 {
        self.below.width()
    }

    fn faces(&self) -> u8 {
        self.below.faces()
    }

    fn depth(&self) -> u8 {
        self.below.depth()
    }

    fn across(&self, level: u8, place: u64, face: u8) -> Option<Crossing> {
        self.below.across(level, place, face)
    }

    fn at_edge(&self, level: u8, face: u8, number: u64) -> Option<(u64, u8)> {
        self.below.at_edge(level, face, number)
    }

    fn face_child(&self, level: u8, place: u64, face: u8, number: u8) -> Option<(u8, u8)> {
        self.below.face_child(level, place, face, number)
    }

    fn sort(&self, face: u8) -> Option<u8> {
        (face < self.below.faces()).then_some(face)
    }

    fn turned(&self, sort: u8, level: u8, number: u64) -> Option<u64> {
        let below = self.below.sort(sort)?;
        self.below.turned(below, level, number)
    }
}
