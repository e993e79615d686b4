use scheme::{Crossing, Flat, Scheme};

/// A scheme as the one below it, under a name of its own: flat over a flat one, by the members that a user has to give.
#[derive(Clone, Copy)]
pub struct Named<S> {
    pub below: S,
    pub name: &'static str,
}

impl<S: Scheme> Scheme for Named<S> {
    ghost meaning = { λ s. S.Scheme.meaning s.below };

    ghost lawful = { λ s. S.Scheme.lawful s.below };

    fn width(&self) -> u8 {
        self.below.width()
    }

    fn faces(&self) -> u8 {
        self.below.faces()
    }

    fn depth(&self) -> u8 {
        self.below.depth()
    }

    fn across(&self, level: u8, place: u64, face: u8) -> Option<Crossing> {
        self.below.across(level, place, face)
    }

    fn at_edge(&self, level: u8, face: u8, number: u64) -> Option<(u64, u8)> {
        self.below.at_edge(level, face, number)
    }

    fn face_child(&self, level: u8, place: u64, face: u8, number: u8) -> Option<(u8, u8)> {
        self.below.face_child(level, place, face, number)
    }

    fn sort(&self, face: u8) -> Option<u8> {
        self.below.sort(face)
    }

    fn turned(&self, sort: u8, level: u8, number: u64) -> Option<u64> {
        self.below.turned(sort, level, number)
    }
}

impl<S: Flat> Flat for Named<S> {
    const CORNERS: usize = S::CORNERS;

    ghost plan = { λ s. S.Flat.plan s.below };

    ghost nested = { λ s. S.Flat.nested s.below };

    ghost flat = { λ s. S.Flat.flat s.below };

    ghost agrees = { λ s. S.Flat.agrees s.below };

    fn corner_count(&self) -> usize {
        self.below.corner_count()
    }

    fn narrow(&self) -> u8 {
        self.below.narrow()
    }

    fn sides(&self) -> u8 {
        self.below.sides()
    }

    fn outline(&self, level: u8, place: u64) -> [(u32, u32); 4] {
        self.below.outline(level, place)
    }
}
