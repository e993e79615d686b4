ghost use Rattle.std.specs.Prelude.{◌≡◌, ◌<◌, ◌≤◌, MatchOption};
ghost use Rattle.scheme.specs.Limiting.{limited, limited_plan};
ghost use Rattle.scheme.specs.Limited.{limited_lawful};
ghost use Rattle.scheme.specs.LimitedPlan.{limited_nested, limited_flat, limited_agrees};

use crate::crossing::Crossing;
use crate::flat::Flat;
use crate::scheme::Scheme;

/// A depth limit over any scheme; over a flat one it is flat.
#[derive(Clone, Copy, PartialEq, Eq, Debug)]
pub struct Limit<S> {
    pub below: S,
    pub limit: u8,
}

impl<S> Limit<S> {
    /// The scheme below, at a level that the limit leaves.
    fn within(&self, level: u8) -> Option<&S>
        ensures { MatchOption result (self.now.limit < level) (λ below. (level ≤ self.now.limit) × (below.now ≡ self.now.below)) }
    {
        (level <= self.limit).then_some(&self.below)
    }
}

impl<S: Scheme> Scheme for Limit<S> {
    ghost meaning = { λ s. limited s.limit (S.Scheme.meaning s.below) };

    ghost lawful = { λ s. limited_lawful (S.Scheme.meaning s.below) (S.Scheme.lawful s.below) s.limit };

    fn width(&self) -> u8 {
        self.below.width()
    }

    fn faces(&self) -> u8 {
        self.below.faces()
    }

    fn depth(&self) -> u8 {
        self.below.depth().min(self.limit)
    }

    fn across(&self, level: u8, place: u64, face: u8) -> Option<Crossing> {
        self.within(level)?.across(level, place, face)
    }

    fn at_edge(&self, level: u8, face: u8, number: u64) -> Option<(u64, u8)> {
        self.within(level)?.at_edge(level, face, number)
    }

    fn face_child(&self, level: u8, place: u64, face: u8, number: u8) -> Option<(u8, u8)> {
        if level < self.limit {
            self.below.face_child(level, place, face, number)
        } else {
            None
        }
    }

    fn sort(&self, face: u8) -> Option<u8> {
        self.below.sort(face)
    }

    fn turned(&self, sort: u8, level: u8, number: u64) -> Option<u64> {
        self.within(level)?.turned(sort, level, number)
    }
}

impl<S: Flat> Flat for Limit<S> {
    const CORNERS: usize = S::CORNERS;

    ghost plan = { λ s. limited_plan s.limit (S.Flat.plan s.below) };

    ghost nested = { λ s. limited_nested (S.Flat.plan s.below) (S.Flat.nested s.below) s.limit };

    ghost flat = { λ s. limited_flat (S.Scheme.meaning s.below) (S.Flat.flat s.below) s.limit };

    ghost agrees = { λ s. limited_agrees (S.Scheme.meaning s.below) (S.Flat.plan s.below) (S.Flat.agrees s.below) s.limit };

    fn corner_count(&self) -> usize {
        self.below.corner_count()
    }

    fn narrow(&self) -> u8 {
        self.below.narrow()
    }

    fn sides(&self) -> u8 {
        self.below.sides()
    }

    fn outline(&self, level: u8, place: u64) -> [(u32, u32); 4] {
        match self.within(level) {
            Some(below) => below.outline(level, place),
            None => [(0, 0); 4],
        }
    }
}
