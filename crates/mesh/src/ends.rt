ghost use Rattle.std.specs.Prelude.{◌≡◌, ◌↔◌, IsTrue};
ghost use Rattle.mesh.specs.Joints.{Ends, Itself};
ghost use Rattle.mesh.specs.Crossing.{Passes};

use crate::joint::Joint;

/// A face of a root.
#[derive(Clone, Copy, PartialEq, Eq, Debug)]
pub(crate) struct RootFace {
    pub(crate) root: u16,
    pub(crate) face: u8,
}

impl Joint {
    /// The root face at its first end.
    pub(crate) fn one(&self) -> RootFace
        ensures { result ≡ record { root = self.now.root; face = self.now.face } }
    {
        RootFace {
            root: self.root,
            face: self.face,
        }
    }

    /// The root face at its other end.
    pub(crate) fn other(&self) -> RootFace
        ensures { result ≡ record { root = self.now.other_root; face = self.now.other_face } }
    {
        RootFace {
            root: self.other_root,
            face: self.other_face,
        }
    }

    /// Does the row have this root face at one of its ends?
    pub(crate) fn ends_at(&self, end: RootFace) -> bool
        ensures { IsTrue result ↔ Ends self.now end.root end.face }
    {
        self.one() == end || self.other() == end
    }

    /// Does the row join a face to itself?
    pub(crate) fn joins_itself(&self) -> bool
        ensures { IsTrue result ↔ Itself self.now }
    {
        self.one() == self.other()
    }

    /// The root face at the end across from this one, which stands at an end of the row.
    pub(crate) fn across_from(&self, end: RootFace) -> RootFace
        requires { Ends self.now end.root end.face }
        ensures { Passes self.now end.root end.face result.root result.face }
    {
        if self.one() == end {
            self.other()
        } else {
            self.one()
        }
    }
}
