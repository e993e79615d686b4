//! The check of a mesh, row by row.
ghost use Rattle.std.specs.Prelude.{◌≡◌, suc, ◌<◌, ◌↔◌, length, IsTrue, MatchResult};
ghost use Rattle.mesh.specs.Faults.{told};
ghost use Rattle.mesh.specs.Joints.{row, CountsIn, Absent, Differ, Before, Taken, Sound};
ghost use Rattle.mesh.specs.Checking.{Verdict, Faulty};

use crate::ends::RootFace;
use crate::fault::MeshFault;
use crate::joint::Joint;
use crate::mesh::Mesh;
use scheme::Scheme;

impl Joint {
    /// Do the sorts of the row's two faces differ?
    fn sorts_differ<S: Scheme>(&self, scheme: &S) -> bool
        ensures { IsTrue result ↔ Differ (S.Scheme.meaning scheme.now) self.now }
    {
        scheme.sort(self.face) != scheme.sort(self.other_face)
    }
}

impl Mesh {
    /// Are there 1 to 256 roots, and at most 1,024 rows?
    pub(crate) fn counts_hold(&self) -> bool
        ensures { IsTrue result ↔ CountsIn self.now.roots self.now.joints.items }
    {
        1 <= self.roots && self.roots <= 256 && self.joints.len() <= 1024
    }

    /// Is a root, a face or the turn of the row absent?
    fn is_absent<S: Scheme>(&self, scheme: &S, joint: &Joint) -> bool
        ensures { IsTrue result ↔ Absent (S.Scheme.meaning scheme.now) self.now.roots joint.now }
    {
        let faces = scheme.faces();
        joint.root >= self.roots
            || joint.other_root >= self.roots
            || joint.face >= faces
            || joint.other_face >= faces
            || joint.turn > 1
    }

    // That row `i` is there stands in three contracts: a type for it would be made once, by `check_rows`, and hold the rows again.

    /// Does a row before row `i` have this root face at an end?
    fn is_joined_before(&self, i: usize, end: RootFace) -> bool
        requires { i < length self.now.joints.items }
        ensures { IsTrue result ↔ Before self.now.joints.items i end.root end.face }
    {
        self.joints[..i].iter().any(|joint| joint.ends_at(end))
    }

    /// Does this row `i` join a face to itself, or one that an earlier row joins already?
    fn is_taken(&self, i: usize, joint: &Joint) -> bool
        requires is_row { i < length self.now.joints.items }
        requires this { joint.now ≡ row self.now.joints.items i }
        ensures { IsTrue result ↔ Taken self.now.joints.items i }
    {
        joint.joins_itself()
            || self.is_joined_before(i, joint.one())
            || self.is_joined_before(i, joint.other())
    }

    /// The first fault of row `i`.
    // The row is looked up and not handed over, so that the check proves this function with no answer: a must-fail edit stands
    // here, and docs/DECISIONS.md says what such a function is to be like.
    fn check_row<S: Scheme>(&self, scheme: &S, i: usize) -> Result<(), MeshFault>
        requires { i < length self.now.joints.items }
        ensures { MatchResult result (λ _. Sound (S.Scheme.meaning scheme.now) self.now.roots self.now.joints.items i) (λ f. ((told f).1 ≡ suc i) × Faulty (S.Scheme.meaning scheme.now) self.now.roots self.now.joints.items i (told f).0) }
    {
        let joint = &self.joints[i];
        let row = i + 1;
        if self.is_absent(scheme, joint) {
            return Err(MeshFault::Absent { row });
        }
        if joint.sorts_differ(scheme) {
            return Err(MeshFault::SortsDiffer { row });
        }
        if self.is_taken(i, joint) {
            return Err(MeshFault::Taken { row });
        }
        Ok(())
    }

    /// The first fault of the rows, in a mesh whose counts are in bounds.
    pub(crate) fn check_rows<S: Scheme>(&self, scheme: &S) -> Result<(), MeshFault>
        requires { CountsIn self.now.roots self.now.joints.items }
        ensures { Verdict (S.Scheme.meaning scheme.now) self.now.roots self.now.joints.items result }
    {
        for i in 0..self.joints.len() {
            self.check_row(scheme, i)?;
        }
        Ok(())
    }
}
