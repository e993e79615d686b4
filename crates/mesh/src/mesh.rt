ghost use Rattle.mesh.specs.Checking.{Verdict, OneVerdict, AcceptedJoined};
ghost use Rattle.mesh.specs.Crossing.{Crossed, OneCrossing, LeadsBack, CrossesOver, LeadsOver};
ghost use Rattle.mesh.specs.Samples.{SampleVerdicts, SampleCrossings};

use crate::cross::has_edge;
use crate::fault::MeshFault;
use crate::joint::Joint;
use scheme::Scheme;

/// A number of roots, and the joint rows that lay their faces against each other.
#[derive(Drop)]
pub struct Mesh {
    pub roots: u16,
    pub joints: Vec<Joint>,
}

impl Mesh {
    /// The first fault of the mesh under a scheme, if it has one.
    pub fn check<S: Scheme>(&self, scheme: &S) -> Result<(), MeshFault>
        ensures verdict { Verdict (S.Scheme.meaning scheme.now) self.now.roots self.now.joints.items result }
        ensures one { OneVerdict }
        ensures accepted { AcceptedJoined }
        ensures samples { SampleVerdicts }
    {
        if !self.counts_hold() {
            return Err(MeshFault::Counts);
        }
        self.check_rows(scheme)
    }

    /// Over a joint: from an edge number of a root's face, at a level, to the root, face and edge
    /// number that lie against it. `None` on the rim, where the edge number is not there, and over
    /// a row whose turn is neither 0 nor 1.
    pub fn cross<S: Scheme>(
        &self,
        scheme: &S,
        level: u8,
        root: u16,
        edge: (u8, u64),
    ) -> Option<(u16, (u8, u64))>
        ensures crossed { Crossed (S.Scheme.meaning scheme.now) self.now.joints.items level root edge result }
        ensures one { OneCrossing }
        ensures back { LeadsBack }
        ensures over { CrossesOver }
        ensures everywhere { LeadsOver }
        ensures samples { SampleCrossings }
    {
        if !has_edge(scheme, level, edge) {
            return None;
        }
        self.cross_rows(scheme, level, root, edge)
    }
}
