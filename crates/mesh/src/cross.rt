//! Over a joint row.
ghost use Rattle.std.specs.Prelude.{◌≡◌, ◌↔◌, ℕ, length, Some, None, IsTrue, MatchOption};
ghost use Rattle.mesh.specs.Joints.{row};
ghost use Rattle.mesh.specs.Crossing.{FirstRow, Crossed, TurnedOver};
ghost use Rattle.scheme.specs.Scheme.{EdgeIn};

use crate::ends::RootFace;
use crate::joint::Joint;
use crate::mesh::Mesh;
use scheme::Scheme;

// A face and an edge number travel as a pair, as the rules have it.

/// Is there such an edge number of the face at the level? A face has 2^(w - 1) children.
pub(crate) fn has_edge<S: Scheme>(scheme: &S, level: u8, edge: (u8, u64)) -> bool
    ensures { IsTrue result ↔ EdgeIn (S.Scheme.meaning scheme.now) level edge.0 edge.1 }
{
    let (face, number) = edge;
    if level > scheme.depth() || face >= scheme.faces() {
        return false;
    }
    let bits = (scheme.width() - 1) * level;
    number < 1u64 << bits
}

/// The first of the rows with this root face at an end.
fn first_row(joints: &[Joint], end: RootFace) -> Option<&Joint>
    ensures { MatchOption result (FirstRow joints.now end.root end.face None) (λ joint. (i : ℕ) × FirstRow joints.now end.root end.face (Some i) × (joint.now ≡ row joints.now i)) }
{
    joints.iter().find(|joint| joint.ends_at(end))
}

impl Joint {
    /// The edge number on the other side of the row.
    fn turn_over<S: Scheme>(&self, scheme: &S, level: u8, edge: (u8, u64)) -> Option<u64>
        ensures { TurnedOver (S.Scheme.meaning scheme.now) self.now edge.0 level edge.1 result }
    {
        let (face, number) = edge;
        match self.turn {
            0 => Some(number),
            1 => scheme.turned(scheme.sort(face)?, level, number),
            _ => None,
        }
    }
}

impl Mesh {
    /// Over the first row with the root face at an end, from an edge number that is there.
    pub(crate) fn cross_rows<S: Scheme>(
        &self,
        scheme: &S,
        level: u8,
        root: u16,
        edge: (u8, u64),
    ) -> Option<(u16, (u8, u64))>
        requires { EdgeIn (S.Scheme.meaning scheme.now) level edge.0 edge.1 }
        ensures { Crossed (S.Scheme.meaning scheme.now) self.now.joints.items level root edge result }
    {
        let end = RootFace { root, face: edge.0 };
        let joint = first_row(self.joints.as_slice(), end)?;
        let number = joint.turn_over(scheme, level, edge)?;
        let across = joint.across_from(end);
        Some((across.root, (across.face, number)))
    }
}
