//! Planting: what stops it, what it lays, and the forest.
ghost use Rattle.std.specs.Prelude.{◌≡◌, drop, MatchResult};
ghost use Rattle.tiling.specs.Positions.{Blank};
ghost use Rattle.forest.specs.Planting.{counted, Planted, Admitted, Laid, Stopped, OnePlanting};

use crate::cut::blank_out;
use crate::even_cut::EvenCut;
use crate::fault::PlantFault;
use crate::forest::Forest;
use crate::signature::Signature;
use mesh::Mesh;
use scheme::Scheme;
use tiling::Leaf;

/// The most records that a forest counts.
const CAP: usize = 65536;

// Scheme, mesh and level are what `plant` is handed: a struct of them would be made there and read in two functions.

/// The cut of all roots to the level, which fits in `cap` records, or why the planting stops.
fn admit<S: Scheme>(scheme: &S, mesh: &Mesh, level: u8, cap: usize) -> Result<EvenCut, PlantFault>
    ensures { MatchResult result (λ cut. Admitted (S.Scheme.meaning scheme.now) mesh.now.roots mesh.now.joints.items level cap cut) (λ e. Stopped (S.Scheme.meaning scheme.now) mesh.now.roots mesh.now.joints.items level cap e) }
{
    mesh.check(scheme)?;
    if level > scheme.depth() {
        return Err(PlantFault::TooDeep);
    }
    let cut = EvenCut {
        roots: mesh.roots,
        width: scheme.width(),
        level,
    };
    if !cut.fits(cap) {
        return Err(PlantFault::NoRoom);
    }
    Ok(cut)
}

/// Lays the leaves and then blanks, or blanks alone where the planting stops, in the counted records.
fn lay<S: Scheme>(
    scheme: &S,
    mesh: &Mesh,
    level: u8,
    records: &mut [Leaf],
) -> Result<usize, PlantFault>
    ensures laid { MatchResult result (λ n. Laid (S.Scheme.meaning scheme.now) mesh.now.roots mesh.now.joints.items level (counted records.old) n records.new) (λ e. Stopped (S.Scheme.meaning scheme.now) mesh.now.roots mesh.now.joints.items level (counted records.old) e × Blank records.new 0 (counted records.old)) }
    ensures past { drop (counted records.old) records.new ≡ drop (counted records.old) records.old }
{
    let cap = records.len().min(CAP);
    match admit(scheme, mesh, level, cap) {
        Ok(cut) => Ok(cut.fill(&mut records[..cap])),
        Err(fault) => {
            blank_out(&mut records[..cap]);
            Err(fault)
        }
    }
}

impl Forest {
    /// Plants a forest: checks the mesh by the scheme, and cuts every root evenly to the level.
    ///
    /// The memory holds the leaves and then blanks. A refused planting leaves a dead forest, all blank.
    pub fn plant<S: Scheme>(
        scheme: &S,
        mesh: Mesh,
        level: u8,
        mut memory: Vec<Leaf>,
    ) -> (Forest, Result<usize, PlantFault>)
        ensures planted { Planted (S.Scheme.meaning scheme.now) mesh level memory.items result.0 result.1 }
        ensures one { OnePlanting }
    {
        let signature = Signature::of(scheme);
        let planted = lay(scheme, &mesh, level, memory.as_mut_slice());
        let forest = Forest {
            memory,
            count: planted.ok(),
            mesh,
            level,
            signature,
        };
        (forest, planted)
    }
}
