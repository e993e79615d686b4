//! From the bytes of a description to the forest that it plants.
ghost use Rattle.description.specs.Format.{contents};
ghost use Rattle.listing.specs.Answering.{Planned, Answers, OneText};

use crate::listing::Listing;
use crate::unlisted::{NotYet, Unlisted};
use description::{Description, Shape, read};
use forest::Forest;
use mesh::Mesh;
use scheme::{Limit, Scheme};
use shapes::Line;
use std::alloc::Global;
use tiling::Leaf;

/// How many leaves a listing has room for.
const RECORDS: usize = 1024;

/// Plants the description's mesh over a scheme, to be listed.
fn plant_and_list<S: Scheme>(
    heap: Global,
    scheme: &S,
    description: Description,
) -> Result<Listing, Unlisted>
    ensures { Planned (S.Scheme.meaning scheme.now) (contents description) result }
{
    let Description {
        shape,
        roots,
        level,
        limit: _,
        joints,
        steps,
    } = description;
    let memory = vec![in heap; Leaf::BLANK; RECORDS]?;
    let (forest, planted) = Forest::plant(scheme, Mesh { roots, joints }, level, memory);
    planted?;
    if !steps.is_empty() {
        return Err(NotYet::Stepped.into());
    }
    Ok(Listing {
        shape,
        forest,
        splits: 0,
        merges: 0,
    })
}

/// Reads the bytes, and plants by the shape that they name.
fn read_and_plant(heap: Global, bytes: &[u8]) -> Result<Listing, Unlisted>
    ensures { Answers bytes.now result }
{
    let description = read(heap, bytes)?;
    let limit = description.limit;
    // Each shape's scheme has a type of its own, which the generic function takes: the match is where that type is known.
    match description.shape {
        Shape::Line => plant_and_list(
            heap,
            &Limit {
                below: Line::new(),
                limit,
            },
            description,
        ),
        shape => Err(NotYet::Shaped(shape).into()),
    }
}

/// Answers the bytes of a description: the listing of its forest, or why there is none.
///
/// Want of memory aside, the bytes determine what is printed.
pub fn respond(heap: Global, bytes: &[u8]) -> Result<Listing, Unlisted>
    ensures answers { Answers bytes.now result }
    ensures one { OneText }
{
    read_and_plant(heap, bytes)
}
