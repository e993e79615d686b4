//! The cells of squares and triangles, to and from their coordinates.
use crate::asked::{Asked, all, some};
use crate::row::{Row, print_row};
use models::Anchor;
use scheme::Scheme;
use std::alloc::{AllocError, Global};

/// Coordinates at the ends and in the middle of a root of level 18, and past it.
const FAR: [u32; 8] = [
    0,
    1,
    131_071,
    131_072,
    262_143,
    262_144,
    2_147_483_648,
    u32::MAX,
];

/// The first level that is not asked for whole.
const SMALL: u8 = 4;

/// The levels that are asked for: small ones, the deepest, and one past it.
const LEVELS: [u8; 6] = [0, 1, 2, 3, 18, 19];

/// The places of the cells of each type on a grid of coordinates, and of one type more than there are.
fn print_places<P: Fn(u8, Anchor) -> Option<u64>>(
    rt: &HostRuntime,
    level: u8,
    reach: &[u32],
    place_of: &P,
) -> anyhow::Result<()>
    requires { P.IsAlwaysCallable place_of.now }
{
    for ty in 0..3u8 {
        let mut row = Row::new(rt.alloc(), level);
        for y in reach {
            for x in reach {
                row.add(place_of(level, Anchor { x: *x, y: *y, ty }))?;
            }
        }
        println!(rt; "places {level} {ty}:{row}")?;
    }
    Ok(())
}

/// The coordinates along a root's side at a small level and the first past it, and far ones at a deep level.
fn reach_of(heap: Global, level: u8) -> Result<Vec<u32>, AllocError> {
    if level < SMALL {
        (0..=1u32.wrapping_shl(u32::from(level))).collect(heap)
    } else {
        FAR.to_vec(heap)
    }
}

/// All of a small level, and some of a deep one.
fn asked_of<S: Scheme>(heap: Global, shape: &S, level: u8) -> Result<Asked, AllocError> {
    if level < SMALL {
        Asked::by(heap, shape, level, all)
    } else {
        Asked::by(heap, shape, level, some)
    }
}

/// The cells and places of small levels, of the deepest, and one past it: `cell` tells a cell's coordinates, and `place_of`
/// leads back.
pub(crate) fn print_cells<
    S: Scheme,
    C: Fn(u8, u64) -> Option<Anchor> + Drop,
    P: Fn(u8, Anchor) -> Option<u64> + Drop,
>(rt: &HostRuntime, name: &str, shape: &S, cell: C, place_of: P) -> anyhow::Result<()>
    requires cells { C.IsAlwaysCallable cell }
    requires places { P.IsAlwaysCallable place_of }
{
    println!(rt; "== cells of {name}")?;
    for level in LEVELS {
        let asked = asked_of(rt.alloc(), shape, level)?;
        let places = asked.places.as_slice();
        print_row(
            rt,
            format_args!("cells {level}"),
            level,
            places,
            |row, place| row.add(cell(level, place)),
        )?;
        print_row(
            rt,
            format_args!("back {level}"),
            level,
            places,
            |row, place| { row.add(cell(level, place).and_then(|anchor| place_of(level, anchor))) },
        )?;
    }
    for level in LEVELS {
        let reach = reach_of(rt.alloc(), level)?;
        print_places(rt, level, reach.as_slice(), &place_of)?;
    }
    Ok(())
}
