//! The corners of the cells of flat schemes.
use crate::asked::{Asked, all, some};
use crate::row::print_row;
use scheme::Flat;

/// All corners of each cell, four to a cell.
fn print_outlines<S: Flat>(rt: &HostRuntime, flat: &S, asked: &Asked) -> anyhow::Result<()> {
    let level = asked.level;
    let places = asked.places.as_slice();
    print_row(
        rt,
        format_args!("outlines {level}"),
        level,
        places,
        |row, place| {
            for corner in flat.outline(level, place) {
                row.add(Some(corner))?;
            }
            Ok(())
        },
    )
}

/// The sizes of a flat scheme, and its cells on the plan: all down to a level, and some of the deepest ones.
pub(crate) fn print_plan<S: Flat>(
    rt: &HostRuntime,
    name: &str,
    flat: &S,
    levels: u8,
) -> anyhow::Result<()> {
    let (corners, declared) = (flat.corner_count(), S::CORNERS);
    let (width, faces) = (flat.narrow(), flat.sides());
    println!(rt;
        "== plan of {name}: corners {corners} declared {declared} width {width} faces {faces}"
    )?;
    for level in 0..=levels {
        let asked = Asked::by(rt.alloc(), flat, level, all)?;
        print_outlines(rt, flat, &asked)?;
    }
    let depth = flat.depth();
    for level in depth..=depth.saturating_add(1) {
        let asked = Asked::by(rt.alloc(), flat, level, some)?;
        print_outlines(rt, flat, &asked)?;
    }
    Ok(())
}
