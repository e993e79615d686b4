//! The five questions of a scheme, each at the places and edge numbers that are asked about, and one past each bound.
use crate::asked::{Asked, all, some};
use crate::row::{Row, print_row};
use scheme::Scheme;

/// What lies across each face of each cell.
fn print_across<S: Scheme>(rt: &HostRuntime, scheme: &S, asked: &Asked) -> anyhow::Result<()> {
    let level = asked.level;
    let places = asked.places.as_slice();
    for face in 0..=scheme.faces() {
        let heading = format_args!("across {level} {face}");
        print_row(rt, heading, level, places, |row, place| {
            row.add(scheme.across(level, place, face))
        })?;
    }
    Ok(())
}

/// What lies at each edge number of each root face.
fn print_at_edge<S: Scheme>(rt: &HostRuntime, scheme: &S, asked: &Asked) -> anyhow::Result<()> {
    let level = asked.level;
    let numbers = asked.numbers.as_slice();
    for face in 0..=scheme.faces() {
        let heading = format_args!("at edge {level} {face}");
        print_row(rt, heading, level, numbers, |row, number| {
            row.add(scheme.at_edge(level, face, number))
        })?;
    }
    Ok(())
}

/// The face children of each face of each cell.
fn print_face_children<S: Scheme>(
    rt: &HostRuntime,
    scheme: &S,
    asked: &Asked,
) -> anyhow::Result<()> {
    let level = asked.level;
    let places = asked.places.as_slice();
    let children = 1u8.wrapping_shl(u32::from(scheme.width() - 1));
    for face in 0..=scheme.faces() {
        let heading = format_args!("face children {level} {face}");
        print_row(rt, heading, level, places, |row, place| {
            for number in 0..=children {
                row.add(scheme.face_child(level, place, face, number))?;
            }
            Ok(())
        })?;
    }
    Ok(())
}

/// Each edge number turned, by each sort that a shape has, and one more.
fn print_turned<S: Scheme>(rt: &HostRuntime, scheme: &S, asked: &Asked) -> anyhow::Result<()> {
    let level = asked.level;
    let numbers = asked.numbers.as_slice();
    for sort in 0..3u8 {
        let heading = format_args!("turned {level} {sort}");
        print_row(rt, heading, level, numbers, |row, number| {
            row.add(scheme.turned(sort, level, number))
        })?;
    }
    Ok(())
}

/// The name and the sizes of a scheme, and the sorts of its faces.
fn print_head<S: Scheme>(rt: &HostRuntime, name: &str, scheme: &S) -> anyhow::Result<()> {
    let (width, faces, depth) = (scheme.width(), scheme.faces(), scheme.depth());
    println!(rt; "== {name}: width {width} faces {faces} depth {depth}")?;
    let mut row = Row::new(rt.alloc(), 0);
    for face in 0..=faces {
        row.add(scheme.sort(face))?;
    }
    println!(rt; "sorts:{row}")?;
    Ok(())
}

/// Questions far outside the bounds of every scheme.
fn print_far<S: Scheme>(rt: &HostRuntime, scheme: &S) -> anyhow::Result<()> {
    let mut row = Row::new(rt.alloc(), 0);
    row.add(scheme.sort(u8::MAX))?;
    for (level, number, small) in [
        (u8::MAX, 0, 0),
        (0, u64::MAX, 0),
        (0, 0, u8::MAX),
        (scheme.depth(), u64::MAX, 0),
        (u8::MAX, u64::MAX, u8::MAX),
    ] {
        row.add(scheme.across(level, number, small))?;
        row.add(scheme.at_edge(level, small, number))?;
        row.add(scheme.turned(small, level, number))?;
        row.add(scheme.face_child(level, number, small, 0))?;
        row.add(scheme.face_child(level, number, 0, small))?;
    }
    println!(rt; "far:{row}")?;
    Ok(())
}

/// The questions of one level.
fn print_asked<S: Scheme>(rt: &HostRuntime, scheme: &S, asked: &Asked) -> anyhow::Result<()> {
    print_across(rt, scheme, asked)?;
    print_at_edge(rt, scheme, asked)?;
    print_face_children(rt, scheme, asked)?;
    print_turned(rt, scheme, asked)
}

/// All answers of a scheme down to a level.
pub(crate) fn print_whole<S: Scheme>(
    rt: &HostRuntime,
    name: &str,
    scheme: &S,
    levels: u8,
) -> anyhow::Result<()> {
    print_head(rt, name, scheme)?;
    for level in 0..=levels {
        let asked = Asked::by(rt.alloc(), scheme, level, all)?;
        print_asked(rt, scheme, &asked)?;
    }
    print_far(rt, scheme)
}

/// Some answers of a scheme at its deepest levels, and one past them.
pub(crate) fn print_deep<S: Scheme>(
    rt: &HostRuntime,
    name: &str,
    scheme: &S,
) -> anyhow::Result<()> {
    print_head(rt, name, scheme)?;
    let depth = scheme.depth();
    for level in depth.saturating_sub(1)..=depth.saturating_add(1) {
        let asked = Asked::by(rt.alloc(), scheme, level, some)?;
        print_asked(rt, scheme, &asked)?;
    }
    Ok(())
}
