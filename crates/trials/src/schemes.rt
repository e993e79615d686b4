//! The line and the depth limit, on tables and by their corners.
use crate::named::Named;
use crate::relabelled::Relabelled;
use product::Product;
use scheme::{Crossing, Flat, Limit, Scheme};
use shapes::Line;
use square::Square;
use std::process::Abort;

/// How many ticks a root's side has.
const SIDE: u32 = 262_144;

/// Are two faces of different cells at the same corner?
fn share(level: u8, (place, face): (u64, u8), (other, entered): (u64, u8)) -> bool {
    let line = Line::new();
    place != other
        && line.outline(level, place).get(usize::from(face))
            == line.outline(level, other).get(usize::from(entered))
}

/// Checks that a face of a cell meets exactly the faces at its corner.
fn check_face(rt: &impl Abort, level: u8, cells: u64, place: u64, face: u8) {
    let across = Line::new().across(level, place, face);
    for other in 0..cells {
        for entered in 0..2 {
            let meets = across == Some(Crossing::Inside((other, entered)));
            assert_eq!(rt; meets, share(level, (place, face), (other, entered)));
        }
    }
}

#[test]
fn faces_meet_where_they_share_a_corner(rt: HostRuntime) {
    for (level, cells) in [(0, 1), (1, 2), (2, 4), (3, 8)] {
        for place in 0..cells {
            for face in 0..2 {
                check_face(&rt, level, cells, place, face);
            }
        }
    }
}

#[test]
fn the_ends_of_a_root_are_its_edges(rt: HostRuntime) {
    let line = Line::new();
    for (level, last) in [(0, 0), (1, 1), (2, 3), (3, 7), (18, 262_143)] {
        for (face, place) in [(0, 0), (1, last)] {
            assert_eq!(rt;
                line.across(level, place, face),
                Some(Crossing::Edge(face, 0))
            );
            assert_eq!(rt; line.at_edge(level, face, 0), Some((place, face)));
        }
        assert_eq!(rt; line.outline(level, 0)[0], (0, 0));
        assert_eq!(rt; line.outline(level, last)[1], (SIDE, 0));
    }
}

#[test]
fn a_child_keeps_the_face_of_its_parent(rt: HostRuntime) {
    let line = Line::new();
    for (level, cells) in [(0u8, 1u64), (1, 2), (2, 4), (3, 8)] {
        for place in 0..cells {
            for face in 0..2u8 {
                let child = line.face_child(level, place, face, 0);
                assert_eq!(rt; child, Some((face, face)));
                let i = usize::from(face);
                let corner = line.outline(level, place).get(i).copied();
                let below = line.outline(level + 1, place * 2 + u64::from(face));
                assert_eq!(rt; below.get(i).copied(), corner);
            }
        }
    }
}

#[test]
fn outside_its_bounds_a_line_answers_nothing(rt: HostRuntime) {
    let line = Line::new();
    assert_eq!(rt; (line.width(), line.faces(), line.depth()), (1, 2, 18));
    for (level, place, face) in [
        (0, 1, 0),
        (3, 8, 1),
        (18, 262_144, 0),
        (19, 0, 0),
        (3, 0, 2),
    ] {
        assert_eq!(rt; line.across(level, place, face), None);
        assert_eq!(rt; line.face_child(level, place, face, 0), None);
    }
    assert_eq!(rt; line.face_child(18, 0, 0, 0), None);
    assert_eq!(rt; line.face_child(3, 0, 0, 1), None);
    for (level, face, number) in [(3, 2, 0), (3, 0, 1), (19, 0, 0)] {
        assert_eq!(rt; line.at_edge(level, face, number), None);
    }
    for (level, place) in [(0, 1), (3, 8), (18, 262_144), (19, 0), (255, 0)] {
        assert_eq!(rt; line.outline(level, place), [(0, 0); 4]);
    }
}

#[test]
fn sorts_and_turns(rt: HostRuntime) {
    let line = Line::new();
    let own = Relabelled { below: line };
    for (face, sort, label) in [
        (0, Some(0), Some(0)),
        (1, Some(0), Some(1)),
        (2, None, None),
    ] {
        assert_eq!(rt; line.sort(face), sort);
        assert_eq!(rt; own.sort(face), label);
    }
    for (sort, level, number, turned, relabelled) in [
        (0, 3, 0, Some(0), Some(0)),
        (0, 18, 0, Some(0), Some(0)),
        (1, 3, 0, None, Some(0)),
        (2, 3, 0, None, None),
        (0, 3, 1, None, None),
        (0, 19, 0, None, None),
    ] {
        assert_eq!(rt; line.turned(sort, level, number), turned);
        assert_eq!(rt; own.turned(sort, level, number), relabelled);
    }
}

#[test]
fn a_limit_cuts_at_its_level(rt: HostRuntime) {
    let line = Line::new();
    let limited = Limit {
        below: line,
        limit: 2,
    };
    assert_eq!(rt;
        (limited.width(), limited.faces(), limited.depth()),
        (1, 2, 2)
    );
    assert_eq!(rt; limited.corner_count(), 2);
    assert_eq!(rt; limited.sort(1), Some(0));
    for (level, within) in [(1, true), (2, true), (3, false), (19, false)] {
        assert_eq!(rt; limited.across(level, 0, 1).is_some(), within);
        assert_eq!(rt; limited.at_edge(level, 1, 0).is_some(), within);
        assert_eq!(rt; limited.turned(0, level, 0).is_some(), within);
        assert_eq!(rt; limited.outline(level, 1) != [(0, 0); 4], within);
        assert_eq!(rt; limited.face_child(level, 0, 1, 0).is_some(), level < 2);
    }
    assert_eq!(rt; limited.across(2, 1, 1), line.across(2, 1, 1));
    assert_eq!(rt; limited.outline(2, 3), line.outline(2, 3));
    let deep = Limit {
        below: line,
        limit: 255,
    };
    assert_eq!(rt; deep.depth(), 18);
}

/// The constant of a flat scheme.
fn constant<S: Flat>(_scheme: &S) -> usize {
    S::CORNERS
}

#[test]
fn a_limit_copies_the_number_of_corners(rt: HostRuntime) {
    let line = Line::new();
    let once = Limit {
        below: line,
        limit: 5,
    };
    let twice = Limit {
        below: once,
        limit: 3,
    };
    assert_eq!(rt; constant(&line), 2);
    assert_eq!(rt; constant(&once), once.corner_count());
    assert_eq!(rt; constant(&twice), 2);
}

#[test]
fn a_flat_scheme_of_ones_own_is_limited_and_multiplied(rt: HostRuntime) {
    let square = Square::new();
    let own = Named {
        below: square,
        name: "pit floor",
    };
    assert_eq!(rt; own.name, "pit floor");
    assert_eq!(rt; (constant(&own), own.corner_count()), (4, 4));
    let limited = Limit {
        below: own,
        limit: 2,
    };
    assert_eq!(rt; limited.outline(2, 6), square.outline(2, 6));
    assert_eq!(rt; limited.outline(3, 6), [(0, 0); 4]);
    let (mine, plain) = (
        Product {
            first: own,
            second: Line::new(),
        },
        Product {
            first: square,
            second: Line::new(),
        },
    );
    for (place, face) in [(0, 0), (3, 1), (5, 3), (7, 4), (7, 5)] {
        assert_eq!(rt; mine.across(1, place, face), plain.across(1, place, face));
    }
}
