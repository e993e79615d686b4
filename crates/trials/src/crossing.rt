//! Over a joint, and back.
use mesh::{Joint, Mesh};
use product::{Prism, Product};
use shapes::Line;
use square::Square;
use std::alloc::{AllocError, Global};
use std::test::Fail;
use triangle::Triangle;

/// Root 0's face 1 lies against root 1's face 0, and root 1's face 1 against root 2's face 1,
/// turned. Root 0's face 0 and root 2's face 0 are rim. Both faces of root 3 lie against each other.
fn chain(heap: Global) -> Result<Mesh, AllocError> {
    let joints = [
        Joint {
            root: 0,
            face: 1,
            other_root: 1,
            other_face: 0,
            turn: 0,
        },
        Joint {
            root: 1,
            face: 1,
            other_root: 2,
            other_face: 1,
            turn: 1,
        },
        Joint {
            root: 3,
            face: 1,
            other_root: 3,
            other_face: 0,
            turn: 1,
        },
    ];
    Ok(Mesh {
        roots: 4,
        joints: joints.to_vec(heap)?,
    })
}

#[test]
fn a_joint_is_crossed_either_way(rt: HostRuntime) -> Result<(), Fail> {
    let mesh = chain(rt.alloc())?;
    let line = Line::new();
    for (root, face, other_root, other_face) in [
        (0, 1, 1, 0),
        (1, 1, 2, 1),
        (3, 0, 3, 1),
        (3, 1, 3, 0),
    ] {
        for level in [0, 5, 18] {
            let over = mesh.cross(&line, level, root, (face, 0));
            assert_eq!(rt; over, Some((other_root, (other_face, 0))));
            let back = mesh.cross(&line, level, other_root, (other_face, 0));
            assert_eq!(rt; back, Some((root, (face, 0))));
        }
    }
    Ok(())
}

#[test]
fn nothing_is_across_the_rim_or_past_the_edge_numbers(rt: HostRuntime) -> Result<(), Fail> {
    let mesh = chain(rt.alloc())?;
    let line = Line::new();
    for (level, root, edge) in [
        (3, 0, (0, 0)),
        (3, 2, (0, 0)),
        (3, 4, (0, 0)),
        (3, 0, (1, 1)),
        (3, 0, (2, 0)),
        (19, 0, (1, 0)),
    ] {
        assert_eq!(rt; mesh.cross(&line, level, root, edge), None);
    }
    Ok(())
}

/// Two roots, joined by a face of each, turned.
fn turned_pair(heap: Global, face: u8, other_face: u8) -> Result<Mesh, AllocError> {
    let joints = [Joint {
        root: 0,
        face,
        other_root: 1,
        other_face,
        turn: 1,
    }];
    Ok(Mesh {
        roots: 2,
        joints: joints.to_vec(heap)?,
    })
}

#[test]
fn a_turned_joint_of_squares_turns_the_edge_number(rt: HostRuntime) -> Result<(), Fail> {
    let mesh = turned_pair(rt.alloc(), 1, 2)?;
    for (level, number, over) in [(0, 0, 0), (1, 0, 1), (3, 2, 5), (18, 0, 262_143)] {
        assert_eq!(rt;
            mesh.cross(&Square::new(), level, 0, (1, number)),
            Some((1, (2, over)))
        );
        assert_eq!(rt;
            mesh.cross(&Square::new(), level, 1, (2, over)),
            Some((0, (1, number)))
        );
    }
    Ok(())
}

/// An edge number of a prism's side has the triangle's digits in its even bits and the line's in its odd ones.
#[test]
fn a_turned_joint_of_prisms_turns_the_triangles_part(rt: HostRuntime) -> Result<(), Fail> {
    let prism: Prism = Product {
        first: Triangle::new(),
        second: Line::new(),
    };
    let sides = turned_pair(rt.alloc(), 0, 1)?;
    for (level, number, over) in [(1, 0, 1), (1, 2, 3), (2, 0b1001, 0b1100)] {
        assert_eq!(rt;
            sides.cross(&prism, level, 0, (0, number)),
            Some((1, (1, over)))
        );
    }
    let ends = turned_pair(rt.alloc(), 4, 3)?;
    for number in [0, 7, 15] {
        assert_eq!(rt;
            ends.cross(&prism, 2, 0, (4, number)),
            Some((1, (3, number)))
        );
    }
    Ok(())
}
