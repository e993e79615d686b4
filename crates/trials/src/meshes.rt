//! The mesh check, called directly.
use crate::relabelled::Relabelled;
use mesh::{Joint, Mesh, MeshFault};
use scheme::Limit;
use shapes::Line;
use std::alloc::{AllocError, Global};
use std::test::Fail;

/// The row that joins face `face` of root 0 to face `other_face` of root 1.
fn row(face: u8, other_face: u8, turn: u8) -> Joint {
    Joint {
        root: 0,
        face,
        other_root: 1,
        other_face,
        turn,
    }
}

/// So many roots, with this row so often.
fn mesh_of(heap: Global, roots: u16, joint: Joint, rows: usize) -> Result<Mesh, AllocError> {
    let joints = vec![in heap; joint; rows]?;
    Ok(Mesh { roots, joints })
}

#[test]
fn counts_and_turns_are_checked(rt: HostRuntime) -> Result<(), Fail> {
    for (roots, rows, turn, answer) in [
        (0, 0, 0, Err(MeshFault::Counts)),
        (1, 0, 0, Ok(())),
        (256, 0, 0, Ok(())),
        (257, 0, 0, Err(MeshFault::Counts)),
        (2, 1024, 0, Err(MeshFault::Taken { row: 2 })),
        (2, 1025, 0, Err(MeshFault::Counts)),
        (2, 1, 0, Ok(())),
        (2, 1, 1, Ok(())),
        (2, 1, 2, Err(MeshFault::Absent { row: 1 })),
        (2, 1, 255, Err(MeshFault::Absent { row: 1 })),
    ] {
        let mesh = mesh_of(rt.alloc(), roots, row(1, 0, turn), rows)?;
        assert_eq!(rt; mesh.check(&Line::new()), answer);
    }
    Ok(())
}

#[test]
fn faces_of_different_sorts_are_not_joined(rt: HostRuntime) -> Result<(), Fail> {
    let scheme = Limit {
        below: Relabelled { below: Line::new() },
        limit: 3,
    };
    for (face, other_face, answer) in [
        (0, 0, Ok(())),
        (0, 1, Err(MeshFault::SortsDiffer { row: 1 })),
        (1, 0, Err(MeshFault::SortsDiffer { row: 1 })),
        (1, 1, Ok(())),
        (1, 2, Err(MeshFault::Absent { row: 1 })),
    ] {
        let mesh = mesh_of(rt.alloc(), 2, row(face, other_face, 1), 1)?;
        assert_eq!(rt; mesh.check(&scheme.below), answer);
        assert_eq!(rt; mesh.check(&scheme), answer);
    }
    Ok(())
}
