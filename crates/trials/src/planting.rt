//! Planting at its edges.
use crate::relabelled::Relabelled;
use forest::{Forest, PlantFault};
use mesh::{Joint, Mesh, MeshFault};
use scheme::Limit;
use shapes::Line;
use std::alloc::Global;
use std::process::Abort;
use std::test::Fail;
use tiling::Leaf;

/// A record that is not blank.
const FULL: Leaf = Leaf {
    root: 7,
    level: 7,
    place: 7,
};

/// The most records that a forest counts.
const COUNTED: usize = 65536;

/// Roots without joints.
fn apart(heap: Global, roots: u16) -> Mesh {
    Mesh {
        roots,
        joints: Vec::new(heap),
    }
}

/// Is every record this one?
fn are_all(records: &[Leaf], leaf: Leaf) -> bool {
    records.iter().all(|record| *record == leaf)
}

/// Plants lines without joints at a level, on so many records, none of them blank, and checks what
/// it answers: the number of leaves or a fault, blanks after the leaves, and the rest as it was.
fn check_planting(
    rt: &impl Abort,
    heap: Global,
    roots: u16,
    level: u8,
    records: usize,
    answer: Result<usize, PlantFault>,
) -> Result<(), Fail> {
    let memory = vec![in heap; FULL; records]?;
    let (forest, planted) = Forest::plant(&Line::new(), apart(heap, roots), level, memory);
    assert_eq!(rt; planted, answer);
    assert_eq!(rt; forest.is_alive(), planted.is_ok());
    let leaves = planted.unwrap_or(0);
    assert_eq!(rt; forest.leaves().len(), leaves);
    let records = forest.records();
    let counted = records.len().min(COUNTED);
    assert!(rt; leaves <= counted);
    assert!(rt; are_all(&records[leaves..counted], Leaf::BLANK));
    assert!(rt; are_all(&records[counted..], FULL));
    Ok(())
}

#[test]
fn leaves_fit_the_memory(rt: HostRuntime) -> Result<(), Fail> {
    for (roots, level, records, answer) in [
        (1, 1, 2, Ok(2)),
        (1, 1, 1, Err(PlantFault::NoRoom)),
        (1, 0, 0, Err(PlantFault::NoRoom)),
        (3, 1, 9, Ok(6)),
        (3, 1, 5, Err(PlantFault::NoRoom)),
        (0, 1, 3, Err(PlantFault::Mesh(MeshFault::Counts))),
        (1, 19, 3, Err(PlantFault::TooDeep)),
    ] {
        check_planting(&rt, rt.alloc(), roots, level, records, answer)?;
    }
    Ok(())
}

#[test]
fn memory_past_65536_records_is_neither_touched_nor_counted(rt: HostRuntime) -> Result<(), Fail> {
    for (roots, level, records, answer) in [
        (1, 1, 65540, Ok(2)),
        (256, 8, 65535, Err(PlantFault::NoRoom)),
        (256, 8, 65536, Ok(65536)),
        (256, 8, 65540, Ok(65536)),
        (256, 9, 200000, Err(PlantFault::NoRoom)),
        (257, 0, 65540, Err(PlantFault::Mesh(MeshFault::Counts))),
    ] {
        check_planting(&rt, rt.alloc(), roots, level, records, answer)?;
    }
    Ok(())
}

/// Half of a root, by its place.
fn half(root: u16, place: u64) -> Leaf {
    Leaf {
        root,
        level: 1,
        place,
    }
}

#[test]
fn leaves_are_in_curve_order(rt: HostRuntime) -> Result<(), Fail> {
    let memory = vec![in rt.alloc(); FULL; 5]?;
    let (forest, _) = Forest::plant(&Line::new(), apart(rt.alloc(), 2), 1, memory);
    assert_eq!(rt; forest.planted_level(), 1);
    assert_eq!(rt; forest.mesh().roots, 2);
    let halves = [half(0, 0), half(0, 1), half(1, 0), half(1, 1)];
    assert_eq!(rt; forest.leaves(), &halves[..]);
    Ok(())
}

#[test]
fn the_mesh_comes_before_depth_and_depth_before_room(rt: HostRuntime) -> Result<(), Fail> {
    let scheme = Limit {
        below: Relabelled { below: Line::new() },
        limit: 3,
    };
    let itself = Joint {
        root: 0,
        face: 1,
        other_root: 0,
        other_face: 1,
        turn: 0,
    };
    let mut mesh = apart(rt.alloc(), 1);
    mesh.joints.push(itself)?;
    let (_, planted) = Forest::plant(&scheme, mesh, 4, Vec::new(rt.alloc()));
    assert_eq!(rt; planted, Err(PlantFault::Mesh(MeshFault::Taken { row: 1 })));
    let (_, planted) = Forest::plant(&scheme, apart(rt.alloc(), 1), 4, Vec::new(rt.alloc()));
    assert_eq!(rt; planted, Err(PlantFault::TooDeep));
    let (_, planted) = Forest::plant(&scheme, apart(rt.alloc(), 1), 3, Vec::new(rt.alloc()));
    assert_eq!(rt; planted, Err(PlantFault::NoRoom));
    let memory = vec![in rt.alloc(); FULL; 8]?;
    let (_, planted) = Forest::plant(&scheme, apart(rt.alloc(), 1), 3, memory);
    assert_eq!(rt; planted, Ok(8));
    Ok(())
}
