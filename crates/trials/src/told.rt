//! What faults tell, and what is printed.
use description::Refusal;
use forest::PlantFault;
use listing::{Fault, Layer, Unlisted, respond};
use mesh::MeshFault;
use std::process::Abort;
use std::test::Fail;

#[test]
fn faults_tell_their_numbers_and_places(rt: HostRuntime) {
    for (fault, number, at) in [
        (MeshFault::Counts, 6, 0),
        (MeshFault::Absent { row: 3 }, 7, 3),
        (MeshFault::SortsDiffer { row: 4 }, 8, 4),
        (MeshFault::Taken { row: 1024 }, 9, 1024),
    ] {
        assert_eq!(rt; (fault.number(), fault.at()), (number, at));
        let planting = PlantFault::Mesh(fault);
        assert_eq!(rt; (planting.number(), planting.at()), (number, at));
    }
    let deep = PlantFault::TooDeep;
    assert_eq!(rt; (deep.number(), deep.at()), (10, 0));
    let room = PlantFault::NoRoom;
    assert_eq!(rt; (room.number(), room.at()), (11, 0));
}

/// The line of the fault is this one.
fn check_line(rt: &(impl Abort + AllocGlobal), fault: Fault, line: &str) -> Result<(), Fail> {
    let text = fault.line(rt.alloc())?;
    assert_eq!(rt; text.as_str(), line);
    Ok(())
}

#[test]
fn a_fault_is_told_in_a_line(rt: HostRuntime) -> Result<(), Fail> {
    for (fault, line) in [
        (Fault::Reader(Refusal::CutOff { at: 7 }), "E reader 1 7\n"),
        (
            Fault::Reader(Refusal::UnknownTag { at: 8191 }),
            "E reader 2 8191\n",
        ),
        (Fault::Reader(Refusal::Outside { at: 0 }), "E reader 4 0\n"),
        (Fault::Reader(Refusal::TooLong), "E reader 5 0\n"),
        (Fault::Reader(Refusal::NoMemory), "E reader 17 0\n"),
        (
            Fault::Planting(PlantFault::Mesh(MeshFault::Counts)),
            "E mesh 6 0\n",
        ),
        (
            Fault::Planting(PlantFault::Mesh(MeshFault::SortsDiffer { row: 9 })),
            "E mesh 8 9\n",
        ),
        (Fault::Planting(PlantFault::TooDeep), "E forest 10 0\n"),
        (Fault::Planting(PlantFault::NoRoom), "E forest 11 0\n"),
        (Fault::NoMemory, "E forest 17 0\n"),
    ] {
        check_line(&rt, fault, line)?;
    }
    Ok(())
}

/// Two roots of a line at level 1, joined.
const TWO_LINES: [u8; 14] = [1, 0, 2, 1, 2, 0, 1, 0, 0, 1, 0, 1, 0, 0];

#[test]
fn a_description_is_listed_or_refused(rt: HostRuntime) -> Result<(), Fail> {
    let Ok(listing) = respond(rt.alloc(), &TWO_LINES) else {
        return Err(Fail::new("it is not listed"));
    };
    let text = listing.text(rt.alloc())?;
    let lines = "F line 2 4 0 0\nL 0 0 1 0\nL 1 0 1 1\nL 2 1 1 0\nL 3 1 1 1\n";
    assert_eq!(rt; text.as_str(), lines);
    let Err(Unlisted::Refused(fault)) = respond(rt.alloc(), &TWO_LINES[0..13]) else {
        return Err(Fail::new("it is not refused"));
    };
    assert!(rt; matches!(fault.layer(), Layer::Reader));
    assert_eq!(rt; (fault.number(), fault.at()), (1, 7));
    Ok(())
}
