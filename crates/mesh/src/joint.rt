/// One joint row of a mesh: a face of one root lies against a face of another, or of the same one.
#[derive(Clone, Copy, PartialEq, Eq, Debug)]
pub struct Joint {
    pub root: u16,
    pub face: u8,
    pub other_root: u16,
    pub other_face: u8,
    /// 0 keeps the edge number over the joint, 1 turns it.
    // A number, and no enum: the rules have the check of the mesh refuse a turn over 1, so a row can hold one.
    pub turn: u8,
}
