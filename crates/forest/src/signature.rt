ghost use Rattle.std.specs.Prelude.{◌*◌, ◌≤◌};

/// What a forest keeps of its scheme: its width, its number of faces, its depth, and each face's sort (0 past the faces).
#[derive(Clone, Copy)]
pub struct Signature {
    pub(crate) width: u8,
    pub(crate) faces: u8,
    pub(crate) depth: u8,
    // Eight sorts, 0 past the faces, and not a list of as many as there are: docs/DECISIONS.md says what a forest keeps.
    pub(crate) sorts: [u8; 8],
    ghost widths: { (1 ≤ width) × (width ≤ 4) },
    ghost sides: { (2 ≤ faces) × (faces ≤ 8) },
    ghost depths: { (depth ≤ 18) × (width * depth ≤ 54) },
}
