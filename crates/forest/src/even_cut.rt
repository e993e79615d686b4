ghost use Rattle.std.specs.Prelude.{◌*◌, ◌≤◌};

/// All roots, each cut evenly to a level.
#[derive(Clone, Copy)]
pub(crate) struct EvenCut {
    pub(crate) roots: u16,
    pub(crate) width: u8,
    pub(crate) level: u8,
    ghost few: { roots ≤ 256 },
    ghost fits: { width * level ≤ 54 },
}
