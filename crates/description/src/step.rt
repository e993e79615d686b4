/// Refine the cells of a root that meet a window of the plane.
#[derive(Clone, Copy, PartialEq, Eq, Debug)]
pub struct WindowStep {
    pub root: u16,
    pub target: u8,
    pub x0: u32,
    pub y0: u32,
    pub x1: u32,
    pub y1: u32,
}

/// Refine the cells of a root that meet a range of places.
#[derive(Clone, Copy, PartialEq, Eq, Debug)]
pub struct RangeStep {
    pub root: u16,
    pub target: u8,
    pub first: u64,
    pub last: u64,
}

/// One step to take once the mesh is planted.
#[derive(Clone, Copy, PartialEq, Eq, Debug)]
pub enum Step {
    Window(WindowStep),
    Range(RangeStep),
    Balance,
}
