/// A number that no face of a shape has.
#[derive(Clone, Copy, PartialEq, Eq, Debug)]
pub struct NoSuchFace(pub u8);
