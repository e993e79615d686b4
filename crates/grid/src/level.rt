ghost use Rattle.std.specs.Prelude.{◌≡◌, ◌*◌, ◌^◌, ◌<◌, ◌≤◌, if◌then◌else◌, Some, None, nat_le, nat_lt, MatchOption};
ghost use Rattle.scheme.specs.Plan.{side as side_of};
ghost use Rattle.grid.specs.Turning.{turn_over};

/// The deepest level of the flat shapes.
pub const DEPTH: u8 = 18;

/// A level of the flat shapes.
#[derive(Clone, Copy, PartialEq, Eq, Debug)]
pub struct Level {
    pub number: u8,
    pub ghost within: { number ≤ 18 },
}

impl Level {
    /// The level of this number, or none where it is too deep.
    pub fn new(number: u8) -> Option<Level>
        ensures { MatchOption result (18 < number) (λ level. level.number ≡ number) }
    {
        if number > DEPTH {
            None
        } else {
            Some(Level { number })
        }
    }

    /// How many cells lie along a root's side. A line has as many places.
    pub fn row_length(self) -> u32
        ensures value { result ≡ 2 ^ self.number }
        ensures bounds { result ≤ 262144 }
    {
        1u32 << self.number
    }

    /// How many places a root has where a cell has four children.
    pub fn places(self) -> u64
        ensures value { result ≡ 4 ^ self.number }
        ensures bounds { result ≤ 68719476736 }
    {
        1u64 << (2 * self.number)
    }

    /// A cell's side in ticks.
    fn side(self) -> u32
        ensures value { result ≡ side_of self.number }
        ensures row { 2 ^ self.number * result ≡ 262144 }
    {
        1u32 << (DEPTH - self.number)
    }

    /// A length in cell sides, in ticks, or none where a root's side is shorter.
    pub fn ticks(self, sides: u64) -> Option<u32>
        ensures { result ≡ (if nat_le sides (2 ^ self.number) then Some (sides * side_of self.number) else None) }
    {
        let sides = u32::try_from(sides).ok()?;
        if sides > self.row_length() {
            return None;
        }
        Some(sides * self.side())
    }

    /// The number of a cell along a root's side, or none past its end: a place of a line, or an edge number of a square or a
    /// triangle.
    pub fn along(self, number: u64) -> Option<u32>
        ensures { result ≡ (if nat_lt number (2 ^ self.number) then Some number else None) }
    {
        let number = u32::try_from(number).ok()?;
        if number >= self.row_length() {
            return None;
        }
        Some(number)
    }

    /// An edge number of a square or a triangle turned over, or none where there is no such number.
    pub fn turned_over(self, number: u64) -> Option<u64>
        ensures { result ≡ (if nat_lt number (2 ^ self.number) then Some (turn_over self.number number) else None) }
    {
        self.along(number)?;
        // In 64 bits: turned over in 32, an edge number of a product took a third longer to turn.
        Some(u64::from(self.row_length()) - 1 - number)
    }
}
