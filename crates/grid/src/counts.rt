//! Numbers of cells and edge numbers at any level, whether there is such a level or not.
// `row_length` and `places` answer 0 and no option: as public calls they could never fail. The shapes ask a `Level`.
ghost use Rattle.std.specs.Prelude.{◌≡◌, ◌==◌, ◌^◌, ◌≤◌, ◌&&◌, if◌then◌else◌, Some, None, nat_le, nat_lt};
ghost use Rattle.grid.specs.Turning.{turn_over};

use crate::level::Level;

/// How many cells lie along a root's side, or 0 where there is no such level.
pub fn row_length(level: u8) -> u32
    ensures value { result ≡ (if nat_le level 18 then 2 ^ level else 0) }
    ensures bounds { result ≤ 262144 }
{
    Level::new(level).map_or(0, Level::row_length)
}

/// How many cells a root has where a cell has four children, or 0 where there is no such level.
pub fn places(level: u8) -> u64
    ensures value { result ≡ (if nat_le level 18 then 4 ^ level else 0) }
    ensures bounds { result ≤ 68719476736 }
{
    Level::new(level).map_or(0, Level::places)
}

/// An edge number of a square or a triangle turned over, or none where there is no such number.
pub fn turned_over(level: u8, number: u64) -> Option<u64>
    ensures { result ≡ (if nat_le level 18 && nat_lt number (2 ^ level) then Some (turn_over level number) else None) }
{
    Level::new(level)?.turned_over(number)
}

/// An edge number of a face of this sort turned over, in a shape whose faces all have sort 0, or none where there is no
/// such sort or number.
pub fn turned(sort: u8, level: u8, number: u64) -> Option<u64>
    ensures { result ≡ (if sort == 0 && (nat_le level 18 && nat_lt number (2 ^ level)) then Some (turn_over level number) else None) }
{
    if sort != 0 {
        return None;
    }
    turned_over(level, number)
}
