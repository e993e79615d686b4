//! Lengths in ticks at any level, whether there is such a level or not.
// `ticks` answers 0 and no option: as a public call it could never fail. The shapes ask a `Level`.
ghost use Rattle.std.specs.Prelude.{◌≡◌, ◌*◌, ◌^◌, ◌&&◌, if◌then◌else◌, nat_le};
ghost use Rattle.scheme.specs.Plan.{side as side_of};

use crate::level::Level;

/// A length in cell sides of a level, in ticks, or 0 where a root is not so long or there is no such level.
pub fn ticks(sides: u64, level: u8) -> u32
    ensures { result ≡ (if nat_le level 18 && nat_le sides (2 ^ level) then sides * side_of level else 0) }
{
    Level::new(level)
        .and_then(|level| level.ticks(sides))
        .unwrap_or(0)
}
