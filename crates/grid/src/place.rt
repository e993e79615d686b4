ghost use Rattle.std.specs.Prelude.{◌≡◌, ◌^◌, ◌<◌, ◌≤◌, ◌↔◌, IsSome, IfSome};

use crate::level::Level;

/// A place of a shape whose cells have four children.
#[derive(Clone, Copy, PartialEq, Eq, Debug)]
pub struct Place {
    pub level: Level,
    pub number: u64,
    pub ghost within: { number < 4 ^ level.number },
}

impl Place {
    /// The place of this number at a level, or none where there is no such place.
    pub fn new(level: u8, number: u64) -> Option<Place>
        ensures there { IsSome result ↔ ((level ≤ 18) × (number < 4 ^ level)) }
        ensures value { IfSome result (λ place. (place.level.number ≡ level) × (place.number ≡ number)) }
    {
        let level = Level::new(level)?;
        if number >= level.places() {
            return None;
        }
        Some(Place { level, number })
    }
}
