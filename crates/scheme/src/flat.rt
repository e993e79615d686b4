ghost use Rattle.std.specs.Prelude.{◌≡◌, ◌≤◌};
ghost use Rattle.scheme.specs.Plan.{Plan, Nested, Agrees, outline_of, Flat as FlatModel};

use crate::scheme::Scheme;

/// A scheme that also places its cells on the plan.
pub trait Flat: Scheme {
    /// How many corners a cell has. A constant takes no contract: `corner_count` is the number that is proved.
    // A ghost member beside it would state it, but each `impl` would have to give that, and one without it be no `Flat`.
    const CORNERS: usize;

    ghost plan: { Self → Plan };

    /// How many corners a cell has on its plan, 1 to 4.
    fn corner_count(&self) -> usize
        ensures value { result ≡ (plan self.now).count }
        ensures bounds { (1 ≤ result) × (result ≤ 4) };

    /// The width once more: the scheme's and the plan's, at most 2.
    fn narrow(&self) -> u8
        ensures value { result ≡ (plan self.now).w }
        ensures same { result ≡ (Self.Scheme.meaning self.now).w }
        ensures bounds { (1 ≤ result) × (result ≤ 2) };

    /// The number of faces once more, at most 4, all of sort 0.
    fn sides(&self) -> u8
        ensures value { result ≡ (Self.Scheme.meaning self.now).F }
        ensures bounds { (2 ≤ result) × (result ≤ 4) }
        ensures sorts { FlatModel (Self.Scheme.meaning self.now) };

    /// All corners of a cell, in ticks, those past its count as (0, 0); outside the bounds all are.
    // Four pairs beside a count, and no list: the rules have all corners of a cell answered together, by value.
    fn outline(&self, level: u8, place: u64) -> [(u32, u32); 4]
        ensures { result ≡ outline_of (plan self.now) level place };

    ghost nested: { (s : Self) → Nested (plan s) };

    ghost flat: { (s : Self) → FlatModel (Self.Scheme.meaning s) };

    ghost agrees: { (s : Self) → Agrees (Self.Scheme.meaning s) (plan s) };
}
