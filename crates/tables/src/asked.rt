//! The cells and edge numbers of a level that a scheme is asked about.
use scheme::Scheme;
use std::alloc::{AllocError, Global};

/// An odd number whose multiples differ in many bits.
const MIXER: u64 = 0x9e37_79b9_7f4a_7c15;

/// How many places with digits of a width there are at a level: 2^(width × level), modulo 2^64.
fn count(width: u8, level: u8) -> u64 {
    1u64.wrapping_shl(u32::from(width).wrapping_mul(u32::from(level)))
}

/// All places with digits of a width at a level, and the first number past them.
pub(crate) fn all(heap: Global, width: u8, level: u8) -> Result<Vec<u64>, AllocError> {
    (0..=count(width, level)).collect(heap)
}

/// Some places with digits of a width at a level: each digit followed by each repeated, which is where the longest
/// carries and the corners are; eight that are well mixed; and the first number past all places.
pub(crate) fn some(heap: Global, width: u8, level: u8) -> Result<Vec<u64>, AllocError> {
    let digits = count(width, 1);
    let below = count(width, level.saturating_sub(1));
    let ones = below
        .wrapping_sub(1)
        .checked_div(digits.wrapping_sub(1))
        .unwrap_or(0);
    let past = count(width, level);
    let repeated = (0..digits).flat_map(|first| {
        (0..digits).map(move |rest| {
            first
                .wrapping_mul(below)
                .wrapping_add(rest.wrapping_mul(ones))
        })
    });
    let mixed = (1..9u64).map(|number| number.wrapping_mul(MIXER) & past.wrapping_sub(1));
    repeated.chain(mixed).chain([past]).collect(heap)
}

/// A level with the places and the edge numbers to ask about.
#[derive(Drop)]
pub(crate) struct Asked {
    pub(crate) level: u8,
    pub(crate) places: Vec<u64>,
    pub(crate) numbers: Vec<u64>,
}

impl Asked {
    /// What `choose` takes of a level of a scheme, and the first past the bounds.
    pub(crate) fn by<S: Scheme, F: Fn(Global, u8, u8) -> Result<Vec<u64>, AllocError> + Drop>(
        heap: Global,
        scheme: &S,
        level: u8,
        choose: F,
    ) -> Result<Asked, AllocError>
        requires { F.IsAlwaysCallable choose }
    {
        let width = scheme.width();
        Ok(Asked {
            level,
            places: choose(heap, width, level)?,
            numbers: choose(heap, width - 1, level)?,
        })
    }
}
