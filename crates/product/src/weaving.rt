ghost use Rattle.std.specs.Prelude.{◌≡◌, ◌+◌, ◌-◌, ◌*◌, ◌/◌, ◌%◌, ◌^◌, ◌<◌, ◌≤◌, MatchOption};
ghost use Rattle.models.specs.Weaving.{weave as woven, left, right};
ghost use Rattle.product.specs.Parts.{count_of, Parts, Digits};

/// How two numbers of equally many digits are woven into one: a digit of it has a digit of the first in its low bits,
/// and above them one of the second.
#[derive(Clone, Copy)]
pub(crate) struct Weaving {
    /// The bits of a digit of the first number.
    pub(crate) low: u8,
    /// The bits of a digit of the second number.
    pub(crate) high: u8,
    /// How many digits there are.
    pub(crate) level: u8,
    // all digits together have at most 54 bits
    ghost fits: { (low ≤ 2) × (high ≤ 2) × (level ≤ 18) × ((low + high) * level ≤ 54) },
}

// That a digit has at most 4 bits stands in three contracts: a type for its bits would be made anew from `low`, `high` and
// their sum at each call.

/// The lowest bits of a number.
fn lowest(number: u64, bits: u8) -> u64
    requires { bits ≤ 4 }
    ensures { result ≡ number % 2 ^ bits }
{
    number & ((1u64 << bits) - 1)
}

/// The digit `i` of a number, where a digit has so many bits.
fn digit(number: u64, i: u8, bits: u8) -> u64
    requires { (bits ≤ 4) × (bits * i ≤ 54) }
    ensures { result ≡ number / 2 ^ (bits * i) % 2 ^ bits }
{
    lowest(number >> (bits * i), bits)
}

/// The number with one more digit after its others.
fn followed(number: u64, bits: u8, digit: u64) -> u64
    requires { (bits ≤ 4) × (number * 2 ^ bits + digit < 2 ^ 54) }
    ensures { result ≡ number * 2 ^ bits + digit }
{
    (number << bits) + digit
}

impl Weaving {
    /// The bits of a woven digit.
    fn width(self) -> u8
        ensures { result ≡ self.low + self.high }
    {
        self.low + self.high
    }

    /// The number woven of two.
    pub(crate) fn weave(self, first: u64, second: u64) -> u64
        ensures { result ≡ woven (2 ^ self.low) (2 ^ self.high) self.level first second }
    {
        let mut number = 0;
        for i in (0..self.level).rev() {
            let low = digit(first, i, self.low);
            let high = digit(second, i, self.high);
            let pair = followed(high, self.low, low);
            number = followed(number, self.width(), pair);
        }
        number
    }

    /// How many woven numbers there are.
    fn count(self) -> u64
        ensures { result ≡ count_of self.low self.high self.level }
    {
        1u64 << (self.width() * self.level)
    }

    /// The two numbers that one is woven of.
    fn split(self, number: u64) -> (u64, u64)
        ensures first { result.0 ≡ left (2 ^ self.low) (2 ^ self.high) self.level number }
        ensures second { result.1 ≡ right (2 ^ self.low) (2 ^ self.high) self.level number }
    {
        let mut first = 0;
        let mut second = 0;
        for i in (0..self.level).rev() {
            let pair = digit(number, i, self.width());
            first = followed(first, self.low, lowest(pair, self.low));
            second = followed(second, self.high, pair >> self.low);
        }
        (first, second)
    }

    /// The two numbers that one is woven of, if it is a woven number.
    pub(crate) fn parts(self, number: u64) -> Option<(u64, u64)>
        ensures { MatchOption result (count_of self.low self.high self.level ≤ number) (Parts self.low self.high self.level number) }
    {
        if number < self.count() {
            Some(self.split(number))
        } else {
            None
        }
    }

    // The two differ in the field that is less, and a value with a ghost field takes no `..`: one function for both would be
    // told the field by numbers.

    /// How the edge numbers of the first are woven with the places of the second: an edge's digit has one bit less.
    pub(crate) fn first_edges(self) -> Weaving
        requires { 1 ≤ self.low }
        ensures { (result.low ≡ self.low - 1) × (result.high ≡ self.high) × (result.level ≡ self.level) }
    {
        Weaving {
            low: self.low - 1,
            high: self.high,
            level: self.level,
        }
    }

    /// How the places of the first are woven with the edge numbers of the second: an edge's digit has one bit less.
    pub(crate) fn second_edges(self) -> Weaving
        requires { 1 ≤ self.high }
        ensures { (result.low ≡ self.low) × (result.high ≡ self.high - 1) × (result.level ≡ self.level) }
    {
        Weaving {
            low: self.low,
            high: self.high - 1,
            level: self.level,
        }
    }

    /// The two digits that one is woven of, if it is a woven digit.
    pub(crate) fn digits(self, number: u8) -> Option<(u8, u8)>
        ensures { MatchOption result (2 ^ (self.low + self.high) ≤ number) (Digits self.low self.high number) }
    {
        if number < 1u8 << self.width() {
            Some((number & ((1u8 << self.low) - 1), number >> self.low))
        } else {
            None
        }
    }

    /// The digit woven of two.
    pub(crate) fn pair(self, low: u8, high: u8) -> u8
        requires { (low < 4) × (high < 4) }
        ensures { result ≡ low + 2 ^ self.low * high }
    {
        low + (high << self.low)
    }
}
