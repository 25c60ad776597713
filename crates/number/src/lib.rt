//! The number kinds of a parameter: how many bytes each has, which number they are, and its order.
//!
//! | kind | type | bytes |
//! |---|---|---|
//! | char | `u8` | 1 |
//! | integer | `u16` | 2 |
//! | long | `u32` | 4 |
//! | float | `f32` (IEEE binary32) | 4 |
//!
//! The highest byte comes first.
#![tactic(auto)]

ghost use Rattle.std.specs.Prelude.{◌≡◌, Some};
ghost use Rattle.std.specs.Option.{option_map};
ghost use Rattle.std.specs.Ordering.{partial_le};
ghost use Rattle.value.specs.Values.{bytes_of};
ghost use Rattle.number.specs.Numbers.{NumberKind, Laws, ReadBack};
ghost use Rattle.number.specs.Ranges.{between, in_range, in_order};

use value::Value;

mod chars;
mod floats;
mod integers;
mod longs;

/// A kind of number. What it means is its `kind`, and every implementation shows that this keeps `Laws`.
// `from_be_bytes` and `to_be_bytes` are each type's own and of no trait, so each kind reads and writes by its own.
pub trait Number: PartialOrd + Copy {
    ghost kind: { NumberKind Self };

    /// How many bytes a number of the kind has.
    fn width() -> usize
        ensures { result ≡ kind.width };

    /// The number that the bytes are, or `None` if they are not as many as its width or are not a number.
    fn read(bytes: &[u8]) -> Option<Self>
        ensures { result ≡ kind.reads bytes.now };

    /// The number's bytes, the highest first, or `None` for a float that is not a number.
    fn write(self) -> Option<Value>
        ensures value { option_map bytes_of result ≡ kind.writes self }
        ensures back { ReadBack kind self };

    /// Whether the number is at most the other. What is not a number is neither below nor above anything.
    fn at_most(self, other: Self) -> bool
        ensures { result ≡ kind.at_most self other }
    {
        self <= other
    }

    ghost lawful: { Laws kind };

    // The order of the kind is that of `<=`.
    ghost ordered: { (m n : Self) → partial_le Self.partial_cmp m n ≡ kind.at_most m n };
}

/// The numbers that a row admits, from `least` to `greatest`, and the one that it starts with.
#[derive(Clone, Copy)]
pub struct Range<N> {
    pub least: N,
    pub greatest: N,
    pub default: N,
}

impl<N: Number> Range<N> {
    /// The range check: whether the bytes have the kind's width, are a number, and lie from `least` to `greatest`.
    pub fn admits(&self, bytes: &[u8]) -> bool
        ensures { result ≡ in_range N.Number.kind self.now bytes.now }
    {
        N::read(bytes).is_some_and(|n| self.holds(n))
    }

    /// Whether least ≤ default ≤ greatest. Then all three are numbers.
    pub fn lawful(&self) -> bool
        ensures { result ≡ in_order N.Number.kind self.now }
    {
        self.holds(self.default)
    }

    // Whether the number lies from `least` to `greatest`.
    fn holds(&self, n: N) -> bool
        ensures { result ≡ between N.Number.kind self.now.least self.now.greatest (Some n) }
    {
        self.least.at_most(n) && n.at_most(self.greatest)
    }
}
