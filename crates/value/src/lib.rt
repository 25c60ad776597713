// The value of a parameter, as it is stored and sent.
#![tactic(auto)]

ghost use Rattle.std.specs.Prelude.{◌≡◌, ℕ, ◌<◌, ◌≤◌, length, take, slice_index};

mod calls;

/// The most bytes that a value has.
pub const MAX_LEN: usize = 24;

/// The value of a parameter: 0 to 24 bytes, the first `len` of the array.
// It is copied with the rows and the cells that hold it, and an `ArrayVec` is not `Copy`.
#[derive(Clone, Copy)]
pub struct Value {
    bytes: [u8; MAX_LEN],
    len: u8,
    ghost short: { len ≤ 24 },
    ghost sized: { length bytes ≡ 24 },
    // A number in a clause may be of any size: that these are bytes is said here, place by place.
    ghost octets: { ((k : ℕ) → slice_index (take len bytes) k < 256) },
}
