//! The answer to a read.
ghost use Rattle.std.specs.Prelude.{◌≡◌, ◌≤◌, length};

use line::message::MAX_DATA;

pub mod puts;

/// The data bytes of a read's answer as far as they are put together: at most 64.
// An array with a length, not an `ArrayVec`: that has no `Copy`, which callers have of an answer.
#[derive(Clone, Copy)]
pub struct ReadAnswer {
    bytes: [u8; MAX_DATA],
    len: usize,
    ghost short: { len ≤ 64 },
    ghost sized: { length bytes ≡ 64 },
}
