// The store that is a list of changes, of which the newest for a row counts.
ghost use Rattle.std.specs.Prelude.{◌≤◌};
ghost use Rattle.arrayvec.specs.ArrayVec.{array_vec_len};

use self::change::Change;
use arrayvec::ArrayVec;

mod calls;
mod change;
mod list;

/// How many changes the list has places for.
pub const PLACES: usize = 192;

/// A store that is a list of at most 192 changes, oldest first.
/// The newest change for a row counts, and a row without one has 0 bytes.
#[derive(Drop)]
pub struct Changes {
    entries: ArrayVec<Change, PLACES>,
    // A clause sees an `ArrayVec` as a list of any length: that this one fits is said here.
    ghost within: { array_vec_len entries ≤ 192 },
}
