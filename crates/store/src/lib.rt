// Where the values of a rack's rows are kept.
#![tactic(auto)]

ghost use Rattle.std.specs.Prelude.{◌≡◌, ℕ, List, length};
ghost use Rattle.store.specs.Held.{Sound, ask_answer, buffer_after, held_after, keep_answer};

mod bounds;
pub mod cells;
pub mod changes;
mod output;
mod refusals;

pub use refusals::{AskRefusal, KeepRefusal};

/// How many rows a store has a value for: they are numbered from 0.
pub const ROWS: usize = 128;

/// A store means 128 values of 0 to 24 bytes each, one for each row number.
pub trait Store {
    // The values, by row number.
    ghost held: { Self → List (List ℕ) };

    /// Keeps a value for a row, and leaves every other row's as it was.
    /// Refuses by 7, and changes nothing, if the row is over 127 or the value over 24 bytes.
    fn keep(&mut self, row: usize, value: &[u8]) -> Result<(), KeepRefusal>
        ensures answer { result ≡ keep_answer row value.now }
        ensures after { held self.new ≡ held_after (held self.old) row value.now };

    /// Writes a row's value at the start of the buffer, and tells its length; the bytes past it stay.
    /// Refuses by 1 if the buffer is shorter than 24 bytes, then by 7 if the row is over 127, and leaves the buffer.
    // Into a lent buffer, with its length told: a store of another kind need not have its values as a `Value` to hand out.
    fn ask(&self, row: usize, buffer: &mut [u8]) -> Result<usize, AskRefusal>
        ensures answer { result ≡ ask_answer (held self.now) row (length buffer.old) }
        ensures after { buffer.new ≡ buffer_after (held self.now) row buffer.old };

    ghost sound: { (s : Self) → Sound (held s) };
}
