// The values that a store holds, as numbers.
ghost use Rattle.std.specs.Prelude.{◌≡◌, ℕ, ◌<◌, length, slice_index};
ghost use Rattle.table.specs.Held.{rows_of};
ghost use Rattle.promises.specs.Replies.{numbers as numbers_in, unlocked};
ghost use Rattle.promises.specs.Stored.{values_in};

use number::Number;
use store::Store;
use table::{MAX_ROWS, RowNumbers, Table};
use value::MAX_LEN;

/// The value of row 0 while secured rows may be written.
const UNLOCKED: u8 = 64;

// The number that the value of a row is, or `None` if it is no number of this kind.
fn held_number<N: Number, S: Store>(store: &S, row: usize) -> Option<N>
    requires { row < 128 }
    ensures { result ≡ N.Number.kind.reads (values_in (S.Store.held store.now) row) }
{
    // A store answers into a buffer that it is lent.
    let mut buffer = [0; MAX_LEN];
    let len = store.ask(row, &mut buffer).unwrap();
    N::read(&buffer[..len])
}

/// Whether secured rows may be written.
pub(crate) fn is_unlocked<S: Store>(store: &S) -> bool
    ensures { result ≡ unlocked (values_in (S.Store.held store.now)) }
{
    held_number::<u8, S>(store, 0) == Some(UNLOCKED)
}

/// What each row counts in a draw at the values that are held.
pub(crate) fn held_numbers<S: Store>(table: &Table, store: &S) -> RowNumbers
    ensures { (k : ℕ) → k < length (rows_of table.now) → slice_index result k ≡ numbers_in (values_in (S.Store.held store.now)) k }
{
    let mut numbers = [0; MAX_ROWS];
    for (row, number) in numbers[..table.len()].iter_mut().enumerate() {
        // What is no integer counts 0 in a draw.
        *number = held_number::<u16, S>(store, row).unwrap_or(0);
    }
    numbers
}
