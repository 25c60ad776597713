// What the rows draw on the feeds.
ghost use Rattle.std.specs.Prelude.{◌≡◌, ℕ, ◌*◌, ◌^◌, ◌<◌, ◌≤◌, map, length, nat_le, slice_index};
ghost use Rattle.table.specs.Rows.{plain};
ghost use Rattle.table.specs.Draws.{amount, draw, CountsEachOnce, number_of, default_bytes, default_numbers, limit_of, within};
ghost use Rattle.table.specs.Held.{rows_of, limits_of};

use crate::{MAX_ROWS, Row, RowNumbers, Table};
use number::Number;

/// The value that stands for a row's full flow.
const FULL_SCALE: u64 = 32_000;

impl Row {
    // What the row adds to the draw of a feed at a value.
    pub(crate) fn amount(&self, feed: u8, value: u16) -> u64
        ensures value { result ≡ amount feed (plain self.now) value }
        ensures bound { result < 2 ^ 48 }
    {
        if self.feed != feed {
            return 0;
        }
        u64::from(value) * u64::from(self.full_flow)
    }

    // The number that the default counts in a draw: what is no integer counts 0.
    pub(crate) fn default_number(&self) -> u16
        ensures { result ≡ number_of (default_bytes (plain self.now)) }
    {
        self.default_value()
            .and_then(|value| u16::read(value.as_slice()))
            .unwrap_or(0)
    }
}

// Whether a draw is within a limit in ml/min.
pub(crate) fn within_limit(draw: u64, limit: u32) -> bool
    ensures { result ≡ nat_le draw (limit * 32000) }
{
    draw <= u64::from(limit) * FULL_SCALE
}

// The draw of a feed where row i has the value `values[i]`. By the project's form a loop over the rows with their numbers.
fn draw_of(rows: &[Row], feed: u8, values: &RowNumbers) -> u64
    requires { length rows.now ≤ 128 }
    ensures value { result ≡ draw feed (map plain rows.now) (λ k. slice_index values.now k) }
    ensures bound { result ≤ 128 * 2 ^ 48 }
{
    let mut sum = 0;
    for (i, row) in rows.iter().enumerate() {
        sum += row.amount(feed, values[i]);
    }
    sum
}

// The default of each row as the number that it counts in a draw. Not by `array::from_fn`: with its closure the checker proves the
// crate, but cannot write down for other crates what it proves; a zip of numbers and rows asks for an invariant over both iterators.
fn default_numbers(rows: &[Row]) -> RowNumbers
    requires { length rows.now ≤ 128 }
    ensures { (k : ℕ) → k < length rows.now → slice_index result k ≡ default_numbers (map plain rows.now) k }
{
    let mut numbers = [0; MAX_ROWS];
    for (i, row) in rows.iter().enumerate() {
        numbers[i] = row.default_number();
    }
    numbers
}

impl Table {
    /// The draw of a feed where row i has the value `values[i]`: over the rows on the feed, value × full flow.
    pub fn draw(&self, feed: u8, values: &RowNumbers) -> u64
        ensures value { result ≡ draw feed (rows_of self.now) (λ k. slice_index values.now k) }
        ensures once { CountsEachOnce (rows_of self.now) }
    {
        draw_of(&self.rows, feed, values)
    }

    // The draw of a feed at the defaults.
    pub(crate) fn default_draw(&self, feed: u8) -> u64
        ensures value { result ≡ draw feed (rows_of self.now) (default_numbers (rows_of self.now)) }
        ensures bound { result ≤ 128 * 2 ^ 48 }
    {
        let rows = self.rows();
        draw_of(rows, feed, &default_numbers(rows))
    }

    // The limit of a feed: 0 and no `Option` for a feed outside 1 to 8, since the definition of a limit is total.
    pub(crate) fn limit_or_zero(&self, feed: u8) -> u32
        ensures { result ≡ limit_of (limits_of self.now) feed }
    {
        self.limit(feed).unwrap_or(0)
    }

    /// Whether the draw of a feed at these values is within its limit, that is at most limit × 32,000.
    pub fn is_within(&self, feed: u8, values: &RowNumbers) -> bool
        ensures { result ≡ within feed (rows_of self.now) (limits_of self.now) (λ k. slice_index values.now k) }
    {
        within_limit(self.draw(feed, values), self.limit_or_zero(feed))
    }
}
