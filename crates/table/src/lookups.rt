// Looking up rows and limits.
ghost use Rattle.std.specs.Prelude.{◌≡◌, ◌-◌, true, ◌&&◌, map, length, IfSome, if◌then◌else◌, Some, None, nat_le, nat_lt, ◌==◌};
ghost use Rattle.std.specs.Option.{option_map};
ghost use Rattle.std.specs.List.{position, list_any};
ghost use Rattle.value.specs.Values.{bytes_of};
ghost use Rattle.table.specs.Rows.{plain, admitted, has_pair};
ghost use Rattle.table.specs.Draws.{row_at, limit_of, defaults};
ghost use Rattle.table.specs.Tables.{row_in, place, OnlyPlace, has_process, TellsProcess, pair_taken, Ruled};
ghost use Rattle.table.specs.Held.{rows_of, limits_of};

use crate::{FEEDS, Row, Table};
use value::Value;

// Where the limit of a feed is kept, or `None` for a feed outside 1 to 8.
pub(crate) fn feed_place(feed: u8) -> Option<usize>
    ensures { result ≡ (if nat_le 1 feed && nat_le feed 8 then Some (feed - 1) else None) }
{
    let place = usize::from(feed).checked_sub(1)?;
    (place < FEEDS).then_some(place)
}

impl Row {
    // Whether the row has the process and the parameter. They are two parameters, as the look-up has them: a chain looks the process up before it reads the other.
    fn has_pair(&self, process: u8, parameter: u8) -> bool
        ensures { result ≡ has_pair process parameter (plain self.now) }
    {
        self.process == process && self.parameter == parameter
    }
}

impl Table {
    /// The rows that stand, row i at place i.
    pub fn rows(&self) -> &[Row]
        ensures { map plain result.now ≡ rows_of self.now }
    {
        &self.rows
    }

    /// How many rows stand, 1 to 128.
    pub fn len(&self) -> usize
        ensures { result ≡ length (rows_of self.now) }
    {
        self.rows.len()
    }

    /// The row with this number, or `None` if there are not so many.
    pub fn row(&self, number: usize) -> Option<&Row>
        ensures { option_map (λ x. plain x.now) result ≡ row_in (rows_of self.now) number }
    {
        self.rows.get(number)
    }

    /// The default of the row with this number as bytes, or `None` if there are not so many. The row admits it.
    pub fn default_value(&self, number: usize) -> Option<Value>
        ensures value { option_map bytes_of result ≡ (if nat_lt number (length (rows_of self.now)) then Some (defaults (rows_of self.now) number) else None) }
        ensures fits { IfSome result (λ v. admitted (row_at (rows_of self.now) number).kind (bytes_of v) ≡ true) }
    {
        self.row(number)?.default_value()
    }

    /// The limit of a feed in ml/min, or `None` for a feed outside 1 to 8.
    pub fn limit(&self, feed: u8) -> Option<u32>
        ensures { result ≡ (if nat_le 1 feed && nat_le feed 8 then Some (limit_of (limits_of self.now) feed) else None) }
    {
        Some(self.limits[feed_place(feed)?])
    }

    /// The number of the one row with this process and parameter, or `None` if no row has them. Every table keeps its
    /// rules, so there is no second one.
    pub fn find(&self, process: u8, parameter: u8) -> Option<usize>
        ensures value { result ≡ place process parameter (rows_of self.now) }
        ensures only { OnlyPlace process parameter (rows_of self.now) result }
        ensures ruled { Ruled (rows_of self.now) (limits_of self.now) }
    {
        find_in(&self.rows, process, parameter)
    }

    // Whether a row has this process and parameter.
    pub(crate) fn takes_pair(&self, process: u8, parameter: u8) -> bool
        ensures { result ≡ pair_taken process parameter (rows_of self.now) }
    {
        self.find(process, parameter).is_some()
    }

    /// Whether any row has this process.
    pub fn has_process(&self, process: u8) -> bool
        ensures value { result ≡ has_process process (rows_of self.now) }
        ensures tells { TellsProcess process (rows_of self.now) result }
    {
        has_process_in(&self.rows, process)
    }
}

// The number of the first row with the process and the parameter.
fn find_in(rows: &[Row], process: u8, parameter: u8) -> Option<usize>
    ensures { result ≡ position (λ r. has_pair process parameter (plain r)) rows.now }
{
    rows.iter().position(|row| row.has_pair(process, parameter))
}

// Whether some row has the process.
fn has_process_in(rows: &[Row], process: u8) -> bool
    ensures { result ≡ list_any (λ r. r.process == process) rows.now }
{
    rows.iter().any(|row| row.process == process)
}
