// Making a table, setting limits and adding rows.
ghost use Rattle.std.specs.Prelude.{◌≡◌, ◌-◌, [], ◌∷◌, replicate, slice_set};
ghost use Rattle.table.specs.Rows.{plain, reset_row};
ghost use Rattle.table.specs.Refusals.{added, has_room, add_refusal, limit_refusal, answer, after};
ghost use Rattle.table.specs.Held.{rows_of, limits_of};

use crate::draws::within_limit;
use crate::lookups::feed_place;
use crate::{AddRefusal, FEEDS, Kind, LimitRefusal, MAX_FLOW, Row, Table};
use arrayvec::ArrayVec;
use number::Range;
use value::Value;

/// The reset row, row 0 of every table.
impl Default for Row {
    ghost is_default = { λ r. plain r ≡ reset_row };

    fn default() -> Row {
        Row {
            process: 0,
            parameter: 10,
            kind: Kind::Char(Range {
                least: 0,
                greatest: 255,
                default: 82,
            }),
            readable: true,
            writable: true,
            secured: false,
            feed: 0,
            full_flow: 0,
            text: Value::empty(),
        }
    }
}

impl Table {
    /// A table with the reset row alone, and every limit 0.
    pub fn new() -> Table
        ensures rows { rows_of result ≡ reset_row ∷ [] }
        ensures limits { limits_of result ≡ replicate 8 0 }
    {
        let mut rows = ArrayVec::new();
        rows.push(Row::default());
        Table {
            rows,
            limits: [0; FEEDS],
        }
    }

    /// Sets the limit of a feed in ml/min. Refused by 5 if the feed is not 1 to 8 or the limit is over 1,000,000, then
    /// by 6 if the defaults draw more. A refusal changes nothing.
    pub fn set_limit(&mut self, feed: u8, limit: u32) -> Result<(), LimitRefusal>
        ensures value { result ≡ answer (limit_refusal (rows_of self.old) feed limit) }
        ensures rows { rows_of self.new ≡ rows_of self.old }
        ensures limits { limits_of self.new ≡ after (limit_refusal (rows_of self.old) feed limit) (slice_set (limits_of self.old) (feed - 1) limit) (limits_of self.old) }
    {
        let place = feed_place(feed).ok_or(LimitRefusal::OutOfRange)?;
        if limit > MAX_FLOW {
            return Err(LimitRefusal::OutOfRange);
        }
        if !within_limit(self.default_draw(feed), limit) {
            return Err(LimitRefusal::BelowDraw);
        }
        self.limits[place] = limit;
        Ok(())
    }

    /// Adds a row at the end. Refused by 2 if it is against the rules, then by 4 if 128 rows stand, by 3 if its process
    /// and parameter are taken, and by 6 if its default would take its feed over the limit. A refusal changes nothing.
    pub fn add(&mut self, row: Row) -> Result<(), AddRefusal>
        ensures value { result ≡ answer (add_refusal (rows_of self.old) (limits_of self.old) (plain row)) }
        ensures rows { rows_of self.new ≡ after (add_refusal (rows_of self.old) (limits_of self.old) (plain row)) (added (rows_of self.old) (plain row)) (rows_of self.old) }
        ensures limits { limits_of self.new ≡ limits_of self.old }
    {
        self.check(&row)?;
        self.rows.push(row);
        Ok(())
    }

    // Whether the row may be added, and why not.
    fn check(&self, row: &Row) -> Result<(), AddRefusal>
        ensures { result ≡ answer (add_refusal (rows_of self.now) (limits_of self.now) (plain row.now)) }
    {
        if !row.keeps_rules() {
            return Err(AddRefusal::AgainstRules);
        }
        if self.rows.is_full() {
            return Err(AddRefusal::TableFull);
        }
        if self.takes_pair(row.process, row.parameter) {
            return Err(AddRefusal::PairTaken);
        }
        if !self.has_room(row) {
            return Err(AddRefusal::OverLimit);
        }
        Ok(())
    }

    // Whether the row's default leaves its feed within the limit.
    fn has_room(&self, row: &Row) -> bool
        ensures { result ≡ has_room (rows_of self.now) (limits_of self.now) (plain row.now) }
    {
        let feed = row.feed;
        feed == 0
            || within_limit(
                self.default_draw(feed) + row.amount(feed, row.default_number()),
                self.limit_or_zero(feed),
            )
    }
}
