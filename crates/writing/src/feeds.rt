// The check of the feeds: whether each would stay within its limit.
ghost use Rattle.std.specs.Prelude.{◌≡◌};
ghost use Rattle.table.specs.Draws.{row_at};
ghost use Rattle.table.specs.Held.{rows_of};
ghost use Rattle.chain.specs.Reader.{checked};
ghost use Rattle.promises.specs.Replies.{first_on, overdrawn};
ghost use Rattle.promises.specs.Stored.{values_in};
ghost use Rattle.writing.specs.Items.{items_of};
ghost use Rattle.writing.specs.Setups.{setup_of};
ghost use Rattle.writing.specs.Numbers.{lay_numbers, over_at};

use crate::held::held_numbers;
use crate::items::WriteChain;
use chain::fault::RackFault;
use chain::item::Item;
use number::Number;
use store::Store;
use table::{FEEDS, RowNumbers, Table};

/// The last feed: they are numbered from 1.
const LAST_FEED: u8 = FEEDS as u8;

// The feed that a row draws on: 0 and no `Option` where there is no such row, since the definition of a row at a place is total.
fn feed_of(table: &Table, row: usize) -> u8
    ensures { result ≡ (row_at (rows_of table.now) row).feed }
{
    table.row(row).map_or(0, |found| found.feed)
}

impl WriteChain<'_> {
    /// Whether every feed with an item in the message stays within its limit, with the message's last values laid over
    /// those held, or the refusal of the lowest that does not.
    pub(crate) fn check_feeds<S: Store>(&self, store: &S) -> Result<(), RackFault>
        ensures { result ≡ checked (overdrawn (setup_of self.now.table.now) (values_in (S.Store.held store.now)) (items_of self.now)) }
    {
        let mut numbers = held_numbers(self.table, store);
        self.lay_over(&mut numbers);
        for feed in 1..=LAST_FEED {
            self.check_feed(feed, &numbers)?;
        }
        Ok(())
    }

    // Sets the numbers of the rows that the message writes to those of their last values.
    fn lay_over(&self, numbers: &mut RowNumbers)
        ensures { numbers.new ≡ lay_numbers (items_of self.now) numbers.old }
    {
        for item in self.items() {
            // The items of a write are writes; a read would count nothing.
            if let Item::Write { row, value, .. } = item {
                // What is no integer counts 0 in a draw.
                numbers[row] = u16::read(value).unwrap_or(0);
            }
        }
    }

    // Whether the feed, if it has an item in the message, stays within its limit at these numbers.
    fn check_feed(&self, feed: u8, numbers: &RowNumbers) -> Result<(), RackFault>
        ensures { result ≡ checked (over_at (setup_of self.now.table.now) numbers.now (items_of self.now) feed) }
    {
        if self.table.is_within(feed, numbers) {
            return Ok(());
        }
        match self.first_on(feed) {
            Some(index) => Err(RackFault::OverLimit { index }),
            None => Ok(()),
        }
    }

    // The place of the first item of the message whose row is on the feed.
    fn first_on(&self, feed: u8) -> Option<usize>
        ensures { result ≡ first_on (rows_of self.now.table.now) feed (items_of self.now) }
    {
        self.items()
            .find(|item| feed_of(self.table, item.row()) == feed)
            .map(|item| item.place())
    }
}
