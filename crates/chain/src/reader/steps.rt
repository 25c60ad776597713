// Taking a chain apart.
ghost use Rattle.std.specs.Prelude.{◌≡◌};
ghost use Rattle.table.specs.Held.{rows_of};
ghost use Rattle.chain.specs.declared.reader.Ahead.TheVariants.{InGroup};
ghost use Rattle.chain.specs.Chains.{look_by, opens_by, walk_by};
ghost use Rattle.chain.specs.Cursors.{rest, Tells};
ghost use Rattle.chain.specs.Items.{plain_item};
ghost use Rattle.chain.specs.Reader.{chain_of, from_group, from_start, given, left, look_result, remaining, told};
ghost use Rattle.chain.specs.Walks.{next};

use crate::access::Access;
use crate::cursor::Cursor;
use crate::fault::{ChainFault, RackFault};
use crate::item::Item;
use crate::reader::{Ahead, Chain, Start};
use crate::reads::read_item;
use crate::writes::write_item;
use table::Table;

// What comes behind an item, by the top bits of its first byte and of its group's.
fn ahead_of(group: u8, byte: u8) -> Ahead
    ensures { result ≡ next group byte }
{
    if byte >= 0x80 {
        Ahead::InGroup {
            group,
            first: false,
        }
    } else if group >= 0x80 {
        Ahead::Group
    } else {
        Ahead::End
    }
}

impl<'a> Chain<'a> {
    /// The chain in the data bytes of a message: it stands behind the command, which is at index 0.
    pub fn new(table: &'a Table, access: Access, message: &'a [u8]) -> Chain<'a>
        ensures { remaining result ≡ chain_of access (rows_of table.now) message.now }
    {
        Chain {
            table,
            access,
            cursor: Cursor::new(message, 1),
            ahead: Ahead::Group,
        }
    }

    /// The next item, or `None` at the end of the chain. Refused by the first check that fails, from left to right; the
    /// chain then stays as it was.
    // Not an `Iterator`: behind a refusal, one would give it again forever.
    pub fn next(&mut self) -> Result<Option<Item<'a>>, RackFault>
        ensures item { told result ≡ given (remaining self.old) }
        ensures rest { remaining self.new ≡ left (remaining self.old) }
    {
        let Some(start) = self.start()? else {
            return Ok(None);
        };
        let (item, behind) = self.item_at(start)?;
        self.cursor = behind;
        self.ahead = ahead_of(start.group, start.byte);
        Ok(Some(item))
    }

    // The item that starts here, and the place behind it. Matched here and in `opens`: how items are taken is a
    // value that callers give, and the public clauses go by that value.
    fn item_at(&self, start: Start<'a>) -> Result<(Item<'a>, Cursor<'a>), RackFault>
        ensures { Tells plain_item start.entry.behind result (look_result (look_by self.now.access (rows_of self.now.table.now) start.entry.place start.entry.group start.entry.first start.entry.byte (rest start.entry.behind))) }
    {
        match self.access {
            Access::Write { unlocked } => write_item(self.table, unlocked, start),
            Access::Read => read_item(self.table, start),
        }
    }

    // Whether a process byte opens a group: in a write, if its process has a row.
    fn opens(&self, group: u8) -> bool
        ensures { result ≡ opens_by self.now.access (rows_of self.now.table.now) group }
    {
        match self.access {
            Access::Write { .. } => self.table.has_process(group & 0x7f),
            Access::Read => true,
        }
    }

    // Where the next item starts, or `None` at the end of the chain. A process byte that comes first is passed over; in a
    // write its process must have a row.
    fn start(&self) -> Result<Option<Start<'a>>, RackFault>
        ensures { from_start self.now result ≡ remaining self.now }
    {
        match self.ahead {
            Ahead::Group => {
                let Some((group, behind)) = self.cursor.next() else {
                    return Err(self.cursor.missing());
                };
                if !self.opens(group) {
                    let index = self.cursor.at();
                    return Err(RackFault::NoProcess { index });
                }
                Ok(Some(self.start_in(group, true, behind)?))
            }
            Ahead::InGroup { group, first } => Ok(Some(self.start_in(group, first, self.cursor)?)),
            Ahead::End => {
                if !self.cursor.rest().is_empty() {
                    let index = self.cursor.at();
                    return Err(RackFault::Chain(ChainFault::ExtraByte { index }));
                }
                Ok(None)
            }
        }
    }

    // The item of a group that starts at a place.
    fn start_in(&self, group: u8, first: bool, cursor: Cursor<'a>) -> Result<Start<'a>, RackFault>
        ensures { from_group self.now result ≡ walk_by self.now.access (rows_of self.now.table.now) cursor.entry.at (InGroup group first) 0 (rest cursor.entry) }
    {
        let Some((byte, behind)) = cursor.next() else {
            return Err(cursor.missing());
        };
        Ok(Start {
            place: cursor.at(),
            group,
            first,
            byte,
            behind,
        })
    }
}
