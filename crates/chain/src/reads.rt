// The items of a read.
ghost use Rattle.std.specs.Prelude.{◌≡◌};
ghost use Rattle.table.specs.Held.{rows_of};
ghost use Rattle.table.specs.Rows.{plain};
ghost use Rattle.chain.specs.Chains.{query, read_at};
ghost use Rattle.chain.specs.Cursors.{rest, Tells};
ghost use Rattle.chain.specs.Faults.{top_bit};
ghost use Rattle.chain.specs.Items.{plain_item};
ghost use Rattle.chain.specs.Reader.{look_result, may_read};

use crate::cursor::Cursor;
use crate::fault::{ChainFault, RackFault};
use crate::item::{Item, Query};
use crate::reader::Start;
use crate::values::{length_at, type_bits};
use table::{Row, Table};

// A process or a parameter that a read asks for has its top bit set.
fn top_bit(index: usize) -> RackFault
    ensures { result ≡ top_bit index }
{
    RackFault::Chain(ChainFault::TopBit { index })
}

impl Start<'_> {
    // What a read that starts here asks for.
    fn query(self, row: usize) -> Query
        ensures { result ≡ query row self.entry.place self.entry.group self.entry.first self.entry.byte }
    {
        Query {
            row,
            place: self.place,
            group: self.first.then_some(self.group),
            index: self.byte,
        }
    }
}

// Whether a row may be read under the parameter byte at `index` and the index byte `x`.
fn may_read(row: &Row, x: u8, parameter: u8, index: usize) -> Result<(), RackFault>
    ensures { result ≡ may_read (plain row.now) x parameter index }
{
    if parameter & 0x60 != type_bits(row.kind) || x & 0x60 != parameter & 0x60 {
        return Err(RackFault::WrongType { index });
    }
    if !row.readable {
        return Err(RackFault::NotReadable { index });
    }
    Ok(())
}

/// The item that starts with an index byte. Its row is found by the process p and the parameter q behind that, and never by
/// the group's byte.
pub(crate) fn read_item<'a>(
    table: &Table,
    start: Start<'a>,
) -> Result<(Item<'a>, Cursor<'a>), RackFault>
    ensures { Tells plain_item start.entry.behind result (look_result (read_at (rows_of table.now) start.entry.place start.entry.group start.entry.first start.entry.byte (rest start.entry.behind))) }
{
    let cursor = start.behind;
    let index = cursor.at();
    let Some((process, cursor)) = cursor.next() else {
        return Err(cursor.missing());
    };
    if process >= 0x80 {
        return Err(top_bit(index));
    }
    if !table.has_process(process) {
        return Err(RackFault::NoProcess { index });
    }
    let index = cursor.at();
    let Some((parameter, cursor)) = cursor.next() else {
        return Err(cursor.missing());
    };
    if parameter >= 0x80 {
        return Err(top_bit(index));
    }
    let Some(number) = table.find(process, parameter & 0x1f) else {
        return Err(RackFault::NoParameter { index });
    };
    let row = table.row(number).unwrap();
    may_read(row, start.byte, parameter, index)?;
    let behind = length_at(row.kind, cursor)?;
    Ok((Item::Read(start.query(number)), behind))
}
