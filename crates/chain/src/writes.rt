// The items of a write.
ghost use Rattle.std.specs.Prelude.{◌≡◌};
ghost use Rattle.table.specs.Held.{rows_of};
ghost use Rattle.table.specs.Rows.{plain};
ghost use Rattle.chain.specs.Chains.{write_at, write_of};
ghost use Rattle.chain.specs.Cursors.{rest, Tells};
ghost use Rattle.chain.specs.Items.{plain_item};
ghost use Rattle.chain.specs.Reader.{look_result, verdict_result};

use crate::cursor::Cursor;
use crate::fault::RackFault;
use crate::item::Item;
use crate::reader::Start;
use crate::values::{type_bits, value_at};
use table::{Row, Table};

// The item that starts with a parameter byte, on the row that is found for it.
fn write_on<'a>(
    row: &Row,
    number: usize,
    unlocked: bool,
    start: Start<'a>,
) -> Result<(Item<'a>, Cursor<'a>), RackFault>
    ensures { Tells plain_item start.entry.behind result (verdict_result (write_of unlocked (plain row.now) number start.entry.place start.entry.byte (rest start.entry.behind))) }
{
    let place = start.place;
    if start.byte & 0x60 != type_bits(row.kind) {
        return Err(RackFault::WrongType { index: place });
    }
    if !row.writable {
        return Err(RackFault::NotWritable { index: place });
    }
    if !unlocked && row.secured {
        return Err(RackFault::Secured { index: place });
    }
    let (value, behind) = value_at(row, start.behind)?;
    let row = number;
    Ok((Item::Write { row, place, value }, behind))
}

/// The item that starts with a parameter byte.
pub(crate) fn write_item<'a>(
    table: &Table,
    unlocked: bool,
    start: Start<'a>,
) -> Result<(Item<'a>, Cursor<'a>), RackFault>
    ensures { Tells plain_item start.entry.behind result (look_result (write_at unlocked (rows_of table.now) start.entry.place start.entry.group start.entry.first start.entry.byte (rest start.entry.behind))) }
{
    let index = start.place;
    let Some(number) = table.find(start.group & 0x7f, start.byte & 0x1f) else {
        return Err(RackFault::NoParameter { index });
    };
    let row = table.row(number).unwrap();
    write_on(row, number, unlocked, start)
}
