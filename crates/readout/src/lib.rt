//! A read, answered from any store.
#![tactic(auto)]

ghost use Rattle.std.specs.Prelude.{◌≡◌, ◌<◌, length};
ghost use Rattle.table.specs.Draws.{row_at};
ghost use Rattle.table.specs.Held.{rows_of};
ghost use Rattle.chain.specs.declared.access.Access.TheVariants.{Read};
ghost use Rattle.chain.specs.Answers.{put_answer, put_bytes, read_answer};
ghost use Rattle.chain.specs.Built.{built};
ghost use Rattle.chain.specs.Reader.{chain_of};
ghost use Rattle.promises.specs.Stored.{values_in};
ghost use Rattle.readout.specs.Told.{answer_of, result_of};

use chain::access::Access;
use chain::answer::ReadAnswer;
use chain::fault::{ChainFault, RackFault};
use chain::item::{Item, Query};
use chain::reader::Chain;
use store::Store;
use table::Table;
use value::MAX_LEN;

// Puts the value that the store holds for the row behind the others, as the kind of the row has it. The row stands, so that
// the table has it and the store a value for it.
fn put_row<S: Store>(
    table: &Table,
    store: &S,
    answer: &mut ReadAnswer,
    query: Query,
) -> Result<(), ChainFault>
    requires { query.row < length (rows_of table.now) }
    ensures answer { result ≡ put_answer query (row_at (rows_of table.now) query.row).kind (values_in (S.Store.held store.now) query.row) (built answer.old) }
    ensures after { built answer.new ≡ put_bytes query (row_at (rows_of table.now) query.row).kind (values_in (S.Store.held store.now) query.row) (built answer.old) }
{
    let row = table.row(query.row).unwrap();
    // A store answers into a buffer that it is lent. A public function for these lines and those in `writing` that are like them would
    // be longer than they are.
    let mut buffer = [0; MAX_LEN];
    let len = store.ask(query.row, &mut buffer).unwrap();
    answer.put(query, row.kind, &buffer[..len])
}

/// The answer to the read in the data bytes of a message: 02, then for each item its group's byte, where it is the first of
/// its group, its index byte, and the value that the store holds for its row. Refused by the first check that fails, from left
/// to right: an item whose value would take the answer past 64 bytes is refused by status 1C at its index byte.
pub fn read<'a, S: Store>(
    table: &'a Table,
    store: &S,
    message: &'a [u8],
) -> Result<ReadAnswer, RackFault>
    ensures { answer_of result ≡ result_of (read_answer (rows_of table.now) (values_in (S.Store.held store.now)) (chain_of Read (rows_of table.now) message.now)) }
{
    let mut answer = ReadAnswer::new();
    let mut chain = Chain::new(table, Access::Read, message);
    while let Some(item) = chain.next()? {
        // The items of a read are reads; of a write there would be nothing to tell.
        if let Item::Read(query) = item {
            put_row(table, store, &mut answer, query)?;
        }
    }
    Ok(answer)
}
