//! Writes: what a message writes is checked as a whole, and then kept as a whole or not at all.
#![tactic(auto)]

ghost use Rattle.std.specs.Prelude.{◌≡◌, true};
ghost use Rattle.table.specs.Held.{rows_of};
ghost use Rattle.chain.specs.declared.access.Access.TheVariants.{Write};
ghost use Rattle.chain.specs.Reader.{chain_of, checked};
ghost use Rattle.promises.specs.Replies.{unless_refused, write_refusal};
ghost use Rattle.promises.specs.Stored.{kept_in_store, values_in};
ghost use Rattle.writing.specs.Items.{reading_of};
ghost use Rattle.writing.specs.Setups.{setup_of};

use crate::held::is_unlocked;
use crate::items::WriteChain;
use chain::access::Access;
use chain::check::check;
use chain::fault::RackFault;
use store::Store;
use table::Table;

mod feeds;
mod held;
mod items;
mod keeping;

impl WriteChain<'_> {
    // Whether the write passes every check, or the first refusal: along the chain, and then of the feeds.
    fn check<S: Store>(&self, store: &S) -> Result<(), RackFault>
        ensures { result ≡ checked (write_refusal (setup_of self.now.table.now) (values_in (S.Store.held store.now)) (reading_of self.now)) }
    {
        let access = Access::Write {
            unlocked: is_unlocked(store),
        };
        check(self.table, access, self.message)?;
        self.check_feeds(store)
    }
}

/// Does the write in the data bytes of a message, whole or not at all. Refused by the first check that fails along the
/// chain, of which one is that a secured row is written while row 0 is not 64; then by the lowest feed that has an item in
/// the message and would pass its limit. Nothing changes then.
pub fn write<'a, S: Store>(
    table: &'a Table,
    store: &mut S,
    message: &'a [u8],
) -> Result<(), RackFault>
    ensures answer { result ≡ checked (write_refusal (setup_of table.now) (values_in (S.Store.held store.old)) (chain_of (Write true) (rows_of table.now) message.now)) }
    ensures after { S.Store.held store.new ≡ kept_in_store (unless_refused (write_refusal (setup_of table.now) (values_in (S.Store.held store.old)) (chain_of (Write true) (rows_of table.now) message.now)) (chain_of (Write true) (rows_of table.now) message.now).items) (S.Store.held store.old) }
{
    let chain = WriteChain { table, message };
    chain.check(store)?;
    chain.keep_in(store);
    Ok(())
}
