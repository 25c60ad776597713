// The chain of a write, and its items.
ghost use Rattle.std.specs.Prelude.{◌≡◌};
ghost use Rattle.std.specs.Iterator.{YieldsFirstBy, item_count};
ghost use Rattle.chain.specs.Items.{plain_item};
ghost use Rattle.writing.specs.Items.{items_left, items_of};

use chain::access::Access;
use chain::item::Item;
use chain::reader::Chain;
use table::Table;

/// The chain of a write: the data bytes of a message, and the table whose rows they name.
#[derive(Clone, Copy)]
pub(crate) struct WriteChain<'a> {
    pub(crate) table: &'a Table,
    pub(crate) message: &'a [u8],
}

impl<'a> WriteChain<'a> {
    /// Its items, by the message and the table alone: locked rows are looked at before.
    pub(crate) fn items(&self) -> Items<'a>
        ensures { items_left result ≡ items_of self.now }
    {
        Items {
            chain: Chain::new(self.table, Access::Write { unlocked: true }, self.message),
        }
    }
}

/// The items of a chain, one after the other, up to its end or its first refusal.
#[derive(Drop)]
pub(crate) struct Items<'a> {
    chain: Chain<'a>,
}

impl<'a> Iterator for Items<'a> {
    type Item = Item<'a>;

    ghost next_gives = { YieldsFirstBy plain_item items_left };

    ghost remaining = { item_count items_left };

    fn next(&mut self) -> Option<Item<'a>> {
        self.chain.next().ok().flatten()
    }
}
