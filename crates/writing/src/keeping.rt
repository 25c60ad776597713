// Keeping what a write brings.
ghost use Rattle.std.specs.Prelude.{◌≡◌};
ghost use Rattle.promises.specs.Stored.{kept_in_store};
ghost use Rattle.writing.specs.Items.{items_of};

use crate::items::WriteChain;
use chain::item::Item;
use store::Store;

impl WriteChain<'_> {
    /// Keeps the values of the items, one after the other. The store accepts each: it is a value that a row of the table
    /// admits.
    pub(crate) fn keep_in<S: Store>(&self, store: &mut S)
        ensures { S.Store.held store.new ≡ kept_in_store (items_of self.now) (S.Store.held store.old) }
    {
        for item in self.items() {
            // The items of a write are writes; of a read there would be nothing to keep.
            if let Item::Write { row, value, .. } = item {
                // No `unwrap`: that the value is one which the row admits is a law of chains, and no clause of the iterator.
                let _ = store.keep(row, value);
            }
        }
    }
}
