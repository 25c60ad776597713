//! Keeping the defaults of a table in any store.
#![tactic(auto)]

ghost use Rattle.std.specs.Prelude.{◌≡◌};
ghost use Rattle.table.specs.Held.{rows_of};
ghost use Rattle.promises.specs.Stored.{values_in};
ghost use Rattle.defaults.specs.Kept.{new_held, DefaultsKept};

use store::Store;
use table::Table;

/// Keeps each row's default in the store. The values of rows that the table has not stay.
pub fn keep_defaults<S: Store>(table: &Table, store: &mut S)
    ensures held { S.Store.held store.new ≡ new_held (rows_of table.now) (S.Store.held store.old) }
    ensures fresh { DefaultsKept (rows_of table.now) (values_in (S.Store.held store.old)) (values_in (S.Store.held store.new)) }
{
    // By number, not row by row: that a row has a default is a fact of the table, which no proof here has of the row alone.
    for number in 0..table.len() {
        let value = table.default_value(number).unwrap();
        store.keep(number, value.as_slice()).unwrap();
    }
}
