// Making a rack.
ghost use Rattle.std.specs.Prelude.{◌≡◌};
ghost use Rattle.table.specs.Held.{rows_of};
ghost use Rattle.defaults.specs.Kept.{new_held};
ghost use Rattle.promises.specs.Runs.{New};
ghost use Rattle.promises.specs.Stored.{values_in};
ghost use Rattle.rack.specs.Racks.{setup};

use crate::node::Node;
use crate::rack::Rack;
use defaults::keep_defaults;
use store::Store;
use table::Table;

impl<S: Store> Rack<S> {
    /// A new rack: each row's default is kept in the store. The store may have been used before; what it held for rows that the
    /// table has not stays.
    pub fn new(node: Node, table: Table, store: S) -> Rack<S>
        ensures made { (result.node ≡ node) × (result.table ≡ table) }
        ensures held { S.Store.held result.store ≡ new_held (rows_of table) (S.Store.held store) }
        ensures fresh { New (setup node.number table) (values_in (S.Store.held result.store)) }
    {
        let mut store = store;
        keep_defaults(&table, &mut store);
        Rack { node, table, store }
    }
}
