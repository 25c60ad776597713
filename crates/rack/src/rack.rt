//! The rack: a node, a table, and a store with the values of its rows.
use crate::node::Node;
use table::Table;

mod answering;
mod making;
mod serving;

/// One node, its table of rows, and the store that keeps their values.
#[derive(Drop)]
pub struct Rack<S> {
    node: Node,
    table: Table,
    store: S,
}
