//! The items of a chain.
ghost use Rattle.std.specs.Prelude.{◌≡◌};
ghost use Rattle.chain.specs.Items.{place_of, plain_item, row_of};

/// An item taken from a chain: a write, whose value is a part of the message, or a read.
#[derive(Clone, Copy)]
pub enum Item<'a> {
    Write {
        /// The number of the row.
        row: usize,
        /// The index of its parameter byte.
        place: usize,
        /// The value's own bytes, without a text's length and without the 00 that ends an open text.
        value: &'a [u8],
    },
    Read(Query),
}

impl Item<'_> {
    /// The number of the row that is written or asked for.
    pub fn row(self) -> usize
        ensures { result ≡ row_of (plain_item self.entry) }
    {
        match self {
            Item::Write { row, .. } => row,
            Item::Read(query) => query.row,
        }
    }

    /// The index of the item's first byte: a write's parameter byte, a read's index byte.
    pub fn place(self) -> usize
        ensures { result ≡ place_of (plain_item self.entry) }
    {
        match self {
            Item::Write { place, .. } => place,
            Item::Read(query) => query.place,
        }
    }
}

/// A row that is asked for.
#[derive(Clone, Copy)]
pub struct Query {
    /// The number of the row.
    pub row: usize,
    /// The index of its index byte x.
    pub place: usize,
    /// The group's byte g, where this is the first item of its group.
    pub group: Option<u8>,
    /// The index byte x.
    pub index: u8,
}
