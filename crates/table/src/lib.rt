//! The table of a rack: its parameters, one to a row, and the feeds that some of them draw on.
#![tactic(auto)]

ghost use Rattle.std.specs.Prelude.{map};
ghost use Rattle.std.proofs.Props.{props};
ghost use Rattle.value.proofs.Facts.{Bytes-prop};
ghost use Rattle.table.specs.Rows.{plain};
ghost use Rattle.table.specs.Tables.{Ruled};

use arrayvec::ArrayVec;
use number::Range;
use value::Value;

mod draws;
mod edits;
mod lookups;
mod refusals;
mod rules;

pub use refusals::{AddRefusal, LimitRefusal};

/// The most rows that a table has.
pub const MAX_ROWS: usize = 128;

/// A number for each row, row i's at place i, in fixed memory.
pub type RowNumbers = [u16; MAX_ROWS];

/// How many feeds there are: they are numbered from 1.
pub const FEEDS: usize = 8;

/// The greatest full flow and the greatest limit, in ml/min.
pub const MAX_FLOW: u32 = 1_000_000;

/// What the values of a parameter are. A number kind holds its range and its default.
#[derive(Clone, Copy)]
pub enum Kind {
    /// A number of 1 byte.
    Char(Range<u8>),
    /// A number of 2 bytes.
    Integer(Range<u16>),
    /// A number of 4 bytes.
    Long(Range<u32>),
    /// An IEEE binary32.
    Float(Range<f32>),
    /// Text of exactly `len` bytes, 1 to 24.
    Text { len: u8 },
    /// Text of 0 to 24 bytes, none of them 00.
    OpenText,
}

/// A row as it is handed to `Table::add`, which judges it.
// What goes together stands apart, as a feed and its flow, so that a row against the rules can be handed in.
#[derive(Clone, Copy)]
pub struct Row {
    /// The process, 0 to 127.
    pub process: u8,
    /// The parameter, 0 to 31.
    pub parameter: u8,
    /// What its values are.
    pub kind: Kind,
    /// It may be read. At least one of this and `writable` is set.
    pub readable: bool,
    /// It may be written.
    pub writable: bool,
    /// It may be written only while row 0 holds 64.
    pub secured: bool,
    /// The feed that the row draws on, 1 to 8, or 0 for none.
    pub feed: u8,
    /// What the row draws at value 32000, in ml/min: 1 to 1,000,000 on a feed, else 0.
    pub full_flow: u32,
    /// The default of a text row. Of a number row it is empty, since the kind has the default.
    pub text: Value,
}

/// Rows, numbered from 0 in the order of adding, and the limit of each feed. Every table keeps all its rules, always.
#[derive(Drop)]
pub struct Table {
    rows: ArrayVec<Row, MAX_ROWS>,
    // In ml/min, of the feeds 1 to 8.
    limits: [u32; FEEDS],
    ghost ruled: { Ruled (map plain rows.items) limits } by { Prim.hlevel (props, Bytes-prop) },
}
