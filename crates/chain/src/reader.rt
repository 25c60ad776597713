//! The reader of a chain: it gives the items one after the other.
ghost use Rattle.std.specs.Prelude.{◌≡◌, ◌+◌};

use crate::access::Access;
use crate::cursor::Cursor;
use table::Table;

pub mod steps;

/// What a chain goes on with: a process byte, an item of the group with this byte, or the end.
#[derive(Clone, Copy)]
pub enum Ahead {
    Group,
    // Not an `Option` of the byte: behind every item its top bit is asked for, though only the first item repeats it.
    InGroup { group: u8, first: bool },
    End,
}

/// An item of a chain by its first byte: where that stands, the byte of its group, and whether it is the first there.
#[derive(Clone, Copy)]
pub(crate) struct Start<'a> {
    pub place: usize,
    pub group: u8,
    pub first: bool,
    pub byte: u8,
    pub behind: Cursor<'a>,
    ghost next: { behind.at ≡ place + 1 },
}

/// A chain that is being taken apart, by what is left of it.
#[derive(Drop)]
pub struct Chain<'a> {
    table: &'a Table,
    access: Access,
    cursor: Cursor<'a>,
    ahead: Ahead,
}
