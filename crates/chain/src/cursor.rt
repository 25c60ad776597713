//! Places in the data of a message.
ghost use Rattle.std.specs.Prelude.{◌≡◌, ◌+◌, ◌<◌, ◌≤◌, min, [], length, MatchOption};
ghost use Rattle.chain.specs.Faults.{missing};

use crate::fault::{ChainFault, RackFault};

/// A place in the data of a message: the bytes before it are taken.
#[derive(Clone, Copy)]
pub(crate) struct Cursor<'a> {
    message: &'a [u8],
    // The index of the next byte.
    at: usize,
    ghost inside: { at ≤ length message.now },
}

impl<'a> Cursor<'a> {
    ghost use Rattle.chain.specs.Cursors.{Front, Next, rest};

    /// The place behind the first `taken` bytes of a message, or behind all where there are fewer.
    pub(crate) fn new(message: &'a [u8], taken: usize) -> Cursor<'a>
        ensures at { result.at ≡ min (length message.now) taken }
        ensures same { result.message.now ≡ message.now }
    {
        let at = message.len().min(taken);
        Cursor { message, at }
    }

    /// The index of the next byte.
    pub(crate) fn at(self) -> usize
        ensures { result ≡ self.entry.at }
    {
        self.at
    }

    /// The bytes that are not taken yet.
    pub(crate) fn rest(self) -> &'a [u8]
        ensures { result.now ≡ rest self.entry }
    {
        &self.message[self.at..]
    }

    /// The next byte and the place behind it, or `None` where the data ends.
    // An `Option` and no refusal, by the project's form: each check is a `let .. else` on its next byte.
    pub(crate) fn next(self) -> Option<(u8, Cursor<'a>)>
        ensures { MatchOption result (rest self.entry ≡ []) (λ p. Next self.entry p.0 p.1) }
    {
        let byte = self.message.get(self.at)?;
        let message = self.message;
        let at = self.at + 1;
        Some((*byte, Cursor { message, at }))
    }

    /// The next `n` bytes and the place behind them, or `None` where the data ends before.
    pub(crate) fn take(self, n: usize) -> Option<(&'a [u8], Cursor<'a>)>
        ensures { MatchOption result (length (rest self.entry) < n) (λ p. Front self.entry n p.0.now p.1) }
    {
        let taken = self.rest().get(..n)?;
        let message = self.message;
        let at = self.at + n;
        Some((taken, Cursor { message, at }))
    }

    /// The data ends where a byte is needed: the index is its length.
    pub(crate) fn missing(self) -> RackFault
        ensures { result ≡ missing (self.entry.at + length (rest self.entry)) }
    {
        let index = self.message.len();
        RackFault::Chain(ChainFault::MissingByte { index })
    }
}
