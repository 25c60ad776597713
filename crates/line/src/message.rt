//! Messages: what is said on the line, apart from how it is framed.
ghost use Rattle.std.specs.Prelude.{◌≡◌};
ghost use Rattle.line.specs.Calls.{placed, said};

/// The most data bytes that a data message has.
pub const MAX_DATA: usize = 64;

/// A message as it is handed in to be framed: a data message (a node and its data bytes) or an error message (a code).
#[derive(Clone, Copy, PartialEq, Eq, Debug)]
pub enum Message<'a> {
    Data { node: u8, bytes: &'a [u8] },
    Error { code: u8 },
}

/// A message as it was read from a frame: its data bytes stand at the start of the buffer that was lent for them.
// Not a `Message` that borrows the lent buffer: a buffer that goes into the result has no value after the call, so that no clause
// could say what it holds. Nor `Message` over a type parameter: each signature names its form in a word.
#[derive(Clone, Copy, PartialEq, Eq, Debug)]
pub enum Unpacked {
    Data { node: u8, len: usize },
    Error { code: u8 },
}

impl Unpacked {
    /// The message, with its data bytes at the start of `buffer`; of a buffer shorter than the data, all that it has.
    pub fn message(self, buffer: &[u8]) -> Message<'_>
        ensures { said result ≡ placed self buffer.now }
    {
        match self {
            Unpacked::Data { node, len } => Message::Data {
                node,
                bytes: &buffer[..len.min(buffer.len())],
            },
            Unpacked::Error { code } => Message::Error { code },
        }
    }
}
