//! What is heard of one frame, and the counts.
ghost use Rattle.std.specs.Prelude.{◌≡◌, ◌^◌, ◌<◌, Some};
ghost use Rattle.listing.specs.Hearing.{counted, message_of, total};
ghost use Rattle.listing.specs.Words.{counts_words, message_read, words};

use crate::hex::Hex;
use line::framing::Framing;
use line::message::{MAX_DATA, Message};
use std::fmt;

/// What a frame was heard to say: a message, or nothing where it cannot be read.
#[derive(Clone, Copy)]
pub(crate) struct Heard<'a>(pub(crate) Option<Message<'a>>);

/// What a frame says in a framing, whatever its mark. Its data bytes are put in the buffer.
pub(crate) fn hear<'a, F: Framing>(
    framing: &F,
    frame: &[u8],
    buffer: &'a mut [u8; MAX_DATA],
) -> Heard<'a>
    ensures { message_of result ≡ message_read ((F.Framing.rule framing.now).reads frame.now) }
{
    let decoded = framing.decode(frame, buffer).ok();
    Heard(decoded.map(|(_, unpacked)| unpacked.message(buffer)))
}

impl fmt::Display for Heard<'_> {
    ghost output = { λ h. Some (words (message_of h)) };

    fn fmt<W: fmt::Write>(&self, f: &mut fmt::Formatter<W>) -> fmt::Result {
        match self.0 {
            Some(Message::Data { node, bytes }) => {
                let command = Hex(&bytes[0..bytes.len().min(1)]);
                let data = Hex(bytes);
                write!(f, "data, node {node:02X}, command {command}, data {data}")
            }
            Some(Message::Error { code }) => write!(f, "error {code:02X}"),
            None => write!(f, "no frame"),
        }
    }
}

/// How many frames said what.
#[derive(Clone, Copy, Default)]
pub(crate) struct Counts {
    pub(crate) messages: usize,
    pub(crate) errors: usize,
    pub(crate) unreadable: usize,
}

impl fmt::Display for Counts {
    ghost output = { λ c. Some (counts_words c) };

    fn fmt<W: fmt::Write>(&self, f: &mut fmt::Formatter<W>) -> fmt::Result {
        let Counts {
            messages,
            errors,
            unreadable,
        } = *self;
        write!(
            f,
            "{messages} data, {errors} error, {unreadable} unreadable"
        )
    }
}

impl Counts {
    /// How many frames were heard.
    pub(crate) fn total(self) -> usize
        requires { total self < 2 ^ 64 }
        ensures { result ≡ total self }
    {
        self.messages + self.errors + self.unreadable
    }

    /// One frame more.
    pub(crate) fn add(&mut self, heard: Heard<'_>)
        requires { total self.old < 2 ^ 63 }
        ensures { self.new ≡ counted self.old (message_of heard.entry) }
    {
        match heard.0 {
            Some(Message::Data { .. }) => self.messages += 1,
            Some(Message::Error { .. }) => self.errors += 1,
            None => self.unreadable += 1,
        }
    }
}
