//! Messages that can be framed.
ghost use Rattle.std.specs.Prelude.{◌≡◌, false};
ghost use Rattle.line.specs.Calls.{said, wrong_length};

use crate::message::Message;

mod calls;

/// A message that can be framed: an error message, or a data message of 1 to 64 data bytes.
#[derive(Clone, Copy)]
pub struct Framable<'a> {
    message: Message<'a>,
    ghost fits: { wrong_length (said message) ≡ false },
}
