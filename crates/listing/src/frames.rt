//! The frames in received bytes, listed.
ghost use Rattle.std.specs.Prelude.{◌≡◌, IfOk, string_bytes};
ghost use Rattle.listing.specs.Frames.{Listed, NoneLeftOut, listed, said_in};
ghost use Rattle.listing.specs.Hearing.{message_of};
ghost use Rattle.listing.specs.Written.{WrittenFound};

use crate::heard::{Counts, Heard, hear};
use ascii::Ascii;
use binary::Binary;
use finder::{Outcome, find};
use line::message::MAX_DATA;
use std::alloc::{AllocError, Global};

/// What a frame says, in the framing that its first byte tells. Its data bytes are put in the buffer.
fn hear_frame<'a>(frame: &[u8], buffer: &'a mut [u8; MAX_DATA]) -> Heard<'a>
    ensures { message_of result ≡ said_in frame.now }
{
    match frame {
        [b':', ..] => hear(&Ascii, frame, buffer),
        _ => hear(&Binary, frame, buffer),
    }
}

/// The lines of the frames, their counts, and the place behind the last of them.
#[derive(Drop)]
struct Entries {
    text: String,
    counts: Counts,
    end: usize,
}

impl Entries {
    /// The whole text: behind the lines of the frames a line that counts them, and one for what is left.
    fn close(mut self, received: &[u8]) -> Result<String, AllocError>
        requires { Listed received.now self }
        ensures { IfOk result (λ t. string_bytes t ≡ listed received.now) }
    {
        writeln!(self.text, "{}", self.counts)?;
        let (outcome, offset, _) = find(&received[self.end..]);
        if outcome == Outcome::More {
            writeln!(self.text, "more at {}", self.end + offset)?;
        } else {
            writeln!(self.text, "none left")?;
        }
        Ok(self.text)
    }
}

/// A line for each frame in the received bytes.
fn list_frames(heap: Global, received: &[u8]) -> Result<Entries, AllocError>
    ensures { IfOk result (λ e. Listed received.now e) }
{
    let mut text = String::new(heap);
    let mut counts = Counts::default();
    // The place is counted: every line tells one.
    let mut end = 0;
    loop {
        let (outcome, offset, frame) = find(&received[end..]);
        if outcome != Outcome::Frame {
            return Ok(Entries { text, counts, end });
        }
        let mut buffer = [0; MAX_DATA];
        let heard = hear_frame(frame, &mut buffer);
        let number = counts.total() + 1;
        let place = end + offset;
        writeln!(text, "{number} at {place}: {heard}")?;
        counts.add(heard);
        end = place + frame.len();
    }
}

/// The listing of the received bytes: a line for each frame with its number, the place of its first byte and what it says,
/// a line that counts them, and a line for what is left.
pub fn listing(heap: Global, received: &[u8]) -> Result<String, AllocError>
    ensures { IfOk result (λ t. string_bytes t ≡ listed received.now) }
{
    list_frames(heap, received)?.close(received)
}

/// No frame is left out of a listing.
pub fn none_left_out() -> u8
    ensures { NoneLeftOut }
{
    0
}

/// What either framing writes is found whole, with anything behind it.
pub fn written_found() -> u8
    ensures { WrittenFound }
{
    0
}

#[cfg(test)]
mod tests {
    use super::*;
    use std::process::Abort;
    use std::test::Fail;

    fn listed_as(
        rt: &(impl Abort + AllocGlobal),
        received: &[u8],
        expected: &str,
    ) -> Result<(), Fail> {
        let text = listing(rt.alloc(), received)?;
        assert_eq!(rt; text.as_str(), expected);
        Ok(())
    }

    #[test]
    fn listings(rt: HostRuntime) -> Result<(), Fail> {
        listed_as(&rt, b"", "0 data, 0 error, 0 unreadable\nnone left\n")?;
        listed_as(&rt, b"\r\n", "0 data, 0 error, 0 unreadable\nnone left\n")?;
        listed_as(
            &rt,
            b" :0105\r\n",
            "1 at 1: error 05\n0 data, 1 error, 0 unreadable\nnone left\n",
        )?;
        listed_as(&rt, b"a:0280", "0 data, 0 error, 0 unreadable\nmore at 1\n")
    }
}
