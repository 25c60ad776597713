//! What a framing is: its rule, its calls and its laws.
ghost use Rattle.std.specs.Prelude.{◌≡◌, length};
ghost use Rattle.line.specs.Calls.{buffer_of, read_answer, read_buffer, said, starting_with, told_of, write_answer, write_buffer};
ghost use Rattle.line.specs.Framings.{Laws, Rule};

use crate::framable::Framable;
use crate::message::{MAX_DATA, Message, Unpacked};
use crate::refusal::{Flaw, ReadRefusal, WriteRefusal};
use arrayvec::ArrayVec;

/// The most bytes that a frame has, in any framing.
pub const MAX_FRAME: usize = 138;

/// A way of putting messages on the wire. Its calls answer by its rule and change nothing but the buffer that is lent to them.
/// A framing says how a frame is decoded and encoded into an array; what is refused before that is the same in all.
pub trait Framing {
    /// What a frame carries beside its message, so that an answer finds its request.
    type Mark: Copy;

    ghost rule: { Self → Rule Self.Mark };

    /// The mark and the message of `frame`; the data bytes stand at the start of `buffer`, and bytes past them stay.
    /// Where `frame` is not a frame, `buffer` stays as it was.
    fn decode(
        &self,
        frame: &[u8],
        buffer: &mut [u8; MAX_DATA],
    ) -> Result<(Self::Mark, Unpacked), Flaw>
        ensures answer { result ≡ told_of ((rule self.now).reads frame.now) }
        ensures after { buffer.new ≡ buffer_of ((rule self.now).reads frame.now) buffer.old };

    /// Puts the frame of `message` under `mark` at the start of `frame`, and tells its length; bytes past it stay.
    fn encode_into(
        &self,
        mark: Self::Mark,
        message: Framable<'_>,
        frame: &mut [u8; MAX_FRAME],
    ) -> usize
        ensures answer { result ≡ length ((rule self.now).writes mark (said message.entry.message)) }
        ensures after { frame.new ≡ starting_with ((rule self.now).writes mark (said message.entry.message)) frame.old };

    /// The frame of `message` under `mark`.
    fn encode(&self, mark: Self::Mark, message: Framable<'_>) -> ArrayVec<u8, MAX_FRAME>
        ensures { result.items ≡ (rule self.now).writes mark (said message.entry.message) }
    {
        // The frame is made among the elements of the vector: an array beside it would have to be moved in.
        let mut frame = ArrayVec::from_array_in((), [0; MAX_FRAME]);
        let Some(bytes) = frame.as_mut_slice().first_chunk_mut() else {
            unreachable!();
        };
        let len = self.encode_into(mark, message, bytes);
        frame.truncate(len);
        frame
    }

    /// The mark and the message of `frame`; the data bytes stand at the start of `buffer`, and bytes past them stay.
    /// Refused by 1 where `buffer` has fewer than 64 bytes, then by 8 where `frame` is not a frame. A refusal leaves `buffer` as it was.
    fn read(&self, frame: &[u8], buffer: &mut [u8]) -> Result<(Self::Mark, Unpacked), ReadRefusal>
        ensures answer { result ≡ read_answer (rule self.now) frame.now buffer.old }
        ensures after { buffer.new ≡ read_buffer (rule self.now) frame.now buffer.old }
    {
        let Some(buffer) = buffer.first_chunk_mut() else {
            return Err(ReadRefusal::ShortBuffer);
        };
        Ok(self.decode(frame, buffer)?)
    }

    /// Writes the frame of `message` under `mark` to the start of `frame`, and tells its length; bytes past it stay.
    /// Refused by 1 where `frame` has fewer than 138 bytes, then by 9 for a data message of 0 or over 64 bytes. A refusal leaves `frame` as it was.
    fn write(
        &self,
        mark: Self::Mark,
        message: Message<'_>,
        frame: &mut [u8],
    ) -> Result<usize, WriteRefusal>
        ensures answer { result ≡ write_answer (rule self.now) mark (said message.entry) frame.old }
        ensures after { frame.new ≡ write_buffer (rule self.now) mark (said message.entry) frame.old }
    {
        let Some(frame) = frame.first_chunk_mut() else {
            return Err(WriteRefusal::ShortBuffer);
        };
        Ok(self.encode_into(mark, Framable::new(message)?, frame))
    }

    /// The mark of an error message that answers a request with `mark` and `node`.
    fn error_mark(&self, mark: Self::Mark, node: u8) -> Self::Mark
        ensures { result ≡ (rule self.now).error_mark mark node };

    /// The mark of error 03 in answer to an unreadable frame, or nothing where such a frame gets no answer.
    fn unreadable_mark(&self) -> Option<Self::Mark>
        ensures { result ≡ (rule self.now).unreadable_mark };

    ghost lawful: { (f : Self) → Laws (rule f) };
}
