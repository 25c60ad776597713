//! The enhanced binary framing.
//!
//!     10 02 | sequence | node | length | data .. | 10 03      a data message
//!     10 02 | sequence | node |   00   | code    | 10 03      an error message
//!
//! Every byte 10 between 10 02 and 10 03 is doubled. The length counts the data bytes (1 to 64), doubles not counted.
//! A frame's mark is the sequence number and, for an error message, the node.
#![tactic(auto)]

ghost use Rattle.std.specs.Prelude.{◌≡◌, ◌+◌, ◌*◌, ◌≤◌, [], ◌++◌, length, Some};
ghost use Rattle.std.specs.Option.{option_map};
ghost use Rattle.line.specs.Calls.{buffer_of, overlaid, starting_with, told_of};
ghost use Rattle.binary.specs.Doubling.{doubled, undoubled};
ghost use Rattle.binary.specs.Frames.{binary, framed, inner, opened};
ghost use Rattle.binary.specs.Laws.{binary_laws};

use arrayvec::ArrayVec;
use line::framable::Framable;
use line::framing::{Framing, MAX_FRAME};
use line::message::{MAX_DATA, Message, Unpacked};
use line::refusal::Flaw;

/// The binary framing, which marks its frames with a sequence number.
#[derive(Clone, Copy)]
pub struct Binary;

/// What a binary frame carries beside its message.
#[derive(Clone, Copy, PartialEq, Eq, Debug)]
pub struct Mark {
    /// The number that an answer has in common with its request.
    pub sequence: u8,
    /// The node of an error message. A data message has its own: there this reads as 0, and is ignored when written.
    pub node: u8,
}

/// The byte that begins start and end, and that is doubled between them.
const DLE: u8 = 0x10;
/// Behind DLE: the start.
const STX: u8 = 0x02;
/// Behind DLE: the end.
const ETX: u8 = 0x03;

/// No frame has more bytes between start and end: the sequence number, the node, the length and 64 data bytes, were each doubled.
const MAX_INNER: usize = 134;

/// Writes `bytes` with every 10 doubled into `frame` from `start` on, and tells where they end.
fn put_doubled(frame: &mut [u8], start: usize, bytes: &[u8]) -> usize
    requires { start + 2 * length bytes.now ≤ length frame.old }
    ensures end { result ≡ start + length (doubled bytes.now) }
    ensures room { result ≤ start + 2 * length bytes.now }
    ensures laid { frame.new ≡ overlaid frame.old start (doubled bytes.now) }
{
    let mut end = start;
    for b in bytes {
        frame[end] = *b;
        end += 1;
        if *b == DLE {
            frame[end] = DLE;
            end += 1;
        }
    }
    end
}

/// Writes the frame that holds `head` and `rest`, and tells its length.
fn put_frame(frame: &mut [u8], head: [u8; 3], rest: &[u8]) -> usize
    requires { (length rest.now ≤ 64) × (138 ≤ length frame.old) }
    ensures end { result ≡ length (framed (head ++ rest.now)) }
    ensures laid { frame.new ≡ starting_with (framed (head ++ rest.now)) frame.old }
{
    frame[0] = DLE;
    frame[1] = STX;
    let start = put_doubled(frame, 2, &head);
    let end = put_doubled(frame, start, rest);
    frame[end] = DLE;
    frame[end + 1] = ETX;
    end + 2
}

/// Puts the bytes of `text` with the doubling undone into `bytes`, which has none yet; nothing where a 10 has no second one behind it.
fn get_undoubled(text: &[u8], bytes: &mut ArrayVec<u8, MAX_INNER>) -> Option<()>
    requires { (length text.now ≤ 134) × (bytes.old.items ≡ []) }
    ensures { option_map (λ _. bytes.new.items) result ≡ undoubled text.now }
{
    let mut rest = text;
    while let [b, others @ ..] = rest {
        bytes.push(*b);
        rest = if *b == DLE {
            others.strip_prefix(&[DLE])?
        } else {
            others
        };
    }
    Some(())
}

/// What stands between the start and the end of a frame.
fn inner_bytes(frame: &[u8]) -> Option<&[u8]>
    ensures { option_map (λ d. d.now) result ≡ inner frame.now }
{
    match frame {
        [DLE, STX, text @ .., DLE, ETX] => Some(text),
        _ => None,
    }
}

/// Reads what a frame holds: tells its mark and its message, and puts the data bytes at the start of `buffer`.
fn open_content(content: &[u8], buffer: &mut [u8; MAX_DATA]) -> Result<(Mark, Unpacked), Flaw>
    ensures answer { result ≡ told_of (opened (Some content.now)) }
    ensures after { buffer.new ≡ buffer_of (opened (Some content.now)) buffer.old }
{
    match content {
        [sequence, node, 0, code] => {
            let (sequence, node, code) = (*sequence, *node, *code);
            Ok((Mark { sequence, node }, Unpacked::Error { code }))
        }
        [sequence, node, len, data @ ..]
            if usize::from(*len) == data.len() && (1..=MAX_DATA).contains(&data.len()) => {
            let (sequence, node, len) = (*sequence, *node, data.len());
            buffer[..len].copy_from_slice(data);
            Ok((Mark { sequence, node: 0 }, Unpacked::Data { node, len }))
        }
        _ => Err(Flaw::NotAFrame),
    }
}

impl Framing for Binary {
    type Mark = Mark;

    ghost rule = { λ _. binary };

    ghost lawful = { λ _. binary_laws };

    fn decode(&self, frame: &[u8], buffer: &mut [u8; MAX_DATA]) -> Result<(Mark, Unpacked), Flaw> {
        let text = inner_bytes(frame).ok_or(Flaw::NotAFrame)?;
        if text.len() > MAX_INNER {
            return Err(Flaw::NotAFrame);
        }
        let mut bytes = ArrayVec::new();
        get_undoubled(text, &mut bytes).ok_or(Flaw::NotAFrame)?;
        open_content(bytes.as_slice(), buffer)
    }

    fn encode_into(&self, mark: Mark, message: Framable<'_>, frame: &mut [u8; MAX_FRAME]) -> usize {
        match message.message() {
            Message::Data { node, bytes } => {
                put_frame(frame, [mark.sequence, node, bytes.len() as u8], bytes)
            }
            Message::Error { code } => put_frame(frame, [mark.sequence, mark.node, 0], &[code]),
        }
    }

    fn error_mark(&self, mark: Mark, node: u8) -> Mark {
        Mark { node, ..mark }
    }

    fn unreadable_mark(&self) -> Option<Mark> {
        None
    }
}

#[cfg(test)]
mod tests {
    use super::*;
    use line::refusal::{ReadRefusal, WriteRefusal};
    use std::test::Fail;

    // What every buffer holds before a call.
    const BLANK: u8 = 0xEE;

    // Whether `buffer` starts with `written` and is blank past it. Each framing's tests have it: between crates only what is public is shared.
    fn holds(buffer: &[u8], written: &[u8]) -> bool {
        buffer
            .strip_prefix(written)
            .is_some_and(|rest| rest.iter().all(|b| *b == BLANK))
    }

    // Whether `frame` reads as this data message, and is written for it under any node of the mark.
    fn carries_data(frame: &[u8], sequence: u8, node: u8, bytes: &[u8]) -> bool {
        let mut buffer = [BLANK; 64];
        let read = Binary.read(frame, &mut buffer);
        let len = bytes.len();
        let mark = Mark {
            sequence,
            node: 0x55,
        };
        let mut again = [BLANK; 138];
        let wrote = Binary.write(mark, Message::Data { node, bytes }, &mut again);
        read == Ok((Mark { sequence, node: 0 }, Unpacked::Data { node, len }))
            && holds(&buffer, bytes)
            && wrote == Ok(frame.len())
            && holds(&again, frame)
    }

    // Whether `frame` reads as this error message, and is written for what was read.
    fn carries_error(frame: &[u8], mark: Mark, code: u8) -> bool {
        let mut buffer = [BLANK; 64];
        let Ok((read, unpacked)) = Binary.read(frame, &mut buffer) else {
            return false;
        };
        let mut again = [BLANK; 138];
        let wrote = Binary.write(read, unpacked.message(&buffer), &mut again);
        read == mark
            && unpacked == Unpacked::Error { code }
            && holds(&buffer, b"")
            && wrote == Ok(frame.len())
            && holds(&again, frame)
    }

    // Whether reading `frame` is refused and leaves the buffer as it was.
    fn unread(frame: &[u8], buffer: &mut [u8], refusal: ReadRefusal) -> bool {
        Binary.read(frame, buffer) == Err(refusal) && holds(buffer, b"")
    }

    // Whether writing a data message is refused and leaves the frame as it was.
    fn unwritten(bytes: &[u8], frame: &mut [u8], refusal: WriteRefusal) -> bool {
        let mark = Mark {
            sequence: 1,
            node: 0,
        };
        Binary.write(mark, Message::Data { node: 0x80, bytes }, frame) == Err(refusal)
            && holds(frame, b"")
    }

    #[test]
    fn decoded_and_encoded(rt: HostRuntime) -> Result<(), Fail> {
        let mark = Mark {
            sequence: 0x01,
            node: 0,
        };
        let frame = b"\x10\x02\x01\x80\x01\x04\x10\x03";
        let mut buffer = [BLANK; 64];
        assert_eq!(rt;
            Binary.decode(b"\x10\x03", &mut buffer),
            Err(Flaw::NotAFrame)
        );
        assert!(rt; holds(&buffer, b""));
        assert_eq!(rt;
            Binary.decode(frame, &mut buffer),
            Ok((mark, Unpacked::Data { node: 0x80, len: 1 }))
        );
        assert!(rt; holds(&buffer, b"\x04"));
        let message = Message::Data {
            node: 0x80,
            bytes: b"\x04",
        };
        let encoded = Binary.encode(mark, Framable::new(message)?);
        assert!(rt; holds(encoded.as_slice(), frame));
        let mut again = [BLANK; MAX_FRAME];
        let len = Binary.encode_into(mark, Framable::new(message)?, &mut again);
        assert_eq!(rt; len, frame.len());
        assert!(rt; holds(&again, frame));
        Ok(())
    }

    #[test]
    fn frames(rt: HostRuntime) {
        let data: [(&[u8], u8, u8, &[u8]); 6] = [
            (b"\x10\x02\x01\x80\x01\x04\x10\x03", 0x01, 0x80, b"\x04"),
            (
                b"\x10\x02\x10\x10\x80\x05\x04\x01\x21\x01\x21\x10\x03",
                0x10,
                0x80,
                b"\x04\x01\x21\x01\x21",
            ),
            (
                b"\x10\x02\x01\x10\x10\x03\x10\x10\x02\x10\x10\x10\x03",
                0x01,
                0x10,
                b"\x10\x02\x10",
            ),
            (
                b"\x10\x02\x01\x80\x02\x10\x10\x03\x10\x03",
                0x01,
                0x80,
                b"\x10\x03",
            ),
            (
                b"\x10\x02\x01\x80\x10\x100123456789ABCDEF\x10\x03",
                0x01,
                0x80,
                b"0123456789ABCDEF",
            ),
            (
                b"\x10\x02\x01\x80\x400123456789ABCDEF0123456789ABCDEF0123456789ABCDEF0123456789ABCDEF\x10\x03",
                0x01,
                0x80,
                b"0123456789ABCDEF0123456789ABCDEF0123456789ABCDEF0123456789ABCDEF",
            ),
        ];
        for (frame, sequence, node, bytes) in data {
            assert!(rt; carries_data(frame, sequence, node, bytes));
        }
        // the longest frame: all is 10 but the length, 40
        let mut longest = [0x10; 137];
        longest[1] = 0x02;
        longest[6] = 0x40;
        longest[136] = 0x03;
        assert!(rt; carries_data(&longest, 0x10, 0x10, &[0x10; 64]));
        assert!(rt;
            carries_error(
                b"\x10\x02\x01\x80\x00\x05\x10\x03",
                Mark {
                    sequence: 0x01,
                    node: 0x80,
                },
                0x05,
            )
        );
        assert!(rt;
            carries_error(
                b"\x10\x02\x10\x10\x10\x10\x00\x10\x10\x10\x03",
                Mark {
                    sequence: 0x10,
                    node: 0x10,
                },
                0x10,
            )
        );
    }

    #[test]
    fn not_frames(rt: HostRuntime) {
        let frames: [&[u8]; 20] = [
            // start and end do not stand apart
            b"",
            b"\x10\x03",
            b"\x10\x02\x03",
            b"\x10\x02\x10",
            // wrong start, wrong end
            b"\x11\x02\x01\x80\x01\x04\x10\x03",
            b"\x10\x03\x01\x80\x01\x04\x10\x03",
            b"\x10\x02\x01\x80\x01\x04\x11\x03",
            b"\x10\x02\x01\x80\x01\x04\x10\x02",
            b"\x10\x02\x01\x80\x01\x04\x10\x03\x00",
            // a lone 10 inside, and one right before the end
            b"\x10\x02\x01\x80\x02\x10\x04\x10\x03",
            b"\x10\x02\x10\x80\x01\x04\x10\x03",
            b"\x10\x02\x01\x80\x01\x10\x10\x03",
            // fewer bytes than sequence number, node and length
            b"\x10\x02\x10\x03",
            b"\x10\x02\x01\x10\x03",
            b"\x10\x02\x01\x80\x10\x03",
            // a length that is not the number of data bytes
            b"\x10\x02\x01\x80\x01\x10\x03",
            b"\x10\x02\x01\x80\x02\x04\x10\x03",
            b"\x10\x02\x01\x80\x02\x10\x10\x10\x03",
            // an error without its code, and one with more
            b"\x10\x02\x01\x80\x00\x10\x03",
            b"\x10\x02\x01\x80\x00\x05\x05\x10\x03",
        ];
        for frame in frames {
            assert!(rt;
                unread(
                    frame,
                    &mut [BLANK; 64],
                    ReadRefusal::Unreadable(Flaw::NotAFrame),
                )
            );
        }
        // 65 data bytes: first 41, which is also sequence number, node and length; then 10, doubled, in 139 bytes
        let mut over = [0x41; 72];
        over[0] = 0x10;
        over[1] = 0x02;
        over[70] = 0x10;
        over[71] = 0x03;
        assert!(rt;
            unread(
                &over,
                &mut [BLANK; 64],
                ReadRefusal::Unreadable(Flaw::NotAFrame),
            )
        );
        let mut doubled = [0x10; 139];
        doubled[1] = 0x02;
        doubled[6] = 0x41;
        doubled[138] = 0x03;
        assert!(rt;
            unread(
                &doubled,
                &mut [BLANK; 64],
                ReadRefusal::Unreadable(Flaw::NotAFrame),
            )
        );
    }

    #[test]
    fn refusals_and_marks(rt: HostRuntime) {
        assert!(rt;
            unread(
                b"\x10\x02\x01\x80\x01\x04\x10\x03",
                &mut [BLANK; 63],
                ReadRefusal::ShortBuffer,
            )
        );
        assert!(rt; unread(b"", &mut [BLANK; 63], ReadRefusal::ShortBuffer));
        assert!(rt; unwritten(b"\x04", &mut [BLANK; 137], WriteRefusal::ShortBuffer));
        assert!(rt; unwritten(b"", &mut [BLANK; 137], WriteRefusal::ShortBuffer));
        assert!(rt; unwritten(b"", &mut [BLANK; 138], WriteRefusal::DataLength));
        assert!(rt; unwritten(&[0x04; 65], &mut [BLANK; 138], WriteRefusal::DataLength));
        let request = Mark {
            sequence: 0x10,
            node: 0,
        };
        assert_eq!(rt;
            Binary.error_mark(request, 0x80),
            Mark {
                sequence: 0x10,
                node: 0x80,
            }
        );
        assert_eq!(rt; Binary.unreadable_mark(), None);
    }
}
