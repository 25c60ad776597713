//! The ASCII framing.
//!
//!     3A | length | node | data ..   | 0D 0A      a data message
//!     3A |   01   | code             | 0D 0A      an error message
//!
//! Each byte between 3A and 0D 0A is two capital hex digits, the high one first. The length counts the bytes behind it:
//! the node and the data (2 to 65), or the code (1). A frame carries no mark.
#![tactic(auto)]

ghost use Rattle.std.specs.Prelude.{◌≡◌, ◌+◌, ◌*◌, ◌/◌, ◌%◌, ◌<◌, ◌≤◌, ◌∷◌, length, take, IfSome, Some};
ghost use Rattle.std.specs.Option.{option_map};
ghost use Rattle.line.specs.Calls.{buffer_of, overlaid, starting_with, told_of};
ghost use Rattle.ascii.specs.Frames.{ascii, framed, inner, opened};
ghost use Rattle.ascii.specs.Hex.{digit, hexes, spelled, value};
ghost use Rattle.ascii.specs.Laws.{ascii_laws};

use line::framable::Framable;
use line::framing::{Framing, MAX_FRAME};
use line::message::{MAX_DATA, Message, Unpacked};
use line::refusal::Flaw;

/// The framing in hex digits between a colon and a line end.
#[derive(Clone, Copy)]
pub struct Ascii;

/// The most bytes that stand between start and end: the length, the node and the data.
const MAX_INNER: usize = 66;

/// The capital hex digit of a number below 16.
// Not by the crate `hex`: into a slice it writes small digits, and it reads both.
fn hex_digit(v: u8) -> u8
    requires { v < 16 }
    ensures { result ≡ digit v }
{
    if v < 10 { b'0' + v } else { b'A' + (v - 10) }
}

/// The two capital hex digits of a byte, the high one first.
pub fn hex_pair(byte: u8) -> (u8, u8)
    ensures { result ≡ (digit (byte / 16), digit (byte % 16)) }
{
    (hex_digit(byte / 16), hex_digit(byte % 16))
}

/// The number that a capital hex digit stands for.
fn digit_value(c: u8) -> Option<u8>
    ensures value { result ≡ value c }
    ensures small { IfSome result (λ v. v < 16) }
{
    match c {
        b'0'..=b'9' => Some(c - b'0'),
        b'A'..=b'F' => Some(c - b'A' + 10),
        _ => None,
    }
}

/// Writes each of `bytes` as two digits into `frame` from `start` on, and tells where they end.
fn put_hex(frame: &mut [u8], start: usize, bytes: &[u8]) -> usize
    requires { start + 2 * length bytes.now ≤ length frame.old }
    ensures end { result ≡ start + 2 * length bytes.now }
    ensures laid { frame.new ≡ overlaid frame.old start (hexes bytes.now) }
{
    let mut end = start;
    for b in bytes {
        let (high, low) = hex_pair(*b);
        frame[end] = high;
        frame[end + 1] = low;
        end += 2;
    }
    end
}

/// Writes the frame whose length counts `first` and `rest`, and tells its own length.
fn put_frame(frame: &mut [u8], first: u8, rest: &[u8]) -> usize
    requires { (length rest.now ≤ 64) × (138 ≤ length frame.old) }
    ensures end { result ≡ length (framed (first ∷ rest.now)) }
    ensures laid { frame.new ≡ starting_with (framed (first ∷ rest.now)) frame.old }
{
    frame[0] = b':';
    let start = put_hex(frame, 1, &[rest.len() as u8 + 1, first]);
    let end = put_hex(frame, start, rest);
    frame[end] = b'\r';
    frame[end + 1] = b'\n';
    end + 2
}

/// Puts the bytes that pairs of `digits` spell at the start of `bytes`, and tells how many they are; nothing where `digits` are not such pairs.
// Into an array, as each byte has its place: a vector would store its length with each.
fn get_hex(digits: &[u8], bytes: &mut [u8; MAX_INNER]) -> Option<usize>
    requires { length digits.now ≤ 132 }
    ensures spells { option_map (λ n. take n bytes.new) result ≡ spelled digits.now }
    ensures count { IfSome result (λ n. n ≤ 66) }
{
    let (pairs, []) = digits.as_chunks::<2>() else {
        return None;
    };
    for (n, [high, low]) in pairs.iter().enumerate() {
        bytes[n] = 16 * digit_value(*high)? + digit_value(*low)?;
    }
    Some(pairs.len())
}

/// The digits between the start and the end of a frame.
fn inner_digits(frame: &[u8]) -> Option<&[u8]>
    ensures { option_map (λ d. d.now) result ≡ inner frame.now }
{
    match frame {
        [b':', digits @ .., b'\r', b'\n'] => Some(digits),
        _ => None,
    }
}

/// Reads what a frame spells: tells its message, and puts the data bytes at the start of `buffer`.
fn open_content(content: &[u8], buffer: &mut [u8; MAX_DATA]) -> Result<((), Unpacked), Flaw>
    ensures answer { result ≡ told_of (opened (Some content.now)) }
    ensures after { buffer.new ≡ buffer_of (opened (Some content.now)) buffer.old }
{
    match content {
        [1, code] => Ok(((), Unpacked::Error { code: *code })),
        [len, node, data @ ..]
            if usize::from(*len) == 1 + data.len() && (1..=MAX_DATA).contains(&data.len()) => {
            let (node, len) = (*node, data.len());
            buffer[..len].copy_from_slice(data);
            Ok(((), Unpacked::Data { node, len }))
        }
        _ => Err(Flaw::NotAFrame),
    }
}

impl Framing for Ascii {
    type Mark = ();

    ghost rule = { λ _. ascii };

    ghost lawful = { λ _. ascii_laws };

    // The steps are those of the binary framing too, each with another function and bound: one function for both would take them as
    // closures and say no less.
    fn decode(&self, frame: &[u8], buffer: &mut [u8; MAX_DATA]) -> Result<((), Unpacked), Flaw> {
        let digits = inner_digits(frame).ok_or(Flaw::NotAFrame)?;
        if digits.len() > 2 * MAX_INNER {
            return Err(Flaw::NotAFrame);
        }
        let mut bytes = [0; MAX_INNER];
        let len = get_hex(digits, &mut bytes).ok_or(Flaw::NotAFrame)?;
        open_content(&bytes[..len], buffer)
    }

    fn encode_into(&self, _mark: (), message: Framable<'_>, frame: &mut [u8; MAX_FRAME]) -> usize {
        match message.message() {
            Message::Data { node, bytes } => put_frame(frame, node, bytes),
            Message::Error { code } => put_frame(frame, code, &[]),
        }
    }

    fn error_mark(&self, mark: (), _node: u8) {
        mark
    }

    fn unreadable_mark(&self) -> Option<()> {
        Some(())
    }
}

#[cfg(test)]
mod tests {
    use super::*;
    use std::process::Abort;
    use std::test::Fail;

    // What every buffer holds before a call.
    const BLANK: u8 = 0xEE;

    // Whether `buffer` starts with `written` and is blank past it. Each framing's tests have it: between crates only what is public is shared.
    fn holds(buffer: &[u8], written: &[u8]) -> bool {
        buffer
            .strip_prefix(written)
            .is_some_and(|rest| rest.iter().all(|b| *b == BLANK))
    }

    // Reads a frame and writes what it says: the same frame. The bytes past the data stay.
    fn same_again(rt: &impl Abort, frame: &[u8], said: u8, data: &[u8]) -> Result<(), Fail> {
        let mut buffer = [BLANK; 65];
        let (_, unpacked) = Ascii.read(frame, &mut buffer)?;
        match unpacked {
            Unpacked::Data { node, len } => assert!(rt; node == said && len == data.len()),
            Unpacked::Error { code } => assert!(rt; code == said && data.is_empty()),
        }
        assert!(rt; holds(&buffer, data));
        let mut again = [BLANK; 139];
        let len = Ascii.write((), unpacked.message(&buffer), &mut again)?;
        assert_eq!(rt; len, frame.len());
        assert!(rt; holds(&again, frame));
        Ok(())
    }

    #[test]
    fn decoded_and_encoded(rt: HostRuntime) -> Result<(), Fail> {
        let mut buffer = [BLANK; 64];
        assert_eq!(rt;
            Ascii.decode(b":028001\r", &mut buffer),
            Err(Flaw::NotAFrame)
        );
        assert!(rt; holds(&buffer, b""));
        assert_eq!(rt;
            Ascii.decode(b":028001\r\n", &mut buffer),
            Ok(((), Unpacked::Data { node: 0x80, len: 1 }))
        );
        assert!(rt; holds(&buffer, &[1]));
        let message = Message::Data {
            node: 0x80,
            bytes: &[1],
        };
        let encoded = Ascii.encode((), Framable::new(message)?);
        assert!(rt; holds(encoded.as_slice(), b":028001\r\n"));
        let mut frame = [BLANK; MAX_FRAME];
        let len = Ascii.encode_into((), Framable::new(message)?, &mut frame);
        assert_eq!(rt; len, 9);
        assert!(rt; holds(&frame, b":028001\r\n"));
        let error = Ascii.encode((), Framable::new(Message::Error { code: 5 })?);
        assert!(rt; holds(error.as_slice(), b":0105\r\n"));
        Ok(())
    }

    #[test]
    fn frames(rt: HostRuntime) -> Result<(), Fail> {
        same_again(&rt, b":028001\r\n", 0x80, &[1])?;
        same_again(&rt, b":06030401210121\r\n", 3, &[4, 1, 0x21, 1, 0x21])?;
        same_again(&rt, b":0105\r\n", 5, &[])?;
        let mut longest = [b'A'; 135];
        longest[0] = b':';
        longest[1] = b'4';
        longest[2] = b'1';
        longest[133] = b'\r';
        longest[134] = b'\n';
        same_again(&rt, &longest, 0xAA, &[0xAA; 64])
    }

    #[test]
    fn no_frames(rt: HostRuntime) {
        let pieces: [&[u8]; 18] = [
            b"",
            b"\r\n",
            b":\r\n",
            b"028001\r\n",
            b";028001\r\n",
            b":028001\r",
            b":028001\n",
            b":028001\n\r",
            b":028001",
            b":02800a\r\n",
            b":02800G\r\n",
            b":02800 \r\n",
            b":02800\r\n",
            b":0280011\r\n",
            b":03800\r\n",
            b":038001\r\n",
            b":018001\r\n",
            b":00\r\n",
        ];
        for piece in pieces {
            let mut buffer = [BLANK; 64];
            assert!(rt; Ascii.read(piece, &mut buffer).is_err());
            assert!(rt; holds(&buffer, b""));
        }
        let mut long = [b'0'; 137];
        long[0] = b':';
        long[1] = b'4';
        long[2] = b'2';
        long[135] = b'\r';
        long[136] = b'\n';
        assert!(rt;
            Ascii.read(&long, &mut [BLANK; 64]).is_err(),
            "a length of 42"
        );
    }

    // A refused write tells its number and leaves the buffer as it was.
    fn write_refused(rt: &impl Abort, bytes: &[u8], frame: &mut [u8], number: u8) {
        let message = Message::Data { node: 3, bytes };
        let written = Ascii.write((), message, frame);
        assert_eq!(rt; written.map_err(|refusal| refusal.number()), Err(number));
        assert!(rt; holds(frame, b""));
    }

    #[test]
    fn refusals(rt: HostRuntime) {
        let mut buffer = [BLANK; 63];
        let read = Ascii.read(b":0280\r\n", &mut buffer);
        assert_eq!(rt; read.map_err(|refusal| refusal.number()), Err(1));
        assert!(rt; holds(&buffer, b""));
        write_refused(&rt, &[], &mut [BLANK; 137], 1);
        write_refused(&rt, &[1], &mut [BLANK; 137], 1);
        write_refused(&rt, &[], &mut [BLANK; 138], 9);
        write_refused(&rt, &[1; 65], &mut [BLANK; 138], 9);
    }
}
