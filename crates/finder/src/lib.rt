//! Finds the first frame in received bytes, whichever framing it has and whatever stands before it.
//! Bytes are written in hexadecimal.
//!
//!     ASCII    3A .. 0A          3A to the first 0A, at most 135 bytes in all
//!     binary   10 02 .. 10 03    10 02 to the first 10 03, at most 138 bytes in all
//!
//! Inside a binary frame a 10 belongs together with the byte behind it: 10 10 is data, 10 03 the end,
//! 10 02 the start of another frame, and any other pair is wrong.
#![tactic(auto)]

ghost use Rattle.std.specs.Prelude.{◌≡◌, ◌+◌, ◌<◌, ◌≤◌, length, take, drop, ◌≢◌};
ghost use Rattle.finder.specs.First.{First};
ghost use Rattle.finder.specs.Search.{unended, ascii_attempt, inside, binary_attempt, attempt, found};
ghost use Rattle.finder.specs.Laws.{Laws};

/// The first byte of an ASCII frame.
const COLON: u8 = 0x3A;

/// The last byte of an ASCII frame.
const LF: u8 = 0x0A;

/// The most bytes that an ASCII frame has, its first and its last counted.
const ASCII_WINDOW: usize = 135;

/// The byte that a start, an end and a doubled byte begin with.
const DLE: u8 = 0x10;

/// After a `DLE`: the start of a binary frame.
const STX: u8 = 0x02;

/// After a `DLE`: the end of a binary frame.
const ETX: u8 = 0x03;

/// The most bytes that a binary frame has, its start and its end counted.
const BINARY_WINDOW: usize = 138;

/// What the search in received bytes came to.
#[derive(Clone, Copy, PartialEq, Eq, Debug)]
pub enum Outcome {
    /// A whole frame was found.
    Frame,
    /// The bytes stop inside an attempt, and more of them decide it. What lies behind its start is not looked at before.
    More,
    /// Neither a frame nor an unfinished attempt was found.
    None,
}

/// What an attempt to read a frame from a place on comes to.
#[derive(Clone, Copy)]
enum Attempt {
    /// A frame of that many bytes.
    Ends(usize),
    /// Another frame starts that many bytes further, inside this one.
    Restarts(usize),
    /// No frame starts here.
    Fails,
    /// The bytes stop before its end, and more of them may bring it.
    Open,
}

/// What stands at a place inside a binary frame.
#[derive(Clone, Copy)]
enum Inside {
    /// A byte other than 10, or a 10 that is the last byte.
    Byte,
    /// 10 10, a data byte.
    Ten,
    /// 10 03.
    End,
    /// 10 02.
    Start,
    /// 10 and any other byte.
    Wrong,
}

/// The leading `MOST` bytes, or all where there are fewer.
fn leading<const MOST: usize>(bytes: &[u8]) -> &[u8]
    ensures { result.now ≡ take MOST bytes.now }
{
    &bytes[..bytes.len().min(MOST)]
}

/// What an attempt comes to that has no end in its window of `MOST` bytes.
fn without_end<const MOST: usize>(bytes: &[u8]) -> Attempt
    ensures { result ≡ unended MOST bytes.now }
{
    if bytes.len() < MOST {
        Attempt::Open
    } else {
        Attempt::Fails
    }
}

/// From 3A to the first 0A, within `MOST` bytes.
fn try_ascii<const MOST: usize>(bytes: &[u8]) -> Attempt
    ensures { result ≡ ascii_attempt MOST bytes.now }
{
    match leading::<MOST>(bytes).iter().position(|b| *b == LF) {
        Some(n) => Attempt::Ends(n + 1),
        None => without_end::<MOST>(bytes),
    }
}

/// What stands at the first of these bytes, inside a binary frame.
fn look_inside(bytes: &[u8]) -> Inside
    ensures { result ≡ inside bytes.now }
{
    match bytes {
        [DLE, ETX, ..] => Inside::End,
        [DLE, STX, ..] => Inside::Start,
        [DLE, DLE, ..] => Inside::Ten,
        [DLE, _, ..] => Inside::Wrong,
        _ => Inside::Byte,
    }
}

/// From 10 02 to the first 10 03, pair by pair, within `MOST` bytes. A pair counts only if both its bytes lie there.
fn try_binary<const MOST: usize>(bytes: &[u8]) -> Attempt
    ensures { result ≡ binary_attempt MOST bytes.now }
{
    let window = leading::<MOST>(bytes);
    // Counted by hand, because it is what is told: of the bytes left it would have to be reckoned back.
    let mut n = 2;
    while n < window.len() {
        match look_inside(&window[n..]) {
            Inside::Byte => n += 1,
            Inside::Ten => n += 2,
            Inside::End => return Attempt::Ends(n + 2),
            Inside::Start => return Attempt::Restarts(n),
            Inside::Wrong => return Attempt::Fails,
        }
    }
    without_end::<MOST>(bytes)
}

/// What an attempt at the first of these bytes comes to.
fn try_here(bytes: &[u8]) -> Attempt
    ensures { result ≡ attempt bytes.now }
{
    match bytes {
        [COLON, ..] => try_ascii::<ASCII_WINDOW>(bytes),
        [DLE] => Attempt::Open,
        [DLE, STX, ..] => try_binary::<BINARY_WINDOW>(bytes),
        _ => Attempt::Fails,
    }
}

/// The outcome, the place, and how many bytes the frame has: all that `find` promises but for the part itself.
// Its tuple is that of `find` but for the part, and its clauses repeat those of `find`, which then follow without a proof; taking the part here would ask for one at each exit.
fn locate(received: &[u8]) -> (Outcome, usize, usize)
    ensures outcome { result.0 ≡ (found received.now).0 }
    ensures place { result.1 ≡ (found received.now).1 }
    ensures frame { take result.2 (drop result.1 received.now) ≡ (found received.now).2 }
    ensures first { First received.now (result.0, result.1, take result.2 (drop result.1 received.now)) }
    ensures within { result.1 + result.2 ≤ length received.now }
    ensures filled { result.0 ≡ Outcome.Frame → 0 < result.2 }
    ensures few { (result.0 ≢ Outcome.Frame) → length received.now < result.1 + 138 }
    ensures laws { Laws }
{
    // Counted by hand, because it is what is told: of the bytes left it would have to be reckoned back.
    let mut place = 0;
    while place < received.len() {
        match try_here(&received[place..]) {
            Attempt::Ends(n) => return (Outcome::Frame, place, n),
            Attempt::Restarts(n) => place += n,
            Attempt::Fails => place += 1,
            Attempt::Open => return (Outcome::More, place, 0),
        }
    }
    (Outcome::None, place, 0)
}

/// The first frame in the received bytes: the outcome, the place of its first byte, and the frame as a part of them.
///
/// With `More` the place is where the unfinished attempt starts, with `None` it is the number of bytes; the frame is
/// then empty, and whoever waits for more bytes needs to keep only those from the place on.
// By the project's rule one plain tuple, in no `Option` and no enum: a place is told in each case.
pub fn find(received: &[u8]) -> (Outcome, usize, &[u8])
    ensures outcome { result.0 ≡ (found received.now).0 }
    ensures place { result.1 ≡ (found received.now).1 }
    ensures frame { result.2.now ≡ (found received.now).2 }
    ensures first { First received.now (result.0, result.1, result.2.now) }
    ensures within { result.1 + length result.2.now ≤ length received.now }
    ensures filled { result.0 ≡ Outcome.Frame → 0 < length result.2.now }
    ensures few { (result.0 ≢ Outcome.Frame) → length received.now < result.1 + 138 }
    ensures laws { Laws }
{
    let (outcome, place, size) = locate(received);
    (outcome, place, &received[place..place + size])
}

#[cfg(test)]
mod tests {
    use super::*;
    use std::process::Abort;

    fn expect(rt: &impl Abort, received: &[u8], outcome: Outcome, place: usize, frame: &[u8]) {
        let (told, at, part) = find(received);
        assert_eq!(rt; told, outcome);
        assert_eq!(rt; at, place);
        assert_eq!(rt; part, frame);
    }

    #[test]
    fn few_bytes(rt: HostRuntime) {
        let cases: [(&[u8], Outcome, usize, &[u8]); 9] = [
            (&[], Outcome::None, 0, &[]),
            (&[0x41, 0x0D, 0x0A], Outcome::None, 3, &[]),
            (b":0103\r\n:", Outcome::Frame, 0, b":0103\r\n"),
            (&[0x02, 0x3A, 0x0A], Outcome::Frame, 1, &[0x3A, 0x0A]),
            (&[0x41, 0x10], Outcome::More, 1, &[]),
            (&[0x10, 0x41], Outcome::None, 2, &[]),
            (&[0x10, 0x02, 0x10, 0x10, 0x03], Outcome::More, 0, &[]),
            (
                &[0x10, 0x02, 0x3A, 0x10, 0x05, 0x0A],
                Outcome::Frame,
                2,
                &[0x3A, 0x10, 0x05, 0x0A],
            ),
            (
                &[0x10, 0x02, 0x3A, 0x10, 0x02, 0x10, 0x03, 0x0A],
                Outcome::Frame,
                3,
                &[0x10, 0x02, 0x10, 0x03],
            ),
        ];
        for (received, outcome, place, frame) in cases {
            expect(&rt, received, outcome, place, frame);
        }
    }

    #[test]
    fn ascii_window(rt: HostRuntime) {
        let mut bytes = [0x41; 136];
        bytes[0] = 0x3A;
        expect(&rt, &bytes[0..134], Outcome::More, 0, &[]);
        expect(&rt, &bytes[0..135], Outcome::None, 135, &[]);
        bytes[134] = 0x0A;
        expect(&rt, &bytes, Outcome::Frame, 0, &bytes[0..135]);
        bytes[134] = 0x41;
        bytes[135] = 0x0A;
        expect(&rt, &bytes, Outcome::None, 136, &[]);
    }

    // The 3A at place 50 shows whether the bytes inside the attempt are tried.
    #[test]
    fn binary_window(rt: HostRuntime) {
        let mut bytes = [0x41; 139];
        bytes[0] = 0x10;
        bytes[1] = 0x02;
        bytes[50] = 0x3A;
        expect(&rt, &bytes[0..137], Outcome::More, 0, &[]);
        expect(&rt, &bytes[0..138], Outcome::More, 50, &[]);
        bytes[136] = 0x10;
        expect(&rt, &bytes[0..137], Outcome::More, 0, &[]);
        bytes[137] = 0x03;
        expect(&rt, &bytes, Outcome::Frame, 0, &bytes[0..138]);
        bytes[137] = 0x02;
        expect(&rt, &bytes, Outcome::More, 136, &[]);
        bytes[136] = 0x41;
        bytes[137] = 0x10;
        bytes[138] = 0x02;
        expect(&rt, &bytes, Outcome::More, 50, &[]);
        bytes[138] = 0x03;
        expect(&rt, &bytes, Outcome::More, 50, &[]);
    }
}
