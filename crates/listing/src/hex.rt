//! Bytes in hexadecimal.
ghost use Rattle.std.specs.Prelude.{◌≡◌, ◌*◌, ◌≤◌, length, take, IsAscii, Some};
ghost use Rattle.ascii.specs.Hex.{hexes};

use ascii::hex_pair;
use line::message::MAX_DATA;
use std::{fmt, str};

/// Bytes that print as pairs of capital hex digits.
#[derive(Clone, Copy)]
pub(crate) struct Hex<'a>(pub(crate) &'a [u8]);

/// The digits of no more bytes than a message has, from the start on.
fn hex_digits(bytes: &[u8]) -> [u8; 2 * MAX_DATA]
    requires { length bytes.now ≤ 64 }
    ensures long { length result ≡ 128 }
    ensures laid { take (2 * length bytes.now) result ≡ hexes bytes.now }
    ensures ascii { IsAscii (take (2 * length bytes.now) result) }
{
    let mut digits = [0; 2 * MAX_DATA];
    for (i, byte) in bytes.iter().enumerate() {
        let (high, low) = hex_pair(*byte);
        digits[2 * i] = high;
        digits[2 * i + 1] = low;
    }
    digits
}

impl fmt::Display for Hex<'_> {
    ghost output = { λ h. Some (hexes h.0.now) };

    // The digits of a message's data are written at once: a call of the writer for each byte takes longer than its digits.
    fn fmt<W: fmt::Write>(&self, f: &mut fmt::Formatter<W>) -> fmt::Result {
        for chunk in self.0.chunks(MAX_DATA) {
            let digits = hex_digits(chunk);
            let Ok(text) = str::from_utf8(&digits[..2 * chunk.len()]) else {
                unreachable!();
            };
            f.write_str(text)?;
        }
        Ok(())
    }
}
