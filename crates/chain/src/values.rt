// Values and lengths as they stand in a chain.
ghost use Rattle.std.specs.Prelude.{◌≡◌, ◌==◌};
ghost use Rattle.std.specs.List.{position};
ghost use Rattle.chain.specs.Cursors.{Passes, rest, Tells};
ghost use Rattle.chain.specs.Values.{length_at, length_byte_at, number_at, open_at, text_at, type_bits, value_at};

use crate::cursor::Cursor;
use crate::fault::RackFault;
use number::Number;
use table::{Kind, Row};
use value::MAX_LEN;

/// The type bits of a row's kind in a parameter or index byte.
pub(crate) fn type_bits(kind: Kind) -> u8
    ensures { result ≡ type_bits kind }
{
    match kind {
        Kind::Char(_) => 0x00,
        Kind::Integer(_) => 0x20,
        Kind::Long(_) | Kind::Float(_) => 0x40,
        Kind::Text { .. } | Kind::OpenText => 0x60,
    }
}

// A number of `width` bytes that the row admits.
fn number_value<'a>(
    row: &Row,
    width: usize,
    cursor: Cursor<'a>,
) -> Result<(&'a [u8], Cursor<'a>), RackFault>
    ensures { Tells (λ v. v.now) cursor.entry result (number_at row.now.kind width cursor.entry.at (rest cursor.entry)) }
{
    let Some((value, behind)) = cursor.take(width) else {
        return Err(cursor.missing());
    };
    if !row.admits(value) {
        return Err(RackFault::BadValue { index: cursor.at() });
    }
    Ok((value, behind))
}

// A text of `size` bytes behind its length.
fn text_value<'a>(size: u8, cursor: Cursor<'a>) -> Result<(&'a [u8], Cursor<'a>), RackFault>
    ensures { Tells (λ v. v.now) cursor.entry result (text_at size cursor.entry.at (rest cursor.entry)) }
{
    let Some((length, text)) = cursor.next() else {
        return Err(cursor.missing());
    };
    if length != size {
        return Err(RackFault::BadValue { index: cursor.at() });
    }
    let Some(taken) = text.take(usize::from(size)) else {
        return Err(text.missing());
    };
    Ok(taken)
}

// The index of the first 00.
fn first_zero(bytes: &[u8]) -> Option<usize>
    ensures { result ≡ position (λ b. b == 0) bytes.now }
{
    bytes.iter().position(|byte| *byte == 0)
}

// A text between 00 and 00.
fn open_value<'a>(cursor: Cursor<'a>) -> Result<(&'a [u8], Cursor<'a>), RackFault>
    ensures { Tells (λ v. v.now) cursor.entry result (open_at cursor.entry.at (rest cursor.entry)) }
{
    let Some((length, text)) = cursor.next() else {
        return Err(cursor.missing());
    };
    if length != 0 {
        return Err(RackFault::BadValue { index: cursor.at() });
    }
    let bytes = text.rest();
    let size = first_zero(bytes).unwrap_or(bytes.len());
    if size > MAX_LEN {
        return Err(RackFault::BadValue { index: cursor.at() });
    }
    let Some((ended, behind)) = text.take(size + 1) else {
        return Err(text.missing());
    };
    Ok((&ended[..size], behind))
}

/// The value that stands next for the row.
pub(crate) fn value_at<'a>(
    row: &Row,
    cursor: Cursor<'a>,
) -> Result<(&'a [u8], Cursor<'a>), RackFault>
    ensures { Tells (λ v. v.now) cursor.entry result (value_at row.now.kind cursor.entry.at (rest cursor.entry)) }
{
    match row.kind {
        Kind::Char(_) => number_value(row, u8::width(), cursor),
        Kind::Integer(_) => number_value(row, u16::width(), cursor),
        Kind::Long(_) => number_value(row, u32::width(), cursor),
        Kind::Float(_) => number_value(row, f32::width(), cursor),
        Kind::Text { len } => text_value(len, cursor),
        Kind::OpenText => open_value(cursor),
    }
}

// The place behind the length byte of a text that is read.
fn length_byte_at<'a>(size: u8, cursor: Cursor<'a>) -> Result<Cursor<'a>, RackFault>
    ensures { Passes cursor.entry result (length_byte_at size cursor.entry.at (rest cursor.entry)) }
{
    let Some((length, behind)) = cursor.next() else {
        return Err(cursor.missing());
    };
    if length != size {
        return Err(RackFault::BadLength { index: cursor.at() });
    }
    Ok(behind)
}

/// The place behind the length that stands next for a row that is read.
pub(crate) fn length_at<'a>(kind: Kind, cursor: Cursor<'a>) -> Result<Cursor<'a>, RackFault>
    ensures { Passes cursor.entry result (length_at kind cursor.entry.at (rest cursor.entry)) }
{
    match kind {
        Kind::Char(_) | Kind::Integer(_) | Kind::Long(_) | Kind::Float(_) => Ok(cursor),
        Kind::Text { len } => length_byte_at(len, cursor),
        Kind::OpenText => length_byte_at(0, cursor),
    }
}
