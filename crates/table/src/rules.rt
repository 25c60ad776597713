// The rules of a row, what it admits, and its default.
ghost use Rattle.std.specs.Prelude.{◌≡◌};
ghost use Rattle.std.specs.Option.{option_map};
ghost use Rattle.value.specs.Values.{bytes_of};
ghost use Rattle.table.specs.Rows.{plain, is_open_text, admitted, kind_ruled, feed_ruled, keeps_rules, default_of, ReadsDefault};

use crate::lookups::feed_place;
use crate::{Kind, MAX_FLOW, Row};
use number::Number;
use value::{MAX_LEN, Value};

// Whether the bytes are an open text: 0 to 24, none of them 00.
fn is_open_text(bytes: &[u8]) -> bool
    ensures { result ≡ is_open_text bytes.now }
{
    bytes.len() <= MAX_LEN && !bytes.contains(&0)
}

impl Row {
    /// Whether the row keeps the rules of a table's rows.
    pub fn keeps_rules(&self) -> bool
        ensures { result ≡ keeps_rules (plain self.now) }
    {
        self.process <= 127
            && self.parameter <= 31
            && (self.readable || self.writable)
            && self.kind_keeps_rules()
            && self.feed_keeps_rules()
    }

    // Whether the default is one that the kind admits.
    fn kind_keeps_rules(&self) -> bool
        ensures { result ≡ kind_ruled self.now.kind (bytes_of self.now.text) }
    {
        let text = self.text.as_slice();
        // Here and below each kind of number has an arm: its range is of another type, which no or-pattern binds.
        match self.kind {
            Kind::Char(range) => range.lawful() && text.is_empty(),
            Kind::Integer(range) => range.lawful() && text.is_empty(),
            Kind::Long(range) => range.lawful() && text.is_empty(),
            Kind::Float(range) => range.lawful() && text.is_empty(),
            Kind::Text { len } => {
                (1..=MAX_LEN).contains(&text.len()) && text.len() == usize::from(len)
            }
            Kind::OpenText => is_open_text(text),
        }
    }

    // Whether the feed and the full flow go together, and with the kind.
    fn feed_keeps_rules(&self) -> bool
        ensures { result ≡ feed_ruled self.now.kind self.now.feed self.now.full_flow }
    {
        if self.feed == 0 {
            return self.full_flow == 0;
        }
        matches!(self.kind, Kind::Integer(_))
            && feed_place(self.feed).is_some()
            && (1..=MAX_FLOW).contains(&self.full_flow)
    }

    /// Whether the bytes are a value of the row: a number in its range, or a text of its shape.
    pub fn admits(&self, bytes: &[u8]) -> bool
        ensures { result ≡ admitted self.now.kind bytes.now }
    {
        match self.kind {
            Kind::Char(range) => range.admits(bytes),
            Kind::Integer(range) => range.admits(bytes),
            Kind::Long(range) => range.admits(bytes),
            Kind::Float(range) => range.admits(bytes),
            Kind::Text { len } => bytes.len() == usize::from(len),
            Kind::OpenText => is_open_text(bytes),
        }
    }

    /// The row's default as bytes, the highest byte of a number first, or `None` for a float that is not a number.
    pub fn default_value(&self) -> Option<Value>
        ensures value { option_map bytes_of result ≡ default_of (plain self.now) }
        ensures back { ReadsDefault self.now.kind }
    {
        match self.kind {
            Kind::Char(range) => range.default.write(),
            Kind::Integer(range) => range.default.write(),
            Kind::Long(range) => range.default.write(),
            Kind::Float(range) => range.default.write(),
            Kind::Text { .. } | Kind::OpenText => Some(self.text),
        }
    }
}
