// Making a value, and looking at it.
ghost use Rattle.std.specs.Prelude.{◌≡◌, ◌≤◌, [], length};
ghost use Rattle.std.specs.Option.{option_map};
ghost use Rattle.value.specs.Values.{bytes_of, value_of};

use crate::{MAX_LEN, Value};

impl Value {
    /// The value of 0 bytes.
    pub fn empty() -> Value
        ensures { bytes_of result ≡ [] }
    {
        Value {
            bytes: [0; MAX_LEN],
            len: 0,
        }
    }

    /// The value with these bytes, or `None` if they are more than 24.
    pub fn new(from: &[u8]) -> Option<Value>
        ensures { option_map bytes_of result ≡ value_of from.now }
    {
        let len = from.len();
        if len > MAX_LEN {
            return None;
        }
        let mut bytes = [0; MAX_LEN];
        bytes[..len].copy_from_slice(from);
        Some(Value {
            bytes,
            len: len as u8,
        })
    }

    /// The bytes of the value.
    pub fn as_slice(&self) -> &[u8]
        ensures value { result.now ≡ bytes_of self.now }
        ensures bound { length result.now ≤ 24 }
    {
        &self.bytes[..self.len()]
    }

    /// How many bytes the value has.
    pub fn len(&self) -> usize
        ensures value { result ≡ length (bytes_of self.now) }
        ensures bound { result ≤ 24 }
    {
        usize::from(self.len)
    }
}

#[cfg(test)]
mod tests {
    use super::*;

    #[test]
    fn at_most_24_bytes(rt: HostRuntime) {
        let bytes = b"\xff\x00abcdefghijklmnopqrstuvw";
        for len in [0usize, 1, 23, 24, 25] {
            let from = &bytes[..len];
            match Value::new(from) {
                Some(value) => {
                    assert!(rt; len <= MAX_LEN);
                    assert_eq!(rt; value.len(), len);
                    assert_eq!(rt; value.as_slice(), from);
                }
                None => assert_eq!(rt; len, 25),
            }
        }
        assert_eq!(rt; Value::empty().len(), 0);
    }
}
