// char: one byte.
ghost use Rattle.number.specs.Numbers.{char as char_kind};
ghost use Rattle.number.specs.KindLaws.{char_laws, nat_ordered};

use crate::Number;
use value::Value;

impl Number for u8 {
    ghost kind = { char_kind };

    ghost lawful = { char_laws };

    ghost ordered = { nat_ordered };

    fn width() -> usize {
        1
    }

    fn read(bytes: &[u8]) -> Option<u8> {
        match bytes {
            [a] => Some(*a),
            _ => None,
        }
    }

    fn write(self) -> Option<Value> {
        Value::new(&[self])
    }
}
