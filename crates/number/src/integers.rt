// integer: two bytes, the highest first.
ghost use Rattle.number.specs.Numbers.{integer};
ghost use Rattle.number.specs.KindLaws.{integer_laws, nat_ordered};

use crate::Number;
use value::Value;

impl Number for u16 {
    ghost kind = { integer };

    ghost lawful = { integer_laws };

    ghost ordered = { nat_ordered };

    fn width() -> usize {
        2
    }

    fn read(bytes: &[u8]) -> Option<u16> {
        Some(u16::from_be_bytes(bytes.try_into().ok()?))
    }

    fn write(self) -> Option<Value> {
        Value::new(&self.to_be_bytes())
    }
}
