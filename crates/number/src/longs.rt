// long: four bytes, the highest first.
ghost use Rattle.number.specs.Numbers.{long};
ghost use Rattle.number.specs.KindLaws.{long_laws, nat_ordered};

use crate::Number;
use value::Value;

impl Number for u32 {
    ghost kind = { long };

    ghost lawful = { long_laws };

    ghost ordered = { nat_ordered };

    fn width() -> usize {
        4
    }

    fn read(bytes: &[u8]) -> Option<u32> {
        Some(u32::from_be_bytes(bytes.try_into().ok()?))
    }

    fn write(self) -> Option<Value> {
        Value::new(&self.to_be_bytes())
    }
}
