// float: the four bytes of an IEEE binary32, the highest first.
ghost use Rattle.number.specs.Numbers.{float};
ghost use Rattle.number.specs.KindLaws.{float_laws, float_ordered};

use crate::Number;
use value::Value;

impl Number for f32 {
    ghost kind = { float };

    ghost lawful = { float_laws };

    ghost ordered = { float_ordered };

    // A float has the width of a long.
    fn width() -> usize {
        u32::width()
    }

    fn read(bytes: &[u8]) -> Option<f32> {
        let x = std::num::f32_from_bits_with_nan(u32::read(bytes)?);
        (!x.is_nan()).then_some(x)
    }

    fn write(self) -> Option<Value> {
        if self.is_nan() {
            None
        } else {
            Value::new(&self.to_be_bytes())
        }
    }
}
