// One change.
ghost use Rattle.std.specs.Prelude.{◌<◌};

use value::Value;

/// A change: a row, and the value that was kept for it.
#[derive(Clone, Copy)]
pub(super) struct Change {
    pub(super) row: u8,
    pub(super) value: Value,
    ghost low: { row < 128 },
}

/// What stands in the unused places of a list.
// Written out: a struct with a ghost field has no derived `Default`.
impl Default for Change {
    fn default() -> Change {
        Change {
            row: 0,
            value: Value::empty(),
        }
    }
}
