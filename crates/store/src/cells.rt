// The store that has a cell for each row.
ghost use Rattle.std.specs.Prelude.{◌≡◌, length};

use crate::ROWS;
use value::Value;

mod calls;

/// A store with a cell for each row.
#[derive(Drop)]
pub struct Cells {
    cells: [Value; ROWS],
    ghost sized: { length cells ≡ 128 },
}
