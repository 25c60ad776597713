// Making, keeping and asking, in constant time.
ghost use Rattle.std.specs.Prelude.{◌≡◌};
ghost use Rattle.store.specs.CellsHeld.{cells_held};
ghost use Rattle.store.specs.Held.{empty_rows};
ghost use Rattle.store.specs.Meaning.{cells_sound};

use crate::bounds::{check_ask, check_keep};
use crate::cells::Cells;
use crate::output::write_value;
use crate::{AskRefusal, KeepRefusal, ROWS, Store};
use value::Value;

impl Cells {
    /// A store of 128 values of 0 bytes.
    pub fn new() -> Cells
        ensures { cells_held result ≡ empty_rows }
    {
        Cells {
            cells: [Value::empty(); ROWS],
        }
    }
}

/// Keeping and asking go straight to the row's cell.
impl Store for Cells {
    ghost held = { cells_held };

    ghost sound = { λ s. cells_sound s.cells s.sized };

    #[tactic(auto, using(crate::proofs::Lists::cell_kept))]
    fn keep(&mut self, row: usize, value: &[u8]) -> Result<(), KeepRefusal> {
        let value = check_keep(row, value)?;
        self.cells[row] = value;
        Ok(())
    }

    fn ask(&self, row: usize, buffer: &mut [u8]) -> Result<usize, AskRefusal> {
        check_ask(row, buffer)?;
        Ok(write_value(&self.cells[row], buffer))
    }
}
