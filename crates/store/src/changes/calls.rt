// Making, keeping and asking, in time linear in the list.
ghost use Rattle.std.specs.Prelude.{◌≡◌, ◌<◌, [], ◌∷◌, ◌++◌, length, take, IfOk, OnOk};
ghost use Rattle.arrayvec.specs.ArrayVec.{array_vec_len};
ghost use Rattle.store.specs.ChangeList.{LeavesRoom, NewestCounts, list_after, with_room};
ghost use Rattle.store.specs.ChangesHeld.{changes_held, entry_of, list_of};
ghost use Rattle.store.specs.Held.{ask_answer, buffer_after, empty_rows, held_after, keep_answer};
ghost use Rattle.store.specs.Meaning.{changes_sound};

use super::change::Change;
use super::{Changes, list};
use crate::bounds::{check_ask, check_keep};
use crate::output::write_value;
use crate::{AskRefusal, KeepRefusal, Store};
use arrayvec::ArrayVec;

impl Changes {
    /// A store without a change: 128 values of 0 bytes.
    pub fn new() -> Changes
        ensures held { changes_held result ≡ empty_rows }
        ensures list { list_of result ≡ [] }
    {
        Changes {
            entries: ArrayVec::new(),
        }
    }

    /// Drops the outlived changes if the list is full, so that a place is free: of 192 changes at most 128 are the newest for their row.
    fn make_room(&mut self)
        ensures list { list_of self.new ≡ with_room (list_of self.old) }
        ensures room { array_vec_len self.new.entries < 192 }
    {
        if self.entries.is_full() {
            list::compact(&mut self.entries);
        }
    }

    /// Adds a change as the newest of the list.
    fn add(&mut self, change: Change)
        ensures { list_of self.new ≡ with_room (list_of self.old) ++ (entry_of change ∷ []) }
    {
        self.make_room();
        self.entries.push(change);
    }
}

/// Keeping adds a change, and asking looks for the newest one.
impl Store for Changes {
    ghost held = { changes_held };

    ghost sound = { λ s. changes_sound s.entries.items };

    // Beyond what every store promises: what the list holds then, and that a keep in a full list leaves 63 places free.
    fn keep(&mut self, row: usize, value: &[u8]) -> Result<(), KeepRefusal>
        ensures answer { result ≡ keep_answer row value.now }
        ensures after { changes_held self.new ≡ held_after (changes_held self.old) row value.now }
        ensures list { list_of self.new ≡ list_after (list_of self.old) row value.now }
        ensures room { OnOk result (LeavesRoom (list_of self.old) (list_of self.new)) }
    {
        let value = check_keep(row, value)?;
        self.add(Change {
            row: row as u8,
            value,
        });
        Ok(())
    }

    // Beyond what every store promises: the bytes written are the value of the row's newest change, or none without one.
    fn ask(&self, row: usize, buffer: &mut [u8]) -> Result<usize, AskRefusal>
        ensures answer { result ≡ ask_answer (changes_held self.now) row (length buffer.old) }
        ensures after { buffer.new ≡ buffer_after (changes_held self.now) row buffer.old }
        ensures newest { IfOk result (λ n. NewestCounts row (take n buffer.new) (list_of self.now)) }
    {
        check_ask(row, buffer)?;
        let value = list::latest(&self.entries, row);
        Ok(write_value(&value, buffer))
    }
}
