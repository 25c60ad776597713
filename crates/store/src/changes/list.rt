// Looking through a list of changes, and dropping the outlived ones.
ghost use Rattle.std.specs.Prelude.{◌≡◌, ◌<◌, ◌≤◌, [], length, take, replicate, slice_index_or};
ghost use Rattle.arrayvec.specs.ArrayVec.{array_vec_len};
ghost use Rattle.value.specs.Values.{bytes_of};
ghost use Rattle.store.specs.ChangeList.{newest, places_from, replay};
ghost use Rattle.store.specs.Held.{empty_rows};
ghost use Rattle.store.specs.ChangesHeld.{entries_of};

use super::PLACES;
use super::change::Change;
use crate::ROWS;
use arrayvec::ArrayVec;
use value::Value;

/// The value of the newest change for the row, or 0 bytes without one.
pub(super) fn latest(changes: &[Change], row: usize) -> Value
    requires { row < 128 }
    ensures { bytes_of result ≡ slice_index_or (replay (entries_of changes.now) empty_rows) row [] }
{
    let newest = changes
        .iter()
        .rev()
        .find(|change| usize::from(change.row) == row);
    newest.map_or(Value::empty(), |change| change.value)
}

/// The place of each row's newest change, and 0 for a row without one.
fn newest_places(changes: &[Change]) -> [usize; ROWS]
    ensures { result ≡ places_from 0 (entries_of changes.now) (replicate 128 0) }
{
    let mut places = [0; ROWS];
    for (i, change) in changes.iter().enumerate() {
        places[usize::from(change.row)] = i;
    }
    places
}

/// Moves the changes that are the newest for their row to the front, in their order, and tells how many they are.
fn newest_to_front(changes: &mut [Change]) -> usize
    ensures within { result ≤ length changes.new }
    ensures front { entries_of (take result changes.new) ≡ newest (entries_of changes.old) }
{
    let places = newest_places(changes);
    let mut count = 0;
    for i in 0..changes.len() {
        if places[usize::from(changes[i].row)] == i {
            changes[count] = changes[i];
            count += 1;
        }
    }
    count
}

/// Drops the outlived changes: those that are the newest for their row stay, in their order.
pub(super) fn compact(changes: &mut ArrayVec<Change, PLACES>)
    ensures list { entries_of changes.new.items ≡ newest (entries_of changes.old.items) }
    ensures few { array_vec_len changes.new ≤ 128 }
{
    let count = newest_to_front(changes.as_mut_slice());
    changes.truncate(count);
}
