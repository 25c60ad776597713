// What every store refuses before it looks at its values.
ghost use Rattle.std.specs.Prelude.{◌≡◌, ◌<◌, cond, false, true, length, nat_lt, MatchResult, OnOk};
ghost use Rattle.value.specs.Values.{bytes_of};
ghost use Rattle.store.specs.Held.{accepts};

use crate::{AskRefusal, KeepRefusal, ROWS};
use value::{MAX_LEN, Value};

/// The value to keep for a row, refused by 7 if the row is over 127 or the bytes over 24.
pub(crate) fn check_keep(row: usize, bytes: &[u8]) -> Result<Value, KeepRefusal>
    ensures cases { MatchResult result (λ v. (accepts row bytes.now ≡ true) × (bytes_of v ≡ bytes.now)) (λ e. accepts row bytes.now ≡ false) }
    ensures low { OnOk result (row < 128) }
{
    if row >= ROWS {
        return Err(KeepRefusal::OutOfBounds);
    }
    Value::new(bytes).ok_or(KeepRefusal::OutOfBounds)
}

/// Refuses by 1 a buffer shorter than 24 bytes, then by 7 a row over 127.
pub(crate) fn check_ask(row: usize, buffer: &[u8]) -> Result<(), AskRefusal>
    ensures { result ≡ cond (nat_lt (length buffer.now) 24) (Err AskRefusal.ShortBuffer) (cond (nat_lt row 128) (Ok tt) (Err AskRefusal.OutOfBounds)) }
{
    if buffer.len() < MAX_LEN {
        return Err(AskRefusal::ShortBuffer);
    }
    if row >= ROWS {
        return Err(AskRefusal::OutOfBounds);
    }
    Ok(())
}
