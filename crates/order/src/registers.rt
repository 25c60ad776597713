//! Registers that are read, written and copied: calls to which the theorem on order applies.
ghost use Rattle.std.specs.Prelude.{◌≡◌, ◌++◌, None, Ok, ok_or};
ghost use Rattle.std.specs.List.{slice_get};
ghost use Rattle.std.specs.Result.{result_and};
ghost use Rattle.order.specs.Fades.{haze, fog, mixed, crossed};
ghost use Rattle.order.specs.Registers.{answered, left, missing, register_calls, Retagged, SameAnswer};
ghost use Rattle.order.specs.Reordering.{Rearranged, Reorderable};
ghost use Rattle.order.specs.declared.registers.Ask.TheVariants.{Read, Write, Copy};

use crate::{Recast, Same, mixing_stands, reordering_stands};

/// What a call asks for. A register is named by its place, from 0; a place past the last register names a missing one.
#[derive(Clone, Copy)]
pub enum Ask {
    /// The value of a register.
    Read(usize),
    /// A register is to have this value.
    Write(usize, u32),
    /// The second register is to have the value of the first.
    Copy(usize, usize),
}

/// A call on registers, under the tag of the desk that makes it.
#[derive(Clone, Copy)]
pub struct Call {
    /// Who asks; it comes back with the outcome and changes nothing else.
    pub tag: u8,
    /// What is asked.
    pub ask: Ask,
}

/// A register that a call names is missing, and nothing has changed.
#[derive(Clone, Copy, PartialEq, Eq, Debug)]
pub struct Missing;

/// The outcome of a call: an answer, under the tag of the call.
#[derive(Clone, Copy, PartialEq, Eq, Debug)]
pub struct Outcome {
    /// The tag of the call.
    pub tag: u8,
    /// What is answered: the value that was read, or no value where a write or a copy is done.
    pub answer: Result<Option<u32>, Missing>,
}

/// A call is recast when it asks for the same, under any tag.
impl Recast for Call {
    ghost recast = { Retagged };
}

/// Two outcomes are the same when they have the same answer, under any tags.
impl Same for Outcome {
    ghost same = { SameAnswer };
}

/// Makes one call on the registers and gives its outcome. A call that names a missing register is answered `Missing` and changes
/// nothing.
pub fn make(registers: &mut [u32], call: Call) -> Outcome
    ensures outcome { result ≡ register_calls.outcome call registers.old }
    ensures after { registers.new ≡ register_calls.after call registers.old }
{
    // What is asked is data that a desk sends, so that no step can be handed in for it.
    let answer = match call.ask {
        Ask::Read(row) => read(registers, row).map(Some),
        Ask::Write(row, value) => write(registers, row, value).map(|()| None),
        Ask::Copy(from, to) => copy(registers, from, to).map(|()| None),
    };
    Outcome {
        tag: call.tag,
        answer,
    }
}

/// The theorem on order at these calls: any list of them may be rearranged, and its calls retagged, where those that meet keep
/// their order; each call then has the same answer as before, and every register ends with the same value.
pub fn order_stands() -> u8
    ensures { Reorderable register_calls Retagged SameAnswer }
{
    // To a proof an array is the list of its values, whatever its length, and so is what `make` works on.
    reordering_stands::<Call, Outcome, Option<u32>, [u32; 3]>()
}

/// Two fades on two registers may mix: mixed, and one of them sent by another desk, they are the same two fades one after the
/// other, rearranged. Calls that meet may not cross: where the fog is read back before its last step, they are not.
pub fn fades_mix() -> u8
    ensures mixes { Rearranged register_calls Retagged (haze ++ fog) mixed }
    ensures crosses { Rearranged register_calls Retagged (haze ++ fog) crossed → ⊥ }
{
    mixing_stands::<Call, Outcome, Option<u32>, [u32; 3]>()
}

/// The value of a register.
fn read(registers: &[u32], row: usize) -> Result<u32, Missing>
    ensures { result ≡ ok_or (slice_get registers.now row) missing }
{
    registers.get(row).copied().ok_or(Missing)
}

/// Gives a register a value.
fn write(registers: &mut [u32], row: usize, value: u32) -> Result<(), Missing>
    ensures answer { result_and result (Ok None) ≡ answered (Write row value) registers.old }
    ensures after { registers.new ≡ left (Write row value) registers.old }
{
    // Not by `get_mut`: of a slice it tells no proof what stands there after the write.
    if row >= registers.len() {
        return Err(Missing);
    }
    registers[row] = value;
    Ok(())
}

/// Gives the register `to` the value of the register `from`.
fn copy(registers: &mut [u32], from: usize, to: usize) -> Result<(), Missing>
    ensures answer { result_and result (Ok None) ≡ answered (Copy from to) registers.old }
    ensures after { registers.new ≡ left (Copy from to) registers.old }
{
    let value = read(registers, from)?;
    write(registers, to, value)
}

#[cfg(test)]
mod tests {
    use super::*;

    fn by(tag: u8, ask: Ask) -> Call {
        Call { tag, ask }
    }

    #[test]
    fn calls(rt: HostRuntime) {
        let cases = [
            (Ask::Read(1), Ok(Some(20)), [10, 20, 30]),
            (Ask::Read(3), Err(Missing), [10, 20, 30]),
            (Ask::Write(0, 7), Ok(None), [7, 20, 30]),
            (Ask::Write(3, 7), Err(Missing), [10, 20, 30]),
            (Ask::Copy(0, 2), Ok(None), [10, 20, 10]),
            (Ask::Copy(3, 0), Err(Missing), [10, 20, 30]),
            (Ask::Copy(0, 3), Err(Missing), [10, 20, 30]),
        ];
        for (ask, answer, after) in cases {
            let mut registers = [10, 20, 30];
            let outcome = make(&mut registers, by(5, ask));
            assert_eq!(rt; outcome, Outcome { tag: 5, answer });
            assert_eq!(rt; registers, after);
        }
    }

    // Makes the calls one after the other; the value that was read last.
    fn run(registers: &mut [u32], calls: &[Call]) -> Option<u32> {
        let mut read = None;
        for call in calls {
            if let Ok(Some(value)) = make(registers, *call).answer {
                read = Some(value);
            }
        }
        read
    }

    #[test]
    fn fades(rt: HostRuntime) {
        let haze = [
            by(1, Ask::Write(1, 10)),
            by(1, Ask::Write(1, 20)),
            by(1, Ask::Write(1, 30)),
        ];
        let fog = [
            by(2, Ask::Write(2, 200)),
            by(2, Ask::Write(2, 100)),
            by(2, Ask::Read(2)),
        ];
        let cases = [
            ([haze[0], haze[1], haze[2], fog[0], fog[1], fog[2]], 100),
            ([fog[0], haze[0], haze[1], fog[1], fog[2], haze[2]], 100),
            ([fog[0], haze[0], haze[1], fog[2], fog[1], haze[2]], 200),
        ];
        for (calls, read) in cases {
            let mut registers = [0; 3];
            assert_eq!(rt; run(&mut registers, &calls), Some(read));
            assert_eq!(rt; registers, [0, 30, 100]);
        }
    }
}
