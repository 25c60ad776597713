// Putting the answer to a read together.
ghost use Rattle.std.specs.Prelude.{◌≡◌, ℕ, ◌+◌, ◌≤◌, not, List, [], ◌∷◌, ◌++◌, length, nat_lt};
ghost use Rattle.chain.specs.Answers.{answered, put_answer, put_bytes};
ghost use Rattle.chain.specs.Built.{built};
ghost use Rattle.chain.specs.Items.{group_byte};
ghost use Rattle.chain.specs.Values.{in_chain};

use crate::answer::ReadAnswer;
use crate::fault::ChainFault;
use crate::item::Query;
use line::message::MAX_DATA;
use table::Kind;

/// The command of a read's answer.
const ANSWERED: u8 = 0x02;

// How many bytes a value of the kind has in a chain beside its own.
fn extra_bytes(kind: Kind) -> usize
    ensures value { (v : List ℕ) → length (in_chain kind v) ≡ result + length v }
    ensures bound { result ≤ 2 }
{
    match kind {
        Kind::Char(_) | Kind::Integer(_) | Kind::Long(_) | Kind::Float(_) => 0,
        Kind::Text { .. } => 1,
        Kind::OpenText => 2,
    }
}

// How many bytes an item repeats: its index byte, and its group's if there is one.
fn repeated_bytes(group: Option<u8>) -> usize
    ensures value { result ≡ length (group_byte group) + 1 }
    ensures bound { result ≤ 2 }
{
    group.as_slice().len() + 1
}

impl ReadAnswer {
    /// An answer with no item yet: the command 02.
    pub fn new() -> ReadAnswer
        ensures { built result ≡ 2 ∷ [] }
    {
        let mut bytes = [0; MAX_DATA];
        bytes[0] = ANSWERED;
        ReadAnswer { bytes, len: 1 }
    }

    /// The data bytes as far as they are put together.
    pub fn as_slice(&self) -> &[u8]
        ensures value { result.now ≡ built self.now }
        ensures bound { length result.now ≤ 64 }
    {
        &self.bytes[..self.len]
    }

    /// Puts a row's value behind the others: the group's byte at the first item of a group, the index byte, and the value, text
    /// as it stands in a write. Refused by status 1C at the item's index byte if the answer would then pass 64 bytes; it stays
    /// as it was then.
    pub fn put(&mut self, query: Query, kind: Kind, value: &[u8]) -> Result<(), ChainFault>
        ensures answer { result ≡ put_answer query kind value.now (built self.old) }
        ensures after { built self.new ≡ put_bytes query kind value.now (built self.old) }
    {
        if !self.has_room(query, kind, value) {
            return Err(ChainFault::AnswerTooLong { index: query.place });
        }
        self.append(query.group.as_slice());
        self.append(&[query.index]);
        self.append_value(kind, value);
        Ok(())
    }

    // Whether the answer stays within 64 bytes with a row's value more.
    // Kind and value are two, since the table gives the one and a store the other.
    fn has_room(&self, query: Query, kind: Kind, value: &[u8]) -> bool
        ensures { result ≡ not (nat_lt 64 (length (built self.now ++ answered query kind value.now))) }
    {
        // A longer value does not fit whatever else there is, and the sum must not wrap.
        let own = value.len().min(MAX_DATA + 1);
        repeated_bytes(query.group) + extra_bytes(kind) + own <= MAX_DATA - self.len
    }

    // Puts bytes behind the others.
    fn append(&mut self, more: &[u8])
        requires { length (built self.old) + length more.now ≤ 64 }
        ensures { built self.new ≡ built self.old ++ more.now }
    {
        let end = self.len + more.len();
        self.bytes[self.len..end].copy_from_slice(more);
        self.len = end;
    }

    // Puts a value behind the others, text as it stands in a write.
    fn append_value(&mut self, kind: Kind, value: &[u8])
        requires { length (built self.old) + length (in_chain kind value.now) ≤ 64 }
        ensures { built self.new ≡ built self.old ++ in_chain kind value.now }
    {
        match kind {
            Kind::Text { len } => {
                self.append(&[len]);
                self.append(value);
            }
            Kind::OpenText => {
                self.append(&[0]);
                self.append(value);
                self.append(&[0]);
            }
            _ => self.append(value),
        }
    }
}
