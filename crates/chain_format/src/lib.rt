//! The format of a chain: which bytes are a chain of writes or reads, and which items they are. The crate `chain` goes through a
//! chain byte by byte; here the same is said of the chain as a whole, as someone who lays one down would say it.
//!
//! `specs/Groups.antt` has groups of entries and the bytes that they are laid down in, `specs/Entries.antt` the entries of writes,
//! of reads and of answers, and `specs/Format.antt` the statements. The functions here do nothing: each has statements for its
//! contract, so that they are proved.
#![tactic(auto)]

ghost use Rattle.chain_format.specs.Format.{WritesTakenApart, WritesLaidDown, ReadsTakenApart, ReadsLaidDown, ReadsAnswered};

/// A chain of writes that is laid down by the format is taken apart into its items, and nothing else is taken without a refusal.
pub fn writes_follow_the_format() -> u8
    ensures apart { WritesTakenApart }
    ensures only { WritesLaidDown }
{
    0
}

/// A chain of reads that is laid down by the format is taken apart into its items, nothing else is taken without a refusal, and
/// the answer repeats the chain with the values in it.
pub fn reads_follow_the_format() -> u8
    ensures apart { ReadsTakenApart }
    ensures only { ReadsLaidDown }
    ensures answered { ReadsAnswered }
{
    0
}
