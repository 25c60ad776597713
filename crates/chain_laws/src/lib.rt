//! What holds of every chain, whatever its bytes and the table. The functions here do nothing: each has a statement for its
//! contract, so that it is proved.
#![tactic(auto)]

ghost use Rattle.chain_laws.specs.Answers.{AnswersAreBytes, AnswersLieOver};
ghost use Rattle.chain_laws.specs.Checks.{ChecksStand};
ghost use Rattle.chain_laws.specs.Kept.{LastCounts};
ghost use Rattle.chain_laws.specs.Locks.{LocksLieOver};
ghost use Rattle.chain_laws.specs.Places.{PlacesLieInside};
ghost use Rattle.chain_laws.specs.Rows.{RowsFoundStand};

/// The places that the reading of a chain tells, and that of what refuses an answer, lie in the data.
pub fn places_stand() -> u8
    ensures { PlacesLieInside }
{
    0
}

/// The rows that the reading of a chain finds are rows of the table. Its items are for them and granted by them, and their values are
/// such as a store keeps.
pub fn rows_stand() -> u8
    ensures { RowsFoundStand }
{
    0
}

/// The secured check lies over the reading that looks at the message and the table alone.
pub fn locks_stand() -> u8
    ensures { LocksLieOver }
{
    0
}

/// So does the check of an answer's length.
pub fn answers_stand() -> u8
    ensures { AnswersLieOver }
{
    0
}

/// The answer to a read is bytes.
pub fn answer_bytes_stand() -> u8
    ensures { AnswersAreBytes }
{
    0
}

/// A write keeps, for each row, the last value that its message gives it.
pub fn keeping_stands() -> u8
    ensures { LastCounts }
{
    0
}

/// Some of the checks, in plain words.
pub fn checks_stand() -> u8
    ensures { ChecksStand }
{
    0
}
