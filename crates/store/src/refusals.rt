// Why a store refuses.
ghost use Rattle.std.specs.Prelude.{◌≡◌};
ghost use Rattle.store.specs.Refusals.{ask_number, keep_number};

/// Why a store does not keep a value.
#[derive(Clone, Copy, PartialEq, Eq, Debug)]
pub enum KeepRefusal {
    /// The row is over 127 or the value over 24 bytes.
    OutOfBounds = 7,
}

impl KeepRefusal {
    /// The number of the refusal: 7.
    pub fn number(self) -> u8
        ensures { result ≡ keep_number self }
    {
        // Each casts its own: a cast is no operation of a trait.
        self as u8
    }
}

/// Why a store does not answer with a value.
#[derive(Clone, Copy, PartialEq, Eq, Debug)]
pub enum AskRefusal {
    /// The buffer is shorter than 24 bytes.
    ShortBuffer = 1,
    /// The row is over 127.
    OutOfBounds = 7,
}

impl AskRefusal {
    /// The number of the refusal: 1 or 7.
    pub fn number(self) -> u8
        ensures { result ≡ ask_number self }
    {
        self as u8
    }
}
