// Why a table does not take a row or a limit.
ghost use Rattle.std.specs.Prelude.{◌≡◌};
ghost use Rattle.table.specs.Refusals.{add_number, limit_number};

/// Why a row is not added.
#[derive(Clone, Copy, PartialEq, Eq, Debug)]
pub enum AddRefusal {
    /// The row is against the rules.
    AgainstRules = 2,
    /// A row with its process and parameter stands.
    PairTaken = 3,
    /// 128 rows stand.
    TableFull = 4,
    /// Its default would take its feed over the limit.
    OverLimit = 6,
}

/// Why a feed's limit is not set.
#[derive(Clone, Copy, PartialEq, Eq, Debug)]
pub enum LimitRefusal {
    /// The feed is not 1 to 8, or the limit is over 1,000,000.
    OutOfRange = 5,
    /// The defaults draw more.
    BelowDraw = 6,
}

impl AddRefusal {
    /// The number of the refusal: 2, 3, 4 or 6.
    pub fn number(self) -> u8
        ensures { result ≡ add_number self }
    {
        // Each casts its own: a cast is no operation of a trait.
        self as u8
    }
}

impl LimitRefusal {
    /// The number of the refusal: 5 or 6.
    pub fn number(self) -> u8
        ensures { result ≡ limit_number self }
    {
        self as u8
    }
}
