// Why a stream is refused, and what is expected where no single kind is.
#![tactic(auto)]

ghost use Rattle.std.specs.Prelude.{◌≡◌};
ghost use Rattle.stream.specs.Refusals.{fault_number, expected_code};

#[derive(Clone, Copy, PartialEq, Eq, Debug)]
pub enum Fault {
    // A token stands where another is expected.
    Unexpected = 1,
    // The stream ends too early, or tokens are left over.
    EndOfStream,
    // What is assigned to is no variable.
    NoTarget,
    // An expression stands where a statement is expected.
    NoStatement,
    // More levels are asked for than there are.
    TooDeep,
    // The stream is not well formed.
    Malformed,
    // The tree does not fit.
    NoRoom,
    // The readings differ.
    Quarrel,
}

impl Fault {
    // The number of the answer that tells it.
    pub fn number(self) -> u64
        ensures { result ≡ fault_number self }
    {
        self as u64
    }
}

// A kind is expected as one more than itself, so these begin where the kinds of tokens end.
#[derive(Clone, Copy, PartialEq, Eq, Debug)]
pub enum Expected {
    Name = 60,
    Primary,
    Arguments,
    Parameter,
    ForClause,
}

impl Expected {
    // The code that an answer tells it by.
    pub fn code(self) -> u64
        ensures { result ≡ expected_code self }
    {
        self as u64
    }
}
