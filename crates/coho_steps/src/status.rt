ghost use Rattle.std.specs.Prelude.{◌≡◌};
ghost use Rattle.coho_steps.specs.Statuses.{status_code};

/// How a run ended.
#[derive(Clone, Copy, Debug, PartialEq, Eq)]
pub enum Status {
    /// The whole answer was written.
    Answered,
    /// The text has a fault.
    Text,
    /// The words are not those of a command.
    Usage,
    /// A consistency test is false.
    Inconsistent,
    /// A limit is passed.
    Limit,
    /// A read failed.
    Read,
    /// A write failed.
    Write,
    /// A stage file is refused.
    Stage,
    /// Want of memory.
    Memory,
}

impl Status {
    /// The number that the program ends with, from 0 to 8.
    pub fn code(self) -> u8
        ensures { result ≡ status_code self }
    {
        self as u8
    }
}
