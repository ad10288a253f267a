//! How the program ends.

ghost use Rattle.std.specs.Prelude.{◌≡◌};
ghost use Rattle.sdg_top.specs.Codes.{code_of};

/// How the program ended: with its answer, or why not.
#[derive(Clone, Copy, Debug, PartialEq, Eq)]
pub enum Status {
    /// Every call has its result.
    Done,
    /// The words are no command.
    Words,
    /// The class was refused.
    Class,
    /// A line of a text was refused.
    Text,
    /// A call has no result at the end.
    Unfinished,
    /// A file could not be read.
    Read,
    /// Standard output could not be written.
    Write,
    /// There was no memory left.
    Memory,
    /// A file has more bytes than its limit.
    TooLong,
}

impl Status {
    /// The number with which the process ends, from 0 to 8.
    pub fn code(self) -> u8
        ensures { result ≡ code_of self }
    {
        self as u8
    }
}
