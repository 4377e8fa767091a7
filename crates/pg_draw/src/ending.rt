//! How the program ends.

ghost use Rattle.std.specs.Prelude.{◌≡◌};
ghost use Rattle.pg_draw.specs.Ending.{number_of};

use pg_call::Fault;
use pg_picture::Lack;
use std::fmt;

/// How the program ends.
#[derive(Clone, Copy, Debug, PartialEq, Eq)]
pub enum Ending {
    /// The picture is written.
    Done,
    /// The word with this number is too much. The program's name is word 0.
    Usage(u64),
    /// A read failed.
    ReadFault,
    /// A write failed.
    WriteFault,
    /// The input has more than 2^26 bytes.
    InputLong,
    /// The line with this number is the first that is none of a journal, for this cause. The first
    /// line has number 1.
    BadLine(u64, Fault),
    /// The line with this number is the first that lacks something.
    Lacks(u64, Lack),
    OutOfMemory,
}

impl Ending {
    /// The number that the process ends with.
    pub fn number(self) -> u8
        ensures { result ≡ number_of self }
    {
        match self {
            Ending::Done => 0,
            Ending::Usage(_) => 2,
            Ending::ReadFault => 3,
            Ending::WriteFault => 4,
            Ending::InputLong => 8,
            Ending::BadLine(_, _) => 9,
            Ending::Lacks(_, _) => 9,
            Ending::OutOfMemory => 13,
        }
    }
}

impl fmt::Display for Ending {
    ghost use Rattle.std.specs.Prelude.{Some};
    ghost use Rattle.pg_draw.specs.Ending.{ending_text};

    ghost output = { λ e. Some (ending_text e) };

    fn fmt<W: fmt::Write>(&self, f: &mut fmt::Formatter<W>) -> fmt::Result {
        match self {
            Ending::Done => Ok(()),
            Ending::Usage(word) => write!(f, "usage at word {word}"),
            Ending::ReadFault => write!(f, "read fault"),
            Ending::WriteFault => write!(f, "write fault"),
            Ending::InputLong => write!(f, "input too long"),
            Ending::BadLine(line, fault) => write!(f, "line {line}: {fault}"),
            Ending::Lacks(line, lack) => write!(f, "line {line}: {lack}"),
            Ending::OutOfMemory => write!(f, "out of memory"),
        }
    }
}
