//! How a command ends.

ghost use Rattle.std.specs.Prelude.{◌≡◌};
ghost use Rattle.pg_event.specs.Status.{number_of};

use pg_call::Fault;
use std::fmt;

/// How a command ends.
#[derive(Clone, Copy, Debug, PartialEq, Eq)]
pub enum Status {
    /// All is done.
    Done,
    /// The word with this number is wrong or missing. The program's name is word 0.
    Usage(u64),
    /// A read failed.
    ReadFault,
    /// A write failed.
    WriteFault,
    /// A call on the net failed.
    NetFault,
    /// A call on the disk failed.
    DiskFault,
    /// The input has more than 2^26 bytes.
    InputLong,
    /// The line with this number is the first outside the grammar, for this cause. The first line
    /// has number 1.
    BadLine(u64, Fault),
    /// The byte at this place is the first outside the grammar of a node's log.
    BadLog(u64),
    /// A server made as many takes as it was to make, or a client ten with no reply.
    TurnsSpent,
    /// The reply to a call is the refusal with this number.
    Refused(u8),
    /// Memory was refused.
    OutOfMemory,
    /// The log is that of this server, in a run of so many servers, and not the one asked for.
    OtherLog(u32, u32),
}

impl Status {
    /// The number that the process ends with.
    pub fn number(self) -> u8
        ensures { result ≡ number_of self }
    {
        match self {
            Status::Done => 0,
            Status::Usage(_) => 2,
            Status::ReadFault => 3,
            Status::WriteFault => 4,
            Status::NetFault => 5,
            Status::DiskFault => 6,
            Status::InputLong => 8,
            Status::BadLine(_, _) => 9,
            Status::BadLog(_) => 10,
            Status::TurnsSpent => 11,
            Status::Refused(_) => 12,
            Status::OutOfMemory => 13,
            Status::OtherLog(_, _) => 14,
        }
    }
}

impl fmt::Display for Status {
    ghost use Rattle.std.specs.Prelude.{Some};
    ghost use Rattle.pg_event.specs.Status.{status_text};

    ghost output = { λ s. Some (status_text s) };

    fn fmt<W: fmt::Write>(&self, f: &mut fmt::Formatter<W>) -> fmt::Result {
        match self {
            Status::Done => Ok(()),
            Status::Usage(word) => write!(f, "usage at word {word}"),
            Status::ReadFault => write!(f, "read fault"),
            Status::WriteFault => write!(f, "write fault"),
            Status::NetFault => write!(f, "net fault"),
            Status::DiskFault => write!(f, "disk fault"),
            Status::InputLong => write!(f, "input too long"),
            Status::BadLine(line, fault) => write!(f, "line {line}: {fault}"),
            Status::BadLog(place) => write!(f, "bad log at {place}"),
            Status::TurnsSpent => write!(f, "turns spent"),
            Status::Refused(number) => write!(f, "refused {number}"),
            Status::OutOfMemory => write!(f, "out of memory"),
            Status::OtherLog(server, servers) => write!(f, "log of {server} of {servers}"),
        }
    }
}
