//! Why a journal has no picture.

ghost use Rattle.std.specs.Prelude.{◌≡◌};
ghost use Rattle.pg_picture.specs.declared.lack.NoPicture.TheVariants.{OutOfMemory};

use std::alloc::AllocError;
use std::fmt;

/// What a journal lacks.
#[derive(Clone, Copy, Debug, PartialEq, Eq)]
pub enum Lack {
    /// The line is not in full form: the event that it comes of is not told, or one before it is
    /// not.
    Full,
    /// No such message is under way.
    Message,
    /// A run has no such server.
    Server,
    /// The journal is over, and does not say whether all is done.
    End,
    /// The run has more events than are drawn.
    Events,
}

impl fmt::Display for Lack {
    ghost use Rattle.std.specs.Prelude.{Some};
    ghost use Rattle.pg_picture.specs.Lack.{lack_text};

    ghost output = { λ l. Some (lack_text l) };

    fn fmt<W: fmt::Write>(&self, f: &mut fmt::Formatter<W>) -> fmt::Result {
        f.write_str(match self {
            Lack::Full => "not in full form",
            Lack::Message => "no such message is under way",
            Lack::Server => "no such server",
            Lack::End => "no end",
            Lack::Events => "more than 2000 events",
        })
    }
}

/// Why a journal has no picture.
#[derive(Clone, Copy, Debug, PartialEq, Eq)]
pub enum NoPicture {
    /// The line of the journal with this number is the first that lacks something. The first line
    /// has number 1.
    Lacks(u64, Lack),
    OutOfMemory,
}

impl From<AllocError> for NoPicture {
    ghost from_gives = { λ _ e. e ≡ OutOfMemory };

    fn from(_: AllocError) -> Self {
        NoPicture::OutOfMemory
    }
}
