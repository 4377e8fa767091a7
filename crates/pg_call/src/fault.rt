//! What is wrong with a line.

use std::fmt;

/// Why a line is outside the grammar: the first of these that holds of it.
#[derive(Clone, Copy, Debug, PartialEq, Eq)]
pub enum Fault {
    /// The line has a byte that is no printable ASCII, which goes from 0x20 to 0x7E.
    Byte,
    /// The line has more than 70,000 bytes, its line feed not counted.
    Long,
    /// The text ends where its line feed should stand. A text of no byte has no line that could be
    /// ended.
    End,
    /// The line is the first, and does not name the format and from 1 to 64 servers.
    Header,
    /// The first word is no verb.
    Verb,
    /// The words are not as many as the verb's, or one of them is empty.
    Words,
    /// The leftmost bad word is to be a number: not decimal, with a zero in front, or too great.
    Number,
    /// The leftmost bad word is to be an id, or a path or an id.
    Id,
    /// The leftmost bad word is to be bytes: no dash, no pairs of digits in lower case, or more
    /// than one write has.
    Hex,
    /// The leftmost bad word is to be `last` or `join`.
    Policy,
    /// The leftmost bad word is to be `full` or `short`, or `off`.
    Mode,
}

impl fmt::Display for Fault {
    ghost use Rattle.std.specs.Prelude.{Some};
    ghost use Rattle.pg_call.specs.Fault.{fault_text};

    ghost output = { λ f. Some (fault_text f) };

    fn fmt<W: fmt::Write>(&self, f: &mut fmt::Formatter<W>) -> fmt::Result {
        f.write_str(match self {
            Fault::Byte => "Byte",
            Fault::Long => "Long",
            Fault::End => "End",
            Fault::Header => "Header",
            Fault::Verb => "Verb",
            Fault::Words => "Words",
            Fault::Number => "Number",
            Fault::Id => "Id",
            Fault::Hex => "Hex",
            Fault::Policy => "Policy",
            Fault::Mode => "Mode",
        })
    }
}
