//! What the words behind a call's own may be.

ghost use Rattle.std.specs.Prelude.{◌≡◌, ◌≤◌, ◌↔◌, IsTrue, length};
ghost use Rattle.pg_call.specs.Call.{HasSlash};
ghost use Rattle.pg_call.specs.Fields.{IsWordOf};
ghost use Rattle.pg_call.specs.Fields.Field.{AnyId, Bytes, Count, Narrow, Path, PathOrId, PolicyName, Wide};
ghost use Rattle.pg_command.specs.Slots.{IsArgument, field_of};

use crate::digits::are_digits;
use pg_call::{count_of, id_of, parse_u32, parse_u64};
use pg_words::{is_same, is_text};

/// What a word behind a call's own is to be.
#[derive(Clone, Copy, Debug, PartialEq, Eq)]
pub(crate) enum Argument {
    /// A number below 2^32.
    Narrow,
    /// A number below 2^64.
    Wide,
    /// A number of bytes to be read.
    Count,
    /// The bytes of one write.
    Payload,
    /// The id of a file or directory.
    Id,
    Path,
    /// A path, or an id.
    Target,
    Policy,
}

/// The most bytes that a path or a target has.
const MOST_IN_PATH: usize = 5_000;

fn is_narrow(word: &[u8]) -> bool
    ensures { IsTrue result ↔ IsWordOf Narrow word.now }
{
    match parse_u32(word) {
        Ok(_) => true,
        Err(_) => false,
    }
}

fn is_wide(word: &[u8]) -> bool
    ensures { IsTrue result ↔ IsWordOf Wide word.now }
{
    match parse_u64(word) {
        Ok(_) => true,
        Err(_) => false,
    }
}

fn is_count(word: &[u8]) -> bool
    ensures { IsTrue result ↔ IsWordOf Count word.now }
{
    match count_of(word) {
        Ok(_) => true,
        Err(_) => false,
    }
}

fn is_payload(word: &[u8]) -> bool
    ensures { IsTrue result ↔ IsWordOf Bytes word.now }
{
    if is_same(word, b"-") {
        true
    } else {
        are_digits(word)
    }
}

fn is_id(word: &[u8]) -> bool
    ensures { IsTrue result ↔ IsWordOf AnyId word.now }
{
    match id_of(word) {
        Ok(_) => true,
        Err(_) => false,
    }
}

fn is_policy(word: &[u8]) -> bool
    ensures { IsTrue result ↔ IsWordOf PolicyName word.now }
{
    match word {
        b"last" => true,
        b"join" => true,
        _ => false,
    }
}

/// Whether the word begins as a path does.
fn has_slash(word: &[u8]) -> bool
    ensures { IsTrue result ↔ HasSlash word.now }
{
    match word.first() {
        Some(byte) => *byte == b'/',
        None => false,
    }
}

fn is_target(word: &[u8]) -> bool
    ensures { IsTrue result ↔ IsWordOf PathOrId word.now }
{
    if has_slash(word) {
        is_text(word)
    } else {
        is_id(word)
    }
}

/// Whether the word is short enough for a path.
fn is_short(word: &[u8]) -> bool
    ensures { IsTrue result ↔ (length word.now ≤ 5000) }
{
    word.len() <= MOST_IN_PATH
}

impl Argument {
    /// Whether the word is such an argument.
    pub(crate) fn is(self, word: &[u8]) -> bool
        ensures { IsTrue result ↔ IsArgument (field_of self) word.now }
    {
        match self {
            Argument::Narrow => is_narrow(word),
            Argument::Wide => is_wide(word),
            Argument::Count => is_count(word),
            Argument::Payload => is_payload(word),
            Argument::Id => is_id(word),
            Argument::Path => is_short(word) && is_text(word),
            Argument::Target => is_short(word) && is_target(word),
            Argument::Policy => is_policy(word),
        }
    }
}
