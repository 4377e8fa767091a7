//! Words in their places, taken off one by one.

ghost use Rattle.std.specs.Prelude.{◌≡◌, ◌≤◌, ◌<◌, ◌∷◌, ◌↔◌, IfOk, IfErr, OnErr, IsTrue, decimal, map};
ghost use Rattle.std.specs.String.{string_bytes};
ghost use Rattle.pg_command.specs.Slots.{IsArgument, IsNameByte, IsNodeName, Lacks, field_of};
ghost use Rattle.pg_command.specs.Slots.Slot.{Argued, Name, Number};

use crate::argument::Argument;
use pg_base::number;

/// The most bytes that a node's name has.
const MOST_IN_NAME: usize = 64;

/// A number between these, and the words behind it. The word has this number.
pub(crate) fn number_before(
    words: &[String],
    place: u64,
    least: u64,
    most: u64,
) -> Result<(u64, &[String]), u64>
    ensures low { IfOk result (λ r. least ≤ r.0) }
    ensures high { IfOk result (λ r. r.0 ≤ most) }
    ensures found { IfOk result (λ r. map (λ w. string_bytes w) words.now
        ≡ decimal r.0 ∷ map (λ w. string_bytes w) r.1.now) }
    ensures place { IfErr result (λ k. k ≡ place) }
    ensures wrong { OnErr result
        (Lacks (Number least most) (map (λ w. string_bytes w) words.now)) }
{
    let [word, rest @ ..] = words else {
        return Err(place);
    };
    let Some(n) = number(word.as_bytes()) else {
        return Err(place);
    };
    if n < least || n > most {
        return Err(place);
    }
    Ok((n, rest))
}

fn is_name_byte(byte: u8) -> bool
    ensures { IsTrue result ↔ IsNameByte byte }
{
    (b'a' <= byte && byte <= b'z') || (b'0' <= byte && byte <= b'9')
}

/// Whether a node may have this name.
fn is_node_name(word: &[u8]) -> bool
    ensures { IsTrue result ↔ IsNodeName word.now }
{
    !word.is_empty() && word.len() <= MOST_IN_NAME && word.iter().all(|byte| is_name_byte(*byte))
}

/// The name of a node, and the words behind it. The word has this number.
pub(crate) fn name_before(words: &[String], place: u64) -> Result<(&[u8], &[String]), u64>
    ensures fits { IfOk result (λ r. IsNodeName r.0.now) }
    ensures found { IfOk result (λ r. map (λ w. string_bytes w) words.now
        ≡ r.0.now ∷ map (λ w. string_bytes w) r.1.now) }
    ensures place { IfErr result (λ k. k ≡ place) }
    ensures wrong { OnErr result (Lacks Name (map (λ w. string_bytes w) words.now)) }
{
    let [word, rest @ ..] = words else {
        return Err(place);
    };
    let name = word.as_bytes();
    if !is_node_name(name) {
        return Err(place);
    }
    Ok((name, rest))
}

/// An argument of a call, and the words behind it. The word has this number.
pub(crate) fn argument_before(
    words: &[String],
    place: u64,
    argument: Argument,
) -> Result<(&[u8], &[String]), u64>
    ensures fits { IfOk result (λ r. IsArgument (field_of argument) r.0.now) }
    ensures found { IfOk result (λ r. map (λ w. string_bytes w) words.now
        ≡ r.0.now ∷ map (λ w. string_bytes w) r.1.now) }
    ensures place { IfErr result (λ k. k ≡ place) }
    ensures wrong { OnErr result
        (Lacks (Argued (field_of argument)) (map (λ w. string_bytes w) words.now)) }
{
    let [word, rest @ ..] = words else {
        return Err(place);
    };
    let text = word.as_bytes();
    if !argument.is(text) {
        return Err(place);
    }
    Ok((text, rest))
}
