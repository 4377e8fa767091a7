//! What the words ask for.

ghost use Rattle.std.specs.Prelude.{ℕ, ◌≡◌, ◌≢◌, ◌∷◌, ◌⊎◌, IfErr, IfNone, IfOk, IfSome, Ok, Err, codes, map};
ghost use Rattle.std.specs.String.{string_bytes};
ghost use Rattle.pg_command.specs.Slots.{IsFirstWrong};
ghost use Rattle.pg_command.specs.Verb.{LacksVerb, verb_word};
ghost use Rattle.pg_command.specs.Words.{AreNumbers, Asks, IsCommand, IsFault, IsFaultIn, IsFaultOf, command_words, number_slots, number_words, replay_slots};
ghost use Rattle.pg_command.specs.declared.command.Command.{Command};
ghost use Rattle.pg_command.specs.declared.command.Command.TheVariants.{Replay};
ghost use Rattle.pg_command.specs.declared.error.CommandError.TheVariants as wrong;

use crate::calling::calling_of;
use crate::command::{Command, Numbers};
use crate::error::CommandError;
use crate::help::help_in;
use crate::node::node_of;
use crate::reading::{metered_read, numbers_read};
use crate::slots::number_before;
use crate::verb::Verb;
use std::alloc::Global;

/// The most events that a made schedule has.
const MOST_EVENTS: u64 = 1_000_000;

/// Whether a replay has meters, by the words behind its own.
fn is_metered(words: &[String]) -> Result<bool, u64>
    ensures found { IfOk result (λ metered. command_words (Replay metered)
        ≡ codes "replay" ∷ map (λ w. string_bytes w) words.now) }
    ensures wrong { IfErr result (λ k. let behind = map (λ w. string_bytes w) words.now in
        IsFirstWrong 2 (replay_slots behind) behind k) }
{
    let [word, rest @ ..] = words else {
        return Ok(false);
    };
    if word.as_bytes() != b"--meters".as_slice() {
        return Err(2);
    }
    if !rest.is_empty() {
        return Err(3);
    }
    Ok(true)
}

/// The replay that the words behind `replay` ask for. `all` are these and that word, which clap
/// reads where none is at fault.
fn replay_of(alloc: Global, all: &[String], words: &[String]) -> Result<Command, CommandError>
    requires { map (λ w. string_bytes w) all.now
        ≡ codes "replay" ∷ map (λ w. string_bytes w) words.now }
    ensures fits { IfOk result (λ c. IsCommand c) }
    ensures found { IfOk result (λ c. command_words c
        ≡ codes "replay" ∷ map (λ w. string_bytes w) words.now) }
    ensures wrong { IfErr result (λ e. (k : ℕ) → e ≡ wrong.Usage k
        → let behind = map (λ w. string_bytes w) words.now in
        IsFirstWrong 2 (replay_slots behind) behind k) }
    ensures memory { IfErr result (λ e. e ≡ wrong.OutOfMemory → (k : ℕ)
        → let behind = map (λ w. string_bytes w) words.now in
        IsFirstWrong 2 (replay_slots behind) behind k → ⊥) }
{
    let checked = match is_metered(words) {
        Ok(metered) => metered,
        Err(place) => return Err(CommandError::Usage(place)),
    };
    let metered = metered_read(alloc, all, checked)?;
    Ok(Command::Replay { metered })
}

/// The three numbers from which a schedule is made, by the words behind a command's own.
fn numbers_in(words: &[String]) -> Result<Numbers, u64>
    ensures fits { IfOk result AreNumbers }
    ensures found { IfOk result (λ numbers. number_words numbers
        ≡ map (λ w. string_bytes w) words.now) }
    ensures wrong { IfErr result
        (λ k. IsFirstWrong 2 number_slots (map (λ w. string_bytes w) words.now) k) }
{
    let (seed, words) = number_before(words, 2, 0, u64::MAX)?;
    let (servers, words) = number_before(words, 3, 1, 64)?;
    let (events, words) = number_before(words, 4, 0, MOST_EVENTS)?;
    if !words.is_empty() {
        return Err(5);
    }
    Ok(Numbers {
        seed,
        servers: servers as u32,
        events,
    })
}

/// The same, or which word is at fault. `all` are these words and that of the command, which clap
/// reads where none is at fault.
fn numbers_of(alloc: Global, all: &[String], words: &[String]) -> Result<Numbers, CommandError>
    requires { (map (λ w. string_bytes w) all.now
        ≡ codes "make" ∷ map (λ w. string_bytes w) words.now)
        ⊎ (map (λ w. string_bytes w) all.now
        ≡ codes "soak" ∷ map (λ w. string_bytes w) words.now) }
    ensures fits { IfOk result AreNumbers }
    ensures found { IfOk result (λ numbers. number_words numbers
        ≡ map (λ w. string_bytes w) words.now) }
    ensures wrong { IfErr result (λ e. (k : ℕ) → e ≡ wrong.Usage k
        → IsFirstWrong 2 number_slots (map (λ w. string_bytes w) words.now) k) }
    ensures memory { IfErr result (λ e. e ≡ wrong.OutOfMemory → (k : ℕ)
        → IsFirstWrong 2 number_slots (map (λ w. string_bytes w) words.now) k → ⊥) }
{
    let checked = match numbers_in(words) {
        Ok(numbers) => numbers,
        Err(place) => return Err(CommandError::Usage(place)),
    };
    let numbers = numbers_read(alloc, all, checked)?;
    Ok(numbers)
}

/// The command of this verb, by the words behind it. `all` are these and the verb's own.
fn command_with(
    alloc: Global,
    verb: Verb,
    all: &[String],
    words: &[String],
) -> Result<Command, CommandError>
    requires { map (λ w. string_bytes w) all.now
        ≡ verb_word verb ∷ map (λ w. string_bytes w) words.now }
    ensures fits { IfOk result (λ c. IsCommand c) }
    ensures found { IfOk result (λ c. command_words c
        ≡ verb_word verb ∷ map (λ w. string_bytes w) words.now) }
    ensures wrong { IfErr result (λ e. (k : ℕ) → e ≡ wrong.Usage k
        → IsFaultOf verb (map (λ w. string_bytes w) words.now) k) }
    ensures memory { IfErr result (λ e. e ≡ wrong.OutOfMemory → (k : ℕ)
        → IsFaultOf verb (map (λ w. string_bytes w) words.now) k → ⊥) }
{
    match verb {
        Verb::Replay => replay_of(alloc, all, words),
        Verb::Make => match numbers_of(alloc, all, words) {
            Ok(numbers) => Ok(Command::Make(numbers)),
            Err(error) => Err(error),
        },
        Verb::Soak => match numbers_of(alloc, all, words) {
            Ok(numbers) => Ok(Command::Soak(numbers)),
            Err(error) => Err(error),
        },
        Verb::Node => node_of(alloc, all, words),
        Verb::Call => calling_of(alloc, all, words),
    }
}

/// The command that the first word names, and the words behind it.
fn verb_before(words: &[String]) -> Option<(Verb, &[String])>
    ensures found { IfSome result (λ r. map (λ w. string_bytes w) words.now
        ≡ verb_word r.0 ∷ map (λ w. string_bytes w) r.1.now) }
    ensures none { IfNone result (LacksVerb (map (λ w. string_bytes w) words.now)) }
{
    let [word, rest @ ..] = words else {
        return None;
    };
    match Verb::read(word.as_bytes()) {
        Some(verb) => Some((verb, rest)),
        None => None,
    }
}

/// What the words behind the program's name ask for, where they ask for no help.
fn command_by(alloc: Global, words: &[String]) -> Result<Command, CommandError>
    ensures fits { IfOk result (λ c. IsCommand c) }
    ensures found { IfOk result (λ c. command_words c ≡ map (λ w. string_bytes w) words.now) }
    ensures wrong { IfErr result (λ e. (k : ℕ) → e ≡ wrong.Usage k
        → IsFaultIn (map (λ w. string_bytes w) words.now) k) }
    ensures memory { IfErr result (λ e. e ≡ wrong.OutOfMemory → (k : ℕ)
        → IsFaultIn (map (λ w. string_bytes w) words.now) k → ⊥) }
{
    match verb_before(words) {
        Some((verb, behind)) => command_with(alloc, verb, words, behind),
        None => Err(CommandError::Usage(1)),
    }
}

/// What the words ask for, or which of them is at fault.
fn command_in(alloc: Global, words: &Vec<String>) -> Result<Command, CommandError>
    ensures found { IfOk result (λ command. Asks words.now command) }
    ensures wrong { IfErr result (λ e. (k : ℕ) → e ≡ wrong.Usage k → IsFault words.now k) }
    ensures memory { IfErr result (λ e. e ≡ wrong.OutOfMemory → (k : ℕ)
        → IsFault words.now k → ⊥) }
{
    let [_, behind @ ..] = words.as_slice() else {
        return Err(CommandError::Usage(1));
    };
    match help_in(behind) {
        Some(help) => Ok(Command::Help(help)),
        None => command_by(alloc, behind),
    }
}

/// What the words ask for. Word 0 is the program's name. Else the number of the first word that no
/// command has in its place, or of the one that is missing; want of memory never stands for it.
pub fn command_of(alloc: Global, words: &Vec<String>) -> Result<Command, CommandError>
    ensures found { IfOk result (λ command. Asks words.now command) }
    ensures wrong { (k : ℕ) → result ≡ Err (wrong.Usage k) → IsFault words.now k }
    ensures complete { (command : Command) → Asks words.now command
        → (result ≡ Ok command) ⊎ (result ≡ Err wrong.OutOfMemory) }
    ensures first { (k : ℕ) → IsFault words.now k → result ≡ Err (wrong.Usage k) }
{
    command_in(alloc, words)
}
