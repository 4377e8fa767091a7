//! The words of a call.

ghost use Rattle.std.specs.Prelude.{◌≡◌, ◌∷◌, [], ℕ, IfOk, IfErr, OnOk, codes, decimal, map};
ghost use Rattle.std.specs.String.{string_bytes};
ghost use Rattle.pg_call.specs.Call.{IsCall, call_words, kind_word};
ghost use Rattle.pg_call.specs.Fields.{call_fields};
ghost use Rattle.pg_command.specs.Slots.{AreArguments, IsFirstWrong, Lacks, field_of};
ghost use Rattle.pg_command.specs.Slots.Slot.{Argued};
ghost use Rattle.pg_command.specs.Words.{IsCommand, IsFaultOfAsked, IsFaultOfCall, IsPort, IsRequest, LacksAsked, asked_fields, asked_word, command_words, request_words};
ghost use Rattle.pg_command.specs.declared.error.CommandError.TheVariants as wrong;
ghost use Rattle.pg_sched.specs.Schedule.{IsCount};

use crate::argument::Argument;
use crate::asked::Asked;
use crate::command::Command;
use crate::error::CommandError;
use crate::node::MOST_PORT;
use crate::reading::target_read;
use crate::slots::{argument_before, number_before};
use pg_base::NodeId;
use pg_call::{Call, CallKind, WordsError, arguments_of};
use pg_packet_write::Request;
use std::alloc::{AllocError, Global};

/// What the words behind `call` say: of whom is asked, and what, by its words.
#[derive(Clone, Copy, Debug)]
struct CallWords<'a> {
    server: NodeId,
    port: u16,
    asked: Asked,
    arguments: &'a [String],
}

/// That no word is left. The next one has this number.
fn check_end(words: &[String], place: u64) -> Result<(), u64>
    ensures good { OnOk result (map (λ w. string_bytes w) words.now ≡ []) }
    ensures wrong { IfErr result
        (λ k. IsFirstWrong place [] (map (λ w. string_bytes w) words.now) k) }
{
    if !words.is_empty() {
        return Err(place);
    }
    Ok(())
}

fn check_one(words: &[String], first: Argument) -> Result<(), u64>
    ensures good { OnOk result
        (AreArguments (field_of first ∷ []) (map (λ w. string_bytes w) words.now)) }
    ensures wrong { IfErr result (λ k. IsFirstWrong 5 (Argued (field_of first) ∷ [])
        (map (λ w. string_bytes w) words.now) k) }
{
    let (_, words) = argument_before(words, 5, first)?;
    check_end(words, 6)
}

fn check_two(words: &[String], first: Argument, second: Argument) -> Result<(), u64>
    ensures good { OnOk result (AreArguments (field_of first ∷ field_of second ∷ [])
        (map (λ w. string_bytes w) words.now)) }
    ensures wrong { IfErr result
        (λ k. IsFirstWrong 5 (Argued (field_of first) ∷ Argued (field_of second) ∷ [])
        (map (λ w. string_bytes w) words.now) k) }
{
    let (_, words) = argument_before(words, 5, first)?;
    let (_, words) = argument_before(words, 6, second)?;
    check_end(words, 7)
}

fn check_three(
    words: &[String],
    first: Argument,
    second: Argument,
    third: Argument,
) -> Result<(), u64>
    ensures good { OnOk result
        (AreArguments (field_of first ∷ field_of second ∷ field_of third ∷ [])
        (map (λ w. string_bytes w) words.now)) }
    ensures wrong { IfErr result (λ k. IsFirstWrong 5
        (Argued (field_of first) ∷ Argued (field_of second) ∷ Argued (field_of third) ∷ [])
        (map (λ w. string_bytes w) words.now) k) }
{
    let (_, words) = argument_before(words, 5, first)?;
    let (_, words) = argument_before(words, 6, second)?;
    let (_, words) = argument_before(words, 7, third)?;
    check_end(words, 8)
}

/// That the words are those behind the word of such a call. Else the number of the first that is
/// not.
fn check_kind(words: &[String], kind: CallKind) -> Result<(), u64>
    ensures good { OnOk result
        (AreArguments (call_fields kind) (map (λ w. string_bytes w) words.now)) }
    ensures wrong { IfErr result (λ k. IsFirstWrong 5 (map (λ f. Argued f) (call_fields kind))
        (map (λ w. string_bytes w) words.now) k) }
{
    match kind {
        CallKind::Mkdir => check_one(words, Argument::Path),
        CallKind::Create => check_two(words, Argument::Path, Argument::Policy),
        CallKind::Write => {
            check_three(words, Argument::Path, Argument::Narrow, Argument::Payload)
        }
        CallKind::Cut => check_two(words, Argument::Path, Argument::Narrow),
        CallKind::Read => check_three(words, Argument::Path, Argument::Narrow, Argument::Count),
        CallKind::Fresh => check_one(words, Argument::Path),
        CallKind::Ls => check_two(words, Argument::Path, Argument::Narrow),
        CallKind::Stat => check_one(words, Argument::Target),
        CallKind::Rename => check_two(words, Argument::Path, Argument::Path),
        CallKind::Unlink => check_one(words, Argument::Path),
        CallKind::Rmdir => check_one(words, Argument::Path),
        CallKind::Forget => check_one(words, Argument::Id),
        CallKind::Demote => check_one(words, Argument::Target),
        CallKind::Drop => check_one(words, Argument::Target),
        CallKind::Giveup => check_two(words, Argument::Wide, Argument::Narrow),
        CallKind::Status => check_end(words, 5),
        CallKind::Stop => check_end(words, 5),
    }
}

/// The same of what is asked for.
fn check_asked(words: &[String], asked: Asked) -> Result<(), u64>
    ensures good { OnOk result
        (AreArguments (asked_fields asked) (map (λ w. string_bytes w) words.now)) }
    ensures wrong { IfErr result (λ k. IsFirstWrong 5 (map (λ f. Argued f) (asked_fields asked))
        (map (λ w. string_bytes w) words.now) k) }
{
    match asked {
        Asked::Call(kind) => check_kind(words, kind),
        Asked::Tick => check_end(words, 5),
    }
}

/// What is asked for by the first word, and the words behind it.
fn asked_before(words: &[String]) -> Result<(Asked, &[String]), u64>
    ensures found { IfOk result (λ r. map (λ w. string_bytes w) words.now
        ≡ asked_word r.0 ∷ map (λ w. string_bytes w) r.1.now) }
    ensures place { IfErr result (λ k. k ≡ 4) }
    ensures wrong { IfErr result (λ k. LacksAsked (map (λ w. string_bytes w) words.now)) }
{
    let [word, rest @ ..] = words else {
        return Err(4);
    };
    match Asked::read(word.as_bytes()) {
        Some(asked) => Ok((asked, rest)),
        None => Err(4),
    }
}

/// What the words say, or the number of the first that is at fault.
fn call_in(words: &[String]) -> Result<CallWords<'_>, u64>
    ensures server { IfOk result (λ c. IsCount c.server) }
    ensures port { IfOk result (λ c. IsPort c.port) }
    ensures fits { IfOk result
        (λ c. AreArguments (asked_fields c.asked) (map (λ w. string_bytes w) c.arguments.now)) }
    ensures found { IfOk result (λ c. map (λ w. string_bytes w) words.now
        ≡ decimal c.server ∷ decimal c.port ∷ asked_word c.asked
        ∷ map (λ w. string_bytes w) c.arguments.now) }
    ensures wrong { IfErr result (λ k. IsFaultOfCall (map (λ w. string_bytes w) words.now) k) }
{
    let (server, words) = number_before(words, 2, 1, 64)?;
    let (port, words) = number_before(words, 3, 1, MOST_PORT)?;
    let (asked, arguments) = asked_before(words)?;
    check_asked(arguments, asked)?;
    Ok(CallWords {
        server: server as u32,
        port: port as u16,
        asked,
        arguments,
    })
}

/// The call of this kind with these words behind its own.
fn call_with(alloc: Global, kind: CallKind, words: &[String]) -> Result<Call, AllocError>
    requires { AreArguments (call_fields kind) (map (λ w. string_bytes w) words.now) }
    ensures { IfOk result (λ c. IsCall c
        × (kind_word kind ∷ map (λ w. string_bytes w) words.now ≡ call_words c)) }
{
    let read = match words {
        [] => arguments_of(alloc, kind, &[]),
        [first] => arguments_of(alloc, kind, &[first.as_bytes()]),
        [first, second] => arguments_of(alloc, kind, &[first.as_bytes(), second.as_bytes()]),
        [first, second, third] => arguments_of(
            alloc,
            kind,
            &[first.as_bytes(), second.as_bytes(), third.as_bytes()],
        ),
        _ => unreachable!(),
    };
    match read {
        Ok(call) => Ok(call),
        Err(error) => match error {
            WordsError::OutOfMemory => Err(AllocError),
            WordsError::Bad(_) => unreachable!(),
        },
    }
}

/// What is asked for, with these words behind its own.
fn request_of(alloc: Global, asked: Asked, words: &[String]) -> Result<Request, AllocError>
    requires { AreArguments (asked_fields asked) (map (λ w. string_bytes w) words.now) }
    ensures fits { IfOk result (λ r. IsRequest r) }
    ensures found { IfOk result (λ r. request_words r
        ≡ asked_word asked ∷ map (λ w. string_bytes w) words.now) }
{
    match asked {
        Asked::Call(kind) => Ok(Request::Call(call_with(alloc, kind, words)?)),
        Asked::Tick => Ok(Request::Tick),
    }
}

/// What the words behind `call` ask for. `all` are these and that word. Where none is at fault clap
/// reads those up to the port, and the call's own are read as a schedule's.
pub(crate) fn calling_of(
    alloc: Global,
    all: &[String],
    words: &[String],
) -> Result<Command, CommandError>
    requires { map (λ w. string_bytes w) all.now
        ≡ codes "call" ∷ map (λ w. string_bytes w) words.now }
    ensures fits { IfOk result (λ c. IsCommand c) }
    ensures found { IfOk result (λ c. command_words c
        ≡ codes "call" ∷ map (λ w. string_bytes w) words.now) }
    ensures wrong { IfErr result (λ e. (k : ℕ) → e ≡ wrong.Usage k
        → IsFaultOfCall (map (λ w. string_bytes w) words.now) k) }
    ensures memory { IfErr result (λ e. e ≡ wrong.OutOfMemory → (k : ℕ)
        → IsFaultOfCall (map (λ w. string_bytes w) words.now) k → ⊥) }
{
    let call = match call_in(words) {
        Ok(call) => call,
        Err(place) => return Err(CommandError::Usage(place)),
    };
    let named = &all[..3];
    let (server, port) = target_read(alloc, named, call.server, call.port)?;
    let request = request_of(alloc, call.asked, call.arguments)?;
    Ok(Command::Call {
        server,
        port,
        request,
    })
}
