//! A line of a journal, from text.

ghost use Rattle.std.specs.Prelude.{◌≡◌, ◌≢◌, ◌<◌, ◌++◌, ℕ, List, map, All, IfOk, IfSome, IfNone};
ghost use Rattle.pg_journal_lines.specs.Reading.{Reads, event_text, verb_of};
ghost use Rattle.pg_journal_lines.specs.declared.verb.Verb.{Verb};
ghost use Rattle.pg_journal_lines.specs.declared.verb.Verb.TheVariants as verb;
ghost use Rattle.pg_trace.specs.JournalLine.{IsPrinted, printed_words, printed_body};
ghost use Rattle.pg_trace.specs.declared.journal_line.JournalLine.{JournalLine};

use crate::replica::at_of;
use crate::told::{is_tick_reply, read_answer, read_server_reply};
use crate::verb::Verb;
use pg_base::{cut_at, number, number_u32};
use pg_call::CallKind;
use pg_event::{read_meter_kind, read_quiet, read_void};
use pg_msg::{read_summary, read_update};
use pg_sched::read_line;
use pg_trace::{AskedAt, JournalLine};
use pg_words::{first_word, first_words};
use std::alloc::{AllocError, Global};

/// More words than any line has that is no event.
const TOO_MANY: usize = 107;

/// What the client of a call was told, from the words behind `call`.
fn call_of(alloc: Global, words: &[&[u8]]) -> Result<Option<JournalLine>, AllocError>
    ensures found { IfOk result (λ o. IfSome o (Reads verb.Call (map (λ w. w.now) words.now))) }
    ensures none { IfOk result (λ o. IfNone o ((p : JournalLine)
        → Reads verb.Call (map (λ w. w.now) words.now) p → ⊥)) }
{
    let Some((server, words)) = first_word(words) else {
        return Ok(None);
    };
    let Some(server) = number_u32(server) else {
        return Ok(None);
    };
    let Some((kind, words)) = first_word(words) else {
        return Ok(None);
    };
    let Some(kind) = CallKind::read(kind) else {
        return Ok(None);
    };
    match read_answer(alloc, words)? {
        Some(reply) => Ok(Some(JournalLine::Call {
            kind,
            server,
            reply,
        })),
        None => Ok(None),
    }
}

/// What came of a tick, from the words behind `tick`.
fn tick_of(alloc: Global, words: &[&[u8]]) -> Result<Option<JournalLine>, AllocError>
    ensures found { IfOk result (λ o. IfSome o (Reads verb.Tick (map (λ w. w.now) words.now))) }
    ensures none { IfOk result (λ o. IfNone o ((p : JournalLine)
        → Reads verb.Tick (map (λ w. w.now) words.now) p → ⊥)) }
{
    let Some((server, reply)) = read_server_reply(alloc, words)? else {
        return Ok(None);
    };
    if !is_tick_reply(&reply) {
        return Ok(None);
    }
    Ok(Some(JournalLine::Tick { server, reply }))
}

/// The line of an event that changes nothing, from the words behind `void`.
fn nothing_of(words: &[&[u8]]) -> Option<JournalLine>
    ensures found { IfSome result (Reads verb.Void (map (λ w. w.now) words.now)) }
    ensures none { IfNone result ((p : JournalLine)
        → Reads verb.Void (map (λ w. w.now) words.now) p → ⊥) }
{
    let [line, cause] = words else {
        return None;
    };
    let line = number(line)?;
    let cause = read_void(cause)?;
    Some(JournalLine::Void { line, cause })
}

/// The line of a version that was made, from the words behind `made`.
fn made_of(alloc: Global, words: &[&[u8]]) -> Result<Option<JournalLine>, AllocError>
    ensures found { IfOk result (λ o. IfSome o (Reads verb.Made (map (λ w. w.now) words.now))) }
    ensures none { IfOk result (λ o. IfNone o ((p : JournalLine)
        → Reads verb.Made (map (λ w. w.now) words.now) p → ⊥)) }
{
    match read_update(alloc, words)? {
        Some(update) => Ok(Some(JournalLine::Made(update))),
        None => Ok(None),
    }
}

/// The line of a message that was sent, from the words behind `sent`.
fn sent_of(words: &[&[u8]]) -> Option<JournalLine>
    ensures found { IfSome result (Reads verb.Sent (map (λ w. w.now) words.now)) }
    ensures none { IfNone result ((p : JournalLine)
        → Reads verb.Sent (map (λ w. w.now) words.now) p → ⊥) }
{
    let summary = read_summary(words)?;
    Some(JournalLine::Sent(summary))
}

/// Whether all is done, from the words behind this one.
fn asked_of(word: AskedAt, words: &[&[u8]]) -> Option<JournalLine>
    ensures found { IfSome result (Reads (verb.Asked word) (map (λ w. w.now) words.now)) }
    ensures none { IfNone result ((p : JournalLine)
        → Reads (verb.Asked word) (map (λ w. w.now) words.now) p → ⊥) }
{
    let quiet = read_quiet(words)?;
    Some(JournalLine::Asked { word, quiet })
}

/// What a meter has counted, from the words behind `meter`.
fn meter_of(words: &[&[u8]]) -> Option<JournalLine>
    ensures found { IfSome result (Reads verb.Meter (map (λ w. w.now) words.now)) }
    ensures none { IfNone result ((p : JournalLine)
        → Reads verb.Meter (map (λ w. w.now) words.now) p → ⊥) }
{
    let [kind, value] = words else {
        return None;
    };
    let kind = read_meter_kind(kind)?;
    let value = number(value)?;
    Some(JournalLine::Meter { kind, value })
}

/// The line that begins with this verb and goes on with these words. An event's line is read by its
/// text.
fn verb_line(alloc: Global, verb: Verb, words: &[&[u8]]) -> Result<Option<JournalLine>, AllocError>
    ensures found { IfOk result (λ o. IfSome o (Reads verb (map (λ w. w.now) words.now))) }
    ensures none { IfOk result (λ o. IfNone o ((p : JournalLine) → verb ≢ Verb.Event
        → Reads verb (map (λ w. w.now) words.now) p → ⊥)) }
{
    match verb {
        Verb::Event => Ok(None),
        Verb::Call => Ok(call_of(alloc, words)?),
        Verb::Tick => Ok(tick_of(alloc, words)?),
        Verb::Void => Ok(nothing_of(words)),
        Verb::Made => Ok(made_of(alloc, words)?),
        Verb::Sent => Ok(sent_of(words)),
        Verb::Asked(word) => Ok(asked_of(word, words)),
        Verb::At => Ok(at_of(alloc, words)?),
        Verb::Meter => Ok(meter_of(words)),
    }
}

/// The line of these words, if it is no event's.
fn line_of(alloc: Global, words: &[&[u8]]) -> Result<Option<JournalLine>, AllocError>
    ensures found { IfOk result (λ o. IfSome o (λ p. IsPrinted p
        × (map (λ w. w.now) words.now ≡ printed_words p))) }
    ensures none { IfOk result (λ o. IfNone o ((p : JournalLine) → IsPrinted p
        → verb_of p ≢ verb.Event → map (λ w. w.now) words.now ≡ printed_words p → ⊥)) }
{
    let Some((word, rest)) = first_word(words) else {
        return Ok(None);
    };
    let Some(verb) = Verb::read(word) else {
        return Ok(None);
    };
    let found = verb_line(alloc, verb, rest)?;
    Ok(found)
}

/// The line that the text spells, if it is no event's.
fn other_of(alloc: Global, text: &[u8]) -> Result<Option<JournalLine>, AllocError>
    ensures found { IfOk result (λ o. IfSome o (λ p. IsPrinted p × (text.now ≡ printed_body p))) }
    ensures none { IfOk result (λ o. IfNone o ((p : JournalLine) → IsPrinted p
        → verb_of p ≢ verb.Event → text.now ≡ printed_body p → ⊥)) }
{
    let mut room = [b"".as_slice(); TOO_MANY];
    let count = first_words(text, &mut room);
    let found = line_of(alloc, &room[..count])?;
    Ok(found)
}

/// What stands in the text behind this prefix.
fn text_behind<'a>(text: &'a [u8], prefix: &[u8]) -> Option<&'a [u8]>
    ensures found { IfSome result (λ r. text.now ≡ prefix.now ++ r.now) }
    ensures none { IfNone result ((rest : List ℕ) → text.now ≡ prefix.now ++ rest → ⊥) }
{
    text.strip_prefix(prefix)
}

/// The texts of an event's number and of the schedule's line, where the text is an event's.
fn event_parts(text: &[u8]) -> Option<(&[u8], &[u8])>
    ensures found { IfSome result (λ x. text.now ≡ event_text x.0.now x.1.now) }
    ensures first { IfSome result (λ x. All (λ b. b ≢ 32) x.0.now) }
    ensures none { IfNone result ((number line : List ℕ) → text.now ≡ event_text number line → ⊥) }
{
    let rest = text_behind(text, b"event ")?;
    cut_at(rest, b' ')
}

/// The event's line of these texts for its number and for the schedule's line.
fn event_of(
    alloc: Global,
    number_text: &[u8],
    line: &[u8],
) -> Result<Option<JournalLine>, AllocError>
    requires { All (λ b. b ≢ 32) number_text.now }
    ensures found { IfOk result (λ o. IfSome o (λ p. IsPrinted p
        × (event_text number_text.now line.now ≡ printed_body p))) }
    ensures none { IfOk result (λ o. IfNone o ((p : JournalLine) → IsPrinted p
        → event_text number_text.now line.now ≡ printed_body p → ⊥)) }
{
    let Some(number) = number(number_text) else {
        return Ok(None);
    };
    let Some(what) = read_line(alloc, line)? else {
        return Ok(None);
    };
    Ok(Some(JournalLine::Event { line: number, what }))
}

/// The line that the text spells, which has no line feed: nothing where it spells none.
pub fn read_printed(alloc: Global, text: &[u8]) -> Result<Option<JournalLine>, AllocError>
    ensures found { IfOk result (λ o. IfSome o (λ p. IsPrinted p × (text.now ≡ printed_body p))) }
    ensures none { IfOk result (λ o. IfNone o ((p : JournalLine) → IsPrinted p
        → text.now ≡ printed_body p → ⊥)) }
{
    match event_parts(text) {
        Some((number, line)) => {
            let found = event_of(alloc, number, line)?;
            Ok(found)
        }
        None => {
            let found = other_of(alloc, text)?;
            Ok(found)
        }
    }
}
