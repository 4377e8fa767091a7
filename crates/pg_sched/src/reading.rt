//! A line of a schedule, from text.

ghost use Rattle.std.specs.Prelude.{◌≡◌, ◌≢◌, ◌≤◌, ◌<◌, ◌∷◌, [], All, IfOk, IfErr, IfSome, IfNone, IsTrue, ◌↔◌, codes, map, length};
ghost use Rattle.pg_call.specs.Call.{kind_word};
ghost use Rattle.pg_call.specs.Fields.{AreCounted, IsBadWord, call_fields};
ghost use Rattle.pg_call.specs.declared.error.WordsError.TheVariants.{Bad};
ghost use Rattle.pg_call.specs.declared.fault.Fault.{Fault};
ghost use Rattle.pg_event.specs.Event.{called_words, tick_words};
ghost use Rattle.pg_sched.specs.Cause.{IsCalledCause, IsRestCause, IsWordsCause};
ghost use Rattle.pg_sched.specs.Fields.{called_fields, fields, verb_word};
ghost use Rattle.pg_sched.specs.Line.{HasWords, IsLine, line_words, line_body, settle_words};
ghost use Rattle.pg_sched.specs.declared.line.Line.{Line};
ghost use Rattle.pg_sched.specs.declared.verb.Verb.TheVariants as verb;
ghost use Rattle.pg_words.specs.Words.{words_in};

use crate::leaves::{form_of, off_of};
use crate::line::{Line, MOST_IN_LINE};
use crate::verb::Verb;
use pg_call::{CallKind, Fault, WordsError, arguments_of, have_bytes, id_of, parse_u32, parse_u64};
use pg_event::Event;
use pg_words::{first_word, first_words, is_same};
use std::alloc::{AllocError, Global};

/// More words than any line has.
const TOO_MANY: usize = 8;

/// The line of a tick, of the words after its verb.
fn tick_of(server: &[u8], moment: &[u8], word: &[u8]) -> Result<Line, WordsError>
    ensures found { IfOk result (λ l. HasWords l
        × (tick_words server.now moment.now word.now ≡ line_words l)) }
    ensures bad { IfErr result (λ e. (f : Fault) → e ≡ Bad f
        → IsBadWord (fields verb.Tick) (server.now ∷ moment.now ∷ word.now ∷ []) f) }
{
    let server = parse_u32(server)?;
    let moment = parse_u64(moment)?;
    let word = parse_u64(word)?;
    Ok(Line::Happens(Event::Tick {
        server,
        moment,
        word,
    }))
}

/// The line of a settling, of the words after its verb.
fn settle_of(rounds: &[u8], moment: &[u8]) -> Result<Line, WordsError>
    ensures found { IfOk result (λ l. HasWords l
        × (settle_words rounds.now moment.now ≡ line_words l)) }
    ensures bad { IfErr result (λ e. (f : Fault) → e ≡ Bad f
        → IsBadWord (fields verb.Settle) (rounds.now ∷ moment.now ∷ []) f) }
{
    let rounds = parse_u32(rounds)?;
    let moment = parse_u64(moment)?;
    Ok(Line::Settle { rounds, moment })
}

/// The end of a meter's count, of the words after its verb.
fn meter_of(off: &[u8], number: &[u8]) -> Result<Line, WordsError>
    ensures found { IfOk result (λ l. HasWords l
        × (codes "meter" ∷ off.now ∷ number.now ∷ [] ≡ line_words l)) }
    ensures bad { IfErr result (λ e. (f : Fault) → e ≡ Bad f
        → IsBadWord (fields verb.Meter) (off.now ∷ number.now ∷ []) f) }
{
    off_of(off)?;
    let number = parse_u64(number)?;
    Ok(Line::MeterOff(number))
}

/// The line of a verb with one word after it.
fn parse_one_word(verb: Verb, word: &[u8]) -> Result<Line, WordsError>
    requires { length (fields verb) ≡ 1 }
    ensures found { IfOk result (λ l. HasWords l
        × (verb_word verb ∷ word.now ∷ [] ≡ line_words l)) }
    ensures bad { IfErr result (λ e. (f : Fault) → e ≡ Bad f
        → IsBadWord (fields verb) (word.now ∷ []) f) }
{
    match verb {
        Verb::Deliver => Ok(Line::Happens(Event::Deliver(parse_u64(word)?))),
        Verb::Lose => Ok(Line::Happens(Event::Lose(parse_u64(word)?))),
        Verb::Repeat => Ok(Line::Happens(Event::Repeat(parse_u64(word)?))),
        Verb::Restart => Ok(Line::Happens(Event::Restart(parse_u32(word)?))),
        Verb::Remove => Ok(Line::Happens(Event::Remove(parse_u32(word)?))),
        Verb::Trace => Ok(Line::Trace(form_of(word)?)),
        Verb::Show => Ok(Line::Show(id_of(word)?)),
        _ => unreachable!(),
    }
}

/// Whether the words after a verb are as many as it wants, and none is empty.
fn are_counted(verb: Verb, words: &[&[u8]]) -> bool
    ensures { IsTrue result ↔ AreCounted (fields verb) (map (λ w. w.now) words.now) }
{
    words.len() == verb.count() && have_bytes(words)
}

/// The line of a verb and the words after it.
fn rest_of(verb: Verb, words: &[&[u8]]) -> Result<Line, WordsError>
    requires { length words.now ≡ length (fields verb) }
    ensures found { IfOk result (λ l. HasWords l
        × (verb_word verb ∷ map (λ w. w.now) words.now ≡ line_words l)) }
    ensures bad { IfErr result (λ e. (f : Fault) → e ≡ Bad f
        → IsBadWord (fields verb) (map (λ w. w.now) words.now) f) }
{
    match (verb, words) {
        (Verb::Tick, [server, moment, word]) => tick_of(server, moment, word),
        (Verb::Settle, [rounds, moment]) => settle_of(rounds, moment),
        (Verb::Meter, [off, number]) => meter_of(off, number),
        (Verb::Quiet, []) => Ok(Line::Quiet),
        (verb, [word]) => parse_one_word(verb, word),
        _ => unreachable!(),
    }
}

/// The line of a call of this kind: the server, the moment, and the words behind the one that names
/// the call.
fn call_of(
    alloc: Global,
    kind: CallKind,
    server: &[u8],
    moment: &[u8],
    arguments: &[&[u8]],
) -> Result<Line, WordsError>
    requires { length arguments.now ≡ length (call_fields kind) }
    ensures found { IfOk result (λ l. HasWords l
        × (called_words server.now moment.now (kind_word kind ∷ map (λ w. w.now) arguments.now)
        ≡ line_words l)) }
    ensures bad { IfErr result (λ e. (f : Fault) → e ≡ Bad f
        → IsBadWord (called_fields kind) (server.now ∷ moment.now
        ∷ map (λ w. w.now) arguments.now) f) }
{
    let server = parse_u32(server)?;
    let moment = parse_u64(moment)?;
    let call = arguments_of(alloc, kind, arguments)?;
    Ok(Line::Happens(Event::Call {
        server,
        moment,
        call,
    }))
}

/// Whether no word of a call's line is empty.
fn have_all_bytes(server: &[u8], moment: &[u8], arguments: &[&[u8]]) -> bool
    ensures { IsTrue result ↔ ((0 < length server.now) × (0 < length moment.now)
        × All (λ w. 0 < length w.now) arguments.now) }
{
    !server.is_empty() && !moment.is_empty() && have_bytes(arguments)
}

/// Whether the words behind the one that names a call are as many as it wants, and no word is
/// empty.
fn are_called(kind: CallKind, server: &[u8], moment: &[u8], arguments: &[&[u8]]) -> bool
    ensures { IsTrue result ↔ AreCounted (called_fields kind) (server.now ∷ moment.now
        ∷ map (λ w. w.now) arguments.now) }
{
    arguments.len() == kind.count() && have_all_bytes(server, moment, arguments)
}

/// The line of a call of this kind, however many words there are behind the one that names the
/// call.
fn named_of(
    alloc: Global,
    kind: CallKind,
    server: &[u8],
    moment: &[u8],
    arguments: &[&[u8]],
) -> Result<Line, WordsError>
    ensures found { IfOk result (λ l. HasWords l
        × (called_words server.now moment.now (kind_word kind ∷ map (λ w. w.now) arguments.now)
        ≡ line_words l)) }
    ensures bad { IfErr result (λ e. (f : Fault) → e ≡ Bad f
        → IsRestCause (called_fields kind) (server.now ∷ moment.now
        ∷ map (λ w. w.now) arguments.now) f) }
{
    if !are_called(kind, server, moment, arguments) {
        return Err(WordsError::Bad(Fault::Words));
    }
    call_of(alloc, kind, server, moment, arguments)
}

/// The line of the words behind `call`.
fn parse_call(alloc: Global, words: &[&[u8]]) -> Result<Line, WordsError>
    ensures found { IfOk result (λ l. HasWords l
        × (codes "call" ∷ map (λ w. w.now) words.now ≡ line_words l)) }
    ensures bad { IfErr result (λ e. (f : Fault) → e ≡ Bad f
        → IsCalledCause (map (λ w. w.now) words.now) f) }
{
    let [server, moment, word, arguments @ ..] = words else {
        return Err(WordsError::Bad(Fault::Words));
    };
    let Some(kind) = CallKind::read(word) else {
        return Err(WordsError::Bad(Fault::Verb));
    };
    named_of(alloc, kind, server, moment, arguments)
}

/// The line of a verb that the word names, and the words after it.
fn verb_line_of(word: &[u8], words: &[&[u8]]) -> Result<Line, WordsError>
    requires { word.now ≢ codes "call" }
    ensures found { IfOk result (λ l. HasWords l
        × (word.now ∷ map (λ w. w.now) words.now ≡ line_words l)) }
    ensures bad { IfErr result (λ e. (f : Fault) → e ≡ Bad f
        → IsWordsCause (word.now ∷ map (λ w. w.now) words.now) f) }
{
    let Some(verb) = Verb::read(word) else {
        return Err(WordsError::Bad(Fault::Verb));
    };
    if !are_counted(verb, words) {
        return Err(WordsError::Bad(Fault::Words));
    }
    rest_of(verb, words)
}

/// The line of these words.
fn line_of(alloc: Global, words: &[&[u8]]) -> Result<Line, WordsError>
    ensures found { IfOk result (λ l. HasWords l
        × (map (λ w. w.now) words.now ≡ line_words l)) }
    ensures bad { IfErr result (λ e. (f : Fault) → e ≡ Bad f
        → IsWordsCause (map (λ w. w.now) words.now) f) }
{
    let Some((word, rest)) = first_word(words) else {
        return Err(WordsError::Bad(Fault::Verb));
    };
    if is_same(word, b"call") {
        return parse_call(alloc, rest);
    }
    verb_line_of(word, rest)
}

/// The line that a text without its end spells.
pub(crate) fn spelled_line(alloc: Global, text: &[u8]) -> Result<Line, WordsError>
    requires { length text.now ≤ 70000 }
    ensures found { IfOk result (λ l. IsLine l × (text.now ≡ line_body l)) }
    ensures bad { IfErr result (λ e. (f : Fault) → e ≡ Bad f
        → IsWordsCause (words_in text.now) f) }
{
    let mut room = [b"".as_slice(); TOO_MANY];
    let count = first_words(text, &mut room);
    line_of(alloc, &room[..count])
}

/// The line that the text spells, without its line feed: none where the text spells no line.
pub fn read_line(alloc: Global, text: &[u8]) -> Result<Option<Line>, AllocError>
    ensures found { IfOk result (λ o. IfSome o (λ l. IsLine l × (text.now ≡ line_body l))) }
    ensures none { IfOk result (λ o. IfNone o ((l : Line) → IsLine l
        → text.now ≡ line_body l → ⊥)) }
{
    if text.len() > MOST_IN_LINE {
        return Ok(None);
    }
    match spelled_line(alloc, text) {
        Ok(line) => Ok(Some(line)),
        Err(e) => match e {
            WordsError::OutOfMemory => Err(AllocError),
            WordsError::Bad(_) => Ok(None),
        },
    }
}
