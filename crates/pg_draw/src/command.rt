//! What the program does.

ghost use Rattle.std.specs.Prelude.{◌≡◌, ◌≢◌, ◌<◌, ◌≤◌, ◌^◌, ◌↔◌, ◌⊎◌, ℕ, List, IfOk, IfErr, IfSome, IsErrAnd, Some, length, vec_len};
ghost use Rattle.std.specs.Io.KnownBytes.{IsAtEnd};
ghost use Rattle.pg_io.specs.Causes.{Rose};
ghost use Rattle.pg_call.specs.declared.fault.Fault.{Fault};
ghost use Rattle.pg_journal.specs.Journal.{IsFirstOther};
ghost use Rattle.pg_picture.specs.Counts.{IsWholePicture};
ghost use Rattle.pg_picture.specs.Picture.{draw};
ghost use Rattle.pg_picture.specs.Picture.Drawing.{Drawn, Lacking};
ghost use Rattle.pg_picture.specs.declared.lack.Lack.{Lack};
ghost use Rattle.pg_picture.specs.declared.lack.NoPicture.TheVariants as no_picture;
ghost use Rattle.pg_picture.specs.declared.sketch.Sketch.{Sketch};
ghost use Rattle.pg_svg.specs.Escaped.{IsXmlText, escaped};
ghost use Rattle.pg_svg.specs.Svg.{svg_text};
ghost use Rattle.pg_trace.specs.declared.journal_line.JournalLine.{JournalLine};
ghost use Rattle.pg_draw.specs.Written.{EndsOnly, FirstLacks, FirstOtherIs, IsDrawable, IsDrawn, IsPictureOf, IsTooLong, LacksAt, WritesAll, WritesPrefix, most_input};
ghost use Rattle.pg_draw.specs.declared.command.NoText.TheVariants as no_text;

use crate::ending::Ending;
use pg_base::Bytes;
use pg_call::Fault;
use pg_io::{ReadAllError, Sink, Source, read_all, write_all};
use pg_journal::read_journal;
use pg_picture::{Lack, NoPicture, draw, pictures_are_whole};
use pg_sched::ReadError;
use pg_svg::{escaped_is_plain, write_svg};
use pg_trace::JournalLine;
use std::alloc::{AllocError, Global};

/// The most bytes that an input may have.
pub const LIMIT: usize = 1 << 26;

/// Why an input has no picture.
#[derive(Clone, Copy, Debug, PartialEq, Eq)]
enum NoText {
    /// The line with this number is the first that is none of a journal.
    BadLine(u64, Fault),
    /// The line with this number is the first that lacks something.
    Lacks(u64, Lack),
    OutOfMemory,
}

/// The picture of the journal as SVG.
fn svg_of(alloc: Global, journal: &[JournalLine]) -> Result<Bytes, NoPicture>
    requires { length journal.now ≤ 2 ^ 26 }
    ensures drawn { IfOk result (λ t. (s : Sketch) × (draw journal.now ≡ Drawn s)
        × (t ≡ svg_text s)) }
    ensures lacks { IfErr result (λ e. (n : ℕ) (l : Lack) → e ≡ no_picture.Lacks n l
        → draw journal.now ≡ Lacking n l) }
{
    let sketch = draw(alloc, journal)?;
    let mut text = Bytes::new(alloc);
    write_svg(alloc, &sketch, &mut text)?;
    Ok(text)
}

/// The text of the picture of the journal that the input spells.
fn text_of(alloc: Global, input: &[u8]) -> Result<Bytes, NoText>
    requires { length input.now ≤ 2 ^ 26 }
    ensures made { IfOk result (λ t. IsPictureOf input.now (λ text. text ≡ t)) }
    ensures bad { IfErr result (λ e. (n : ℕ) (f : Fault) → e ≡ no_text.BadLine n f
        → IsFirstOther input.now n f) }
    ensures lacks { IfErr result (λ e. (n : ℕ) (l : Lack) → e ≡ no_text.Lacks n l
        → LacksAt input.now n l) }
    ensures first_bad { (n : ℕ) (f : Fault) → IsFirstOther input.now n f
        → IsErrAnd result (λ e. (e ≡ no_text.BadLine n f) ⊎ (e ≡ no_text.OutOfMemory)) }
    ensures first_lack { (n : ℕ) (l : Lack) → LacksAt input.now n l
        → IsErrAnd result (λ e. (e ≡ no_text.Lacks n l) ⊎ (e ≡ no_text.OutOfMemory)) }
    ensures complete { IsDrawn input.now → IfErr result (λ e. e ≡ no_text.OutOfMemory) }
{
    let journal = match read_journal(alloc, input) {
        Ok(journal) => journal,
        Err(error) => match error {
            ReadError::BadLine(number, fault) => return Err(NoText::BadLine(number, fault)),
            ReadError::OutOfMemory => return Err(NoText::OutOfMemory),
        },
    };
    match svg_of(alloc, journal.as_slice()) {
        Ok(text) => Ok(text),
        Err(error) => match error {
            NoPicture::Lacks(number, lack) => Err(NoText::Lacks(number, lack)),
            NoPicture::OutOfMemory => Err(NoText::OutOfMemory),
        },
    }
}

/// Reads a journal and writes its picture. Nothing is written, and no line is found bad, before the
/// whole input was read.
pub fn picture<S: Source, K: Sink>(alloc: Global, source: &mut S, sink: &mut K) -> Ending
    // What is written: the picture of the journal, whole.
    ensures done { result ≡ Ending.Done
        → WritesAll (S.remaining source.old) (K.contents sink.old) (K.contents sink.new) }
    ensures whole { result ≡ Ending.Done → IsAtEnd (S.remaining source.new) }
    ensures whole_first { result ≡ Ending.WriteFault → IsAtEnd (S.remaining source.new) }
    ensures prefix { result ≡ Ending.WriteFault
        → WritesPrefix (S.remaining source.old) (K.contents sink.old) (K.contents sink.new) }
    ensures untouched { result ≢ Ending.Done → result ≢ Ending.WriteFault → sink.new ≡ sink.old }

    // When it ends how.
    ensures usage { (n : ℕ) → result ≢ Ending.Usage n }
    ensures read { result ≡ Ending.ReadFault → Rose (S.faults source.old) (S.faults source.new) }
    ensures write { result ≡ Ending.WriteFault → Rose (K.faults sink.old) (K.faults sink.new) }
    ensures limit { most_input ≡ 2 ^ 26 }
    ensures long { result ≡ Ending.InputLong → IfSome (S.remaining source.old) IsTooLong }
    ensures short { (input : List ℕ) → S.remaining source.old ≡ Some input → IsTooLong input
        → ¬ (Rose (S.faults source.old) (S.faults source.new))
        → EndsOnly result Ending.InputLong }
    ensures bad { (n : ℕ) (f : Fault) → result ≡ Ending.BadLine n f
        → FirstOtherIs (S.remaining source.old) n f }
    ensures first_bad { (input : List ℕ) (n : ℕ) (f : Fault) → S.remaining source.old ≡ Some input
        → length input ≤ most_input → IsFirstOther input n f
        → ¬ (Rose (S.faults source.old) (S.faults source.new))
        → EndsOnly result (Ending.BadLine n f) }
    ensures lacks { (n : ℕ) (l : Lack) → result ≡ Ending.Lacks n l
        → FirstLacks (S.remaining source.old) n l }
    ensures first_lack { (input : List ℕ) (n : ℕ) (l : Lack) → S.remaining source.old ≡ Some input
        → length input ≤ most_input → LacksAt input n l
        → ¬ (Rose (S.faults source.old) (S.faults source.new))
        → EndsOnly result (Ending.Lacks n l) }
    ensures complete { IsDrawable (S.remaining source.old)
        → ¬ (Rose (S.faults source.old) (S.faults source.new))
        → ¬ (Rose (K.faults sink.old) (K.faults sink.new))
        → EndsOnly result Ending.Done }
{
    let input = match read_all(alloc, source, LIMIT) {
        Ok(input) => input,
        Err(error) => match error {
            ReadAllError::Fault => return Ending::ReadFault,
            ReadAllError::Long => return Ending::InputLong,
            ReadAllError::OutOfMemory => return Ending::OutOfMemory,
        },
    };
    let text = match text_of(alloc, &input) {
        Ok(text) => text,
        Err(error) => match error {
            NoText::BadLine(number, fault) => return Ending::BadLine(number, fault),
            NoText::Lacks(number, lack) => return Ending::Lacks(number, lack),
            NoText::OutOfMemory => return Ending::OutOfMemory,
        },
    };
    match write_all(sink, text.as_slice()) {
        Ok(()) => Ending::Done,
        Err(_) => Ending::WriteFault,
    }
}

/// Does what the words ask for. Word 0 is the program's name, and there is no other.
pub fn run<S: Source, K: Sink>(
    alloc: Global,
    words: &Vec<String>,
    source: &mut S,
    sink: &mut K,
) -> Ending
    // What is written: the picture of the journal, whole.
    ensures done { result ≡ Ending.Done
        → WritesAll (S.remaining source.old) (K.contents sink.old) (K.contents sink.new) }
    ensures whole { result ≡ Ending.Done → IsAtEnd (S.remaining source.new) }
    ensures whole_first { result ≡ Ending.WriteFault → IsAtEnd (S.remaining source.new) }
    ensures prefix { result ≡ Ending.WriteFault
        → WritesPrefix (S.remaining source.old) (K.contents sink.old) (K.contents sink.new) }
    ensures untouched { result ≢ Ending.Done → result ≢ Ending.WriteFault → sink.new ≡ sink.old }

    // When it ends how.
    ensures word { result ≡ Ending.Usage 1 ↔ (1 < vec_len words.now) }
    ensures usage { (n : ℕ) → result ≡ Ending.Usage n → n ≡ 1 }
    ensures read { result ≡ Ending.ReadFault → Rose (S.faults source.old) (S.faults source.new) }
    ensures write { result ≡ Ending.WriteFault → Rose (K.faults sink.old) (K.faults sink.new) }
    ensures limit { most_input ≡ 2 ^ 26 }
    ensures long { result ≡ Ending.InputLong → IfSome (S.remaining source.old) IsTooLong }
    ensures short { (input : List ℕ) → vec_len words.now ≤ 1
        → S.remaining source.old ≡ Some input → IsTooLong input
        → ¬ (Rose (S.faults source.old) (S.faults source.new))
        → EndsOnly result Ending.InputLong }
    ensures bad { (n : ℕ) (f : Fault) → result ≡ Ending.BadLine n f
        → FirstOtherIs (S.remaining source.old) n f }
    ensures first_bad { (input : List ℕ) (n : ℕ) (f : Fault) → vec_len words.now ≤ 1
        → S.remaining source.old ≡ Some input
        → length input ≤ most_input → IsFirstOther input n f
        → ¬ (Rose (S.faults source.old) (S.faults source.new))
        → EndsOnly result (Ending.BadLine n f) }
    ensures lacks { (n : ℕ) (l : Lack) → result ≡ Ending.Lacks n l
        → FirstLacks (S.remaining source.old) n l }
    ensures first_lack { (input : List ℕ) (n : ℕ) (l : Lack) → vec_len words.now ≤ 1
        → S.remaining source.old ≡ Some input
        → length input ≤ most_input → LacksAt input n l
        → ¬ (Rose (S.faults source.old) (S.faults source.new))
        → EndsOnly result (Ending.Lacks n l) }
    ensures complete { vec_len words.now ≤ 1 → IsDrawable (S.remaining source.old)
        → ¬ (Rose (S.faults source.old) (S.faults source.new))
        → ¬ (Rose (K.faults sink.old) (K.faults sink.new))
        → EndsOnly result Ending.Done }

    // What is drawn is what the journal says: a mark for each event, and one arrow, cross, fork or
    // open end for each message. What a text holds cannot break the picture.
    ensures counted { (journal : List JournalLine) (s : Sketch) → draw journal ≡ Drawn s
        → IsWholePicture journal s }
    ensures escaped { (text : List ℕ) → IsXmlText (escaped text) }
{
    // Two laws, which these calls say. They do nothing.
    pictures_are_whole();
    escaped_is_plain();

    if words.len() > 1 {
        return Ending::Usage(1);
    }
    picture(alloc, source, sink)
}
