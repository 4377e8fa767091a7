//! Lines that can be read, and words that stand in them alone.

ghost use Rattle.std.specs.Prelude.{◌≡◌, IfOk, IfErr, OnOk, IsTrue, ◌↔◌, All, codes};
ghost use Rattle.pg_call.specs.Fields.{IsWordOf};
ghost use Rattle.pg_call.specs.Fields.Field.{Form as FormName, Off};
ghost use Rattle.pg_call.specs.declared.error.WordsError.TheVariants.{Bad};
ghost use Rattle.pg_call.specs.declared.fault.Fault.TheVariants as fault;
ghost use Rattle.pg_sched.specs.Cause.{IsPrintable};
ghost use Rattle.pg_sched.specs.Line.{form_word};

use crate::line::Form;
use pg_call::{Fault, WordsError};
use pg_words::is_same;

fn is_printable(byte: u8) -> bool
    ensures { IsTrue result ↔ IsPrintable byte }
{
    b' ' <= byte && byte <= b'~'
}

/// Whether each byte is printable ASCII.
pub(crate) fn are_printable(line: &[u8]) -> bool
    ensures { IsTrue result ↔ All IsPrintable line.now }
{
    line.iter().all(|byte| is_printable(*byte))
}

/// The form that the word names.
pub(crate) fn form_of(word: &[u8]) -> Result<Form, WordsError>
    ensures found { IfOk result (λ f. word.now ≡ form_word f) }
    ensures bad { IfErr result (λ e. e ≡ Bad fault.Mode) }
    ensures none { IfErr result (λ e. IsWordOf FormName word.now → ⊥) }
{
    match word {
        b"full" => Ok(Form::Full),
        b"short" => Ok(Form::Short),
        _ => Err(WordsError::Bad(Fault::Mode)),
    }
}

/// Whether the word says that a meter is off.
pub(crate) fn off_of(word: &[u8]) -> Result<(), WordsError>
    ensures found { OnOk result (word.now ≡ codes "off") }
    ensures bad { IfErr result (λ e. e ≡ Bad fault.Mode) }
    ensures none { IfErr result (λ e. IsWordOf Off word.now → ⊥) }
{
    if !is_same(word, b"off") {
        return Err(WordsError::Bad(Fault::Mode));
    }
    Ok(())
}
