//! What a server may be asked for, by the word that names it.

ghost use Rattle.std.specs.Prelude.{◌≡◌, IfSome, IfNone};
ghost use Rattle.pg_command.specs.Words.{IsAskedWord, asked_word};

use pg_call::CallKind;
use pg_words::is_same;

/// What a server may be asked for: a call of this kind, or that it ticks.
#[derive(Clone, Copy, Debug, PartialEq, Eq)]
pub(crate) enum Asked {
    Call(CallKind),
    Tick,
}

impl Asked {
    /// What the word names.
    pub(crate) fn read(word: &[u8]) -> Option<Asked>
        ensures found { IfSome result (λ a. word.now ≡ asked_word a) }
        ensures none { IfNone result (IsAskedWord word.now → ⊥) }
    {
        if is_same(word, b"tick") {
            return Some(Asked::Tick);
        }
        match CallKind::read(word) {
            Some(kind) => Some(Asked::Call(kind)),
            None => None,
        }
    }
}
