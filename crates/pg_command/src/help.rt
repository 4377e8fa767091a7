//! Words that ask for help.

ghost use Rattle.std.specs.Prelude.{◌≡◌, ◌≢◌, ◌∷◌, [], Bool, IfSome, IfNone, map};
ghost use Rattle.std.specs.String.{string_bytes};
ghost use Rattle.pg_command.specs.Verb.{IsHelp, help_word, help_words};

use crate::command::Help;
use crate::verb::Verb;

/// Whether the word asks for help at length, where it asks for help.
fn length_of(word: &[u8]) -> Option<bool>
    ensures found { IfSome result (λ long. word.now ≡ help_word long) }
    ensures none { IfNone result ((long : Bool) → word.now ≢ help_word long) }
{
    match word {
        b"-h" => Some(false),
        b"--help" => Some(true),
        _ => None,
    }
}

/// The help that a command's word and the one behind it ask for.
fn help_behind(word: &[u8], behind: &[u8]) -> Option<Help>
    ensures found { IfSome result (λ help. word.now ∷ behind.now ∷ [] ≡ help_words help) }
    ensures none { IfNone result (IsHelp (word.now ∷ behind.now ∷ []) → ⊥) }
{
    let verb = Verb::read(word)?;
    let long = length_of(behind)?;
    Some(Help {
        of: Some(verb),
        long,
    })
}

/// The help that the words behind the program's name ask for, where they ask for nothing else.
pub(crate) fn help_in(words: &[String]) -> Option<Help>
    ensures found { IfSome result (λ help.
        map (λ w. string_bytes w) words.now ≡ help_words help) }
    ensures none { IfNone result (IsHelp (map (λ w. string_bytes w) words.now) → ⊥) }
{
    match words {
        [word] => match length_of(word.as_bytes()) {
            Some(long) => Some(Help { of: None, long }),
            None => None,
        },
        [word, behind] => help_behind(word.as_bytes(), behind.as_bytes()),
        _ => None,
    }
}
