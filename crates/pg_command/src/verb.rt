//! The words that name commands.

ghost use Rattle.std.specs.Prelude.{◌≡◌, ◌≢◌, IfSome, IfNone};
ghost use Rattle.pg_command.specs.Verb.{verb_word};
ghost use Rattle.pg_command.specs.declared.verb.Verb.{Verb};

/// A word that names a command.
#[derive(Clone, Copy, Debug, PartialEq, Eq)]
pub enum Verb {
    Replay,
    Make,
    Soak,
    Node,
    Call,
}

impl Verb {
    /// The command that the word names.
    pub(crate) fn read(word: &[u8]) -> Option<Verb>
        ensures found { IfSome result (λ v. word.now ≡ verb_word v) }
        ensures none { IfNone result ((v : Verb) → word.now ≢ verb_word v) }
    {
        let verb = match word {
            b"replay" => Verb::Replay,
            b"make" => Verb::Make,
            b"soak" => Verb::Soak,
            b"node" => Verb::Node,
            b"call" => Verb::Call,
            _ => return None,
        };
        Some(verb)
    }
}
