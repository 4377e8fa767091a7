//! The first words of a journal's lines.

ghost use Rattle.std.specs.Prelude.{◌≡◌, ◌≢◌, IfSome, IfNone};
ghost use Rattle.pg_journal_lines.specs.Reading.{verb_word};
ghost use Rattle.pg_journal_lines.specs.declared.verb.Verb.{Verb};

use pg_trace::AskedAt;

/// What a line of a journal is, as its first word tells.
#[derive(Clone, Copy, Debug, PartialEq, Eq)]
pub(crate) enum Verb {
    Event,
    Call,
    Tick,
    Void,
    Made,
    Sent,
    Asked(AskedAt),
    At,
    Meter,
}

/// All verbs.
const VERBS: [Verb; 11] = [
    Verb::Event,
    Verb::Call,
    Verb::Tick,
    Verb::Void,
    Verb::Made,
    Verb::Sent,
    Verb::Asked(AskedAt::Settle),
    Verb::Asked(AskedAt::Quiet),
    Verb::Asked(AskedAt::End),
    Verb::At,
    Verb::Meter,
];

impl Verb {
    /// The verb that the word is.
    pub(crate) fn read(word: &[u8]) -> Option<Verb>
        ensures found { IfSome result (λ v. word.now ≡ verb_word v) }
        ensures none { IfNone result ((v : Verb) → word.now ≢ verb_word v) }
    {
        VERBS
            .iter()
            .copied()
            .find(|verb| verb.word().as_bytes() == word)
    }

    /// The word that the verb is.
    fn word(self) -> &'static str
        ensures { result.now ≡ verb_word self }
    {
        match self {
            Verb::Event => "event",
            Verb::Call => "call",
            Verb::Tick => "tick",
            Verb::Void => "void",
            Verb::Made => "made",
            Verb::Sent => "sent",
            Verb::Asked(AskedAt::Settle) => "settle",
            Verb::Asked(AskedAt::Quiet) => "quiet",
            Verb::Asked(AskedAt::End) => "end",
            Verb::At => "at",
            Verb::Meter => "meter",
        }
    }
}
