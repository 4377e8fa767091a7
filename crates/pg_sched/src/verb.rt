//! The verbs of lines.

ghost use Rattle.std.specs.Prelude.{◌≡◌, ◌≢◌, IfSome, IfNone, length};
ghost use Rattle.pg_sched.specs.Fields.{verb_word, fields};
ghost use Rattle.pg_sched.specs.declared.verb.Verb.{Verb};

/// The first word of a line, which says what the others are.
#[derive(Clone, Copy, Debug, PartialEq, Eq)]
pub(crate) enum Verb {
    Tick,
    Deliver,
    Lose,
    Repeat,
    Restart,
    Remove,
    Settle,
    Quiet,
    Trace,
    Show,
    Meter,
}

/// All verbs.
const VERBS: [Verb; 11] = [
    Verb::Tick,
    Verb::Deliver,
    Verb::Lose,
    Verb::Repeat,
    Verb::Restart,
    Verb::Remove,
    Verb::Settle,
    Verb::Quiet,
    Verb::Trace,
    Verb::Show,
    Verb::Meter,
];

impl Verb {
    /// The verb that the word is.
    pub(crate) fn read(word: &[u8]) -> Option<Verb>
        ensures found { IfSome result (λ v. word.now ≡ verb_word v) }
        ensures none { IfNone result ((v : Verb) → word.now ≢ verb_word v) }
    {
        VERBS
            .iter()
            .copied()
            .find(|verb| verb.word().as_bytes() == word)
    }

    /// The word that the verb is.
    fn word(self) -> &'static str
        ensures { result.now ≡ verb_word self }
    {
        match self {
            Verb::Tick => "tick",
            Verb::Deliver => "deliver",
            Verb::Lose => "lose",
            Verb::Repeat => "repeat",
            Verb::Restart => "restart",
            Verb::Remove => "remove",
            Verb::Settle => "settle",
            Verb::Quiet => "quiet",
            Verb::Trace => "trace",
            Verb::Show => "show",
            Verb::Meter => "meter",
        }
    }

    /// How many words stand behind it.
    pub(crate) fn count(self) -> usize
        ensures { result ≡ length (fields self) }
    {
        match self {
            Verb::Quiet => 0,
            Verb::Deliver
            | Verb::Lose
            | Verb::Repeat
            | Verb::Restart
            | Verb::Remove
            | Verb::Trace
            | Verb::Show => 1,
            Verb::Settle | Verb::Meter => 2,
            Verb::Tick => 3,
        }
    }
}
