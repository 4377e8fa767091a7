//! Kinds of intentions, and their words.

ghost use Rattle.std.specs.Prelude.{◌≡◌, IfSome, IfNone};
ghost use Rattle.pg_intent.specs.Kind.{intent_word};
ghost use Rattle.pg_intent.specs.declared.kind.IntentKind.{IntentKind};

use std::fmt;

/// What a server intends until others have answered.
#[derive(Clone, Copy, Debug, PartialEq, Eq)]
pub enum IntentKind {
    /// To tell a peer that the replica is gone.
    Bye,
    /// To find a live gold replica.
    Seek,
    /// To get a replica filled.
    Fill,
    /// To carry a newer place to a replica of a directory.
    Patch,
    /// To ask a holder of a child for its place.
    Confirm,
    /// To ask a gold peer for leave to drop.
    Leave,
}

/// All kinds of intentions.
const KINDS: [IntentKind; 6] = [
    IntentKind::Bye,
    IntentKind::Seek,
    IntentKind::Fill,
    IntentKind::Patch,
    IntentKind::Confirm,
    IntentKind::Leave,
];

impl IntentKind {
    /// The word that names the kind.
    fn word(self) -> &'static str
        ensures { result.now ≡ intent_word self }
    {
        match self {
            IntentKind::Bye => "Bye",
            IntentKind::Seek => "Seek",
            IntentKind::Fill => "Fill",
            IntentKind::Patch => "Patch",
            IntentKind::Confirm => "Confirm",
            IntentKind::Leave => "Leave",
        }
    }
}

impl fmt::Display for IntentKind {
    ghost use Rattle.std.specs.Prelude.{Some};
    ghost use Rattle.pg_intent.specs.Kind.{intent_word};

    ghost output = { λ k. Some (intent_word k) };

    fn fmt<W: fmt::Write>(&self, f: &mut fmt::Formatter<W>) -> fmt::Result {
        f.write_str(self.word())
    }
}

/// The kind of intention that the word names.
pub fn read_intent_kind(word: &[u8]) -> Option<IntentKind>
    ensures found { IfSome result (λ k. word.now ≡ intent_word k) }
    ensures none { IfNone result ((k : IntentKind) → word.now ≡ intent_word k → ⊥) }
{
    KINDS
        .iter()
        .copied()
        .find(|kind| kind.word().as_bytes() == word)
}
