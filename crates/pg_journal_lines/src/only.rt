//! Words of which there is one alone.

ghost use Rattle.std.specs.Prelude.{◌≡◌, ◌<◌, ◌^◌, ◌∷◌, [], ℕ, List, IfSome, IfNone, decimal, map};
ghost use Rattle.pg_base.specs.Id.{Fits, spelling};
ghost use Rattle.pg_base.specs.StampText.{stamp_text};
ghost use Rattle.pg_base.specs.declared.id.FileId.{FileId};
ghost use Rattle.pg_base.specs.declared.stamp.Stamp.{Stamp};
ghost use Rattle.pg_words.specs.StampWord.{IsStamp};

use pg_base::{FileId, NodeId, Stamp, number, number_u32};
use pg_words::{read_id, read_stamp};

/// The only word.
pub(crate) fn only_word<'a>(words: &[&'a [u8]]) -> Option<&'a [u8]>
    ensures found { IfSome result (λ x. map (λ w. w.now) words.now ≡ x.now ∷ []) }
    ensures none { IfNone result ((x : List ℕ) → map (λ w. w.now) words.now ≡ x ∷ [] → ⊥) }
{
    match words {
        [word] => Some(*word),
        _ => None,
    }
}

/// The id that the only word spells.
pub fn only_id(words: &[&[u8]]) -> Option<FileId>
    ensures found { IfSome result (λ f. Fits f × (map (λ w. w.now) words.now ≡ spelling f ∷ [])) }
    ensures none { IfNone result ((f : FileId) → Fits f
        → map (λ w. w.now) words.now ≡ spelling f ∷ [] → ⊥) }
{
    read_id(only_word(words)?)
}

/// The stamp that the only word spells.
pub(crate) fn only_stamp(words: &[&[u8]]) -> Option<Stamp>
    ensures found { IfSome result (λ s. IsStamp s
        × (map (λ w. w.now) words.now ≡ stamp_text s ∷ [])) }
    ensures none { IfNone result ((s : Stamp) → IsStamp s
        → map (λ w. w.now) words.now ≡ stamp_text s ∷ [] → ⊥) }
{
    read_stamp(only_word(words)?)
}

/// The number that the only word spells.
pub(crate) fn only_number(words: &[&[u8]]) -> Option<u64>
    ensures found { IfSome result (λ n. map (λ w. w.now) words.now ≡ decimal n ∷ []) }
    ensures none { IfNone result ((n : ℕ) → n < 2 ^ 64
        → map (λ w. w.now) words.now ≡ decimal n ∷ [] → ⊥) }
{
    number(only_word(words)?)
}

/// The server that the only word names.
pub(crate) fn only_server(words: &[&[u8]]) -> Option<NodeId>
    ensures found { IfSome result (λ n. map (λ w. w.now) words.now ≡ decimal n ∷ []) }
    ensures none { IfNone result ((n : ℕ) → n < 2 ^ 32
        → map (λ w. w.now) words.now ≡ decimal n ∷ [] → ⊥) }
{
    number_u32(only_word(words)?)
}
