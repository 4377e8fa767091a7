//! Laws of kept deltas.

ghost use Rattle.std.specs.Prelude.{ℕ, ◌≡◌, ◌≤◌, List, [], ◌∷◌, ◌++◌, Option, filter, length, true};
ghost use Rattle.pg_base.specs.declared.policy.Policy.{Policy};
ghost use Rattle.pg_base.specs.declared.stamp.Stamp.{Stamp};
ghost use Rattle.pg_patch.specs.Ranges.{IsComposed, IsRanges, RangesValue, applied};
ghost use Rattle.pg_content.specs.Content.{Among, ContentValue, shown_bytes};
ghost use Rattle.pg_content.specs.History.{IsHistory, Made, body_of, version_of};
ghost use Rattle.pg_content.specs.StandsFor.{IsWith, StandsFor};
ghost use Rattle.pg_delta.specs.declared.delta.KeptDelta.{KeptDelta};
ghost use Rattle.pg_delta.specs.Chain.{IsComposition, IsDelta, LeadsBy, applied_all};
ghost use Rattle.pg_delta.specs.Kept.{is_small, is_within, kept_deltas, with_delta};
ghost use Rattle.pg_delta.specs.Leading.{AreTrueDeltas, IsTrueDelta, shown_of};
ghost use Rattle.pg_delta.specs.Taking.{delta_to, stamps_of, with_patched};
ghost use Rattle.pg_delta.specs.Whole.{composed, delta_of};

/// The kept deltas are the longest end, within the limits, of all that are small enough. So they
/// are after one more, whatever was dropped before.
pub fn kept_is_the_longest_end()
    ensures next { (all : List KeptDelta) (d : KeptDelta)
        → with_delta (kept_deltas all) d ≡ kept_deltas (all ++ d ∷ []) }
    ensures end { (all : List KeptDelta)
        → (older : List KeptDelta) × (filter is_small all ≡ older ++ kept_deltas all) }
    ensures within { (all : List KeptDelta) → is_within (kept_deltas all) ≡ true }
    ensures longest { (all older rest : List KeptDelta) → filter is_small all ≡ older ++ rest
        → is_within rest ≡ true → length rest ≤ length (kept_deltas all) }
{}

/// The ranges of a chain in one do what its steps do one after another, on a body of any length.
/// There is one such composition, and one answer to what is to be sent: it is what is computed.
pub fn a_chain_is_one_delta()
    ensures applied { (steps : List KeptDelta) (c : RangesValue) → IsComposition steps c
        → (body : List ℕ) → applied_all steps body ≡ applied body c }
    ensures one { (steps : List KeptDelta) (c d : RangesValue) → IsRanges c → IsRanges d
        → IsComposition steps c → IsComposition steps d → c ≡ d }
    ensures answer { (kept : List KeptDelta) (from : List Stamp) (to : Stamp) (len : ℕ)
        → (a b : Option RangesValue) → IsDelta kept from to len a → IsDelta kept from to len b
        → a ≡ b }
    ensures computed { (kept : List KeptDelta) (from : List Stamp) (to : Stamp) (len : ℕ)
        → (r : Option RangesValue) → IsDelta kept from to len r → r ≡ delta_of kept from to len }
    ensures composed { (a b : RangesValue) → IsRanges a → IsRanges b
        → IsComposed a b (composed a b) }
{}

/// The delta of a version that was made is true, and stays so. Where all that are kept are true,
/// what they lead to in one is the body of the version.
pub fn deltas_lead_to_bodies()
    ensures made { (policy : Policy) (m : Made) (h : List Made) → IsHistory (m ∷ h)
        → IsTrueDelta policy (m ∷ h) (delta_to m.bases m.stamp m.ranges) }
    ensures later { (policy : Policy) (m : Made) (h : List Made) → IsHistory (m ∷ h)
        → (d : KeptDelta) → IsTrueDelta policy h d → IsTrueDelta policy (m ∷ h) d }
    ensures leads { (policy : Policy) (h : List Made) (kept : List KeptDelta)
        → AreTrueDeltas policy h kept → (from : List Stamp) (to : Stamp) (c : RangesValue)
        → LeadsBy kept from to c → applied (shown_of policy h from) c ≡ body_of policy h to }
{}

/// A content that takes a version as a delta, whose ranges make the version's body of what it
/// shows, stands for the set with that version and its ancestors. So it does with the ranges that
/// true deltas lead to from its heads.
pub fn taking_stands()
    ensures taken { (h : List Made) → IsHistory h → (c : ContentValue) (old new : List Stamp)
        → StandsFor c h old → (m : Made) → Among m h → IsWith h old m.stamp new
        → (r : RangesValue) → applied (shown_bytes c) r ≡ body_of c.policy h m.stamp
        → StandsFor (with_patched c (version_of c.policy h m).head r) h new }
    ensures shown { (h : List Made) (c : ContentValue) (set : List Stamp) → StandsFor c h set
        → shown_bytes c ≡ shown_of c.policy h (stamps_of c) }
    ensures sent { (h : List Made) → IsHistory h → (c : ContentValue) (old new : List Stamp)
        → StandsFor c h old → (m : Made) → Among m h → IsWith h old m.stamp new
        → (kept : List KeptDelta) → AreTrueDeltas c.policy h kept → (r : RangesValue)
        → LeadsBy kept (stamps_of c) m.stamp r
        → StandsFor (with_patched c (version_of c.policy h m).head r) h new }
{}
