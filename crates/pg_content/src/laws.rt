//! Laws of histories and contents.

ghost use Rattle.std.specs.Prelude.{ℕ, ◌≡◌, ◌<◌, ◌^◌, All, ◌⊎◌, ◌↔◌, List, [], ◌∷◌, map};
ghost use Rattle.pg_base.specs.declared.stamp.Stamp.{Stamp};
ghost use Rattle.pg_base.specs.declared.vector.Actor.{Actor};
ghost use Rattle.pg_base.specs.Vector.{Covers, IsVector, number_at};
ghost use Rattle.pg_patch.specs.Ranges.{RangesValue};
ghost use Rattle.pg_content.specs.Content.{Among, ContentValue, IsCovered, joined_content, joined_version, written};
ghost use Rattle.pg_content.specs.Covering.{AreCoveredBy, AreVersionsOf, IsUpToHead, IsVectorUpTo};
ghost use Rattle.pg_content.specs.History.{IsAncestor, IsHead, IsHistory, IsMember, IsNext, Made, maker, number_of, vector_of, version_of};
ghost use Rattle.pg_content.specs.StandsFor.{IsClosed, IsWith, StandsFor, content_of};
ghost use Rattle.pg_base.specs.Version.{VersionValue, stamp_of};
ghost use Rattle.pg_base.specs.declared.policy.Policy.{Policy};

/// A version's vector covers exactly the version itself and its ancestors.
pub fn ancestry_by_vectors()
    ensures covers { (h : List Made) → IsHistory h → (u v : Made) → Among u h → Among v h
        → Covers (vector_of h v.stamp) (maker u) (number_of h u)
        ↔ ((u ≡ v) ⊎ IsAncestor h u.stamp v.stamp) }
    ensures vector { (h : List Made) → IsHistory h → (s : Stamp) → IsVector (vector_of h s) }
    ensures transitive { (h : List Made) → IsHistory h → (a b c : Stamp) → IsAncestor h a b
        → IsAncestor h b c → IsAncestor h a c }
    ensures other { (h : List Made) → IsHistory h → (s : Stamp) → IsAncestor h s s → ⊥ }
{}

/// A content has the heads of the set of versions that it stands for. Joins and writes keep it so,
/// and contents that stand for the same versions are one.
pub fn content_is_its_heads()
    ensures empty { (policy : Policy) (h : List Made)
        → StandsFor (record { policy = policy; heads = [] }) h [] }
    ensures join { (h : List Made) → IsHistory h → (c : ContentValue) (old new : List Stamp)
        → StandsFor c h old → (m : Made) → Among m h → IsWith h old m.stamp new
        → StandsFor (joined_content c (version_of c.policy h m)) h new }
    ensures next { (m : Made) (h : List Made) → IsHistory h → (c : ContentValue) (set : List Stamp)
        → StandsFor c h set → m.bases ≡ map stamp_of c.heads → (IsMember h m.stamp → ⊥)
        → ((e : Made) → Among e h → maker e ≡ maker m → Among e.stamp set) → m.stamp.server < 2 ^ 32
        → m.birth < 2 ^ 64 → All (λ v. number_at v.head.vector (maker m) < 2 ^ 63) c.heads
        → IsNext h m }
    ensures write { (m : Made) (h : List Made) → IsHistory (m ∷ h)
        → (c : ContentValue) (set : List Stamp) → StandsFor c h set → m.bases ≡ map stamp_of c.heads
        → StandsFor (written c (maker m) m.stamp m.ranges) (m ∷ h) (m.stamp ∷ set) }
    ensures later { (m : Made) (h : List Made) → IsHistory (m ∷ h)
        → (c : ContentValue) (set : List Stamp) → StandsFor c h set → StandsFor c (m ∷ h) set }
    ensures heads { (h : List Made) → IsHistory h → (c : ContentValue) (set : List Stamp)
        → StandsFor c h set → (m : Made) → Among m h
        → IsHead h set m.stamp ↔ Among (version_of c.policy h m) c.heads }
    ensures closed { (policy : Policy) (h : List Made) → IsHistory h → (set : List Stamp)
        → IsClosed h set → StandsFor (content_of policy h set) h set }
    ensures whole { (h : List Made) → IsHistory h → (c : ContentValue) (set : List Stamp)
        → StandsFor c h set → c ≡ content_of c.policy h set }
    ensures same { (h : List Made) (c d : ContentValue) (first second : List Stamp) → IsHistory h
        → StandsFor c h first → StandsFor d h second → c.policy ≡ d.policy
        → ((s : Stamp) → Among s first ↔ Among s second) → c ≡ d }
{}

/// Where a version's vector covers another version, it has at each actor the other's number or a
/// greater one. Versions whose vectors are up to each other are one.
pub fn covering_is_pointwise()
    ensures pointwise { (h : List Made) → IsHistory h → (u v : Made) → Among u h → Among v h
        → Covers (vector_of h v.stamp) (maker u) (number_of h u)
        ↔ IsVectorUpTo (vector_of h u.stamp) (vector_of h v.stamp) }
    ensures same { (h : List Made) → IsHistory h → (u v : Made) → Among u h → Among v h
        → IsVectorUpTo (vector_of h u.stamp) (vector_of h v.stamp)
        → IsVectorUpTo (vector_of h v.stamp) (vector_of h u.stamp) → u ≡ v }
    ensures reflexive { (xs : List (Actor × ℕ)) → IsVectorUpTo xs xs }
    ensures transitive { (xs ys zs : List (Actor × ℕ)) → IsVectorUpTo xs ys → IsVectorUpTo ys zs
        → IsVectorUpTo xs zs }
{}

/// Of contents that stand for sets of one history, the heads of one are covered by the other's
/// exactly where its set lies within the other's. So contents of one policy whose heads cover each
/// other are the same, and show the same bytes.
pub fn covering_heads_are_the_same()
    ensures within { (h : List Made) → IsHistory h
        → (c d : ContentValue) (first second : List Stamp) → StandsFor c h first
        → StandsFor d h second
        → AreCoveredBy c.heads d.heads ↔ ((s : Stamp) → Among s first → Among s second) }
    ensures same { (h : List Made) → IsHistory h → (c d : ContentValue) (first second : List Stamp)
        → StandsFor c h first → StandsFor d h second → c.policy ≡ d.policy
        → AreCoveredBy c.heads d.heads → AreCoveredBy d.heads c.heads → c ≡ d }
    ensures reflexive { (vs : List VersionValue) → AreCoveredBy vs vs }
    ensures transitive { (vs ws xs : List VersionValue) → AreCoveredBy vs ws → AreCoveredBy ws xs
        → AreCoveredBy vs xs }
{}

/// After a join or a write each old head is covered by the heads, and so is the version that was
/// joined. What was covered stays covered. The heads are to be versions of one history, as are
/// those of a content that stands for a set of it.
pub fn covering_goes_on()
    ensures join { (h : List Made) → IsHistory h → (policy : Policy) (heads : List VersionValue)
        → AreVersionsOf policy h heads → (m : Made) → Among m h
        → AreCoveredBy heads (joined_version heads (version_of policy h m)) }
    ensures joined { (h : List Made) → IsHistory h → (policy : Policy) (heads : List VersionValue)
        → AreVersionsOf policy h heads → (m : Made) → Among m h
        → IsUpToHead (vector_of h m.stamp) (joined_version heads (version_of policy h m)) }
    ensures write { (h : List Made) → IsHistory h → (c : ContentValue)
        → AreVersionsOf c.policy h c.heads → (a : Actor) (stamp : Stamp) (ranges : RangesValue)
        → AreCoveredBy c.heads ((written c a stamp ranges).heads) }
    ensures covered { (vs ws : List VersionValue) → AreCoveredBy vs ws → (a : Actor) (n : ℕ)
        → IsCovered vs a n → IsCovered ws a n }
    ensures versions { (h : List Made) (c : ContentValue) (set : List Stamp) → StandsFor c h set
        → AreVersionsOf c.policy h c.heads }
{}
