//! Laws of ranges.

ghost use Rattle.std.specs.Prelude.{◌≡◌, ℕ, List};
ghost use Rattle.pg_patch.specs.Ranges.{RangesValue, IsRanges, IsComposed, applied};

/// Two ranges one after another do what their composition does, on a body of any length.
pub fn compose_is_two_applies()
    ensures { (a b c : RangesValue) → IsRanges a → IsRanges b → IsComposed a b c → (body : List ℕ)
        → applied (applied body a) b ≡ applied body c }
{}

/// Two ranges have one composition.
pub fn one_composition()
    ensures { (a b c d : RangesValue) → IsRanges c → IsRanges d → IsComposed a b c
        → IsComposed a b d → c ≡ d }
{}
