//! What holds of slots.

ghost use Rattle.std.specs.Prelude.{◌≡◌, List, ℕ};
ghost use Rattle.std.specs.declared.option.Option.{Option};
ghost use Rattle.pg_checkpoint.specs.Slots.{Slot, IsSlot};
ghost use Rattle.pg_checkpoint.specs.Loads.{LoadsTo};

/// A file has one slot, and two files load to one, or to none.
pub fn slots_load_once()
    ensures slot { (file : List ℕ) (a b : Slot) → IsSlot file a → IsSlot file b → a ≡ b }
    ensures loaded { (first second : List ℕ) (a b : Option Slot)
        → LoadsTo first second a → LoadsTo first second b → a ≡ b }
{}
