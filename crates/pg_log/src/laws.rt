//! What holds of files of logs.

ghost use Rattle.std.specs.Prelude.{◌≡◌, List, ℕ};
ghost use Rattle.std.specs.declared.option.Option.{Option};
ghost use Rattle.pg_disk.specs.Disk.{IsImage};
ghost use Rattle.pg_disk.specs.Told.{Told, steps, steps_of};
ghost use Rattle.pg_log.specs.Bytes.{OpensTo, IsBadAt};
ghost use Rattle.pg_log.specs.Log.{Stands};

/// A file opens to one list of entries, or it is bad at one place, and never both.
pub fn files_open_once()
    ensures entries { (file : List ℕ) (a b : List (List ℕ))
        → OpensTo file a → OpensTo file b → a ≡ b }
    ensures place { (file : List ℕ) (a b : ℕ) → IsBadAt file a → IsBadAt file b → a ≡ b }
    ensures never_both { (file : List ℕ) (entries : List (List ℕ)) (place : ℕ)
        → OpensTo file entries → IsBadAt file place → ⊥ }
{}

/// A log that stands opens to its entries, whatever a crash leaves of its file. It stands as long
/// as no step more is done to the file of that name.
pub fn standing_logs_open()
    ensures opens { (log : Option ℕ) (told : Told) (entries : List (List ℕ))
        → Stands log told entries → (image : List ℕ) → IsImage (steps told 0) image
        → OpensTo image entries }
    ensures stays { (log : Option ℕ) (old new : Told) (entries : List (List ℕ))
        → new.chosen ≡ old.chosen
        → steps_of old.chosen 0 new.history ≡ steps_of old.chosen 0 old.history
        → Stands log old entries → Stands log new entries }
{}
