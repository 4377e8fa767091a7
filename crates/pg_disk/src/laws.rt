//! What holds of every disk that tells.

ghost use Rattle.std.specs.Prelude.{◌≡◌, ◌≢◌, List, ℕ};
ghost use Rattle.pg_disk.specs.Disk.{Change, Sync, Done, Failing, IsImage};
ghost use Rattle.pg_disk.specs.Told.{Told, steps, with_step};

/// A crash during a call that fails, a write or a cut leaves what a crash behind it may leave: what
/// a crash before it may leave is among that. A crash during a sync leaves what a crash before it
/// may leave.
pub fn moments_are_between_calls()
    ensures failing { (told : Told) (file : ℕ) (change : Change) (left image : List ℕ)
        → IsImage (steps told file) image
        → IsImage (steps (with_step told file (Failing change left)) file) image }
    ensures done { (told : Told) (file : ℕ) (change : Change) (image : List ℕ)
        → change ≢ Sync → IsImage (steps told file) image
        → IsImage (steps (with_step told file (Done change)) file) image }
{}
