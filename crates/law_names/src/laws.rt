//! What holds of names in any run.

ghost use Rattle.std.specs.Prelude.{ℕ};
ghost use Rattle.pg_run.specs.Laws.{NamesMerge};
ghost use Rattle.law_names.specs.Merged.{NamesStandOn};

/// After any events a server holds just the things of which a replica began there, and knows of
/// names just what its replicas took: each has of its places the latest, and of each server's flags
/// the newest; and so has each directory of its children. Passing is included, and what is held
/// back.
pub fn names_are_what_was_taken()
    ensures { (servers : ℕ) → NamesStandOn servers → NamesMerge servers }
{}
