//! What holds of all entries.

ghost use Rattle.std.specs.Prelude.{List};
ghost use Rattle.pg_base.specs.declared.id.FileId.{FileId};
ghost use Rattle.pg_entries.specs.declared.entry.Entry.{Entry};
ghost use Rattle.pg_entries.specs.Shown.{ShownNamesDiffer};
ghost use Rattle.pg_entries.specs.Entry.{JoinedIsFound, PutIsFound};

/// No two children that a directory lists show one name, as long as each is named as in every run:
/// by a name without a tilde, or by the name that is made of its own id.
pub fn shown_names_differ()
    ensures { (entries : List (FileId × Entry)) (dir : FileId) → ShownNamesDiffer entries dir }
{}

/// What is known of each child after an entry was put, or joined.
pub fn entries_are_found()
    ensures put { (entries : List (FileId × Entry)) (e : Entry) (child : FileId)
        → PutIsFound entries e child }
    ensures joined { (entries : List (FileId × Entry)) (e : Entry) (child : FileId)
        → JoinedIsFound entries e child }
{}
