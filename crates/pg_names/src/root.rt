//! The root, and the ids of directories.

ghost use Rattle.std.specs.Prelude.{◌≡◌};
ghost use Rattle.pg_register.specs.Place.{root};
ghost use Rattle.pg_names.specs.Names.{is_dir};
ghost use Rattle.pg_names.specs.Calm.{is_root};

use pg_base::{FileId, Kind};

/// The id of the directory above all others.
pub(crate) fn root() -> FileId
    ensures { result ≡ root }
{
    FileId {
        kind: Kind::Dir,
        server: 0,
        number: 0,
    }
}

/// Whether this is the root, the directory above all others.
pub fn is_root(file: &FileId) -> bool
    ensures { result ≡ is_root file.now }
{
    file.compare(&root()).is_eq()
}

/// Whether this is the id of a directory.
pub fn is_dir(file: &FileId) -> bool
    ensures { result ≡ is_dir file.now }
{
    match file.kind {
        Kind::Dir => true,
        Kind::File => false,
    }
}
