//! A key that a peer has not acknowledged.

use pg_base::FileId;
use pg_edges::Key;

/// A key of a file's replica that a peer has not acknowledged. Dues are ordered by file, and those
/// of one file by key.
#[derive(Clone, Copy, Debug, PartialEq, Eq, PartialOrd, Ord)]
pub struct Due {
    pub file: FileId,
    pub key: Key,
}
