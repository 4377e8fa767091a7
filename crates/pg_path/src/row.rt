//! Names as a directory shows them.

ghost use Rattle.std.specs.Prelude.{◌≡◌, IfOk};

use pg_base::{FileId, SharedBytes};
use std::alloc::AllocError;

/// A child of a directory, and the name that it shows.
#[derive(Debug, Drop)]
pub struct Row {
    pub name: SharedBytes,
    pub child: FileId,
}

impl Row {
    /// Copies the row. The name's bytes are shared.
    pub fn copy(&self) -> Result<Row, AllocError>
        ensures { IfOk result (λ r. r ≡ self.now) }
    {
        Ok(Row {
            name: self.name.copy()?,
            child: self.child,
        })
    }
}
