//! A thing's own place and flags.

ghost use Rattle.std.specs.Prelude.{◌≡◌, IfOk};
ghost use Rattle.pg_names.specs.Names.{blank_own};

use pg_base::FileId;
use pg_register::{GoldFlags, Place};
use std::alloc::{AllocError, Global};

/// Where a file or directory stands, and the flags of its gold replicas, as it has them itself.
#[derive(Debug, Drop)]
pub struct Attributes {
    pub place: Place,
    pub flags: GoldFlags,
}

impl Attributes {
    /// What is known of a thing before anything is.
    pub fn blank(alloc: Global, file: FileId) -> Result<Attributes, AllocError>
        ensures { IfOk result (λ own. own ≡ blank_own file) }
    {
        Ok(Attributes {
            place: Place::blank(alloc, file)?,
            flags: GoldFlags::new(alloc),
        })
    }

    /// Copies the place and the flags. The name is shared.
    pub fn copy(&self) -> Result<Attributes, AllocError>
        ensures { IfOk result (λ own. own ≡ self.now) }
    {
        Ok(Attributes {
            place: self.place.copy()?,
            flags: self.flags.copy()?,
        })
    }
}
