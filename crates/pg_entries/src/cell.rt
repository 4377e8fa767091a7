//! What is sent of one key of a replica.

ghost use Rattle.std.specs.Prelude.{◌≡◌, IfOk};

use crate::entry::Entry;
use pg_base::{Shared, Version};
use pg_register::{Flag, Place};
use std::alloc::AllocError;

/// A part of a replica. A copy shares what it holds.
#[derive(Debug, Drop)]
pub enum Cell {
    Place(Shared<Place>),
    Flag(Shared<Flag>),
    /// An entry of a directory, and whether its sender is sure of it, and does not owe to have it
    /// confirmed.
    Entry(Shared<Entry>, bool),
    /// A version of a file.
    Version(Version),
}

impl Cell {
    /// Copies the cell. Nothing is moved.
    pub fn copy(&self) -> Result<Cell, AllocError>
        ensures { IfOk result (λ cell. cell ≡ self.now) }
    {
        Ok(match self {
            Cell::Place(place) => Cell::Place(place.copy()?),
            Cell::Flag(flag) => Cell::Flag(flag.copy()?),
            Cell::Entry(entry, sure) => Cell::Entry(entry.copy()?, *sure),
            Cell::Version(version) => Cell::Version(version.copy()?),
        })
    }
}
