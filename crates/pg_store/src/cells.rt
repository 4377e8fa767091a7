//! What is sent of a key.

ghost use Rattle.std.specs.Prelude.{◌≡◌, IfOk, Some};
ghost use Rattle.std.specs.Option.{option_copied};
ghost use Rattle.pg_store.specs.Cells.{cell_at, is_sure};

use crate::store::Store;
use pg_base::{FileId, NodeId, Shared, Stamp};
use pg_edges::Key;
use pg_entries::Cell;
use pg_intent::IntentKey;
use pg_names::Attributes;
use std::alloc::AllocError;

impl Store {
    /// The cell of a key, if there is one. A copy of what is large is shared.
    pub fn cell(&self, file: FileId, key: &Key) -> Result<Option<Cell>, AllocError>
        ensures { IfOk result (λ cell. cell ≡ cell_at self.now file key.now) }
    {
        match key {
            Key::Place => self.place_cell(file),
            Key::Flag(server) => self.flag_cell(file, *server),
            Key::Entry(child) => self.entry_cell(file, *child),
            Key::Version(stamp) => self.version_cell(file, *stamp),
        }
    }

    fn place_cell(&self, file: FileId) -> Result<Option<Cell>, AllocError>
        ensures { IfOk result (λ cell. cell ≡ cell_at self.now file Key.Place) }
    {
        let place = self.names.place_or_blank(file)?;
        Ok(Some(Cell::Place(Shared::new(self.allocator(), place)?)))
    }

    fn flag_cell(&self, file: FileId, server: NodeId) -> Result<Option<Cell>, AllocError>
        ensures { IfOk result (λ cell. cell ≡ cell_at self.now file (Key.Flag server)) }
    {
        let Some(own) = self.names.own(&file) else {
            return Ok(None);
        };
        let Some(flag) = own.flags.get(server) else {
            return Ok(None);
        };
        Ok(Some(Cell::Flag(Shared::new(self.allocator(), *flag)?)))
    }

    fn entry_cell(&self, dir: FileId, child: FileId) -> Result<Option<Cell>, AllocError>
        ensures { IfOk result (λ cell. cell ≡ cell_at self.now dir (Key.Entry child)) }
    {
        let Some(entry) = self.names.entry(&dir, &child) else {
            return Ok(None);
        };
        let entry = Shared::new(self.allocator(), entry.copy()?)?;
        Ok(Some(Cell::Entry(entry, self.is_sure(dir, child))))
    }

    /// Whether the server does not owe to have a child's place confirmed.
    fn is_sure(&self, dir: FileId, child: FileId) -> bool
        ensures { result ≡ is_sure self.now dir child }
    {
        self.intents
            .get(&IntentKey::Confirm { dir, child })
            .is_none()
    }

    fn version_cell(&self, file: FileId, stamp: Stamp) -> Result<Option<Cell>, AllocError>
        ensures { IfOk result (λ cell. cell ≡ cell_at self.now file (Key.Version stamp)) }
    {
        let Some(replica) = self.replica(&file) else {
            return Ok(None);
        };
        let Some(version) = replica.cell_at(&Key::Version(stamp)) else {
            return Ok(None);
        };
        Ok(Some(Cell::Version(version.copy()?)))
    }
}
