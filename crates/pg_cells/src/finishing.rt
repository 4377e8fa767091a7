//! The end of an event.

ghost use Rattle.std.specs.Prelude.{◌≡◌, List, IfOk, OnOk};
ghost use Rattle.pg_pieces.specs.pg_msg.declared.work.Touched.{Touched};
ghost use Rattle.pg_cells.specs.KeyFilter.{ListsLinked, ListsTouched};
ghost use Rattle.pg_cells.specs.Finish.{finish};

use crate::key_filter::KeyFilter;
use crate::sending::send_cells;
use pg_base::FileId;
use pg_pieces::msg::{Linked, Touched, Work};
use pg_pieces::store::Store;
use std::alloc::{AllocError, Global};
use std::collections::BTreeMap;

/// Files in order.
type Files = BTreeMap<FileId, ()>;

/// The files of these keys.
fn touched_files(alloc: Global, touched: &[Touched]) -> Result<Files, AllocError>
    ensures { IfOk result (λ files. ListsTouched files.entries touched.now) }
{
    let mut files = BTreeMap::new(alloc);
    for t in touched {
        files.insert(t.file, ())?;
    }
    Ok(files)
}

/// The files of these edges come to them.
fn add_linked(files: &mut Files, linked: &[Linked]) -> Result<(), AllocError>
    ensures linked { OnOk result (ListsLinked files.new.entries linked.now) }
    ensures touched { OnOk result ((ts : List Touched) → ListsTouched files.old.entries ts
        → ListsTouched files.new.entries ts) }
{
    for edge in linked {
        files.insert(edge.file, ())?;
    }
    Ok(())
}

/// Sends what tells of the present cell of each key that was touched, once to each peer that has
/// not acknowledged it, and of each key on an edge that was made, under its present tag, but for
/// those that wait: by file, peer and key.
pub fn finish(store: &Store, work: &mut Work) -> Result<(), AllocError>
    ensures { OnOk result (work.new ≡ finish store.now work.old) }
{
    let touched = work.touched.as_slice();
    let linked = work.linked.as_slice();
    let mut files = touched_files(store.allocator(), touched)?;
    add_linked(&mut files, linked)?;
    let choice = KeyFilter::Changed { touched, linked };
    send_cells(store, &choice, &files, &mut work.sent)?;
    Ok(())
}
