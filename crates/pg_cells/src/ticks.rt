//! A tick.

ghost use Rattle.std.specs.Prelude.{◌≡◌, OnOk};
ghost use Rattle.pg_cells.specs.Ticks.{tick};

use crate::key_filter::KeyFilter;
use crate::sending::send_cells;
use pg_pieces::msg::Work;
use pg_pieces::store::Store;
use std::alloc::AllocError;

/// Sends what tells of the cell of each unacknowledged key again, by file, peer and key, but for
/// those that wait.
pub fn tick(store: &Store, work: &mut Work) -> Result<(), AllocError>
    ensures { OnOk result (work.new ≡ tick store.now work.old) }
{
    let files = store.replicas.unacknowledged();
    send_cells(store, &KeyFilter::All, files, &mut work.sent)?;
    Ok(())
}
