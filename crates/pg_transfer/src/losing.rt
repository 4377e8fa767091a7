//! Who was asked for a body has none now.

ghost use Rattle.std.specs.Prelude.{◌≡◌, OnOk};
ghost use Rattle.pg_transfer.specs.Later.{later};

use pg_announced::NoteKey;
use pg_base::Stamp;
use pg_pieces::msg::{Ends, Work};
use pg_pieces::names::is_dir;
use pg_pieces::store::Store;
use pg_pieces::{EdgeUse, accept};
use std::alloc::AllocError;

/// A Later comes along an edge that is there: its sender is not asked for the version any more.
/// After out of memory a part may be done.
pub fn later(store: &mut Store, ends: Ends, stamp: Stamp, work: &mut Work) -> Result<(), AllocError>
    ensures store { OnOk result (store.new ≡ (later store.old ends stamp work.old).store) }
    ensures work { OnOk result (work.new ≡ (later store.old ends stamp work.old).work) }
{
    if is_dir(&ends.file) {
        return Ok(());
    }
    if accept(store, &ends, EdgeUse::Answers, work)? {
        let key = NoteKey {
            file: ends.file,
            stamp,
        };
        store.announced.lose(&key, work.from);
    }
    Ok(())
}
