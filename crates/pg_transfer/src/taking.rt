//! A version is taken whose body came.

ghost use Rattle.std.specs.Prelude.{◌≡◌, OnOk};
ghost use Rattle.pg_transfer.specs.Taking.{taken_for};

use crate::asking::acknowledge;
use pg_base::Version;
use pg_pieces::msg::{Ends, Work};
use pg_pieces::store::Store;
use pg_pieces::take_version;
use std::alloc::AllocError;

/// A held file takes a version, and the tag under which it was announced is acknowledged. After out
/// of memory a part may be done.
pub(crate) fn take_for(
    store: &mut Store,
    ends: &Ends,
    tag: u64,
    version: Version,
    work: &mut Work,
) -> Result<(), AllocError>
    ensures store { OnOk result
        (store.new ≡ (taken_for ends.now tag store.old version work.old).store) }
    ensures work { OnOk result
        (work.new ≡ (taken_for ends.now tag store.old version work.old).work) }
{
    let stamp = version.head().stamp;
    take_version(store, ends.file, version, work)?;
    acknowledge(store, ends, stamp, tag, work)?;
    Ok(())
}
