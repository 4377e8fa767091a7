//! An answer to a cell comes.

ghost use Rattle.std.specs.Prelude.{◌≡◌};
ghost use Rattle.pg_cells.specs.Acks.{ack};

use pg_edges::Key;
use pg_pieces::link_of;
use pg_pieces::msg::{Ends, Work};
use pg_pieces::store::Store;

/// Takes the key off the sender's edge where the tag is the present one there, if the message is
/// accepted. It takes no memory, and nothing comes of it.
pub fn ack(store: &mut Store, ends: Ends, key: Key, tag: u64, work: &mut Work)
    ensures store { store.new ≡ (ack store.old ends key tag work.old).store }
    ensures work { work.new ≡ (ack store.old ends key tag work.old).work }
{
    let link = link_of(work.from, &ends);
    store.acknowledge(ends.file, &link, key, tag);
}
