//! A replica that seeks a gold one is met.

ghost use Rattle.std.specs.Prelude.{◌≡◌, OnOk};
ghost use Rattle.pg_graph.specs.Seeking.{here, seek};

use pg_base::FileId;
use pg_pieces::msg::{Ask, Ends, Greeting, Message, Work};
use pg_pieces::store::Store;
use pg_pieces::{EdgeUse, accept, ends_to, link_peer, post};
use std::alloc::AllocError;

/// A replica of this birth seeks a gold one. The replica here, gold or not, full or filling, links
/// it and answers; from a birth that is not the sender's latest nothing comes. Where there is none
/// the sender is told. After out of memory a part may be done.
pub fn seek(store: &mut Store, file: FileId, birth: u64, work: &mut Work) -> Result<(), AllocError>
    ensures store { OnOk result (store.new ≡ (seek store.old file birth work.old).store) }
    ensures work { OnOk result (work.new ≡ (seek store.old file birth work.old).work) }
{
    if !store.names.is_held(&file) {
        let none = Message::NoneHere {
            ask: Ask::Seek,
            file,
            child: file,
        };
        return post(store, work.from, none, work);
    }
    if store.knows_later_birth(&file, work.from, birth) {
        return Ok(());
    }
    link_peer(store, file, work.from, birth, work)?;
    let ends = ends_to(store, file, birth);
    let greeting = Greeting::Here;
    post(store, work.from, Message::Greet { ends, greeting }, work)?;
    Ok(())
}

/// The sender's replica is here in answer to a Seek, or was met by a walk, and is linked. After out
/// of memory a part may be done.
pub fn here(store: &mut Store, ends: Ends, work: &mut Work) -> Result<(), AllocError>
    ensures store { OnOk result (store.new ≡ (here store.old ends work.old).store) }
    ensures work { OnOk result (work.new ≡ (here store.old ends work.old).work) }
{
    accept(store, &ends, EdgeUse::Makes, work)?;
    Ok(())
}
