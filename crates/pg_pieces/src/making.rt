//! Flags that a server makes. It takes them as it takes what comes.

ghost use Rattle.std.specs.Prelude.{◌≡◌, IfOk, OnOk};
ghost use Rattle.pg_pieces.specs.Making.{lower_flag, make_flag, own_next, raise_flag};

use crate::taking::take_flag;
use pg_base::FileId;
use pg_register::Flag;
use pg_store::msg::{Update, Work};
use pg_store::{COUNTER_LIMIT, Store};
use std::alloc::AllocError;

/// The next flag of the server's replica of a thing. Where that is not held it has no flag, and its
/// birth is 0. A number that comes in a message is far below the last that is counted, and each
/// that is made is one more: memory ends before numbers do.
fn next_flag(store: &Store, file: FileId, raised: bool) -> Result<Flag, AllocError>
    ensures { IfOk result (λ flag. flag ≡ own_next store.now file raised) }
{
    let server = store.server();
    let birth = store.birth(&file);
    let own = store.names.own_or_blank(file)?;
    let number = own.flags.number(server);
    if number >= COUNTER_LIMIT {
        return Err(AllocError);
    }
    Ok(own.flags.next(server, birth, raised))
}

/// The server makes its flag of a held thing, and takes it. After out of memory a part may be done.
fn make_flag(store: &mut Store, file: FileId, flag: Flag, work: &mut Work) -> Result<(), AllocError>
    ensures store { OnOk result (store.new ≡ (make_flag store.old file flag work.old).store) }
    ensures work { OnOk result (work.new ≡ (make_flag store.old file flag work.old).work) }
{
    work.made.push(Update::Flag { id: file, flag })?;
    take_flag(store, file, flag, work)?;
    Ok(())
}

/// The server raises its flag of a held thing. After out of memory a part may be done.
pub fn raise_flag(store: &mut Store, file: FileId, work: &mut Work) -> Result<(), AllocError>
    ensures store { OnOk result (store.new ≡ (raise_flag store.old file work.old).store) }
    ensures work { OnOk result (work.new ≡ (raise_flag store.old file work.old).work) }
{
    let flag = next_flag(store, file, true)?;
    make_flag(store, file, flag, work)?;
    Ok(())
}

/// The server lowers its flag of a held thing. After out of memory a part may be done.
pub fn lower_flag(store: &mut Store, file: FileId, work: &mut Work) -> Result<(), AllocError>
    ensures store { OnOk result (store.new ≡ (lower_flag store.old file work.old).store) }
    ensures work { OnOk result (work.new ≡ (lower_flag store.old file work.old).work) }
{
    let flag = next_flag(store, file, false)?;
    make_flag(store, file, flag, work)?;
    Ok(())
}
