//! Calls that look. Where they go on they change nothing.

ghost use Rattle.std.specs.Prelude.{◌≡◌, IfOk, OnOk, count_by};
ghost use Rattle.pg_cells.specs.pg_names.Names.{known};
ghost use Rattle.pg_register.specs.Flag.{is_live};
ghost use Rattle.pg_calls.specs.Looks.{counts, fresh, freshness, head_count, listing, ls, page, rows_from, shown_length, stat, stat_of, status, stop};

use pg_base::{FileId, Items, Shared, Stamp};
use pg_cells::call::{Counts, Refusal, Reply, Stat, Target};
use pg_cells::house::count_held_back;
use pg_cells::key_count;
use pg_cells::msg::Work;
use pg_cells::names::{Names, is_dir};
use pg_cells::store::Store;
use pg_checks::{deny, dir_at, file_at, in_time, target_at};
use pg_path::Row;
use pg_register::GoldFlags;
use std::alloc::AllocError;

/// The most names that one reply has.
const MOST_NAMES: usize = 100;

/// The names in a directory from this position on, at most 100 of them, and how many there are in
/// all.
#[tactic(auto, using(crate::proofs::Denials::store_is, crate::proofs::Denials::work_is, crate::proofs::Denials::reply_is))]
pub(crate) fn ls(
    store: &mut Store,
    text: &[u8],
    from: u32,
    work: &mut Work,
) -> Result<Reply, AllocError>
    ensures store { OnOk result (store.new ≡ (ls store.old text.now from work.old).store) }
    ensures work { OnOk result (work.new ≡ (ls store.old text.now from work.old).work) }
    ensures reply { IfOk result (λ r. r ≡ (ls store.old text.now from work.old).reply) }
{
    match dir_at(store, text) {
        Ok(dir) => Ok(page(listing(store, dir)?, from)?),
        Err(denied) => Ok(deny(store, denied, work)?),
    }
}

fn listing(store: &Store, dir: FileId) -> Result<Items<Row>, AllocError>
    ensures { IfOk result (λ rows. rows ≡ listing dir (known store.now.names dir)) }
{
    match store.names.get(&dir) {
        Some(held) => held.entries().listing(dir),
        None => Ok(Items::new(store.allocator())),
    }
}

/// The number of all names, and the names from a position on. Where there are more than a reply can
/// count it says so many.
fn page(rows: Items<Row>, from: u32) -> Result<Reply, AllocError>
    ensures { IfOk result (λ r. r ≡ page rows from) }
{
    let total = u32::try_from(rows.len()).unwrap_or(u32::MAX);
    let rows = rows_from(rows, from)?;
    Ok(Reply::Names { total, rows })
}

fn rows_from(rows: Items<Row>, from: u32) -> Result<Items<Row>, AllocError>
    ensures { IfOk result (λ page. page ≡ rows_from rows from) }
{
    let mut rows = rows.into_vec();
    let first = (from as usize).min(rows.len());
    let mut page = rows.split_off(first)?;
    page.truncate(MOST_NAMES);
    Ok(Items::from_vec(page))
}

/// Done, where every version of a file that was announced is here; else the least of the others is
/// told.
fn freshness(first: Option<Stamp>) -> Reply
    ensures { result ≡ freshness first }
{
    match first {
        Some(stamp) => Reply::Refused(Refusal::Behind(stamp)),
        None => Reply::Done,
    }
}

/// Whether every version of a file that was announced is here.
#[tactic(auto, using(crate::proofs::Denials::store_is, crate::proofs::Denials::work_is, crate::proofs::Denials::reply_is))]
pub(crate) fn fresh(store: &mut Store, text: &[u8], work: &mut Work) -> Result<Reply, AllocError>
    ensures store { OnOk result (store.new ≡ (fresh store.old text.now work.old).store) }
    ensures work { OnOk result (work.new ≡ (fresh store.old text.now work.old).work) }
    ensures reply { IfOk result (λ r. r ≡ (fresh store.old text.now work.old).reply) }
{
    match file_at(store, text) {
        Ok(file) => Ok(freshness(store.announced.first_of(&file))),
        Err(denied) => Ok(deny(store, denied, work)?),
    }
}

/// The replica at this server.
#[tactic(auto, using(crate::proofs::Denials::store_is, crate::proofs::Denials::work_is, crate::proofs::Denials::reply_is))]
pub(crate) fn stat(store: &mut Store, target: &Target, work: &mut Work) -> Result<Reply, AllocError>
    ensures store { OnOk result (store.new ≡ (stat store.old target.now work.old).store) }
    ensures work { OnOk result (work.new ≡ (stat store.old target.now work.old).work) }
    ensures reply { IfOk result (λ r. r ≡ (stat store.old target.now work.old).reply) }
{
    match target_at(store, target) {
        Ok(file) => {
            let stat = stat_of(store, file)?;
            Ok(Reply::Stat(Shared::new(store.allocator(), stat)?))
        }
        Err(denied) => Ok(deny(store, denied, work)?),
    }
}

fn stat_of(store: &Store, file: FileId) -> Result<Stat, AllocError>
    ensures { IfOk result (λ stat. stat ≡ stat_of store.now file) }
{
    let own = store.names.own_or_blank(file)?;
    Ok(Stat {
        id: file,
        gold: own.flags.is_raised(store.server(), store.birth(&file)),
        golds: live_golds(&store.names, &own.flags),
        heads: head_count(store, file),
        length: shown_length(store, file),
        edges: store.edge_count(&file) as u64,
        place: own.place,
    })
}

/// How many flags are raised of servers that are not removed.
fn live_golds(names: &Names, flags: &GoldFlags) -> u64
    ensures { result ≡ count_by (is_live names.now.removed) flags.now }
{
    let live = flags
        .as_slice()
        .iter()
        .filter(|flag| flag.raised && !names.is_removed(flag.server));
    live.count() as u64
}

fn head_count(store: &Store, file: FileId) -> u64
    ensures { result ≡ head_count store.now file }
{
    match store.replica(&file) {
        Some(replica) if !is_dir(&file) => replica.content.heads().len() as u64,
        _ => 0,
    }
}

fn shown_length(store: &Store, file: FileId) -> u64
    ensures { result ≡ shown_length store.now file }
{
    match store.replica(&file) {
        Some(replica) if !is_dir(&file) => replica.content.length(),
        _ => 0,
    }
}

/// What the server holds and waits for, in numbers.
#[tactic(auto, using(crate::proofs::Denials::store_is, crate::proofs::Denials::work_is, crate::proofs::Denials::reply_is))]
pub(crate) fn status(store: &mut Store, work: &mut Work) -> Result<Reply, AllocError>
    ensures store { OnOk result (store.new ≡ (status store.old work.old).store) }
    ensures work { OnOk result (work.new ≡ (status store.old work.old).work) }
    ensures reply { IfOk result (λ r. r ≡ (status store.old work.old).reply) }
{
    match in_time(store) {
        Ok(()) => Ok(Reply::Status(Shared::new(store.allocator(), counts(store))?)),
        Err(denied) => Ok(deny(store, denied, work)?),
    }
}

fn counts(store: &Store) -> Counts
    ensures { result ≡ counts store.now }
{
    Counts {
        view: store.view(),
        last: store.names.last(),
        replicas: store.names.as_map().len() as u64,
        intents: store.intents.len() as u64,
        cells: key_count(store),
        held: count_held_back(&store.names) as u64,
    }
}

/// The server is to end: what it holds stays as it is.
#[tactic(auto, using(crate::proofs::Denials::store_is, crate::proofs::Denials::work_is, crate::proofs::Denials::reply_is))]
pub(crate) fn stop(store: &mut Store, work: &mut Work) -> Result<Reply, AllocError>
    ensures store { OnOk result (store.new ≡ (stop store.old work.old).store) }
    ensures work { OnOk result (work.new ≡ (stop store.old work.old).work) }
    ensures reply { IfOk result (λ r. r ≡ (stop store.old work.old).reply) }
{
    match in_time(store) {
        Ok(()) => Ok(Reply::Done),
        Err(denied) => Ok(deny(store, denied, work)?),
    }
}
