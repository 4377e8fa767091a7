//! The names that a directory shows, in order.

ghost use Rattle.std.specs.Prelude.{◌≡◌, IfOk, map, take, drop};
ghost use Rattle.std.specs.List.Sorted.{IsPermutation, IsSortedBy};
ghost use Rattle.std.specs.Ordering.{is_lt};
ghost use Rattle.pg_entries.specs.Shown.{listing_of, row_cmp, row_of, rows_of, shown_name};
ghost use Rattle.pg_entries.specs.Firsts.{Firsts};

use crate::claim::Claim;
use crate::entries::{Entries, is_beaten, is_rival, lesser};
use crate::entry::Entry;
use crate::tilde::with_id;
use pg_base::{FileId, Items, SharedBytes};
use pg_path::Row;
use std::alloc::AllocError;
use std::cmp::Ordering;
use std::collections::BTreeMap;

/// Rows in the byte order of their names.
pub type Listing = Items<Row>;

/// By the bytes of the name, and then by child.
fn compare(row: &Row, other: &Row) -> Ordering
    ensures { result ≡ row_cmp row.now other.now }
{
    let by_name = row.name.as_slice().cmp(other.name.as_slice());
    by_name.then(row.child.compare(&other.child))
}

impl Entries {
    /// The children that the directory lists, each with the name that it shows, in the byte order
    /// of these names. The time is that of sorting them.
    pub fn listing(&self, dir: FileId) -> Result<Listing, AllocError>
        ensures listing { IfOk result (λ rows. rows ≡ listing_of self.now dir) }
        ensures rows { IfOk result (λ rows. IsPermutation (rows_of self.now dir) rows) }
        ensures in_order { IfOk result (λ rows. IsSortedBy (λ a b. is_lt (row_cmp a b)) rows) }
    {
        let firsts = self.first_claims(dir)?;
        let mut rows = self.rows(dir, &firsts)?;
        rows.sort_by(|a, b| compare(a, b))?;
        Ok(Items::from_vec(rows))
    }

    /// At most so many rows of the listing, from an index on. The time is that of the listing.
    pub fn page(&self, dir: FileId, from: usize, most: usize) -> Result<Listing, AllocError>
        ensures { IfOk result (λ rows. rows ≡ take most (drop from (listing_of self.now dir))) }
    {
        let mut rows = self.listing(dir)?.into_vec();
        let first = from.min(rows.len());
        let mut page = rows.split_off(first)?;
        page.truncate(most);
        Ok(Items::from_vec(page))
    }

    /// The first claim on each name that a child in the directory has.
    fn first_claims(&self, dir: FileId) -> Result<BTreeMap<&[u8], Claim>, AllocError>
        ensures { IfOk result (Firsts self.now dir) }
    {
        let mut firsts = BTreeMap::new(self.alloc);
        for entry in self.entries.values() {
            if entry.is_listed(dir) {
                let name = entry.place.name.as_slice();
                let first = lesser(&firsts.get(&name).copied(), Claim::of(entry));
                firsts.insert(name, first)?;
            }
        }
        Ok(firsts)
    }

    /// The rows, by child.
    fn rows<'a>(
        &'a self,
        dir: FileId,
        firsts: &BTreeMap<&'a [u8], Claim>,
    ) -> Result<Vec<Row>, AllocError>
        requires { Firsts self.now dir firsts.now }
        ensures { IfOk result (λ rows. rows.items ≡ rows_of self.now dir) }
    {
        let mut rows = Vec::new(self.alloc);
        for entry in self.entries.values() {
            if entry.is_listed(dir) {
                rows.push(self.row(entry, dir, firsts)?)?;
            }
        }
        Ok(rows)
    }

    fn row<'a>(
        &'a self,
        entry: &'a Entry,
        dir: FileId,
        firsts: &BTreeMap<&'a [u8], Claim>,
    ) -> Result<Row, AllocError>
        requires { Firsts self.now dir firsts.now }
        ensures { IfOk result (λ row. row ≡ row_of self.now dir entry.now) }
    {
        let name = entry.place.name.as_slice();
        let name = if is_beaten(&firsts.get(&name).copied(), &Claim::of(entry)) {
            with_id(self.alloc, name, entry.child)?
        } else {
            entry.place.name.copy()?
        };
        Ok(Row {
            name,
            child: entry.child,
        })
    }
}
