//! The log.

ghost use Rattle.std.specs.Prelude.{◌≡◌, ◌≤◌, ◌<◌, ◌+◌, ◌-◌, ◌^◌, ◌↔◌, ◌⊎◌, [], ◌∷◌, ◌++◌, List, ℕ, length, take, None, Some, IsSome, IfOk, IfErr, OnOk, OnErr, IsErrOf, IsErrAnd, MatchResult};
ghost use Rattle.std.specs.Option.{ForSome};
ghost use Rattle.pg_io.specs.Causes.{Rose};
ghost use Rattle.pg_disk.specs.Disk.{IsSettled};
ghost use Rattle.pg_disk.specs.Told.{given, steps};
ghost use Rattle.pg_disk.specs.Moments.{LeavesSince};
ghost use Rattle.pg_disk.specs.Synced.{KeepsOthers};
ghost use Rattle.pg_log.specs.Bytes.{front, AllFit, OpensTo, IsBadAt};
ghost use Rattle.pg_log.specs.Log.{Stands, OpensWithOrWithout};

use crate::block::{START, read_entries, written_block};
use crate::error::LogError;
use crate::reading::read_file;
use pg_base::{Bytes, Items};
use pg_disk::{Disk, cut_synced, write_synced};
use std::alloc::Global;
use std::marker::Model;

/// Entries of a log, the first of them first.
pub type Records = Items<Bytes>;

/// A log with no entry.
const EMPTY: [u8; 17] = *b"pangaea-log-0001\0";

/// A log that was opened: the place of its closed gate, or none once an append failed on the disk.
#[derive(Debug, Drop)]
pub struct Log {
    alloc: Global,
    gate: Option<u64>,
}

impl Model for Log {
    ghost use Rattle.std.specs.Prelude.{ℕ, ◌<◌, ◌+◌, ◌^◌};
    ghost use Rattle.std.specs.declared.option.Option.{Option};
    ghost use Rattle.std.specs.Option.{ForSome};

    ghost Value = { Option ℕ };

    ghost view = { λ log. log.gate };

    ghost invariant = { λ log. ForSome log.gate (λ gate. gate + 1 < 2 ^ 64) };
}

impl Log {
    /// Opens the log in file 0 of the chosen name. Nothing is written but the cut behind the closed
    /// gate; a file of at most 17 bytes is written anew.
    pub fn open<D: Disk>(alloc: Global, disk: &mut D) -> Result<(Log, Records), LogError>
        ensures opened { IfOk result (λ log. D.tells → OpensTo (given (D.told disk.old) 0) log.1) }
        ensures stands { IfOk result (λ log. D.tells → Stands log.0 (D.told disk.new) log.1) }
        ensures ready { IfOk result (λ log. IsSome log.0) }

        // Whatever the disk tells, the log knows the place of the gate behind these entries.
        ensures place { IfOk result (λ log. log.0 ≡ Some (length (front log.1))) }
        ensures fit { IfOk result (λ log. AllFit log.1) }

        // Where a crash left just what a read gives, at each moment since it leaves a file that
        // opens to the same entries.
        ensures any_moment { D.tells → IsSettled (steps (D.told disk.old) 0)
            → (entries : List (List ℕ)) → OpensTo (given (D.told disk.old) 0) entries
            → LeavesSince 0 (D.told disk.old) (D.told disk.new)
            (λ file. OpensTo file entries) }

        // Of a file of more than 17 bytes what stands behind the closed gate is cut off, and
        // nothing else.
        ensures cut { IfOk result (λ log. D.tells → 17 < length (given (D.told disk.old) 0)
            → given (D.told disk.new) 0
            ≡ take (length (front log.1) + 1) (given (D.told disk.old) 0)) }

        ensures bad { (place : ℕ) → IsErrOf result (LogError.BadLog place) → D.tells
            → IsBadAt (given (D.told disk.old) 0) place × (D.told disk.new ≡ D.told disk.old) }

        // A file that opens gives its entries, and another one its bad place, or else the disk or
        // the memory failed.
        ensures whole { D.tells → (entries : List (List ℕ))
            → OpensTo (given (D.told disk.old) 0) entries
            → MatchResult result (λ log. log.1 ≡ entries)
            (λ e. (e ≡ LogError.OutOfMemory) ⊎ (e ≡ LogError.DiskFault)) }
        ensures first { D.tells → (place : ℕ) → IsBadAt (given (D.told disk.old) 0) place
            → IsErrAnd result (λ e. (e ≡ LogError.BadLog place)
            ⊎ ((e ≡ LogError.OutOfMemory) ⊎ (e ≡ LogError.DiskFault))) }

        ensures others { D.tells → KeepsOthers 0 (D.told disk.old) (D.told disk.new) }
        ensures fault { IsErrOf result LogError.DiskFault
            → Rose (D.faults disk.old) (D.faults disk.new) }
        ensures later { D.faults disk.old ≤ D.faults disk.new }
        ensures memory { IsErrOf result LogError.OutOfMemory → D.tells
            → D.told disk.new ≡ D.told disk.old }
        ensures is_new { IsErrOf result LogError.Closed → ⊥ }
    {
        let file = read_file(alloc, disk)?;
        if file.len() <= EMPTY.len() {
            write_synced(disk, 0, 0, &EMPTY)?;
            let gate = Some(START.len() as u64);
            return Ok((Log { alloc, gate }, Records::new(alloc)));
        }
        let (records, gate) = read_entries(alloc, &file)?;
        cut_synced(disk, 0, gate as u64 + 1)?;
        let gate = Some(gate as u64);
        Ok((Log { alloc, gate }, records))
    }

    /// Adds an entry. Where file 0 is as this log left it, a crash leaves the entry from an Ok on.
    /// Once a call on the disk failed, the log takes no entry: it is to be opened again.
    pub fn append<D: Disk>(&mut self, disk: &mut D, bytes: &[u8]) -> Result<(), LogError>
        requires { length bytes.now ≤ 65536 }
        ensures appended { D.tells → (entries : List (List ℕ))
            → Stands self.old (D.told disk.old) entries
            → OnOk result (Stands self.new (D.told disk.new) (entries ++ bytes.now ∷ [])) }

        // At each moment since the call began a crash leaves the entries from before it, with the
        // new one or without.
        ensures any_moment { D.tells → (entries : List (List ℕ))
            → Stands self.old (D.told disk.old) entries
            → LeavesSince 0 (D.told disk.old) (D.told disk.new)
            (OpensWithOrWithout entries bytes.now) }

        ensures others { D.tells → KeepsOthers 0 (D.told disk.old) (D.told disk.new) }
        ensures fault { IsErrOf result LogError.DiskFault
            → Rose (D.faults disk.old) (D.faults disk.new) × (self.new ≡ None) }
        ensures later { D.faults disk.old ≤ D.faults disk.new }
        ensures closed { (result ≡ Err LogError.Closed) ↔ (self.old ≡ None) }
        ensures ready { OnOk result (IsSome self.new) }

        // Memory is taken before the first call on the disk.
        ensures memory { IsErrOf result LogError.OutOfMemory
            → (self.new ≡ self.old) × (disk.new ≡ disk.old) }
        ensures untouched { self.old ≡ None → (self.new ≡ None) × (disk.new ≡ disk.old) }
        ensures good { (place : ℕ) → IsErrOf result (LogError.BadLog place) → ⊥ }
    {
        let Some(gate) = self.gate else {
            return Err(LogError::Closed);
        };
        let block = written_block(self.alloc, bytes)?;
        self.gate = None;
        write_synced(disk, 0, gate + 1, &block)?;
        write_synced(disk, 0, gate, &[1])?;
        self.gate = Some(gate + block.len() as u64);
        Ok(())
    }

    /// The place of a log's gate, if the log knows it, is far from the end of its number's type.
    pub fn place_fits(&self)
        ensures { ForSome self.now (λ gate. gate + 1 < 2 ^ 64) }
    {
        let _gate = self.gate;
    }
}
