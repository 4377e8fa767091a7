//! Disks: three files for each name, what calls do to them, and what a crash may leave of them.
//!
//! `disk` has the trait, `synced` changes that are on the disk once they answer, `memory` (with
//! `call`, `count`, `edit`) a disk in memory that fails at the calls of a list, `files` the
//! system's files, and `laws` what holds of every disk that tells. `files` is what proofs trust.
//!
//! What a disk tells is a list of steps, and what a crash may leave is a definition on that list,
//! the same for every disk: a crash at each moment is a crash on a shorter list, and no disk proves
//! laws of time. `tells` is a fact on the type. A step is in the list where something may have
//! changed; a call that fails may have done nothing or have begun. `choose` may fail as all calls
//! do. A cut to more bytes than there are changes nothing, a write of no bytes behind the end makes
//! no gap, and one that answers Ok ends below 2^64.
//!
//! The disk in memory makes a file anew at each read from the calls that it keeps: slow on long
//! runs, and so simple that its contents are its history. `FileDisk` makes a file where it is first
//! spoken of, and syncs its folder whenever it opens one: else a crash could take the name of a
//! file whose bytes were synced. A file stays open until a call on it fails; all of it is synced,
//! bytes, length and times. A write goes on after an interrupted call, since std's does; one from
//! 2^63 on fails. A name may begin with a folder: which names are good is for whoever takes the
//! words.
//!
//! Definitions: `specs/Disk`, `Told`, `Images`, `Moments`, `Synced`, `Memory`. docs/RULES.md:
//! "Disks". A further disk is an impl of `Disk` that tells its steps; a further call a step.
#![tactic(auto)]

mod call;
mod count;
mod disk;
mod edit;
mod files;
mod laws;
mod memory;
mod synced;

pub use disk::Disk;
pub use files::FileDisk;
pub use laws::moments_are_between_calls;
pub use memory::MemoryDisk;
pub use synced::{cut_synced, write_synced};
