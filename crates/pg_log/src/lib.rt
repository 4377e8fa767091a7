//! A log of entries on a disk: each is there once its append has answered.
//!
//! `log` opens a log and appends to it, `block` writes an entry, `reading` reads a whole file,
//! `error` says why a log did not open or took no entry, and `laws` what holds of files of logs.
//!
//! It touches the disk that it is given, one file of one name. A log knows only the place of its
//! closed gate, or that it is closed: it does not hold the disk, since other files of the same disk
//! are written between two appends.
//!
//! `append` has no condition on the disk. What it promises is promised for each list of entries
//! with which the log stands; where someone else wrote the file there is none. A log's place never
//! runs over (`place_fits`), since no file is longer than a number of bytes can say. `BadLog` is
//! defined by what continues: the file's bytes up to the place begin some log, and with the byte
//! there they begin none. The reader finds it by the least length that the first bytes of a length
//! can have.
//!
//! Definitions: `specs/Bytes` (what the bytes of a log stand for), `Log` (how one stands on a
//! disk). docs/RULES.md: "Logs"; docs/FORMATS.md, section 7. Another kind of entry is for who
//! writes it: entries are bytes here.
#![tactic(auto)]

mod block;
mod error;
mod laws;
mod log;
mod reading;

pub use error::LogError;
pub use laws::{files_open_once, standing_logs_open};
pub use log::{Log, Records};
