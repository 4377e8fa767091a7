//! Checkpoints in two slots on a disk: a state is saved in one slot while the other stays.
//!
//! `snap` saves and loads, `writing` writes a slot, `reading` and `head` read one and say where the
//! next goes, `error` says why a state was not saved or loaded, and `laws` what holds of slots.
//!
//! It touches the disk that it is given, two files of one name. A state is bytes here: what they
//! say is for whoever saves it.
//!
//! A crash while a state is saved leaves what was loaded before, or the new state whole, but in one
//! case. A slot may have the number 0, which no saving gives. Where the first slot has it and the
//! second is empty, a saving writes over what is loaded, and a crash then may leave no slot: so it
//! is by the rule of which slot is taken, and the clause says it.
//!
//! Definitions: `specs/Slots` (what the bytes of a slot stand for), `Heads`, `Loads` (which slot is
//! loaded), `Saves` (how slots stand on a disk). docs/RULES.md: "Checkpoints"; docs/FORMATS.md,
//! section 10. A further field of a slot: its bytes in `specs/Slots` and `Heads`, in `writing` and
//! in `head`.
#![tactic(auto)]

mod error;
mod head;
mod laws;
mod reading;
mod snap;
mod writing;

pub use error::SnapError;
pub use laws::slots_load_once;
pub use snap::{Saved, load, save};
