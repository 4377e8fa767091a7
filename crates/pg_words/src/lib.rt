//! Words of texts: how a line is cut into words, and the words for files, stamps, bytes and lists.
//!
//! `words` cuts a line at its spaces, into as many as there is room for; each other module has one
//! kind of word, its printer and its reader side by side: `word` ids, `stamp_word` stamps and lists
//! of them, `hex_word` bytes, `text_word` and `place_word` names and places, `choice_word` pairs
//! such as `live` and `dead`, `list_word` items that commas part.
//!
//! It touches bytes alone: whoever reads lines of schedules, journals or calls, and whoever prints
//! them, takes its words from here, so that each has one spelling and each lemma stands once.
//!
//! A reader answers a value exactly for that value's spelling: it repairs nothing, and looks at a
//! word whole before it takes memory for it. What has no bound by its type (bytes) is read with a
//! limit that the caller gives.
//!
//! Definitions: `specs/Words` for the cutting, and one file for each kind of word, which says what
//! its spelling is. docs/FORMATS.md: sections 4 and 5 for ids, stamps and names, and the fields of
//! schedules and journals. A further word: its printer (a type with `Display`), its reader, its
//! definition, and a law that the reader answers only what is printed so.
#![tactic(auto)]

mod choice_word;
mod hex_word;
mod list_word;
mod place_word;
mod stamp_word;
mod text_word;
mod word;
mod words;

pub use choice_word::{
    FullWord, GoldWord, LifeWord, RaisedWord, one_choice_spelling, read_full, read_gold, read_life,
    read_raised,
};
pub use hex_word::{HexWord, read_hex, read_hex_word};
pub use list_word::items_of;
pub use place_word::{NameWord, PlaceWords, one_place_spelling, read_place};
pub use stamp_word::{StampsWord, one_stamp_spelling, read_stamp, read_stamps};
pub use text_word::{TextWord, is_text};
pub use word::{is_same, read_directory, read_file, read_id};
pub use words::{first_word, first_words};
