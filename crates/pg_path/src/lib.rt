//! Names of files and directories, and paths to them.
//!
//! `bytes` says which bytes stand in names and in components, `name` which words a client may
//! give a thing, `path` how a path is read, part by part, and `error` the first fault of each; a
//! `row` of a listing is a shown name and the id that it stands for.
//!
//! It touches texts alone: whether a path leads anywhere is for servers (`pg_lookup`).
//!
//! A name is kept as shared bytes, since places, messages and rows all have it. A path keeps its
//! own text and the offsets of its components in it: two buffers, and one for `/`, in place of a
//! copy of each component. A path has one text (`one_spelling`), and each name is a component
//! (`name_is_component`), while a component may also be a shown name, with a tilde and an id.
//!
//! Faults: a text of over 4,096 bytes is `Long`, whatever it holds behind its slash, and over 64
//! components are told from the count alone. So 65 components of which one is bad are `TooDeep`.
//!
//! Definitions: `specs/Name`, `Path`, `First` (the first bad byte or component), `Tested` (what
//! the tests of this crate answer). docs/RULES.md: "Names and paths"; docs/FORMATS.md, section 5.
//! A further fault is a case of `BadName` or `BadPath` and a line of `specs/First`, in the order in
//! which faults are told.
#![tactic(auto)]

mod bytes;
mod error;
mod name;
mod path;
mod row;

pub use error::{BadName, BadPath};
pub use name::{Name, is_client_name};
pub use path::{Path, is_component, name_is_component, one_spelling};
pub use row::Row;
