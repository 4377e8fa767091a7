//! What a program of rows reads and writes: a row is a line with a call of a library, and the
//! program writes what the call answers. Many rows have pieces, with a bar between two of them,
//! that are done one after another on one thing.
//!
//! Words are read with good will: where one lacks, or is none of its kind, a number is 0, a text is
//! empty and an id is the root. So a row stays a line that can be read at sight, and the functions
//! here have no case to refuse.
//!
//! `words` reads the words of a row, `pieces` plays its pieces on one thing (`Stage`), `answer`
//! writes what comes of them. The programs are `pg_leaf_rows`, `pg_content_rows`, `pg_text_rows`
//! and `pg_disk_rows`; the rows and what they must give are their files `stdin` and `stdout`, which
//! the gate compares.
//!
//! A kind of row more: a verb in one of these programs. What a row says is true of the library as
//! it was proved; a row shows that it is what the documents say.
#![tactic(auto)]

mod answer;
mod pieces;
mod words;

pub use answer::Answer;
pub use pieces::{Stage, play};
pub use words::{
    ROOT, actor, id, narrow, numbered, repeat, servers, stamp, text, wide, word, words_from,
    words_of,
};
