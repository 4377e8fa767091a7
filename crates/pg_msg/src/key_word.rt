//! Keys as text.

ghost use Rattle.std.specs.Prelude.{◌≡◌, IfSome, IfNone};
ghost use Rattle.pg_edges.specs.declared.key.Key.{Key};
ghost use Rattle.pg_msg.specs.Text.{IsKey, key_text};

use pg_base::{cut_at, number_u32};
use pg_edges::Key;
use pg_words::{is_same, read_id, read_stamp};
use std::fmt;

/// A key as it is written: `place`, `flag:3`, `entry:f1.2` or `version:40@1`.
#[derive(Clone, Copy, Debug)]
pub struct KeyWord(pub Key);

impl fmt::Display for KeyWord {
    ghost use Rattle.std.specs.Prelude.{Some};
    ghost use Rattle.pg_msg.specs.Text.{key_text};

    ghost output = { λ w. Some (key_text w.0) };

    fn fmt<W: fmt::Write>(&self, f: &mut fmt::Formatter<W>) -> fmt::Result {
        match self.0 {
            Key::Place => f.write_str("place"),
            Key::Flag(server) => write!(f, "flag:{server}"),
            Key::Entry(child) => write!(f, "entry:{child}"),
            Key::Version(stamp) => write!(f, "version:{stamp}"),
        }
    }
}

/// The key that the word spells.
pub fn read_key(word: &[u8]) -> Option<Key>
    ensures found { IfSome result (λ k. IsKey k × (word.now ≡ key_text k)) }
    ensures none { IfNone result ((k : Key) → IsKey k → word.now ≡ key_text k → ⊥) }
{
    if is_same(word, b"place") {
        return Some(Key::Place);
    }
    let (cell, part) = cut_at(word, b':')?;
    if is_same(cell, b"flag") {
        let server = number_u32(part)?;
        return Some(Key::Flag(server));
    }
    if is_same(cell, b"entry") {
        let child = read_id(part)?;
        return Some(Key::Entry(child));
    }
    if is_same(cell, b"version") {
        let stamp = read_stamp(part)?;
        return Some(Key::Version(stamp));
    }
    None
}

/// No two keys have one spelling.
pub fn one_key_spelling()
    ensures { (a b : Key) → IsKey a → IsKey b → key_text a ≡ key_text b → a ≡ b }
{}
