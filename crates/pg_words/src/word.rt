//! Words that are the same, and words that name files and directories.

ghost use Rattle.std.specs.Prelude.{◌≡◌, IfSome, IfNone, IsTrue, ◌↔◌};
ghost use Rattle.pg_base.specs.Id.{spelling, Fits};
ghost use Rattle.pg_base.specs.declared.id.FileId.{FileId};
ghost use Rattle.pg_words.specs.FileWord.{IsDirectory, IsFile};

use pg_base::{FileId, Kind};

/// Whether two words are the same.
pub fn is_same(word: &[u8], other: &[u8]) -> bool
    ensures { IsTrue result ↔ (word.now ≡ other.now) }
{
    word == other
}

/// The file or directory that the word names.
pub fn read_id(word: &[u8]) -> Option<FileId>
    ensures found { IfSome result (λ f. Fits f × (word.now ≡ spelling f)) }
    ensures none { IfNone result ((f : FileId) → Fits f → word.now ≡ spelling f → ⊥) }
{
    match FileId::read(word) {
        Ok(id) => Some(id),
        Err(_) => None,
    }
}

/// The file that the word names.
pub fn read_file(word: &[u8]) -> Option<FileId>
    ensures found { IfSome result (λ f. IsFile f × (word.now ≡ spelling f)) }
    ensures none { IfNone result ((f : FileId) → IsFile f → word.now ≡ spelling f → ⊥) }
{
    let id = read_id(word)?;
    if id.kind == Kind::File {
        Some(id)
    } else {
        None
    }
}

/// The directory that the word names.
pub fn read_directory(word: &[u8]) -> Option<FileId>
    ensures found { IfSome result (λ d. IsDirectory d × (word.now ≡ spelling d)) }
    ensures none { IfNone result ((d : FileId) → IsDirectory d → word.now ≡ spelling d → ⊥) }
{
    let id = read_id(word)?;
    if id.kind == Kind::Dir { Some(id) } else { None }
}
