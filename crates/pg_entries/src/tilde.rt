//! Names with an id behind them.

ghost use Rattle.std.specs.Prelude.{ℕ, List, All, Some, ◌≡◌, ◌≢◌, ◌∷◌, ◌++◌, ◌↔◌, IsTrue, IfOk};
ghost use Rattle.pg_base.specs.declared.id.FileId.{FileId};
ghost use Rattle.pg_base.specs.Id.{Fits, spelling};
ghost use Rattle.pg_register.specs.Place.{tilde_name};

use pg_base::{Bytes, FileId, SharedBytes, cut_at};
use std::alloc::{AllocError, Global};

/// The name, a tilde and the id.
pub(crate) fn with_id(alloc: Global, name: &[u8], id: FileId) -> Result<SharedBytes, AllocError>
    ensures { IfOk result (λ whole. whole ≡ name.now ++ tilde_name id) }
{
    let mut whole = Bytes::from_slice(alloc, name)?;
    whole.push(b'~')?;
    id.write(&mut whole)?;
    SharedBytes::from_vec(alloc, whole.into_vec())
}

/// Whether the text is the name, a tilde and the id.
pub(crate) fn is_with_id(text: &[u8], name: &[u8], id: FileId) -> bool
    ensures { IsTrue result ↔ text.now ≡ name.now ++ tilde_name id }
{
    match text.strip_prefix(name) {
        Some(rest) => is_tilde_name(rest, id),
        None => false,
    }
}

fn is_tilde_name(text: &[u8], id: FileId) -> bool
    ensures { IsTrue result ↔ text.now ≡ tilde_name id }
{
    match text {
        [b'~', rest @ ..] => is_spelling(rest, id),
        _ => false,
    }
}

fn is_spelling(text: &[u8], id: FileId) -> bool
    ensures { IsTrue result ↔ text.now ≡ spelling id }
{
    match FileId::read(text) {
        Ok(read) => read.compare(&id).is_eq(),
        Err(_) => false,
    }
}

/// The id behind the last tilde of the text.
pub(crate) fn id_behind(text: &[u8]) -> Option<FileId>
    ensures { (name : List ℕ) (id : FileId)
        → Fits id → text.now ≡ name ++ tilde_name id → result ≡ Some id }
{
    match FileId::read(behind_tildes(text)) {
        Ok(id) => Some(id),
        Err(_) => None,
    }
}

/// What stands behind the last tilde of the text.
fn behind_tildes(text: &[u8]) -> &[u8]
    ensures { (front tail : List ℕ) → All (λ byte. byte ≢ 126) tail
        → text.now ≡ front ++ 126 ∷ tail → result.now ≡ tail }
{
    let mut rest = text;
    while let Some((_, behind)) = cut_at(rest, b'~') {
        rest = behind;
    }
    rest
}
