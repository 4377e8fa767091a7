//! The names that clients give.

ghost use Rattle.std.specs.Prelude.{◌≡◌, ◌<◌, ◌↔◌, ℕ, [], length, All, IsTrue, IfOk, IfSome, IfNone};
ghost use Rattle.pg_path.specs.First.{IsFirstWithout};
ghost use Rattle.pg_path.specs.Name.{IsNameByte, IsClientName, HasBadByte};

use crate::bytes::is_name_byte;
use crate::error::BadName;
use pg_base::SharedBytes;
use std::alloc::{AllocError, Global};
use std::marker::Model;

/// A client name: 1 to 255 bytes that can be seen, without `/` and `~`. A copy shares them.
#[derive(Debug, Drop)]
pub struct Name {
    text: SharedBytes,
}

impl Model for Name {
    ghost use Rattle.std.specs.Prelude.{List, ℕ};
    ghost use Rattle.pg_path.specs.Name.{IsClientName};

    ghost Value = { List ℕ };

    ghost view = { λ n. n.text };

    ghost invariant = { λ n. IsClientName n.text };
}

/// The most bytes of a client name.
const MOST_BYTES: usize = 255;

/// The index of the first byte that no client name has.
fn first_bad_byte(bytes: &[u8]) -> Option<usize>
    ensures found { IfSome result (IsFirstWithout IsNameByte bytes.now) }
    ensures none { IfNone result (All IsNameByte bytes.now) }
{
    bytes.iter().position(|byte| !is_name_byte(*byte))
}

/// Whether the bytes are a client name.
pub fn is_client_name(bytes: &[u8]) -> bool
    ensures { IsTrue result ↔ IsClientName bytes.now }
{
    !bytes.is_empty() && bytes.len() <= MOST_BYTES && first_bad_byte(bytes).is_none()
}

impl Name {
    /// The client name of these bytes. Whether they are one is told before any memory is taken.
    pub fn read(alloc: Global, bytes: &[u8]) -> Result<Name, BadName>
        ensures found { IfOk result (λ n. (n ≡ bytes.now) × IsClientName n) }
        ensures empty { (result ≡ Err BadName.Empty) ↔ (bytes.now ≡ []) }
        ensures long { (result ≡ Err BadName.TooLong) ↔ (255 < length bytes.now) }
        ensures bad { (i : ℕ) → (result ≡ Err (BadName.BadByte i)) ↔ HasBadByte bytes.now i }
    {
        if bytes.is_empty() {
            return Err(BadName::Empty);
        }
        if bytes.len() > MOST_BYTES {
            return Err(BadName::TooLong);
        }
        if let Some(index) = first_bad_byte(bytes) {
            return Err(BadName::BadByte(index as u64));
        }
        Ok(Name {
            text: SharedBytes::from_slice(alloc, bytes)?,
        })
    }

    /// The bytes of the name.
    pub fn as_slice(&self) -> &[u8]
        ensures bytes { result.now ≡ self.now }
        ensures kept { IsClientName result.now }
    {
        self.text.as_slice()
    }

    /// The bytes of the name, to be shared.
    pub fn text(&self) -> &SharedBytes
        ensures bytes { result.now ≡ self.now }
        ensures kept { IsClientName result.now }
    {
        &self.text
    }

    /// Copies the name. Its bytes are shared.
    pub fn copy(&self) -> Result<Name, AllocError>
        ensures { IfOk result (λ n. n ≡ self.now) }
    {
        Ok(Name {
            text: self.text.copy()?,
        })
    }
}
