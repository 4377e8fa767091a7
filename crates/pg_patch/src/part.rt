//! Bytes at an index.

ghost use Rattle.std.specs.Prelude.{◌≡◌, ◌<◌, ◌^◌, IfOk};
ghost use Rattle.pg_patch.specs.Parts.{bytes_of_parts, end_of};

use pg_base::SharedBytes;
use std::alloc::AllocError;

/// Bytes, and the index in a body where the first of them stands.
#[derive(Debug, Drop)]
pub struct Part {
    pub offset: u32,
    pub bytes: SharedBytes,
}

impl Part {
    /// Copies the part. Its bytes are shared.
    pub fn copy(&self) -> Result<Part, AllocError>
        ensures { IfOk result (λ p. p ≡ self.now) }
    {
        Ok(Part {
            offset: self.offset,
            bytes: self.bytes.copy()?,
        })
    }

    /// The index behind the last byte.
    pub(crate) fn end(&self) -> usize
        requires { end_of self.now < 2 ^ 32 }
        ensures { result ≡ end_of self.now }
    {
        self.offset as usize + self.bytes.len()
    }
}

/// How many bytes the parts have together.
pub(crate) fn bytes_of(parts: &[Part]) -> usize
    requires { bytes_of_parts parts.now < 2 ^ 32 }
    ensures { result ≡ bytes_of_parts parts.now }
{
    parts.iter().map(|part| part.bytes.len()).sum()
}
