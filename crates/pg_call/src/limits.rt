//! Values of calls that are bounded.

ghost use Rattle.std.specs.Prelude.{◌≡◌, ◌≤◌, ◌<◌, ◌↔◌, length, IfOk, IfSome, IsNone};

use pg_base::SharedBytes;
use std::alloc::AllocError;
use std::marker::Model;

/// The most bytes that one read or one write has.
pub const MOST_BYTES: usize = 32_768;

/// The bytes of one write: at most 32,768. A copy shares them.
#[derive(Debug, Drop)]
pub struct Payload {
    bytes: SharedBytes,
}

impl Model for Payload {
    ghost use Rattle.std.specs.Prelude.{List, ℕ, ◌≤◌, length};

    ghost Value = { List ℕ };

    ghost view = { λ p. p.bytes };

    ghost invariant = { λ p. length p.bytes ≤ 32768 };
}

impl Payload {
    /// The bytes, where they are not too many.
    pub fn new(bytes: SharedBytes) -> Option<Payload>
        ensures found { IfSome result (λ p. p ≡ bytes) }
        ensures none { IsNone result ↔ (32768 < length bytes) }
    {
        if bytes.len() > MOST_BYTES {
            return None;
        }
        Some(Payload { bytes })
    }

    /// The bytes, to be shared.
    pub fn bytes(&self) -> &SharedBytes
        ensures bytes { result.now ≡ self.now }
        ensures few { length self.now ≤ 32768 }
    {
        &self.bytes
    }

    /// Copies the bytes. Nothing is moved.
    pub fn copy(&self) -> Result<Payload, AllocError>
        ensures { IfOk result (λ p. p ≡ self.now) }
    {
        Ok(Payload {
            bytes: self.bytes.copy()?,
        })
    }
}

/// How many bytes one read asks for: at most 32,768.
#[derive(Clone, Copy, Debug, PartialEq, Eq)]
pub struct ReadCount {
    count: u32,
}

impl Model for ReadCount {
    ghost use Rattle.std.specs.Prelude.{ℕ, ◌≤◌};

    ghost Value = { ℕ };

    ghost view = { λ c. c.count };

    ghost inverse = { λ n. record { count = n } };

    ghost invariant = { λ c. c.count ≤ 32768 };
}

impl ReadCount {
    /// The number of bytes to read, where it is not above the limit.
    pub fn new(count: u32) -> Option<ReadCount>
        ensures found { IfSome result (λ c. c ≡ count) }
        ensures none { IsNone result ↔ (32768 < count) }
    {
        if count as usize > MOST_BYTES {
            return None;
        }
        Some(ReadCount { count })
    }

    pub fn get(self) -> u32
        ensures count { result ≡ self }
        ensures few { result ≤ 32768 }
    {
        self.count
    }
}
