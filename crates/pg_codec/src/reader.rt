//! Bytes that are read field by field.

ghost use Rattle.std.specs.Prelude.{◌≡◌, length, ◌==◌};
ghost use Rattle.pg_codec.specs.Reading.{Gives, bytes_at, file_at, flag_at, kind_at, number_at, stamp_at, unread};

use crate::error::ReadError;
use byteorder::{BigEndian, ByteOrder};
use pg_base::{FileId, Kind, Stamp};
use std::marker::Model;

/// Bytes that are read from left to right. It is seen as what is not read yet, and the place in all
/// bytes at which that begins. A field that cannot be read may leave it at the field or inside.
#[derive(Debug, Drop)]
pub struct Reader<'a> {
    bytes: &'a [u8],
    at: usize,
}

impl<'a> Model for Reader<'a> {
    ghost use Rattle.std.specs.Prelude.{◌≤◌, length, drop};
    ghost use Rattle.pg_codec.specs.Unread.{Unread};

    ghost Value = { Unread };

    ghost view = { λ r. record { place = r.at; rest = drop r.at r.bytes.now } };

    ghost invariant = { λ r. r.at ≤ length r.bytes.now };
}

impl<'a> Reader<'a> {
    /// All of the bytes are still to be read.
    pub fn new(bytes: &'a [u8]) -> Self
        ensures { result ≡ unread bytes.now }
    {
        Reader { bytes, at: 0 }
    }

    /// How many bytes were read.
    pub fn place(&self) -> usize
        ensures { result ≡ self.now.place }
    {
        self.at
    }

    /// Whether all bytes were read.
    pub fn is_at_end(&self) -> bool
        ensures { result ≡ (length self.now.rest == 0) }
    {
        self.at == self.bytes.len()
    }

    /// The next `count` bytes.
    pub fn take(&mut self, count: usize) -> Result<&'a [u8], ReadError>
        ensures { Gives (λ bytes. (bytes.now, self.new)) result (bytes_at count self.old) }
    {
        if self.bytes.len() - self.at < count {
            return Err(ReadError::Short(self.bytes.len()));
        }
        let field = &self.bytes[self.at..self.at + count];
        self.at += count;
        Ok(field)
    }

    /// A number of one byte.
    #[tactic(auto, unfolding(crate::specs::Reading::number_at))]
    pub fn u8(&mut self) -> Result<u8, ReadError>
        ensures { Gives (λ n. (n, self.new)) result (number_at 1 self.old) }
    {
        let field = self.take(1)?;
        Ok(field[0])
    }

    /// A number of two bytes.
    #[tactic(auto, unfolding(crate::specs::Reading::number_at))]
    pub fn u16(&mut self) -> Result<u16, ReadError>
        ensures { Gives (λ n. (n, self.new)) result (number_at 2 self.old) }
    {
        let field = self.take(2)?;
        Ok(BigEndian::read_u16(field))
    }

    /// A number of four bytes.
    #[tactic(auto, unfolding(crate::specs::Reading::number_at))]
    pub fn u32(&mut self) -> Result<u32, ReadError>
        ensures { Gives (λ n. (n, self.new)) result (number_at 4 self.old) }
    {
        let field = self.take(4)?;
        Ok(BigEndian::read_u32(field))
    }

    /// A number of eight bytes.
    #[tactic(auto, unfolding(crate::specs::Reading::number_at))]
    pub fn u64(&mut self) -> Result<u64, ReadError>
        ensures { Gives (λ n. (n, self.new)) result (number_at 8 self.old) }
    {
        let field = self.take(8)?;
        Ok(BigEndian::read_u64(field))
    }

    /// A truth value.
    #[tactic(auto, unfolding(crate::specs::Reading::flag_at))]
    pub fn flag(&mut self) -> Result<bool, ReadError>
        ensures { Gives (λ b. (b, self.new)) result (flag_at self.old) }
    {
        let place = self.at;
        match self.u8()? {
            0 => Ok(false),
            1 => Ok(true),
            _ => Err(ReadError::BadTag(place)),
        }
    }

    /// Whether a directory or a file follows.
    #[tactic(auto, unfolding(crate::specs::Reading::kind_at))]
    fn kind(&mut self) -> Result<Kind, ReadError>
        ensures { Gives (λ k. (k, self.new)) result (kind_at self.old) }
    {
        let place = self.at;
        match self.u8()? {
            b'd' => Ok(Kind::Dir),
            b'f' => Ok(Kind::File),
            _ => Err(ReadError::BadTag(place)),
        }
    }

    /// A file or directory.
    #[tactic(auto, unfolding(crate::specs::Reading::file_at))]
    pub fn file(&mut self) -> Result<FileId, ReadError>
        ensures { Gives (λ id. (id, self.new)) result (file_at self.old) }
    {
        let kind = self.kind()?;
        let server = self.u32()?;
        let number = self.u64()?;
        Ok(FileId {
            kind,
            server,
            number,
        })
    }

    /// A stamp.
    #[tactic(auto, unfolding(crate::specs::Reading::stamp_at))]
    pub fn stamp(&mut self) -> Result<Stamp, ReadError>
        ensures { Gives (λ s. (s, self.new)) result (stamp_at self.old) }
    {
        let time = self.u64()?;
        let server = self.u32()?;
        Ok(Stamp { time, server })
    }
}
