//! Fields, written behind the bytes that are there.

ghost use Rattle.std.specs.Prelude.{◌≡◌, ◌++◌, ◌∷◌, [], OnOk};
ghost use Rattle.pg_base.specs.Id.{letter};
ghost use Rattle.pg_codec.specs.Spelling.{file_bytes, flag_bytes, number_bytes, stamp_bytes};

use byteorder::{BigEndian, ByteOrder};
use pg_base::{Bytes, FileId, Kind, Stamp};
use std::alloc::AllocError;

/// A number as one byte.
#[tactic(auto, unfolding(crate::specs::Spelling::number_bytes))]
pub fn write_u8(value: u8, out: &mut Bytes) -> Result<(), AllocError>
    ensures { OnOk result (out.new ≡ out.old ++ number_bytes 1 value) }
{
    out.push(value)
}

/// A number as two bytes.
#[tactic(auto, unfolding(crate::specs::Spelling::number_bytes))]
pub fn write_u16(value: u16, out: &mut Bytes) -> Result<(), AllocError>
    ensures { OnOk result (out.new ≡ out.old ++ number_bytes 2 value) }
{
    let mut field = [0; 2];
    BigEndian::write_u16(&mut field, value);
    out.extend(&field)
}

/// A number as four bytes.
#[tactic(auto, unfolding(crate::specs::Spelling::number_bytes))]
pub fn write_u32(value: u32, out: &mut Bytes) -> Result<(), AllocError>
    ensures { OnOk result (out.new ≡ out.old ++ number_bytes 4 value) }
{
    let mut field = [0; 4];
    BigEndian::write_u32(&mut field, value);
    out.extend(&field)
}

/// A number as eight bytes.
#[tactic(auto, unfolding(crate::specs::Spelling::number_bytes))]
pub fn write_u64(value: u64, out: &mut Bytes) -> Result<(), AllocError>
    ensures { OnOk result (out.new ≡ out.old ++ number_bytes 8 value) }
{
    let mut field = [0; 8];
    BigEndian::write_u64(&mut field, value);
    out.extend(&field)
}

/// A truth value.
#[tactic(auto, unfolding(crate::specs::Spelling::flag_bytes))]
pub fn write_flag(value: bool, out: &mut Bytes) -> Result<(), AllocError>
    ensures { OnOk result (out.new ≡ out.old ++ flag_bytes value) }
{
    if value { out.push(1) } else { out.push(0) }
}

/// Bytes as they are.
pub fn write_bytes(value: &[u8], out: &mut Bytes) -> Result<(), AllocError>
    ensures { OnOk result (out.new ≡ out.old ++ value.now) }
{
    out.extend(value)
}

/// The byte that says whether a directory or a file follows.
fn write_kind(kind: Kind, out: &mut Bytes) -> Result<(), AllocError>
    ensures { OnOk result (out.new ≡ out.old ++ letter kind ∷ []) }
{
    match kind {
        Kind::Dir => out.push(b'd'),
        Kind::File => out.push(b'f'),
    }
}

/// A file or directory.
#[tactic(auto, unfolding(crate::specs::Spelling::file_bytes))]
pub fn write_file(value: FileId, out: &mut Bytes) -> Result<(), AllocError>
    ensures { OnOk result (out.new ≡ out.old ++ file_bytes value) }
{
    write_kind(value.kind, out)?;
    write_u32(value.server, out)?;
    write_u64(value.number, out)
}

/// A stamp.
#[tactic(auto, unfolding(crate::specs::Spelling::stamp_bytes))]
pub fn write_stamp(value: Stamp, out: &mut Bytes) -> Result<(), AllocError>
    ensures { OnOk result (out.new ≡ out.old ++ stamp_bytes value) }
{
    write_u64(value.time, out)?;
    write_u32(value.server, out)
}
