//! Slots of names: where an index lists who has a name in a directory.

ghost use Rattle.std.specs.Prelude.{◌≡◌};
ghost use Rattle.pg_entries.specs.Slots.{digest_of, slot_of};

use pg_base::FileId;

/// The slot of a name in a directory. A name has one slot there, and few names share it.
pub(crate) fn slot_of(dir: FileId, name: &[u8]) -> FileId
    ensures { result ≡ slot_of dir name.now }
{
    FileId {
        kind: dir.kind,
        server: digest(dir.server, name),
        number: dir.number,
    }
}

fn digest(first: u32, name: &[u8]) -> u32
    ensures { result ≡ digest_of first name.now }
{
    let mut digest = first;
    for byte in name {
        digest = digest.wrapping_mul(31).wrapping_add(u32::from(*byte));
    }
    digest
}
