//! The bytes of names and components.

ghost use Rattle.std.specs.Prelude.{◌↔◌, IsTrue};
ghost use Rattle.pg_path.specs.Name.{IsComponentByte, IsNameByte};

/// Whether a component may have this byte.
pub fn is_component_byte(byte: u8) -> bool
    ensures { IsTrue result ↔ IsComponentByte byte }
{
    0x21 <= byte && byte <= 0x7E && byte != b'/'
}

/// Whether a client name may have this byte.
pub fn is_name_byte(byte: u8) -> bool
    ensures { IsTrue result ↔ IsNameByte byte }
{
    is_component_byte(byte) && byte != b'~'
}
