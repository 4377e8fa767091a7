//! Texts inside XML.

ghost use Rattle.std.specs.Prelude.{◌≡◌, ◌++◌, ℕ, List, OnOk};
ghost use Rattle.pg_svg.specs.Escaped.{IsXmlText, escaped, escaped_byte};

use pg_base::Bytes;
use std::alloc::AllocError;

/// Writes a byte as it stands in XML: what XML takes for its own is told by name, and a byte that
/// is no printable ASCII is a question mark.
fn write_byte(byte: u8, out: &mut Bytes) -> Result<(), AllocError>
    ensures { OnOk result (out.new ≡ out.old ++ escaped_byte byte) }
{
    if byte == b'<' {
        return out.extend(b"&lt;");
    }
    if byte == b'>' {
        return out.extend(b"&gt;");
    }
    if byte == b'&' {
        return out.extend(b"&amp;");
    }
    if byte == b'"' {
        return out.extend(b"&quot;");
    }
    if 32 <= byte && byte <= 126 {
        return out.push(byte);
    }
    out.extend(b"?")
}

/// Writes a text as it stands between two tags.
pub fn write_escaped(text: &[u8], out: &mut Bytes) -> Result<(), AllocError>
    ensures { OnOk result (out.new ≡ out.old ++ escaped text.now) }
{
    for byte in text {
        write_byte(*byte, out)?;
    }
    Ok(())
}

/// Whatever the text holds, what stands for it between two tags opens and ends no tag, and each `&`
/// begins one of the four names that are used.
pub fn escaped_is_plain()
    ensures { (text : List ℕ) → IsXmlText (escaped text) }
{}
