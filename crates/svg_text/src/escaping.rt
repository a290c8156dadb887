// Text as XML has it.
ghost use Rattle.std.specs.Prelude.{◌≡◌, ◌++◌, [], OnOk};
ghost use Rattle.svg_text.specs.Escaping.{ends_noncharacter, escaped, escaped_byte, escaped_after, is_control, IsXmlText};

use std::alloc::{AllocError, Allocator};

/// The last byte of U+FFFD in UTF-8.
const REPLACEMENT_END: u8 = 0xBD;

/// Whether it is a control character that no XML text may have (XML 1.0, 2.2).
fn is_control(byte: u8) -> bool
    ensures { result ≡ is_control byte }
{
    byte < 32 && !(byte == b'\t' || byte == b'\n')
}

/// Whether it ends U+FFFE or U+FFFF, which no XML text may have, after these two bytes.
fn ends_noncharacter(first: u8, second: u8, byte: u8) -> bool
    ensures { result ≡ ends_noncharacter first second byte }
{
    first == 0xEF && second == 0xBF && (byte == 0xBE || byte == 0xBF)
}

/// Appends a byte as XML has it.
fn push_byte<A: Allocator>(text: &mut Vec<u8, A>, byte: u8) -> Result<(), AllocError>
    ensures { OnOk result (text.new.items ≡ text.old.items ++ escaped_byte byte) }
{
    match byte {
        b'&' => text.extend_from_slice(b"&amp;"),
        b'<' => text.extend_from_slice(b"&lt;"),
        b'>' => text.extend_from_slice(b"&gt;"),
        b'"' => text.extend_from_slice(b"&quot;"),
        b'\'' => text.extend_from_slice(b"&apos;"),
        b'\r' => text.extend_from_slice(b"&#13;"),
        _ => if is_control(byte) {
            text.extend_from_slice("\u{FFFD}".as_bytes())
        } else {
            text.extend_from_slice(&[byte])
        },
    }
}

/// Appends a byte as XML has it after these two bytes.
fn push_after<A: Allocator>(
    text: &mut Vec<u8, A>,
    first: u8,
    second: u8,
    byte: u8,
) -> Result<(), AllocError>
    ensures { OnOk result (text.new.items ≡ text.old.items ++ escaped_after first second byte) }
{
    if ends_noncharacter(first, second, byte) {
        text.extend_from_slice(&[REPLACEMENT_END])
    } else {
        push_byte(text, byte)
    }
}

/// Appends a text of UTF-8 so that XML reads it as it is, between elements and in a quoted value:
/// `&`, `<`, `>`, `"`, `'` and a carriage return as references, and U+FFFD for each character that XML
/// 1.0 forbids.
pub fn push_escaped<A: Allocator>(text: &mut Vec<u8, A>, bytes: &[u8]) -> Result<(), AllocError>
    ensures escaped { OnOk result (text.new.items ≡ text.old.items ++ escaped bytes.now) }
    ensures means { IsXmlText (escaped bytes.now) }
{
    let mut first = 0;
    let mut second = 0;
    for byte in bytes {
        push_after(text, first, second, *byte)?;
        first = second;
        second = *byte;
    }
    Ok(())
}
