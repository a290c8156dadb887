// Classes of bytes.
ghost use Rattle.std.specs.Prelude.{◌≡◌};
ghost use Rattle.json_spans.specs.Bytes.{is_space, is_digit, is_hex, is_e, is_tail, is_ascii, is_unescaped};

pub(crate) fn is_space(x: u8) -> bool
    ensures { result ≡ is_space x }
{
    matches!(x, b' ' | b'\t' | b'\n' | b'\r')
}

pub(crate) fn is_digit(x: u8) -> bool
    ensures { result ≡ is_digit x }
{
    matches!(x, b'0'..=b'9')
}

pub(crate) fn is_hex(x: u8) -> bool
    ensures { result ≡ is_hex x }
{
    matches!(x, b'0'..=b'9' | b'A'..=b'F' | b'a'..=b'f')
}

pub(crate) fn is_e(x: u8) -> bool
    ensures { result ≡ is_e x }
{
    matches!(x, b'e' | b'E')
}

pub(crate) fn is_ascii(x: u8) -> bool
    ensures { result ≡ is_ascii x }
{
    b' ' <= x && x <= 0x7f && x != b'"' && x != b'\\'
}

pub(crate) fn is_unescaped(x: u8) -> bool
    ensures { result ≡ is_unescaped x }
{
    b' ' <= x && x != b'"' && x != b'\\'
}

pub(crate) fn is_tail(x: u8) -> bool
    ensures { result ≡ is_tail x }
{
    matches!(x, 0x80..=0xbf)
}
