// Whole numbers.
ghost use Rattle.std.specs.Prelude.{◌≡◌, ◌++◌, OnOk};
ghost use Rattle.std.specs.Fmt.{signed_decimal};
ghost use Rattle.svg_text.specs.Numbers.{attribute_text, number_pair_text};

use itoa::Buffer;
use std::alloc::{AllocError, Allocator};

/// Appends a number in decimal.
pub fn push_number<A: Allocator>(text: &mut Vec<u8, A>, number: i64) -> Result<(), AllocError>
    ensures { OnOk result (text.new.items ≡ text.old.items ++ signed_decimal number) }
{
    let mut buffer = Buffer::new();
    text.extend_from_slice(buffer.format(number).as_bytes())?;
    Ok(())
}

/// Appends two numbers with a space between them.
pub fn push_pair<A: Allocator>(text: &mut Vec<u8, A>, x: i64, y: i64) -> Result<(), AllocError>
    ensures { OnOk result (text.new.items ≡ text.old.items ++ number_pair_text x y) }
{
    push_number(text, x)?;
    text.extend_from_slice(b" ")?;
    push_number(text, y)?;
    Ok(())
}

/// Appends a space and an attribute whose value is a number.
pub fn push_attribute<A: Allocator>(
    text: &mut Vec<u8, A>,
    name: &str,
    value: i64,
) -> Result<(), AllocError>
    ensures { OnOk result (text.new.items ≡ text.old.items ++ attribute_text name.now value) }
{
    text.extend_from_slice(b" ")?;
    text.extend_from_slice(name.as_bytes())?;
    text.extend_from_slice(b"=\"")?;
    push_number(text, value)?;
    text.extend_from_slice(b"\"")?;
    Ok(())
}
