// What stands before each Feature of a list, and after all of them.
ghost use Rattle.std.specs.Prelude.{◌≡◌, ◌++◌, OnOk};
ghost use Rattle.geo_text.specs.Items.{line_begin, list_end};

use geo_features::push_comma;
use std::alloc::{AllocError, Allocator};

/// Appends what stands before a Feature with this number: a line feed, after a comma but for the first one.
pub(crate) fn push_line_begin<A: Allocator>(
    text: &mut Vec<u8, A>,
    feature: usize,
) -> Result<(), AllocError>
    ensures { OnOk result (text.new.items ≡ text.old.items ++ line_begin feature) }
{
    push_comma(text, feature > 0)?;
    text.extend_from_slice(b"\n")
}

/// Appends the end of a list of so many Features, and of the collection.
pub(crate) fn push_list_end<A: Allocator>(
    text: &mut Vec<u8, A>,
    features: usize,
) -> Result<(), AllocError>
    ensures { OnOk result (text.new.items ≡ text.old.items ++ list_end features) }
{
    if features > 0 {
        text.extend_from_slice(b"\n")?;
    }
    text.extend_from_slice(b"]}\n")
}
