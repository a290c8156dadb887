ghost use Rattle.std.specs.Prelude.{◌≡◌, [], ◌∷◌, IfOk};
ghost use Rattle.json.specs.Print.{print};
ghost use Rattle.json.specs.Token.{string};
ghost use Rattle.topo_outline.specs.Common.{IsJson};
ghost use Rattle.edit_records.specs.Common.{string_text};

use edit_records::IdText;
use json::Writer;
use std::alloc::{AllocError, Allocator};

/// The text as a writer of JSON prints it.
fn printed<A: Allocator + Copy>(alloc: A, text: &str) -> Result<Vec<u8, A>, AllocError>
    ensures { IfOk result (λ json. json.items ≡ print (string text.now ∷ [])) }
{
    let mut writer = Writer::new(Vec::new(alloc));
    writer.string(text)?;
    Ok(writer.into_inner())
}

/// The JSON string of an id's text, as `serde_json` writes it (RFC 8259, 7): only quotation marks,
/// backslashes and control characters are escaped, each as briefly as can be.
pub(crate) fn json_string<A: Allocator + Copy>(id: &IdText<A>) -> Result<Vec<u8, A>, AllocError>
    ensures text { IfOk result (λ json. json.items ≡ string_text id.now) }
    ensures json { IfOk result (λ json. IsJson json.items) }
{
    printed(*id.0.allocator(), id.0.as_str())
}
