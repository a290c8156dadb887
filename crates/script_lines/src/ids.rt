// The texts of ids, from JSON strings.
ghost use Rattle.std.specs.Prelude.{◌≡◌, ℕ, List, IfOk, MatchOption};
ghost use Rattle.json_spans.specs.Common.{IsText, node};
ghost use Rattle.topo_outline.specs.Common.{IsName};
ghost use Rattle.script_lines.specs.Words.{IsMarked};

use edit_records::IdText;
use json_spans::{ScanFault, Span, TextFault, scan, text};
use std::alloc::{AllocError, Global};

/// The value that a token is, where it is a JSON string (RFC 8259, section 7).
fn string_of<'a>(heap: Global, token: &'a [u8]) -> Result<Option<Span<'a>>, AllocError>
    requires { IsMarked token.now }
    ensures { IfOk result (λ found. MatchOption found
        (¬ IsText token.now)
        (λ span. ((node span).bytes ≡ token.now) × IsText token.now)) }
{
    match scan(heap, token) {
        Ok(root) => Ok(Some(root.span())),
        Err(ScanFault::OutOfMemory) => Err(AllocError),
        Err(_) => Ok(None),
    }
}

/// The text that a token stands for. `None` where the token is no JSON string, or has half of a
/// surrogate pair.
#[tactic(auto, using(crate::proofs::IdLemmas::name_found, crate::proofs::IdLemmas::no_name, crate::proofs::IdLemmas::no_text))]
pub(crate) fn id_of(heap: Global, token: &[u8]) -> Result<Option<IdText>, AllocError>
    requires { IsMarked token.now }
    ensures { IfOk result (λ found. MatchOption found
        ((name : List ℕ) → ¬ IsName token.now name)
        (λ name. IsName token.now name)) }
{
    let Some(span) = string_of(heap, token)? else {
        return Ok(None);
    };
    match text(heap, span) {
        Ok(name) => Ok(Some(IdText(name))),
        Err(TextFault::OutOfMemory) => Err(AllocError),
        Err(TextFault::BadText) => Ok(None),
    }
}
