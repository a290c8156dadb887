// The made text, and which of its parts are copies.
ghost use Rattle.std.specs.Prelude.{◌≡◌, ◌++◌, ◌∷◌, [], map, length, IfOk, OnOk};
ghost use Rattle.json_spans.specs.Common.{node};
ghost use Rattle.geo_topology.specs.Text.{copy, made_by_segments};
ghost use Rattle.geo_topology.specs.Copies.{extended};
ghost use Rattle.geo_topology.specs.Places.{in_file};
ghost use Rattle.geo_topology.specs.Views.{view_part, view_made};

use crate::part::Part;
use json_spans::Span;
use std::alloc::{AllocError, Allocator, Global};

/// The text of a topology, and the parts of it that are copies, in its order.
#[derive(Drop)]
pub struct MadeText<A: Allocator + Copy = Global> {
    pub text: Vec<u8, A>,
    pub parts: Vec<Part, A>,
}

impl<A: Allocator + Copy> MadeText<A> {
    /// An empty text, with room for so many bytes.
    pub(crate) fn with_room(alloc: A, room: usize) -> Result<Self, AllocError>
        ensures { IfOk result (λ made. view_made made ≡ made_by_segments []) }
    {
        let text = Vec::with_capacity(alloc, room)?;
        Ok(MadeText {
            text,
            parts: Vec::new(alloc),
        })
    }

    /// Appends words.
    pub(crate) fn put(&mut self, words: &[u8]) -> Result<(), AllocError>
        ensures text { OnOk result (self.new.text.items ≡ self.old.text.items ++ words.now) }
        ensures parts { OnOk result (self.new.parts ≡ self.old.parts) }
    {
        self.text.extend_from_slice(words)?;
        Ok(())
    }

    /// Notes that a copy of a part of the file follows.
    fn note(&mut self, span: Span<'_>) -> Result<(), AllocError>
        ensures text { OnOk result (self.new.text ≡ self.old.text) }
        ensures parts { OnOk result (map view_part self.new.parts.items
            ≡ map view_part self.old.parts.items ++ record {
              made = length self.old.text.items;
              file = (node span.entry).at_byte;
              len = length (node span.entry).bytes;
            } ∷ []) }
    {
        self.parts.push(Part {
            made: self.text.len(),
            file: span.at,
            len: span.text.len(),
        })?;
        Ok(())
    }

    /// Appends a copy of a part of the file.
    pub(crate) fn copy(&mut self, span: Span<'_>) -> Result<(), AllocError>
        ensures { OnOk result
            (view_made self.new ≡ extended (view_made self.old) (copy (node span.entry) ∷ [])) }
    {
        self.note(span)?;
        self.put(span.text)
    }

    /// The place in the file of a place in the made text, and none where no copied part is. Places
    /// are counted in bytes from 0.
    pub fn in_file(&self, place: usize) -> Option<usize>
        ensures { result ≡ in_file (map view_part self.now.parts.items) place }
    {
        place_in_file(self.parts.as_slice(), place)
    }
}

/// The place in the file of a place that one of these parts has.
#[tactic(auto, using(crate::proofs::Placing::place_step, crate::proofs::Placing::place_end))]
fn place_in_file(parts: &[Part], place: usize) -> Option<usize>
    ensures { result ≡ in_file (map view_part parts.now) place }
{
    for part in parts {
        if part.made <= place && place - part.made < part.len {
            return Some(part.file + (place - part.made));
        }
    }
    None
}
