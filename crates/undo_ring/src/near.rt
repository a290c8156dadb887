//! The boxes of a map's rings, kept beside its history, so that a position is asked for without a look
//! along the whole map.
ghost use Rattle.std.specs.Prelude.{◌≡◌, ◌∷◌, true, false, List, IfSome, OnOk};
ghost use Rattle.ring_machine.specs.Common.{Document};
ghost use Rattle.undo_ring.specs.Boxed.{HasGrown, CoversSince, HasComing, GrowsWith};
ghost use Rattle.undo_ring.specs.Boxed as boxed;
ghost use Rattle.edit_records.specs.Commands.{command_of};

use arc_store::Map;
use edit_records::Command;
use grid_geometry::Pos;
use point_queries::{RingBoxes, add_boxes, boxes_of};
use segment_index::SegIndex;
use std::alloc::{AllocError, Allocator, Global};

/// The boxes of a map's rings, once a position was asked for. They cover the map as it is, and as it
/// was before so many of its newest changes. Where memory for what a change brought is refused, they are
/// forgotten, and made anew by the next question.
#[derive(Drop)]
pub(crate) struct Near<A: Allocator + Copy = Global> {
    pub(crate) boxes: Option<RingBoxes<A>>,
    pub(crate) since: usize,
}

/// The features whose rings become others by a command, where it makes some: two, or one twice. A new
/// one has the next number.
pub(crate) fn touched_by(command: &Command, next: u32) -> Option<(u32, u32)>
    ensures { result ≡ boxed.touched_by next (command_of command.now) }
{
    match command {
        Command::Split(n, _, _) => Some((*n, next)),
        Command::Merge(n, _) => Some((*n, *n)),
        _ => None,
    }
}

impl<A: Allocator + Copy> Near<A> {
    /// No boxes.
    pub(crate) fn new() -> Self
        ensures { (docs : List Document) → CoversSince result docs }
    {
        Near {
            boxes: None,
            since: 0,
        }
    }

    /// Where p lies in a box, q lies in one with all that it has. Fails only on allocation failure.
    fn grow(&mut self, p: Pos, q: Pos) -> Result<(), AllocError>
        ensures known { (docs : List Document) → CoversSince self.old docs → CoversSince self.new docs }
        ensures grown { OnOk result ((d : Document) (docs : List Document)
            → CoversSince self.old (d ∷ docs) → IfSome self.new.boxes (HasGrown d p q)) }
    {
        match &mut self.boxes {
            Some(boxes) => boxes.grow(p, q),
            None => Ok(()),
        }
    }

    /// The boxes of a map are made, unless they are there. Fails only on allocation failure.
    fn look<'a, I: SegIndex>(&mut self, alloc: A, map: &Map<'a, I, A>) -> Result<(), AllocError>
        ensures { (docs : List Document) → CoversSince self.old (map.now.doc ∷ docs)
            → CoversSince self.new (map.now.doc ∷ docs) }
    {
        if self.boxes.is_none() {
            self.boxes = Some(boxes_of(alloc, map)?);
            self.since = 0;
        }
        Ok(())
    }

    /// Makes the boxes ready for a command to this map. Fails only on allocation failure.
    pub(crate) fn prepare<'a, I: SegIndex>(
        &mut self,
        alloc: A,
        map: &Map<'a, I, A>,
        command: &Command,
    ) -> Result<(), AllocError>
        ensures known { (docs : List Document) → CoversSince self.old (map.now.doc ∷ docs)
            → CoversSince self.new (map.now.doc ∷ docs) }
        ensures ready { OnOk result ((docs : List Document) → CoversSince self.old (map.now.doc ∷ docs)
            → IfSome self.new.boxes (HasComing map.now.doc (command_of command.now))) }
    {
        match command {
            Command::Move(from, to) => self.grow(*from, *to),
            Command::Insert(a, _, new) => self.grow(*a, *new),
            Command::At(_) => self.look(alloc, map),
            _ => Ok(()),
        }
    }

    /// Takes in what came by a change, if there was one: it made other rings of these features.
    pub(crate) fn follow<'a, I: SegIndex>(
        &mut self,
        map: &Map<'a, I, A>,
        touched: Option<(u32, u32)>,
        changed: bool,
    )
        ensures changed { changed ≡ true → GrowsWith self.old self.new map.now.doc touched }
        ensures same { changed ≡ false → self.new ≡ self.old }
    {
        if !changed {
            return;
        }
        self.since = self.since.saturating_add(1);
        let Some((n, m)) = touched else {
            return;
        };
        let came = match &mut self.boxes {
            Some(boxes) => add_boxes(map, boxes, n).is_ok() && add_boxes(map, boxes, m).is_ok(),
            None => true,
        };
        if !came {
            self.boxes = None;
        }
    }

    /// Goes back over the newest change.
    pub(crate) fn step_back(&mut self)
        ensures { (d : Document) (docs : List Document) → CoversSince self.old (d ∷ docs)
            → CoversSince self.new docs }
    {
        if self.since == 0 {
            self.boxes = None;
        } else {
            self.since -= 1;
        }
    }
}
