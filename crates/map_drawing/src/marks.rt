// What is drawn over the borders.
ghost use Rattle.std.specs.Prelude.{Some, OnOk};
ghost use Rattle.map_drawing.specs.Names.{Adds, AddsPlace};

use crate::cutting::{Side, cut_line};
use crate::map_picture::{Look, Picture};
use crate::paths::{push_line, push_rings};
use grid_geometry::{Pos, Seg};
use map_features::{Conflict, Shape};
use std::alloc::{AllocError, Allocator};
use svg_text::{push_attribute, push_words};

/// How large the ring round a conflict is.
const RADIUS: i64 = 14;

impl<A: Allocator + Copy> Picture<A> {
    /// Appends the beginning of a path of lines, up to its positions. What is gone is dashed.
    pub(crate) fn open_lines(&mut self, look: Look) -> Result<(), AllocError> {
        self.open_path(look)?;
        push_attribute(&mut self.text, "stroke-width", 3 * self.drawn.parts)?;
        if look == Look::Gone {
            push_attribute(&mut self.text, "stroke-dasharray", 7 * self.drawn.parts)?;
        }
        self.text.extend_from_slice(b" d=\"")
    }

    /// Appends the outline of a feature.
    pub(crate) fn push_named(&mut self, shape: Option<&Shape<'_, A>>) -> Result<(), AllocError> {
        let Some(shape) = shape else {
            return Ok(());
        };
        let rings = self.outline(&self.drawn, shape)?;
        self.open_lines(Look::Named)?;
        push_rings(&mut self.text, rings.as_slice())?;
        self.text.extend_from_slice(b"\"/>\n")
    }

    /// Appends a segment as far as it is not far beyond what is shown.
    fn push_segment(&mut self, sides: &[Side; 4], segment: Seg) -> Result<(), AllocError> {
        let (from, to) = (self.drawn.point(segment.lo), self.drawn.point(segment.hi));
        if let Some((from, to)) = cut_line(sides, from, to) {
            push_line(&mut self.text, from, to)?;
        }
        Ok(())
    }

    /// Appends both segments of a conflict.
    fn push_conflict(&mut self, conflict: Conflict) -> Result<(), AllocError> {
        let sides = self.drawn.sides();
        self.open_lines(Look::Conflict)?;
        self.push_segment(&sides, conflict.first)?;
        self.push_segment(&sides, conflict.second)?;
        self.text.extend_from_slice(b"\"/>\n")
    }

    /// The same for the conflict that there is.
    pub(crate) fn push_segments(&mut self, conflict: Option<Conflict>) -> Result<(), AllocError> {
        match conflict {
            Some(conflict) => self.push_conflict(conflict),
            None => Ok(()),
        }
    }

    /// Appends a ring round a position, where it is shown.
    fn push_ring(&mut self, middle: Pos) -> Result<(), AllocError>
        ensures { OnOk result (Adds self.old.text.items self.new.text.items) }
    {
        if self.layout.window.has(middle) {
            let (x, y) = self.layout.pixel(self.layout.point(middle));
            self.text.extend_from_slice(b"<circle")?;
            push_attribute(&mut self.text, "cx", x)?;
            push_attribute(&mut self.text, "cy", y)?;
            push_attribute(&mut self.text, "r", RADIUS)?;
            self.text.extend_from_slice(b"/>\n")?;
            Ok(())
        } else {
            Ok(())
        }
    }

    /// Appends a ring round the place of a conflict.
    fn push_circle(&mut self, conflict: Conflict) -> Result<(), AllocError>
        ensures { OnOk result (Adds self.old.text.items self.new.text.items) }
    {
        match conflict.middle() {
            Some(middle) => self.push_ring(middle),
            None => Ok(()),
        }
    }

    /// Appends a ring round the place of a conflict, and the line that says which segments are in conflict.
    fn push_fault(&mut self, conflict: Conflict) -> Result<(), AllocError>
        ensures { OnOk result (AddsPlace (Some conflict) self.old.text.items self.new.text.items) }
    {
        self.push_circle(conflict)?;
        let words = format!(in self.alloc; "conflict {} / {}", conflict.first, conflict.second)?;
        let down = self.layout.first_line();
        push_words(&mut self.text, "gone", 20, down, words.as_bytes())?;
        Ok(())
    }

    /// The same for the conflict that there is.
    pub(crate) fn push_place(&mut self, conflict: Option<Conflict>) -> Result<(), AllocError>
        ensures { OnOk result (AddsPlace conflict self.old.text.items self.new.text.items) }
    {
        match conflict {
            Some(conflict) => self.push_fault(conflict),
            None => Ok(()),
        }
    }
}
