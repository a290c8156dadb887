// The texts of rings and of polygons (RFC 7946, 3.1.6 and 3.1.7).
ghost use Rattle.std.specs.Prelude.{◌≡◌, ◌≤◌, ◌++◌, if◌then◌else◌, map, reverse, length, IsTrue, OnOk};
ghost use Rattle.topo_outline.specs.Common.{form_of};
ghost use Rattle.topo_reader.specs.Common.{polygon_positions, positions_of};
ghost use Rattle.map_text.specs.Common.{further, list_text};
ghost use Rattle.geo_features.specs.Rings.{is_turned, is_wrong_way, polygon_text, position_text, ring_text, shape_text};
ghost use Rattle.geo_features.specs.Seen.{view_style};
ghost use Rattle.geo_features.specs.Small.{all_small, are_small};

use crate::style::Style;
use crate::texts::push_comma;
use grid_geometry::{Pos, area2};
use std::alloc::{AllocError, Allocator};
use topo_outline::Form;

/// Whether a ring turns the wrong way: an outer ring to the right on the map, or a hole to the left.
fn is_wrong_way(is_flipped: bool, is_outer: bool, area: i128) -> bool
    ensures { result ≡ is_wrong_way is_flipped is_outer area }
{
    if is_flipped == is_outer {
        0 < area
    } else {
        area < 0
    }
}

impl Style {
    /// Appends a position.
    pub(crate) fn push_position<A: Allocator>(
        &self,
        text: &mut Vec<u8, A>,
        pos: Pos,
    ) -> Result<(), AllocError>
        ensures { OnOk result
            (text.new.items ≡ text.old.items ++ position_text (view_style self.now) pos) }
    {
        text.push(b'[')?;
        self.coordinates.push_x(text, pos.x())?;
        text.push(b',')?;
        self.coordinates.push_y(text, pos.y())?;
        text.push(b']')?;
        Ok(())
    }

    /// Appends positions in order, each after a comma.
    fn push_further<A: Allocator>(
        &self,
        text: &mut Vec<u8, A>,
        positions: &[Pos],
    ) -> Result<(), AllocError>
        ensures { OnOk result (text.new.items ≡ text.old.items
            ++ further (map (position_text (view_style self.now)) positions.now)) }
    {
        for pos in positions {
            text.push(b',')?;
            self.push_position(text, *pos)?;
        }
        Ok(())
    }

    /// Appends positions in reverse, each after a comma.
    fn push_back<A: Allocator>(
        &self,
        text: &mut Vec<u8, A>,
        positions: &[Pos],
    ) -> Result<(), AllocError>
        ensures { OnOk result (text.new.items ≡ text.old.items
            ++ further (map (position_text (view_style self.now)) (reverse positions.now))) }
    {
        for pos in positions.iter().rev() {
            text.push(b',')?;
            self.push_position(text, *pos)?;
        }
        Ok(())
    }

    /// Appends positions, in reverse or not, each after a comma.
    fn push_others<A: Allocator>(
        &self,
        text: &mut Vec<u8, A>,
        is_turned: bool,
        positions: &[Pos],
    ) -> Result<(), AllocError>
        ensures { OnOk result (text.new.items ≡ text.old.items
            ++ further (map (position_text (view_style self.now)) (if is_turned then reverse positions.now else positions.now))) }
    {
        if is_turned {
            self.push_back(text, positions)
        } else {
            self.push_further(text, positions)
        }
    }

    /// Whether a ring is written the other way round.
    fn is_turned(&self, is_outer: bool, ring: &[Pos]) -> bool
        requires { length ring.now ≤ 4000000 }
        ensures { result ≡ is_turned (view_style self.now) is_outer ring.now }
    {
        !self.keeps_winding
            && is_wrong_way(self.coordinates.grid.is_flipped(), is_outer, area2(ring))
    }

    /// Appends a ring, with its first position again at its end.
    fn push_ring<A: Allocator>(
        &self,
        text: &mut Vec<u8, A>,
        is_outer: bool,
        ring: &[Pos],
    ) -> Result<(), AllocError>
        requires { length ring.now ≤ 4000000 }
        ensures { OnOk result
            (text.new.items ≡ text.old.items ++ ring_text (view_style self.now) is_outer ring.now) }
    {
        let [first, others @ ..] = ring else {
            return text.extend_from_slice(b"[]");
        };
        text.push(b'[')?;
        self.push_position(text, *first)?;
        self.push_others(text, self.is_turned(is_outer, ring), others)?;
        text.push(b',')?;
        self.push_position(text, *first)?;
        text.push(b']')?;
        Ok(())
    }

    /// Appends a polygon: its outer ring, and its holes.
    fn push_polygon<A: Allocator, B: Allocator + Copy>(
        &self,
        text: &mut Vec<u8, A>,
        rings: &[Vec<Pos, B>],
    ) -> Result<(), AllocError>
        requires { IsTrue (are_small rings.now) }
        ensures { OnOk result (text.new.items
            ≡ text.old.items ++ polygon_text (view_style self.now) (map positions_of rings.now)) }
    {
        text.push(b'[')?;
        for (i, ring) in rings.iter().enumerate() {
            push_comma(text, i > 0)?;
            self.push_ring(text, i == 0, ring.as_slice())?;
        }
        text.push(b']')?;
        Ok(())
    }

    /// Appends a list of polygons.
    fn push_polygons<A: Allocator, B: Allocator + Copy>(
        &self,
        text: &mut Vec<u8, A>,
        polygons: &[Vec<Vec<Pos, B>, B>],
    ) -> Result<(), AllocError>
        requires { IsTrue (all_small polygons.now) }
        ensures { OnOk result (text.new.items ≡ text.old.items
            ++ list_text (map (polygon_text (view_style self.now)) (map polygon_positions polygons.now))) }
    {
        text.push(b'[')?;
        for (i, polygon) in polygons.iter().enumerate() {
            push_comma(text, i > 0)?;
            self.push_polygon(text, polygon.as_slice())?;
        }
        text.push(b']')?;
        Ok(())
    }

    /// Appends the coordinates of a Polygon, which has one, or of a MultiPolygon.
    pub(crate) fn push_shape<A: Allocator, B: Allocator + Copy>(
        &self,
        text: &mut Vec<u8, A>,
        form: Form,
        polygons: &[Vec<Vec<Pos, B>, B>],
    ) -> Result<(), AllocError>
        requires { IsTrue (all_small polygons.now) }
        ensures { OnOk result (text.new.items ≡ text.old.items
            ++ shape_text (view_style self.now) (form_of form) (map polygon_positions polygons.now)) }
    {
        match (form, polygons) {
            (Form::MultiPolygon, _) => self.push_polygons(text, polygons),
            (_, [polygon, ..]) => self.push_polygon(text, polygon.as_slice()),
            (_, []) => text.extend_from_slice(b"[]"),
        }
    }
}
