// The objects of a topology of places, appended to a text.
ghost use Rattle.std.specs.Prelude.{◌≡◌, ℕ, ◌++◌, OnOk};
ghost use Rattle.ring_machine.specs.Common.{Text};
ghost use Rattle.segment_paths.specs.Common.{path_of_segment};
ghost use Rattle.map_text.specs.Common.{arc_text};
ghost use Rattle.place_text.specs.Sides.{segment_ends, path_positions};
ghost use Rattle.place_text.specs.Owners.{Telling};
ghost use Rattle.place_text.specs.Tables.{told_by};
ghost use Rattle.place_text.specs.Text.{kind_text, ring_members, features_text, whose_text};
ghost use Rattle.place_text.specs.Text.{finding_text, point_of_place, side_text, path_text};

use crate::numbers::{push_behind, push_comma, push_number, push_position};
use crate::owners::Owners;
use crate::places::{Kind, Place};
use crate::sides::Side;
use crate::tables::numbers_at;
use grid_geometry::Seg;
use segment_paths::SegmentPath;
use std::alloc::{AllocError, Allocator};
use topo_outline::RingAt;

/// Appends the name of a kind, as the value of a member.
fn push_kind<A: Allocator>(text: &mut Vec<u8, A>, kind: Kind) -> Result<(), AllocError>
    ensures { OnOk result (text.new.items ≡ text.old.items ++ kind_text kind) }
{
    match kind {
        Kind::Short => text.extend_from_slice(b"\"short\""),
        Kind::Repeats => text.extend_from_slice(b"\"repeats\""),
        Kind::On => text.extend_from_slice(b"\"on\""),
        Kind::Cross => text.extend_from_slice(b"\"cross\""),
    }
}

/// Appends the numbers of the feature, of the polygon and of the ring, as further members.
fn push_ring<A: Allocator>(text: &mut Vec<u8, A>, ring: Option<RingAt>) -> Result<(), AllocError>
    ensures { OnOk result (text.new.items ≡ text.old.items ++ ring_members ring) }
{
    let Some(ring) = ring else {
        return Ok(());
    };
    append!(text; b",\"feature\":" push_number(ring.feature)
        b",\"polygon\":" push_number(ring.polygon) b",\"ring\":" push_number(ring.ring))
}

/// Appends the numbers of features, as a further member.
fn push_features<A: Allocator>(text: &mut Vec<u8, A>, numbers: &[usize]) -> Result<(), AllocError>
    ensures { OnOk result (text.new.items ≡ text.old.items ++ features_text numbers.now) }
{
    text.extend_from_slice(b",\"features\":[")?;
    for (index, number) in numbers.iter().enumerate() {
        push_comma(text, index > 0)?;
        push_number(text, *number)?;
    }
    append!(text; b"]")
}

/// Appends whose a place is, as further members.
fn push_whose<A: Allocator, B: Allocator + Copy>(
    text: &mut Vec<u8, A>,
    owners: &Owners<B>,
    place: &Place,
) -> Result<(), AllocError>
    ensures { OnOk result (text.new.items
        ≡ text.old.items ++ whose_text (told_by owners.now) place.now.kind place.now) }
{
    match place.kind {
        Kind::Short | Kind::Repeats => push_ring(text, place.ring),
        Kind::On => push_features(text, numbers_at(&owners.tables.vertices, &place.pos)),
        Kind::Cross => push_features(text, owners.of_pair(place.number)),
    }
}

/// Appends the kind and the number of a finding, as the first properties.
fn push_finding<A: Allocator>(
    text: &mut Vec<u8, A>,
    kind: Kind,
    number: usize,
) -> Result<(), AllocError>
    ensures { OnOk result (text.new.items ≡ text.old.items ++ finding_text kind number) }
{
    append!(text; b"{\"kind\":" push_kind(kind) b",\"number\":" push_number(number))
}

/// What a layer lists.
pub(crate) trait Geometry {
    ghost geometry: { Telling → ℕ → ℕ → Self → Text };

    /// Appends the one with this number; if it is a line, of the arc with this index.
    fn push<A: Allocator, B: Allocator + Copy>(
        &self,
        text: &mut Vec<u8, A>,
        owners: &Owners<B>,
        number: usize,
        index: usize,
    ) -> Result<(), AllocError>
        ensures { OnOk result
            (text.new.items ≡ text.old.items ++ geometry (told_by owners.now) number index self.now) };
}

// A place is a point (TopoJSON 1.0, 2.2.1).
impl Geometry for Place {
    ghost geometry = { λ told number index place. point_of_place told place };

    fn push<A: Allocator, B: Allocator + Copy>(
        &self,
        text: &mut Vec<u8, A>,
        owners: &Owners<B>,
        _number: usize,
        _index: usize,
    ) -> Result<(), AllocError> {
        append!(text; b"{\"type\":\"Point\",\"properties\":" push_finding(self.kind, self.number)
            push_whose(owners, self) b"},\"coordinates\":" push_position(self.pos) b"}")
    }
}

// A segment is a line (TopoJSON 1.0, 2.2.3).
impl Geometry for Side {
    ghost geometry = { λ told number index side. side_text told index side };

    fn push<A: Allocator, B: Allocator + Copy>(
        &self,
        text: &mut Vec<u8, A>,
        owners: &Owners<B>,
        _number: usize,
        index: usize,
    ) -> Result<(), AllocError> {
        let side = *self;
        append!(text; b"{\"type\":\"LineString\",\"properties\":"
            push_finding(side.kind, side.number)
            push_features(numbers_at(&owners.tables.segments, &side.segment))
            b"},\"arcs\":[" push_number(index) b"]}")
    }
}

// A path is a line too.
impl<C: Allocator + Copy> Geometry for SegmentPath<C> {
    ghost geometry = { λ told number index path. path_text told number index (path_of_segment path) };

    fn push<A: Allocator, B: Allocator + Copy>(
        &self,
        text: &mut Vec<u8, A>,
        owners: &Owners<B>,
        number: usize,
        index: usize,
    ) -> Result<(), AllocError> {
        append!(text; b"{\"type\":\"LineString\",\"properties\":{\"number\":" push_number(number)
            push_features(numbers_at(&owners.tables.segments, &self.segment))
            b"},\"arcs\":[" push_number(index) b"]}")
    }
}

/// Appends a segment, as an arc (TopoJSON 1.0, 2.1.3).
pub(crate) fn push_arc<A: Allocator>(
    text: &mut Vec<u8, A>,
    delta: bool,
    segment: Seg,
) -> Result<(), AllocError>
    ensures { OnOk result (text.new.items ≡ text.old.items ++ arc_text delta (segment_ends segment)) }
{
    append!(text; b"[" push_position(segment.lo) b"," push_behind(delta, segment.lo, segment.hi)
        b"]")
}

/// Appends the positions of a path, as an arc (TopoJSON 1.0, 2.1.3).
pub(crate) fn push_way<A: Allocator, B: Allocator + Copy>(
    text: &mut Vec<u8, A>,
    delta: bool,
    path: &SegmentPath<B>,
) -> Result<(), AllocError>
    ensures { OnOk result
        (text.new.items ≡ text.old.items ++ arc_text delta (path_positions (path_of_segment path.now))) }
{
    let inner = path.inner.as_slice();
    let end = path.segment.hi;
    let mut from = path.segment.lo;
    text.extend_from_slice(b"[")?;
    push_position(text, from)?;
    for to in inner {
        text.extend_from_slice(b",")?;
        push_behind(text, delta, from, *to)?;
        from = *to;
    }
    append!(text; b"," push_behind(delta, from, end) b"]")
}
