// The rings of a feature as nested lists of JSON, with no space in them.
ghost use Rattle.std.specs.Prelude.{◌≡◌, ◌++◌, [], map, length, get_or, OnOk, IfOk};
ghost use Rattle.ring_machine.specs.Common.{Rings, feature_at};
ghost use Rattle.map_text.specs.Common.{commas, pair_text};
ghost use Rattle.script_runner.specs.Answers.{ring_list_text, polygon_list_text};
ghost use Rattle.script_runner.specs.Replies.{IsShown};

use arc_store::{Map, RingIter};
use segment_index::TreeIndex;
use std::alloc::{AllocError, Allocator};
use topo_writer::{push_comma, push_pair};

/// Appends positions as pairs, with commas between them.
fn push_positions<A: Allocator + Copy>(
    positions: RingIter<'_, A>,
    text: &mut Vec<u8, A>,
) -> Result<(), AllocError>
    ensures { OnOk result (text.new.items
        ≡ text.old.items ++ commas (map pair_text positions.entry)) }
{
    let mut more = false;
    for position in positions {
        push_comma(text, more)?;
        push_pair(text, position.x(), position.y())?;
        more = true;
    }
    Ok(())
}

/// Appends a ring from its least position on; an empty list where there is no such ring.
fn push_ring<A: Allocator + Copy>(
    map: &Map<'_, TreeIndex<A>, A>,
    f: u32,
    polygon: usize,
    ring: usize,
    text: &mut Vec<u8, A>,
) -> Result<(), AllocError>
    ensures { OnOk result (text.new.items ≡ text.old.items ++ ring_list_text
        (get_or (get_or (feature_at map.now.doc f).polygons polygon []) ring [])) }
{
    let Some(positions) = map.ring(f, polygon, ring) else {
        text.extend_from_slice(b"[]")?;
        return Ok(());
    };
    text.extend_from_slice(b"[")?;
    push_positions(positions, text)?;
    text.extend_from_slice(b"]")?;
    Ok(())
}

/// Appends a polygon with so many rings, the outer ring first.
fn push_polygon<A: Allocator + Copy>(
    map: &Map<'_, TreeIndex<A>, A>,
    f: u32,
    polygon: usize,
    rings: usize,
    text: &mut Vec<u8, A>,
) -> Result<(), AllocError>
    requires { rings ≡ length (get_or (feature_at map.now.doc f).polygons polygon []) }
    ensures { OnOk result (text.new.items ≡ text.old.items
        ++ polygon_list_text (get_or (feature_at map.now.doc f).polygons polygon [])) }
{
    text.extend_from_slice(b"[")?;
    for ring in 0..rings {
        push_comma(text, 0 < ring)?;
        push_ring(map, f, polygon, ring, text)?;
    }
    text.extend_from_slice(b"]")?;
    Ok(())
}

/// Appends the polygons of a feature. Answers whether it was refused.
pub(crate) fn reply_to_rings<A: Allocator + Copy>(
    map: &Map<'_, TreeIndex<A>, A>,
    f: u32,
    text: &mut Vec<u8, A>,
) -> Result<bool, AllocError>
    ensures { IfOk result (λ refuses.
        IsShown map.now.doc (Rings f) text.old.items text.new.items refuses) }
{
    let Some(feature) = map.feature(f) else {
        text.extend_from_slice(b"refused no feature")?;
        return Ok(true);
    };
    text.extend_from_slice(b"[")?;
    for polygon in 0..feature.polygon_count() {
        push_comma(text, 0 < polygon)?;
        push_polygon(map, f, polygon, feature.ring_count(polygon), text)?;
    }
    text.extend_from_slice(b"]")?;
    Ok(false)
}
