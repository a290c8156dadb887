// From the bytes of a map to the text of one of its layers.
ghost use Rattle.std.specs.Prelude.{◌≡◌, ◌≤◌, ◌<◌, ◌+◌, ◌*◌, ◌^◌, false, length, IfOk, IfErr, OnOk};
ghost use Rattle.json_spans.specs.Common.{Json};
ghost use Rattle.grid_decimals.specs.Common.{view_grid};
ghost use Rattle.topo_reader.specs.Common.{document_of, view_raw, IsOfRings};
ghost use Rattle.geo_text.specs.Wants.{view_asked};
ghost use Rattle.geo_text.specs.Text.{decimals_for, geo_text, style_of};
ghost use Rattle.geo_text.specs.Exported.{IsRefused, IsSent, SendsGiven, layer_text};
ghost use Rattle.geo_text.specs.Found.{view_found};
ghost use Rattle.geo_features.specs.Gives.{Gives, of_device};
ghost use Rattle.geo_text.specs.Places.{point_place};
ghost use Rattle.geo_features.specs.Seen.{view_style};

use crate::asked::Asked;
use crate::found::Found;
use crate::front::push_front;
use crate::items::Writer;
use crate::layers::{asked_layer, head_of, inside};
use crate::longest::longest_side;
use crate::progress::Progress;
use decimal_texts::{Shape, all_geometries};
use device_io::{Sink, put_all};
use geo_features::{ExportFault, Style};
use grid_decimals::{Coordinates, Grid, grid_of};
use json_spans::scan;
use std::alloc::{AllocError, Allocator, Global};
use std::hash::RandomState;
use topo_outline::{OpenFault, Token};
use topo_reader::{RawDoc, read};

/// How many decimals coordinates have.
fn decimals_for<'a>(
    asked: Option<usize>,
    longest: u64,
    grid: &Grid,
) -> Result<usize, ExportFault<'a>>
    requires { longest ≤ 2 * 10 ^ 12 }
    ensures value { Gives (λ k. k) result (decimals_for asked longest (view_grid grid.now)) }
    ensures bound { IfOk result (λ k. k ≤ grid.now.decimals) }
{
    let Some(asked) = asked else {
        return Ok(grid.safe_decimals(longest));
    };
    let least = grid.least_decimals();
    if asked < least {
        return Err(ExportFault::FewDecimals { asked, least });
    }
    Ok(asked.min(grid.decimals()))
}

/// How the positions of a map are written.
fn style_of<'a, A: Allocator + Copy>(
    heap: Global,
    raw: &RawDoc<'a, A>,
    asked: &Asked<'_>,
) -> Result<Style, ExportFault<'a>>
    requires { IsOfRings (view_raw raw.now) }
    ensures { Gives view_style result (style_of (view_asked asked.now) (document_of (view_raw raw.now))) }
{
    let Some(grid) = grid_of(heap, raw.transform)? else {
        return Err(ExportFault::Open(OpenFault::BadMember {
            name: Token { text: b"transform" },
        }));
    };
    let longest = longest_side(raw.polygons.as_slice());
    let decimals = or_return!(decimals_for(asked.decimals, longest, &grid));
    Ok(Style {
        coordinates: Coordinates { grid, decimals },
        keeps_winding: asked.keeps_winding,
    })
}

/// Sends a layer in this style, piece by piece.
fn send_found<'a, A: Allocator + Copy, W: Sink>(
    alloc: A,
    raw: &RawDoc<'a, A>,
    found: Found<'_, 'a, A>,
    writer: &Writer<'_, A>,
    out: &mut W,
) -> Result<(), ExportFault<'a>>
    requires working { W.has_failed out.old ≡ false }
    requires polygons { writer.now.polygons.now ≡ raw.now.polygons.items }
    ensures { SendsGiven W.Sink out.old out.new result (layer_text (view_style writer.now.style)
        writer.now.flattens (view_found found.entry) (view_raw raw.now)) }
{
    let mut text = Vec::new(alloc);
    or_return!(push_front(
        &mut text,
        writer.heap,
        found.layer.name,
        head_of(found.layer),
        raw.members.as_slice(),
    ));
    put_all(out, text.as_slice())?;
    let mut at = Progress::new(alloc, found.leaves, found.points);
    writer.send_items(&mut text, &mut at, inside(found.layer), out)
}

/// Sends the layer that is asked for of a map that was read, as GeoJSON (RFC 7946), piece by piece.
///
/// The first fault is answered in this order: the layer, the transform, the decimals, and what stands in the text, as it
/// is written. The device may have taken a front of the text then.
pub fn send_layer<'a, A: Allocator + Copy, W: Sink>(
    alloc: A,
    heap: Global,
    raw: &RawDoc<'a, A>,
    asked: Asked<'_>,
    out: &mut W,
) -> Result<(), ExportFault<'a>>
    requires working { W.has_failed out.old ≡ false }
    requires rings { IsOfRings (view_raw raw.now) }
    ensures { SendsGiven W.Sink out.old out.new result
        (geo_text (view_asked asked.entry) (document_of (view_raw raw.now))) }
{
    let layers = raw.layers.values();
    let found = or_return!(asked_layer(alloc, heap, asked.layer, layers.as_slice()));
    let style = or_return!(style_of(heap, raw, &asked));
    let writer = Writer {
        heap,
        style,
        flattens: asked.flattens,
        polygons: raw.polygons.as_slice(),
    };
    send_found(alloc, raw, found, &writer, out)
}

/// Where the point with this number stands in the text of a map.
fn point_place<A: Allocator + Copy>(
    alloc: A,
    heap: Global,
    bytes: &[u8],
    point: u128,
) -> Result<usize, AllocError>
    requires { Json 100 bytes.now }
    ensures value { IfOk result (λ place. place ≡ point_place bytes.now point) }
    ensures within { IfOk result (λ place. place ≤ length bytes.now) }
{
    let Ok(root) = scan(alloc, bytes) else {
        // (the bytes are JSON)
        return Err(AllocError);
    };
    let points = all_geometries(alloc, heap, Shape::Points, root.span())?;
    let Ok(number) = usize::try_from(point) else {
        return Ok(0);
    };
    match points.as_slice().get(number) {
        Some(found) => Ok(found.at),
        None => Ok(0),
    }
}

/// Reads a map, and sends the layer that is asked for as GeoJSON (RFC 7946), piece by piece.
///
/// The map's first fault comes before all others, in the order of `read`; then those of `send_layer`. Segments in
/// conflict are no fault here.
pub fn export<'a, A: Allocator + Copy, W: Sink>(
    alloc: A,
    heap: Global,
    seed: RandomState,
    bytes: &'a [u8],
    asked: Asked<'_>,
    out: &mut W,
) -> Result<(), ExportFault<'a>>
    requires { W.has_failed out.old ≡ false }
    ensures written { OnOk result (IsSent W.Sink (view_asked asked.entry) bytes.now out.old out.new) }
    ensures refused { IfErr result (IsRefused (view_asked asked.entry) bytes.now) }
    ensures stands { IfErr result (λ fault. W.has_failed out.new ≡ of_device fault) }
{
    let raw = match read(alloc, heap, seed, bytes) {
        Ok(raw) => raw,
        Err(fault) => return Err(ExportFault::Open(fault)),
    };
    let Err(fault) = send_layer(alloc, heap, &raw, asked, out) else {
        return Ok(());
    };
    match fault {
        ExportFault::PointNotWhole { point, place } => {
            let from = point_place(alloc, heap, bytes, point)?;
            Err(ExportFault::Open(OpenFault::NotWhole {
                place: from + place,
            }))
        }
        ExportFault::PointOutOfRange { point, place } => {
            let from = point_place(alloc, heap, bytes, point)?;
            Err(ExportFault::Open(OpenFault::OutOfRange {
                place: from + place,
            }))
        }
        _ => Err(fault),
    }
}
