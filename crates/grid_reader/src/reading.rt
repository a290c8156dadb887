// From the bytes of a topology to its walks on a grid.
ghost use Rattle.std.specs.Prelude.{◌≡◌, ◌≤◌, ◌+◌, IfOk, IfErr, IfSome, map};
ghost use Rattle.std.specs.List.{list_any, AllByRecursion};
ghost use Rattle.json_spans.specs.Common.{node};
ghost use Rattle.topo_outline.specs.Common.{Gives, view_item, view_layer, view_outline, IsPlaced};
ghost use Rattle.topo_reader.specs.Common.{document_of, IsOfWalks, walks_read, OpensIn, IsFaultIn};
ghost use Rattle.topo_reader.specs.Common.{feature_positions};
ghost use Rattle.grid_reader.specs.Opening.{is_kept_text, has_points, demand_points_lie, opened_on, grid_opening, ReadsOnGrid};
ghost use Rattle.grid_reader.specs.Grid.{most_decimals, decimals_kept, position_on_grid};
ghost use Rattle.grid_reader.specs.Near.{IsNear};
ghost use Rattle.grid_reader.specs.OnGridView.{view_on_grid};
ghost use Rattle.grid_reader.specs.Seen.{arcs_seen};
ghost use Rattle.grid_reader.specs.Told.{IsToldOf, IsToldAt, IsTold};

use crate::fine::fine_arcs;
use crate::fine_pos::FinePos;
use crate::grid::{all_whole, arcs_on, decimals_with, digits_of, heights, most_decimals, moved};
use crate::told::Told;
use crate::transform::{Transform, transform_on};
use crate::wants::Wants;
use grid_geometry::Pos;
use json_spans::{Span, scan};
use std::alloc::{Allocator, Global};
use std::hash::RandomState;
use topo_outline::{
    Item, KeptMember, Layers, Limit, OpenFault, Outline, RawLayer, Token, read_outline,
};
use topo_reader::walks_along;

/// The most bytes of a text.
pub(crate) const MAX_BYTES: usize = 67_108_864;

/// A topology that was read on a grid: its layers as they stand in the text, and its walks.
///
/// The features are numbered from 0 in the order of the text.
#[derive(Drop)]
#[derive_where(Debug)]
pub struct OnGrid<'a, A: Allocator + Copy = Global> {
    /// The transform of the grid.
    pub transform: Transform<'a, A>,
    /// The members of `objects` in order, by the texts that their names stand for (TopoJSON 1.0, 2.1.5).
    pub layers: Layers<'a, A>,
    /// The members that are neither known nor a `bbox`, in order.
    pub members: Vec<KeptMember<'a>, A>,
    /// By feature the polygons, each a list of walks, begun where their first arcs are.
    pub polygons: Vec<Vec<Vec<Vec<Pos, A>, A>, A>, A>,
    /// What is reported of the grid.
    pub told: Told,
}

fn is_text<A: Allocator + Copy>(item: &Item<'_, A>) -> bool
    ensures { result ≡ is_kept_text (view_item item.now) }
{
    match item {
        Item::Kept(_) => true,
        _ => false,
    }
}

fn has_text<A: Allocator + Copy>(items: &[Item<'_, A>]) -> bool
    ensures { result ≡ list_any is_kept_text (map view_item items.now) }
{
    for item in items {
        if is_text(item) {
            return true;
        }
    }
    false
}

/// Whether there is a point, or several points (TopoJSON 1.0, 2.2.1 and 2.2.2).
pub(crate) fn has_points<A: Allocator + Copy>(layers: &[RawLayer<'_, A>]) -> bool
    ensures { result ≡ has_points (map view_layer layers.now) }
{
    for layer in layers {
        if has_text(layer.items.as_slice()) {
            return true;
        }
    }
    false
}

/// What is reported of the grid, where the counts fit. There are no more positions than bytes, so they
/// do.
fn told_of<A: Allocator + Copy>(
    wants: Wants,
    most: usize,
    digits: usize,
    fine: &[Vec<FinePos, A>],
    arcs: Span<'_>,
) -> Option<Told>
    requires most { most ≡ most_decimals (arcs_seen fine.now) }
    requires digits { digits ≡ decimals_kept wants (arcs_seen fine.now) }
    requires few { digits ≤ 24 }
    ensures { IfSome result (λ t. IsToldOf wants (arcs_seen fine.now) (node arcs.entry) t) }
{
    let rounded = moved(digits, fine)?;
    let heights = if wants.drop_heights {
        heights(arcs)?
    } else {
        0
    };
    Some(Told {
        decimals: decimals_with(wants, most),
        digits,
        rounded,
        heights,
        whole: all_whole(arcs),
    })
}

/// The polygons of all features along the arcs on the grid. Points are kept as they stand, so there
/// may be none on a finer one, unless they lie on it already.
fn polygons<'a, A: Allocator + Copy>(
    alloc: A,
    wants: Wants,
    digits: usize,
    fine: &[Vec<FinePos, A>],
    outline: &Outline<'a, A>,
) -> Result<Vec<Vec<Vec<Vec<Pos, A>, A>, A>, A>, OpenFault<'a>>
    requires digits { digits ≤ 24 }
    requires near { AllByRecursion (AllByRecursion (IsNear digits wants.finer)) (arcs_seen fine.now) }
    requires placed { IsPlaced outline.now }
    ensures { Gives (λ v. map feature_positions v.items) result
        (demand_points_lie wants.points_lie (digits + wants.finer) (view_outline outline.now).layers
        (walks_read (map (map (position_on_grid digits wants.finer)) (arcs_seen fine.now))
        (view_outline outline.now).layers)) }
{
    if !wants.points_lie
        && digits + wants.finer > 0
        && has_points(outline.layers.values().as_slice())
    {
        return Err(OpenFault::Unsupported {
            type_name: Token { text: b"Point" },
        });
    }
    let arcs = arcs_on(alloc, digits, wants.finer, fine)?;
    walks_along(alloc, arcs.as_slice(), outline)
}

/// The topology with this outline, whose arcs have these positions.
pub(crate) fn opened_on<'a, A: Allocator + Copy>(
    alloc: A,
    heap: Global,
    wants: Wants,
    outline: Outline<'a, A>,
    fine: &[Vec<FinePos, A>],
) -> Result<OnGrid<'a, A>, OpenFault<'a>>
    requires near { AllByRecursion
        (AllByRecursion (IsNear (decimals_kept wants (arcs_seen fine.now)) wants.finer))
        (arcs_seen fine.now) }
    requires placed { IsPlaced outline }
    ensures value { Gives view_on_grid result
        (opened_on wants (view_outline outline.entry) (arcs_seen fine.now)) }
    ensures told { IfOk result (λ read.
        IsToldOf wants (arcs_seen fine.now) (node outline.entry.arcs) read.told) }
{
    let most = most_decimals(fine);
    let digits = digits_of(wants, most, fine);
    let Some(told) = told_of(wants, most, digits, fine, outline.arcs) else {
        return Err(OpenFault::OutOfMemory);
    };
    let finer = digits + wants.finer;
    let transform = or_return!(transform_on(alloc, heap, finer, outline.transform));
    let polygons = or_return!(polygons(alloc, wants, digits, fine, &outline));
    Ok(OnGrid {
        transform,
        layers: outline.layers,
        members: outline.members,
        polygons,
        told,
    })
}

/// The topology whose root this is, on the grid that is asked for.
fn opened<'a, A: Allocator + Copy>(
    alloc: A,
    heap: Global,
    seed: RandomState,
    wants: Wants,
    root: Span<'a>,
) -> Result<OnGrid<'a, A>, OpenFault<'a>>
    ensures value { Gives view_on_grid result (grid_opening wants (node root.entry)) }
    ensures told { IfOk result (λ read. IsToldAt wants (node root.entry) read.told) }
{
    let outline = or_return!(read_outline(alloc, heap, seed, root));
    let delta = outline.transform.is_some();
    let fine = or_return!(fine_arcs(alloc, wants, delta, outline.arcs));
    opened_on(alloc, heap, wants, outline, fine.as_slice())
}

/// The topology that the bytes are, on the grid that is asked for, or its first fault.
///
/// The coordinates are read as exact decimals; what follows the 24th is rounded down. All are put on
/// one grid of whole numbers: of the decimals that are there, at most `wants.digits` are kept, and
/// fewer where the furthest coordinate would pass 10^12; the rest is rounded to the nearest, and halves
/// up. Where the arcs have decimals, `wants.points` may add to those that are kept, and takes none
/// away. The transform becomes that of the grid. With `wants.drop_heights`, numbers after the first two
/// of a position are left out. The phases and the faults are those of `topo_reader::read_walks`, where
/// `OutOfRange` is reported of a coordinate beyond 10^12 on a grid 10^`wants.finer` times as fine, and
/// `Unsupported` of a point where the grid is finer than that of the text: points are kept as they
/// stand. With `wants.points_lie` they are said to lie on the grid already, and there is no such fault.
///
/// All that the topology owns lies in `alloc`, but for the names of its layers. These lie in `heap`, as
/// other decoded names do while they are compared; `seed` is that of their hash.
pub fn read_on_grid<'a, A: Allocator + Copy>(
    alloc: A,
    heap: Global,
    seed: RandomState,
    bytes: &'a [u8],
    wants: Wants,
) -> Result<OnGrid<'a, A>, OpenFault<'a>>
    ensures opened { IfOk result (λ read. OpensIn (grid_opening wants) bytes.now (view_on_grid read)) }
    ensures of_walks { IfOk result (λ read. IsOfWalks (view_on_grid read)) }
    ensures reads { IfOk result (λ read.
        ReadsOnGrid wants bytes.now (document_of (view_on_grid read))) }
    ensures told { IfOk result (λ read. IsTold wants bytes.now read.told) }
    ensures refused { IfErr result (λ fault. IsFaultIn (grid_opening wants) bytes.now fault) }
{
    if bytes.len() > MAX_BYTES {
        return Err(OpenFault::TooLarge { what: Limit::Bytes });
    }
    let root = scan(alloc, bytes)?;
    opened(alloc, heap, seed, wants, root.span())
}
