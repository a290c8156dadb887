// How the points of a topology are put on a grid.
ghost use Rattle.std.specs.Prelude.{◌≡◌, ◌≢◌, ◌≤◌, ◌<◌, length, None, IfOk, OnOk, IfSome};
ghost use Rattle.std.specs.List.{AllByRecursion};
ghost use Rattle.json_spans.specs.Common.{Json, node};
ghost use Rattle.topo_outline.specs.Common.{view_outline, IsPlaced};
ghost use Rattle.grid_reader.specs.Grid.{decimals_kept};
ghost use Rattle.grid_reader.specs.Near.{IsNear};
ghost use Rattle.grid_reader.specs.PointDigits.{digits_kept, digits_at, no_grid, grid_for, grid_at, grid_in, point_grid};
ghost use Rattle.grid_reader.specs.Seen.{arcs_seen};

use crate::fine::fine_arcs;
use crate::fine_pos::FinePos;
use crate::grid::{digits_of, most_decimals};
use crate::needs::{PointNeeds, point_needs};
use crate::reading::{MAX_BYTES, has_points, opened_on};
use crate::wants::Wants;
use json_spans::{ScanFault, Span, scan};
use std::alloc::{AllocError, Allocator, Global};
use std::hash::RandomState;
use topo_outline::{OpenFault, Outline, read_outline};

/// How the points of a topology are put on a grid.
#[derive(Clone, Copy)]
pub struct PointGrid {
    /// What they need of it.
    pub needs: PointNeeds,
    /// How many decimals it keeps, where they are put on it.
    pub digits: Option<usize>,
}

impl PointGrid {
    /// No points, or none of a topology.
    const NONE: PointGrid = PointGrid {
        needs: PointNeeds::NONE,
        digits: None,
    };
}

/// Nothing where something was not read, unless on allocation failure.
fn none_after<T: Copy>(fault: &OpenFault<'_>, nothing: T) -> Result<T, AllocError>
    ensures none { IfOk result (λ t. t ≡ nothing) }
    ensures fault { OnOk result (fault.now ≢ OpenFault.OutOfMemory) }
{
    match fault {
        OpenFault::OutOfMemory => Err(AllocError),
        _ => Ok(nothing),
    }
}

/// The decimals that are kept of a topology with this outline, whose arcs have these positions.
fn digits_kept<A: Allocator + Copy>(
    alloc: A,
    heap: Global,
    wants: Wants,
    outline: Outline<'_, A>,
    fine: &[Vec<FinePos, A>],
) -> Result<Option<usize>, AllocError>
    requires near { AllByRecursion
        (AllByRecursion (IsNear (decimals_kept wants (arcs_seen fine.now)) wants.finer))
        (arcs_seen fine.now) }
    requires placed { IsPlaced outline }
    ensures digits { IfOk result (λ d.
        d ≡ digits_kept wants (view_outline outline.entry) (arcs_seen fine.now)) }
    ensures few { IfOk result (λ d. IfSome d (λ digits. digits ≤ 24)) }
{
    let digits = digits_of(wants, most_decimals(fine), fine);
    if digits + wants.finer == 0 {
        return Ok(None);
    }
    let mut lying = wants;
    lying.points_lie = true;
    match opened_on(alloc, heap, lying, outline, fine) {
        Ok(read) => {
            drop(read);
            Ok(Some(digits))
        }
        Err(fault) => none_after(&fault, None),
    }
}

/// The same of one with this outline.
fn digits_at<A: Allocator + Copy>(
    alloc: A,
    heap: Global,
    wants: Wants,
    outline: Outline<'_, A>,
) -> Result<Option<usize>, AllocError>
    requires { IsPlaced outline }
    ensures digits { IfOk result (λ d. d ≡ digits_at wants (view_outline outline.entry)) }
    ensures few { IfOk result (λ d. IfSome d (λ digits. digits ≤ 24)) }
{
    match fine_arcs(alloc, wants, outline.transform.is_some(), outline.arcs) {
        Ok(fine) => digits_kept(alloc, heap, wants, outline, fine.as_slice()),
        Err(fault) => none_after(&fault, None),
    }
}

/// How points that need so much are put on the grid of one with this outline.
fn grid_for<A: Allocator + Copy>(
    alloc: A,
    heap: Global,
    wants: Wants,
    outline: Outline<'_, A>,
    needs: PointNeeds,
) -> Result<PointGrid, AllocError>
    requires { IsPlaced outline }
    ensures grid { IfOk result (λ g. g ≡ grid_for wants (view_outline outline.entry) needs) }
    ensures few { IfOk result (λ g. IfSome g.digits (λ digits. digits ≤ 24)) }
{
    let mut counting = wants;
    counting.points = needs;
    let digits = digits_at(alloc, heap, counting, outline)?;
    Ok(PointGrid { needs, digits })
}

/// How the points of one with this root and outline are put there, where it has any.
fn grid_at<'a, A: Allocator + Copy>(
    alloc: A,
    heap: Global,
    wants: Wants,
    root: Span<'a>,
    outline: Outline<'a, A>,
) -> Result<PointGrid, AllocError>
    requires { IsPlaced outline }
    ensures grid { IfOk result (λ g.
        g ≡ grid_at wants (node root.entry) (view_outline outline.entry)) }
    ensures few { IfOk result (λ g. IfSome g.digits (λ digits. digits ≤ 24)) }
{
    if !has_points(outline.layers.values().as_slice()) {
        return Ok(PointGrid::NONE);
    }
    let needs = point_needs(alloc, heap, root)?;
    grid_for(alloc, heap, wants, outline, needs)
}

/// How those of the topology whose root this is are put there.
fn grid_in<A: Allocator + Copy>(
    alloc: A,
    heap: Global,
    seed: RandomState,
    wants: Wants,
    root: Span<'_>,
) -> Result<PointGrid, AllocError>
    ensures grid { IfOk result (λ g. g ≡ grid_in wants (node root.entry)) }
    ensures few { IfOk result (λ g. IfSome g.digits (λ digits. digits ≤ 24)) }
{
    match read_outline(alloc, heap, seed, root) {
        Ok(outline) => grid_at(alloc, heap, wants, root, outline),
        Err(fault) => none_after(&fault, PointGrid::NONE),
    }
}

/// How the points of a topology (TopoJSON 1.0, 2.2.1 and 2.2.2) are put on the grid that is asked for: what
/// they need of it, and how many decimals it keeps. Read with these needs as `wants.points` and with
/// `wants.points_lie`, the text with its points there has the same grid.
///
/// Without points nothing is needed. `digits` is `None` without points, where the grid stays that of the
/// text, and where `read_on_grid` comes to a fault of its own beside these points: reading with
/// `wants.points_lie` tells it, at its place in this text. What `wants.points` and `wants.points_lie` are
/// plays no part here. A coordinate that is no number, and one of 10^13 or more, needs nothing. Fails only on
/// allocation failure.
pub fn point_grid<A: Allocator + Copy>(
    alloc: A,
    heap: Global,
    seed: RandomState,
    bytes: &[u8],
    wants: Wants,
) -> Result<PointGrid, AllocError>
    ensures grid { length bytes.now ≤ 67108864 → Json 100 bytes.now →
        IfOk result (λ g. g ≡ point_grid wants bytes.now) }
    ensures no_json { (¬ Json 100 bytes.now) → IfOk result (λ g. g ≡ no_grid) }
    ensures too_long { 67108864 < length bytes.now → IfOk result (λ g. g ≡ no_grid) }
    ensures few { IfOk result (λ g. IfSome g.digits (λ digits. digits ≤ 24)) }
{
    if bytes.len() > MAX_BYTES {
        return Ok(PointGrid::NONE);
    }
    match scan(alloc, bytes) {
        Ok(root) => grid_in(alloc, heap, seed, wants, root.span()),
        Err(ScanFault::NotJson { place: _ } | ScanFault::TooDeep { place: _ }) => Ok(
            PointGrid::NONE,
        ),
        Err(ScanFault::OutOfMemory) => Err(AllocError),
    }
}
