// Opening a topology, phase after phase.
ghost use Rattle.std.specs.Prelude.{◌≡◌, ◌≢◌, ◌≤◌, length, map, IfOk, IfErr};
ghost use Rattle.json_spans.specs.Common.{Json, node};
ghost use Rattle.topo_outline.specs.Common.{Gives, view_outline, IsPlaced};
ghost use Rattle.ring_machine.specs.Common.{Document};
ghost use Rattle.topo_reader.specs.Document.{document_of, IsOfRings, IsOfWalks};
ghost use Rattle.topo_reader.specs.DocumentView.{view_raw};
ghost use Rattle.topo_reader.specs.Opening.{polygons_along, walks_read, opening, Opens, OpensWalks, IsFault, IsWalkFault, IsPlace, IsWalkPlace};
ghost use Rattle.topo_reader.specs.Reads.{Reads, ReadsWalks, Fits};
ghost use Rattle.topo_reader.specs.Uses.{feature_positions, positions_of};

use crate::arcs::arcs;
use crate::document::RawDoc;
use crate::indexes::uses;
use crate::limits::fit;
use crate::rings::{Closed, all_rings};
use grid_geometry::Pos;
use json_spans::{Span, scan};
use std::alloc::{Allocator, Global};
use std::hash::RandomState;
use topo_outline::{Limit, OpenFault, Outline, read_outline};

/// The most bytes of a text.
const MAX_BYTES: usize = 67_108_864;

/// The polygons of all features along these arcs, with rings or with walks.
fn polygons_along<'a, A: Allocator + Copy>(
    alloc: A,
    closed: Closed,
    arcs: &[Vec<Pos, A>],
    outline: &Outline<'a, A>,
) -> Result<Vec<Vec<Vec<Vec<Pos, A>, A>, A>, A>, OpenFault<'a>>
    requires { IsPlaced outline.now }
    ensures { Gives (λ v. map feature_positions v.items) result
        (polygons_along closed (map positions_of arcs.now) (view_outline outline.now).layers) }
{
    let uses = or_return!(uses(alloc, arcs, outline.places.as_slice()));
    if !fit(uses.as_slice()) {
        return Err(OpenFault::TooLarge {
            what: Limit::Positions,
        });
    }
    all_rings(alloc, closed, uses.as_slice())
}

/// The polygons of all features, with walks in the place of rings, along arcs that were read before:
/// the last two phases of `read_walks`, for a reader with positions of its own.
///
/// Fails as these phases do: with `NotWhole` or `BadArcIndex` at the first arc index that is wrong
/// (TopoJSON 1.0, 2.1.4), with `TooLarge` over 4,000,000 positions, and with `ArcsDoNotMeet`.
pub fn walks_along<'a, A: Allocator + Copy>(
    alloc: A,
    arcs: &[Vec<Pos, A>],
    outline: &Outline<'a, A>,
) -> Result<Vec<Vec<Vec<Vec<Pos, A>, A>, A>, A>, OpenFault<'a>>
    requires { IsPlaced outline.now }
    ensures { Gives (λ v. map feature_positions v.items) result
        (walks_read (map positions_of arcs.now) (view_outline outline.now).layers) }
{
    polygons_along(alloc, Closed::Walks, arcs, outline)
}

/// The topology whose root this is.
fn opened<'a, A: Allocator + Copy>(
    alloc: A,
    heap: Global,
    seed: RandomState,
    closed: Closed,
    root: Span<'a>,
) -> Result<RawDoc<'a, A>, OpenFault<'a>>
    ensures { Gives view_raw result (opening closed (node root.entry)) }
{
    let outline = or_return!(read_outline(alloc, heap, seed, root));
    let arcs = or_return!(arcs(alloc, outline.transform.is_some(), outline.arcs));
    let polygons = or_return!(polygons_along(alloc, closed, arcs.as_slice(), &outline));
    Ok(RawDoc {
        transform: outline.transform,
        layers: outline.layers,
        members: outline.members,
        polygons,
    })
}

/// The topology that the bytes are, or its first fault.
///
/// The phases follow each other, and the first fault of the first phase that has one is answered: the
/// length (at most 67,108,864 bytes), JSON with at most 100 lists and objects one in another (RFC
/// 8259), the shape of the topology (TopoJSON 1.0, 2.1 and 2.2), the positions of its arcs (2.1.1 to
/// 2.1.3), the arc indexes (2.1.4) with at most 4,000,000 positions, the rings (RFC 7946, 3.1.6).
/// Whether segments are in conflict is not tested here. `OutOfMemory` may come in the place of any
/// answer.
///
/// All that the topology owns lies in `alloc`, but for the names of its layers. These lie in `heap`, as
/// other decoded names do while they are compared; `seed` is that of their hash.
pub fn read<'a, A: Allocator + Copy>(
    alloc: A,
    heap: Global,
    seed: RandomState,
    bytes: &'a [u8],
) -> Result<RawDoc<'a, A>, OpenFault<'a>>
    ensures opened { IfOk result (λ raw. Opens bytes.now (view_raw raw)) }
    ensures of_rings { IfOk result (λ raw. IsOfRings (view_raw raw)) }
    ensures refused { IfErr result (λ fault. IsFault bytes.now fault) }
    ensures places { IfErr result (λ fault. IsPlace bytes.now fault) }
    ensures reads { IfOk result (λ raw.
        (reading : Reads bytes.now (document_of (view_raw raw))) × Fits reading) }
    ensures only { IfOk result (λ raw. (d : Document) → Reads bytes.now d →
        d ≡ document_of (view_raw raw)) }
    ensures unread { IfErr result (λ fault. fault ≢ OpenFault.OutOfMemory →
        ¬ ((d : Document) × (reading : Reads bytes.now d) × Fits reading)) }
{
    if bytes.len() > MAX_BYTES {
        return Err(OpenFault::TooLarge { what: Limit::Bytes });
    }
    opened(alloc, heap, seed, Closed::Rings, scan(alloc, bytes)?.span())
}

/// The topology that the bytes are, with walks in the place of rings, or its first fault.
///
/// This is `read` without the tests of its last phase: the arcs of a ring must meet (TopoJSON 1.0,
/// 2.1.4), and it may have fewer than three positions, and pass more than once through one. Its walk
/// is the positions of its arcs in order, from the first position of the first arc on, equal
/// neighbours once and without the last one, which is the first again: no two neighbours are equal,
/// nor the last and the first. A walk that stays in one place has no positions, and one with at least
/// three, all different, is a ring, begun anywhere. So `RingShort` and `RingRepeats` never come; all
/// other faults come as those of `read` do.
pub fn read_walks<'a, A: Allocator + Copy>(
    alloc: A,
    heap: Global,
    seed: RandomState,
    bytes: &'a [u8],
) -> Result<RawDoc<'a, A>, OpenFault<'a>>
    ensures opened { IfOk result (λ raw. OpensWalks bytes.now (view_raw raw)) }
    ensures of_walks { IfOk result (λ raw. IsOfWalks (view_raw raw)) }
    ensures refused { IfErr result (λ fault. IsWalkFault bytes.now fault) }
    ensures places { IfErr result (λ fault. IsWalkPlace bytes.now fault) }
    ensures reads { IfOk result (λ raw.
        (reading : ReadsWalks bytes.now (document_of (view_raw raw))) × Fits reading) }
    ensures only { IfOk result (λ raw. (d : Document) → ReadsWalks bytes.now d →
        d ≡ document_of (view_raw raw)) }
    ensures unread { IfErr result (λ fault. fault ≢ OpenFault.OutOfMemory →
        ¬ ((d : Document) × (reading : ReadsWalks bytes.now d) × Fits reading)) }
{
    if bytes.len() > MAX_BYTES {
        return Err(OpenFault::TooLarge { what: Limit::Bytes });
    }
    opened(alloc, heap, seed, Closed::Walks, scan(alloc, bytes)?.span())
}
