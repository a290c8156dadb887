//! From the bytes of a map to all that keeps it from opening.
ghost use Rattle.std.specs.Prelude.{◌≡◌, IfErr, IfOk};
ghost use Rattle.grid_reader.specs.Common.{ReadsOnGrid, IsTold};
ghost use Rattle.topo_reader.specs.Common.{document_of, IsOfWalks, view_raw};
ghost use Rattle.walk_faults.specs.Common.{Found};
ghost use Rattle.mend_report.specs.Looking.{OpensOn, IsEnd, EndsLook};
ghost use Rattle.mend_report.specs.SeenView.{opened_of};

use crate::asked::{Asked, Report};
use grid_reader::{OnGrid, Transform, read_on_grid};
use segment_index::TreeIndex;
use std::alloc::{AllocError, Allocator, Global};
use std::hash::RandomState;
use topo_outline::OpenFault;
use topo_reader::RawDoc;
use walk_faults::{FindFault, Findings, find};

/// Why a map was not looked through.
#[derive(Clone, Copy, Debug)]
pub enum LookFault<'a> {
    /// The map can't be read.
    Open(OpenFault<'a>),
    /// More is found of one kind than can be listed.
    TooMany,
    /// An allocation failed.
    OutOfMemory,
}

impl<'a> From<AllocError> for LookFault<'a> {
    ghost use Rattle.std.specs.Prelude.{◌≡◌};
    ghost use Rattle.mend_report.specs.declared.looking.LookFault.TheVariants.{OutOfMemory};

    ghost from_gives = { λ _ fault. fault ≡ OutOfMemory };

    fn from(_error: AllocError) -> LookFault<'a> {
        LookFault::OutOfMemory
    }
}

/// All that keeps a map of walks from opening, beside what keeps it from being read.
///
/// Rings with fewer than three positions, or with one twice (RFC 7946, 3.1.6), and segments in
/// conflict are found, all of them. Fails with `TooMany` where there are more than 4,000,000 findings
/// of one kind.
fn look<A: Allocator + Copy>(
    alloc: A,
    heap: Global,
    map: &RawDoc<'_, A>,
) -> Result<Findings<A>, LookFault<'static>>
    ensures found { IfOk result (λ findings. Found (view_raw map.now).polygons findings) }
    ensures refused { IfErr result (λ fault. EndsLook fault (view_raw map.now).polygons) }
{
    let index = TreeIndex::new(heap, map.extent());
    match find(alloc, index, map.polygons.as_slice()) {
        Ok(findings) => Ok(findings),
        Err(FindFault::TooMany) => Err(LookFault::TooMany),
        Err(FindFault::OutOfMemory) => Err(LookFault::OutOfMemory),
    }
}

/// A map that was looked through: walks in the place of its rings, its transform beside it, and what is
/// reported of it.
#[derive(Drop)]
pub(crate) struct Seen<'a, A: Allocator + Copy = Global> {
    pub(crate) transform: Transform<'a, A>,
    pub(crate) map: RawDoc<'a, A>,
    pub(crate) report: Report<A>,
}

/// The map that the bytes are on the grid that is asked for, looked through.
///
/// It is read as `grid_reader` reads it: up to and with the test that the arcs of each ring meet
/// (TopoJSON 1.0, 2.1.4). Fails with `Open` where it can't be read, and as `look` does.
pub(crate) fn looked_through<'a, A: Allocator + Copy>(
    alloc: A,
    heap: Global,
    seed: RandomState,
    bytes: &'a [u8],
    asked: Asked,
) -> Result<Seen<'a, A>, LookFault<'a>>
    ensures opened { IfOk result (λ seen. OpensOn asked.grid bytes.now (opened_of seen)) }
    ensures of_walks { IfOk result (λ seen. IsOfWalks (opened_of seen)) }
    ensures reads { IfOk result (λ seen.
        ReadsOnGrid asked.grid bytes.now (document_of (opened_of seen))) }
    ensures found { IfOk result (λ seen. Found (opened_of seen).polygons seen.report.findings) }
    ensures told { IfOk result (λ seen. IsTold asked.grid bytes.now seen.report.grid) }
    ensures dropped { IfOk result (λ seen. seen.report.dropped ≡ asked.dropped) }
    ensures refused { IfErr result (λ fault. IsEnd fault asked.grid bytes.now) }
{
    let OnGrid {
        transform,
        layers,
        members,
        polygons,
        told,
    } = match read_on_grid(alloc, heap, seed, bytes, asked.grid) {
        Ok(read) => read,
        Err(OpenFault::OutOfMemory) => return Err(LookFault::OutOfMemory),
        Err(fault) => return Err(LookFault::Open(fault)),
    };
    let map = RawDoc {
        transform: None,
        layers,
        members,
        polygons,
    };
    let report = Report {
        grid: told,
        dropped: asked.dropped,
        findings: or_return!(look(alloc, heap, &map)),
    };
    Ok(Seen {
        transform,
        map,
        report,
    })
}
