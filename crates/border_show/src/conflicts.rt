//! The first two segments in conflict of a map that was read, as opening reports them.
ghost use Rattle.std.specs.Prelude.{◌≡◌, IfOk};
ghost use Rattle.topo_reader.specs.Common.{document_of, IsOfRings, view_raw};
ghost use Rattle.ring_machine.specs.Common.{first_pair};
ghost use Rattle.border_show.specs.Conflicts.{conflict_pair};

use arc_store::{BuildFault, Map};
use map_drawing::Conflict;
use segment_index::TreeIndex;
use std::alloc::{AllocError, Global};
use std::hash::RandomState;
use topo_reader::RawDoc;

/// The conflict for which no map was built.
fn of_fault(fault: BuildFault) -> Result<Conflict, AllocError>
    ensures { IfOk result (λ conflict. fault ≡ BuildFault.Conflict conflict.first conflict.second) }
{
    match fault {
        BuildFault::Conflict { s, t } => Ok(Conflict {
            first: s,
            second: t,
        }),
        BuildFault::OutOfMemory => Err(AllocError),
    }
}

/// The least pair of segments in conflict, which opening reports.
pub(crate) fn first_conflict(
    heap: Global,
    seed: RandomState,
    map: RawDoc<'_, Global>,
) -> Result<Option<Conflict>, AllocError>
    requires { IsOfRings (view_raw map) }
    ensures { IfOk result (λ conflict. conflict_pair conflict
        ≡ first_pair (document_of (view_raw map.entry))) }
{
    let index = TreeIndex::new(heap, map.extent());
    let fault = Map::build(heap, heap, seed, map, index).err();
    match fault {
        None => Ok(None),
        Some(fault) => Ok(Some(of_fault(fault)?)),
    }
}
