//! The points of a map, put on the grid that is asked for.
ghost use Rattle.std.specs.Prelude.{◌≡◌, ◌≤◌, ◌<◌, length, IfOk, Ok};
ghost use Rattle.json_spans.specs.Common.{Json};
ghost use Rattle.decimal_texts.specs.Common.{AnswersAs};
ghost use Rattle.border_mend.specs.Points.{points_on_grid, points_needed, AsksOfLying, unread};

use decimal_texts::{PointFault, rounded_points};
use grid_reader::point_grid;
use mend_report::{Asked, LookFault};
use std::alloc::Global;
use std::hash::RandomState;
use topo_outline::OpenFault;

/// The text with its points (TopoJSON 1.0, 2.2.1 and 2.2.2) on the grid that is asked for, and the same
/// asked of it, but that its points count, and lie there. A text stays where it has no points, where its
/// grid stays, and where it can't be read: then reading it tells its fault.
pub(crate) fn with_points_on_grid(
    alloc: Global,
    seed: RandomState,
    text: Vec<u8>,
    asked: Asked,
) -> Result<(Vec<u8>, Asked), PointFault>
    ensures text { length text.items ≤ 67108864 → Json 100 text.items →
        AnswersAs (λ pair. pair.0.items) result (points_on_grid asked.grid text.items) }
    ensures no_json { (¬ Json 100 text.items) →
        AnswersAs (λ pair. pair.0.items) result (Ok text.items) }
    ensures too_long { 67108864 < length text.items →
        AnswersAs (λ pair. pair.0.items) result (Ok text.items) }
    ensures asked { IfOk result (λ pair. AsksOfLying asked pair.1) }
    ensures counted { length text.items ≤ 67108864 → Json 100 text.items →
        IfOk result (λ pair. pair.1.grid.points ≡ points_needed asked.grid text.items) }
{
    let mut asked = asked;
    let points = point_grid(alloc, alloc, seed, text.as_slice(), asked.grid)?;
    asked.grid.points = points.needs;
    asked.grid.points_lie = true;
    match points.digits {
        Some(digits) => {
            match rounded_points(alloc, alloc, text.as_slice(), digits, asked.grid.finer) {
                Ok(text) => Ok((text, asked)),
                Err(fault) => Err(fault),
            }
        }
        None => Ok((text, asked)),
    }
}

/// Why a map is not looked through where a point is not put on the grid: as it is where a coordinate of
/// an arc is not.
pub(crate) fn unread(fault: PointFault) -> LookFault<'static>
    ensures { result ≡ unread fault }
{
    match fault {
        PointFault::NotNumber { place } => LookFault::Open(OpenFault::NotWhole { place }),
        PointFault::OutOfRange { place } => LookFault::Open(OpenFault::OutOfRange { place }),
        PointFault::OutOfMemory => LookFault::OutOfMemory,
    }
}
