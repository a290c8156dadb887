// The report of a map, and its places.
ghost use Rattle.std.specs.Prelude.{◌≡◌, [], is_some, map, option_map, IfErr, IfOk, IfSome, OnOk};
ghost use Rattle.cover_report.specs.Common.{IsRefused, faces_of, view_asked, view_looked};
ghost use Rattle.cover_places.specs.Places.{places_of};
ghost use Rattle.cover_places.specs.Text.{topology_text};
ghost use Rattle.cover_places.specs.Told.{IsTold};

use crate::topology::text_of_places;
use cover_report::{Asked, Counts, CoverFault, LookedMap, look_at_map, push_report};
use std::alloc::{AllocError, Allocator, Global};
use std::hash::RandomState;

/// What is written of a map.
#[derive(Drop)]
pub struct Texts<A: Allocator + Copy = Global> {
    /// The report.
    pub report: Vec<u8, A>,
    /// The places, where they are asked for.
    pub places: Option<Vec<u8, A>>,
}

impl<A: Allocator + Copy> Texts<A> {
    /// No report, and places where they are asked for, none of them yet.
    pub fn new(alloc: A, with_places: bool) -> Self
        ensures report { result.report.items ≡ [] }
        ensures places { is_some result.places ≡ with_places }
    {
        Texts {
            report: Vec::new(alloc),
            places: with_places.then(|| Vec::new(alloc)),
        }
    }
}

/// Puts the places of what was found in a map into `places`, where they are asked for.
fn put_places<A: Allocator + Copy>(
    alloc: A,
    asked: &Asked<'_>,
    looked: &LookedMap<'_, A>,
    places: &mut Option<Vec<u8, A>>,
) -> Result<(), AllocError>
    ensures asked { OnOk result (is_some places.new ≡ is_some places.old) }
    ensures placed { OnOk result (IfSome places.new (λ text. text.items
        ≡ topology_text (option_map (λ t. t.now) looked.now.transform)
        (places_of (view_asked asked.now) (faces_of (map view_looked looked.now.looks.items))))) }
{
    if places.is_none() {
        return Ok(());
    }
    let text = text_of_places(alloc, looked.transform, asked, looked.looks.as_slice())?;
    *places = Some(text);
    Ok(())
}

/// Looks at a map that opens, appends the report of its overlaps and gaps to `texts.report`, and puts their places into
/// `texts.places`, where they are asked for. Answers how much is told of each kind, whatever the most lines are.
///
/// The places are the text of a topology (TopoJSON 1.0) with the positions of the map, and with its transform. Its layer
/// `places` has a point for each face within the bounds, at the first position of its name, and its layer `borders` the
/// segments of its border, each with the face on its left. `kind` and `number` say which line of the report each belongs to,
/// where this has them all; `features`, `area` and `width` are those of the line.
///
/// Fails as `look_at_map` does; then `texts` may have a part of a report.
pub fn tell_map<'a, A: Allocator + Copy>(
    alloc: A,
    heap: Global,
    seed: RandomState,
    bytes: &'a [u8],
    asked: &Asked<'_>,
    texts: &mut Texts<A>,
) -> Result<Counts, CoverFault<'a>>
    ensures told { IfOk result (λ counts. IsTold (view_asked asked.now) bytes.now counts
        texts.old.report.items texts.new.report.items texts.new.places) }
    ensures asked { OnOk result (is_some texts.new.places ≡ is_some texts.old.places) }
    ensures refused { IfErr result (IsRefused (view_asked asked.now) bytes.now) }
{
    let looked = match look_at_map(alloc, heap, seed, bytes, asked) {
        Ok(looked) => looked,
        Err(fault) => return Err(fault),
    };
    put_places(alloc, asked, &looked, &mut texts.places)?;
    let counts = push_report(alloc, &mut texts.report, asked, looked.looks.as_slice())?;
    Ok(counts)
}
