// The faces that are told, as the report has them.
ghost use Rattle.std.specs.Prelude.{◌≡◌, ◌++◌, map, IfOk, OnOk};
ghost use Rattle.cover_report.specs.Common.{faces_of, told, view_asked, view_looked, view_told};
ghost use Rattle.cover_places.specs.Places.{numbered, place_seen, places_of};

use cover_report::{Asked, Looked, ToldFace, all_faces, told_faces};
use layer_faces::Kind;
use std::alloc::{AllocError, Allocator};

/// A face that is told.
#[derive(Clone, Copy)]
pub(crate) struct Place<'l, A: Allocator + Copy> {
    /// Its number among those of its kind, from 0.
    pub(crate) number: usize,
    pub(crate) face: &'l ToldFace<A>,
}

/// Appends faces of one kind.
fn push_faces<'l, A: Allocator + Copy>(
    places: &mut Vec<Place<'l, A>, A>,
    faces: &[&'l ToldFace<A>],
) -> Result<(), AllocError>
    ensures { OnOk result (map place_seen places.new.items ≡ map place_seen places.old.items
        ++ numbered (map (λ f. view_told f.now) faces.now)) }
{
    for (number, face) in faces.iter().enumerate() {
        places.push(Place {
            number,
            face: *face,
        })?;
    }
    Ok(())
}

/// Appends those of these faces that are of a kind and are told.
fn push_kind<'l, A: Allocator + Copy>(
    alloc: A,
    places: &mut Vec<Place<'l, A>, A>,
    asked: &Asked<'_>,
    kind: Kind,
    faces: &[&'l ToldFace<A>],
) -> Result<(), AllocError>
    ensures { OnOk result (map place_seen places.new.items ≡ map place_seen places.old.items
        ++ numbered (told (view_asked asked.now) kind (map (λ f. view_told f.now) faces.now))) }
{
    let told = told_faces(alloc, asked, kind, faces)?;
    push_faces(places, told.as_slice())
}

/// The faces that are told of the layers that were looked at, in the order of the report.
pub(crate) fn places_of<'l, A: Allocator + Copy>(
    alloc: A,
    asked: &Asked<'_>,
    looks: &'l [Looked<'_, A>],
) -> Result<Vec<Place<'l, A>, A>, AllocError>
    ensures { IfOk result (λ places. map place_seen places.items
        ≡ places_of (view_asked asked.now) (faces_of (map view_looked looks.now))) }
{
    let faces = all_faces(alloc, looks)?;
    let faces = faces.as_slice();
    let mut places = Vec::new(alloc);
    push_kind(alloc, &mut places, asked, Kind::Overlap, faces)?;
    push_kind(alloc, &mut places, asked, Kind::Twice, faces)?;
    push_kind(alloc, &mut places, asked, Kind::Gap, faces)?;
    push_kind(alloc, &mut places, asked, Kind::Lake, faces)?;
    Ok(places)
}
