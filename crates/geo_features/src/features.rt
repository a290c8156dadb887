// The texts of Features and of what stands within them (RFC 7946, 3.1 and 3.2).
ghost use Rattle.std.specs.Prelude.{◌≡◌, ◌++◌, ℕ, List, codes, map, IsTrue, OnOk};
ghost use Rattle.topo_outline.specs.Common.{form_of, view_head, view_kept};
ghost use Rattle.topo_reader.specs.Common.{polygon_positions};
ghost use Rattle.ring_machine.specs.Common.{Feature};
ghost use Rattle.map_text.specs.Common.{further, member_text, type_text};
ghost use Rattle.geo_features.specs.Features.{collection_begin, collection_end, feature_begin, geometry_begin, is_null};
ghost use Rattle.geo_features.specs.Features.{leaf_geometry, not_of_form, others_text, own_text, point_geometry};
ghost use Rattle.geo_features.specs.Seen.{view_style};
ghost use Rattle.geo_features.specs.Small.{all_small};
ghost use Rattle.geo_features.specs.Gives.{Appends};
ghost use Rattle.geo_features.specs.Pointed.{IsPoint};

use crate::fault::ExportFault;
use crate::members::{feature_members, geometry_members};
use crate::names::{NOT_OF_FEATURE, NOT_OF_NULL};
use crate::points::Point;
use crate::style::Style;
use crate::texts::{push_member, push_member_if, push_members};
use grid_geometry::Pos;
use std::alloc::{AllocError, Allocator, Global};
use topo_outline::{Form, Head, KeptMember, RawFeature};

/// Whether a feature has no geometry.
pub fn is_null(form: Form) -> bool
    ensures { result ≡ is_null (form_of form) }
{
    matches!(form, Form::Null)
}

/// The names that the members of a feature may not have.
pub fn not_of_form(form: Form) -> &'static [&'static str]
    ensures { map (λ word. word.now) result.now ≡ not_of_form (form_of form) }
{
    match form {
        Form::Null => NOT_OF_NULL,
        Form::Polygon | Form::MultiPolygon => NOT_OF_FEATURE,
    }
}

/// Appends a Feature up to its geometry. Without properties these are null.
pub fn push_feature_begin<A: Allocator, B: Allocator + Copy>(
    text: &mut Vec<u8, A>,
    head: &Head<'_, B>,
) -> Result<(), AllocError>
    ensures { OnOk result (text.new.items ≡ text.old.items ++ feature_begin (view_head head.now)) }
{
    text.extend_from_slice(b"{\"type\":\"Feature\"")?;
    push_member_if(text, b"\"id\"", head.id)?;
    push_member(text, b"\"properties\"", head.properties.unwrap_or(b"null"))?;
    text.extend_from_slice(b",\"geometry\":")
}

/// Appends the last members of an object, and its end.
fn push_end<A: Allocator>(
    text: &mut Vec<u8, A>,
    members: &[KeptMember<'_>],
) -> Result<(), AllocError>
    ensures { OnOk result (text.new.items ≡ text.old.items
        ++ (further (map member_text (map view_kept members.now)) ++ codes "}")) }
{
    push_members(text, members)?;
    text.extend_from_slice(b"}")
}

/// Appends the end of a Feature whose feature has these members. A name of these words is at fault.
pub fn push_own<'a, A: Allocator + Copy>(
    text: &mut Vec<u8, A>,
    heap: Global,
    words: &[&str],
    members: &[KeptMember<'a>],
) -> Result<(), ExportFault<'a>>
    ensures { Appends text.old.items text.new.items result
        (own_text (map (λ word. word.now) words.now) (map view_kept members.now)) }
{
    let own = or_return!(feature_members(*text.allocator(), heap, words, members));
    push_end(text, own.as_slice())?;
    Ok(())
}

/// Appends the begin of a GeometryCollection, up to the list of its geometries (3.1.8).
pub fn push_collection_begin<A: Allocator>(text: &mut Vec<u8, A>) -> Result<(), AllocError>
    ensures { OnOk result (text.new.items ≡ text.old.items ++ collection_begin) }
{
    text.extend_from_slice(b"{\"type\":\"GeometryCollection\",\"geometries\":[")
}

/// Appends the end of a geometry, or of a list of geometries, whose feature has these members.
fn push_others<'a, A: Allocator + Copy>(
    text: &mut Vec<u8, A>,
    heap: Global,
    members: &[KeptMember<'a>],
) -> Result<(), ExportFault<'a>>
    ensures { Appends text.old.items text.new.items result (others_text (map view_kept members.now)) }
{
    let others = or_return!(geometry_members(*text.allocator(), heap, members));
    push_end(text, others.as_slice())?;
    Ok(())
}

/// Appends the end of a GeometryCollection whose feature has these members.
/// A member `geometry` among them that is no object, or has a member that a geometry may not have, is at fault.
pub fn push_collection_end<'a, A: Allocator + Copy>(
    text: &mut Vec<u8, A>,
    heap: Global,
    members: &[KeptMember<'a>],
) -> Result<(), ExportFault<'a>>
    ensures { Appends text.old.items text.new.items result (collection_end (map view_kept members.now)) }
{
    text.extend_from_slice(b"]")?;
    push_others(text, heap, members)
}

/// The value of `type`.
fn type_token(form: Form) -> &'static [u8]
    ensures { result.now ≡ type_text (form_of form) }
{
    match form {
        Form::Polygon => b"\"Polygon\"",
        Form::MultiPolygon => b"\"MultiPolygon\"",
        Form::Null => b"null",
    }
}

/// Appends a geometry up to its coordinates.
fn push_geometry_begin<A: Allocator>(text: &mut Vec<u8, A>, token: &[u8]) -> Result<(), AllocError>
    ensures { OnOk result (text.new.items ≡ text.old.items ++ geometry_begin token.now) }
{
    text.extend_from_slice(b"{\"type\":")?;
    text.extend_from_slice(token)?;
    text.extend_from_slice(b",\"coordinates\":")
}

/// Appends the geometry of a feature with these polygons: null where it has none.
/// A member `geometry` of the feature that is no object, or has a member that a geometry may not have, is at fault.
pub fn push_shape<'a, A: Allocator + Copy>(
    text: &mut Vec<u8, A>,
    heap: Global,
    style: &Style,
    feature: &RawFeature<'a, A>,
    polygons: &[Vec<Vec<Pos, A>, A>],
) -> Result<(), ExportFault<'a>>
    requires { IsTrue (all_small polygons.now) }
    ensures { (f : Feature) → f.form ≡ form_of feature.now.form
        → f.members ≡ (view_head feature.now.head).members
        → f.polygons ≡ map polygon_positions polygons.now
        → Appends text.old.items text.new.items result (leaf_geometry (view_style style.now) f) }
{
    if is_null(feature.form) {
        text.extend_from_slice(b"null")?;
        return Ok(());
    }
    push_geometry_begin(text, type_token(feature.form))?;
    style.push_shape(text, feature.form, polygons)?;
    push_others(text, heap, feature.head.members.as_slice())
}

/// Appends the geometry of a point.
/// Coordinates that are no positions of the grid are at fault, and then the member `geometry` as in [`push_shape`].
pub fn push_point<'a, A: Allocator + Copy>(
    text: &mut Vec<u8, A>,
    heap: Global,
    style: &Style,
    point: &Point<'a, A>,
) -> Result<(), ExportFault<'a>>
    ensures { (t : List ℕ) → IsPoint point.now t → Appends text.old.items text.new.items result
        (point_geometry (view_style style.now) point.now.number t) }
{
    push_geometry_begin(text, point.type_token())?;
    or_return!(point.push_coordinates(text, style));
    push_others(text, heap, point.head.members.as_slice())
}
