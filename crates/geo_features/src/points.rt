// The texts of points (RFC 7946, 3.1.2 and 3.1.3).
ghost use Rattle.std.specs.Prelude.{◌≡◌, ◌≤◌, ◌^◌, false, filter, find, map, not, option_map, unsigned_abs, IfOk};
ghost use Rattle.json_spans.specs.Common.{members, node, nodes};
ghost use Rattle.topo_outline.specs.Common.{are_lists, view_kept};
ghost use Rattle.decimal_texts.specs.Common.{says};
ghost use Rattle.geo_features.specs.Names.{is_one_of};
ghost use Rattle.geo_features.specs.Points.{are_positions, known_of_point, member_of_pair, number_at, placed_text};
ghost use Rattle.geo_features.specs.Points.{point_number, point_position, positions_text};
ghost use Rattle.geo_features.specs.Seen.{view_style};
ghost use Rattle.geo_features.specs.Gives.{Appends, Gives};

use crate::fault::ExportFault;
use crate::names::{bad_member, is_one_of};
use crate::style::Style;
use crate::texts::push_comma;
use decimal_texts::has_type;
use json_spans::{Kind, NotWhole, Span, at, bytes, items, kind, members, whole};
use std::alloc::{AllocError, Allocator, Global};
use topo_outline::{Head, KeptMember, OpenFault, Token};

/// The greatest absolute value of a coordinate on the grid.
const REACH: u64 = 1_000_000_000_000;

/// The members that a point has beside those that it keeps.
const KNOWN: &[&str] = &["type", "coordinates", "id", "properties", "bbox"];

/// A point of the map, or several, whose text is kept (TopoJSON 1.0, 2.2.1 and 2.2.2).
#[derive(Drop)]
pub struct Point<'a, A: Allocator + Copy> {
    /// Its number among those of the map, in the order of the text.
    pub number: u128,
    /// Whether it is one.
    is_one: bool,
    /// The name and the value of `coordinates`.
    coordinates: Option<(Span<'a>, Span<'a>)>,
    /// What it has beside them.
    pub head: Head<'a, A>,
}

/// The member of this name.
fn named<'a>(
    heap: Global,
    name: &'static str,
    object: Span<'a>,
) -> Result<Option<(Span<'a>, Span<'a>)>, AllocError>
    ensures { IfOk result (λ found. option_map nodes found
        ≡ find (λ m. says name.now m.0) (members (node object.entry))) }
{
    for member in members(object) {
        let is_named = is_one_of(heap, &[name], member.0.text)?;
        if is_named {
            return Ok(Some(member));
        }
    }
    Ok(None)
}

/// The text of the value of a member.
fn value_text<'a>(member: Option<(Span<'a>, Span<'a>)>) -> Option<&'a [u8]>
    ensures { option_map (λ t. t.now) result
        ≡ option_map (λ m. m.1.bytes) (option_map nodes member.entry) }
{
    match member {
        Some((_, value)) => Some(value.text),
        None => None,
    }
}

/// The members that are not known.
fn kept<'a, A: Allocator + Copy>(
    alloc: A,
    heap: Global,
    object: Span<'a>,
) -> Result<Vec<KeptMember<'a>, A>, AllocError>
    ensures { IfOk result (λ v. map view_kept v.items ≡ filter (λ m. not (is_one_of known_of_point m.name))
        (map member_of_pair (members (node object.entry)))) }
{
    let mut found = Vec::new(alloc);
    for member in members(object) {
        let is_known = is_one_of(heap, KNOWN, member.0.text)?;
        if !is_known {
            found.push(KeptMember {
                name: member.0.text,
                value: member.1.text,
            })?;
        }
    }
    Ok(found)
}

impl<'a, A: Allocator + Copy> Point<'a, A> {
    ghost use Rattle.std.specs.Prelude.{ℕ, List};
    ghost use Rattle.geo_features.specs.Points.{point_coordinates, point_type};
    ghost use Rattle.geo_features.specs.Pointed.{IsPoint};

    /// The point of this text, with its number.
    pub fn of(
        alloc: A,
        heap: Global,
        number: u128,
        text: &'a [u8],
    ) -> Result<Point<'a, A>, AllocError>
        ensures parts { IfOk result (λ point. IsPoint point text.now) }
        ensures number { IfOk result (λ point. point.number ≡ number) }
    {
        let object = Span { text, at: 0 };
        let is_one = has_type(heap, "Point", object)?;
        let coordinates = named(heap, "coordinates", object)?;
        let id = value_text(named(heap, "id", object)?);
        let properties = value_text(named(heap, "properties", object)?);
        let members = kept(alloc, heap, object)?;
        Ok(Point {
            number,
            is_one,
            coordinates,
            head: Head {
                id,
                properties,
                members,
            },
        })
    }

    /// The value of its `type`.
    pub(crate) fn type_token(&self) -> &'static [u8]
        ensures { (t : List ℕ) → IsPoint self.now t → result.now ≡ point_type t }
    {
        if self.is_one {
            b"\"Point\""
        } else {
            b"\"MultiPoint\""
        }
    }

    /// Appends its coordinates.
    pub(crate) fn push_coordinates<B: Allocator>(
        &self,
        text: &mut Vec<u8, B>,
        style: &Style,
    ) -> Result<(), ExportFault<'a>>
        ensures { (t : List ℕ) → IsPoint self.now t → Appends text.old.items text.new.items result
            (point_coordinates (view_style style.now) self.now.number t) }
    {
        match self.coordinates {
            Some((name, value)) => if are_positions(self.is_one, value) {
                push_placed(text, style, self.number, self.is_one, value)
            } else {
                Err(bad_member(name.text))
            },
            None => Err(ExportFault::Open(OpenFault::BadMember {
                name: Token {
                    text: b"coordinates",
                },
            })),
        }
    }
}

/// Whether it is a list of lists.
fn are_lists(value: Span<'_>) -> bool
    ensures { result ≡ are_lists (node value.entry) }
{
    if kind(value) != Kind::List {
        return false;
    }
    for part in items(value) {
        if kind(part) != Kind::List {
            return false;
        }
    }
    true
}

/// Whether a position is a list, or several are a list of lists.
fn are_positions(is_one: bool, value: Span<'_>) -> bool
    ensures { result ≡ are_positions is_one (node value.entry) }
{
    if is_one {
        kind(value) == Kind::List
    } else {
        are_lists(value)
    }
}

/// A coordinate of the point with this number, on the grid.
fn point_number<'a>(number: u128, part: Span<'a>) -> Result<i64, ExportFault<'a>>
    ensures value { Gives (λ z. z) result (point_number number (node part.entry)) }
    ensures range { IfOk result (λ z. unsigned_abs z ≤ 10 ^ 12) }
{
    match whole(part) {
        Ok(whole) if whole.unsigned_abs() <= REACH => Ok(whole),
        Err(NotWhole::Form) => Err(ExportFault::PointNotWhole {
            point: number,
            place: at(part),
        }),
        _ => Err(ExportFault::PointOutOfRange {
            point: number,
            place: at(part),
        }),
    }
}

/// Appends one number of a position: the first and the second where they lie on the map, and others as they stand.
fn push_number<'a, A: Allocator>(
    text: &mut Vec<u8, A>,
    style: &Style,
    number: u128,
    i: usize,
    part: Span<'a>,
) -> Result<(), ExportFault<'a>>
    ensures { Appends text.old.items text.new.items result
        (number_at (view_style style.now) number i (node part.entry)) }
{
    match i {
        0 => {
            let x = or_return!(point_number(number, part));
            style.coordinates.push_x(text, x)?;
        }
        1 => {
            let y = or_return!(point_number(number, part));
            style.coordinates.push_y(text, y)?;
        }
        _ => text.extend_from_slice(bytes(part))?,
    }
    Ok(())
}

/// Appends a position of the point with this number.
fn push_position<'a, A: Allocator>(
    text: &mut Vec<u8, A>,
    style: &Style,
    number: u128,
    position: Span<'a>,
) -> Result<(), ExportFault<'a>>
    ensures { Appends text.old.items text.new.items result
        (point_position (view_style style.now) number (node position.entry)) }
{
    text.push(b'[')?;
    let mut i = 0usize;
    for part in items(position) {
        push_comma(text, i > 0)?;
        or_return!(push_number(text, style, number, i, part));
        i = i.saturating_add(1);
    }
    text.push(b']')?;
    Ok(())
}

/// Appends the positions of several points.
fn push_positions<'a, A: Allocator>(
    text: &mut Vec<u8, A>,
    style: &Style,
    number: u128,
    value: Span<'a>,
) -> Result<(), ExportFault<'a>>
    ensures { Appends text.old.items text.new.items result
        (positions_text (view_style style.now) number false (node value.entry)) }
{
    text.push(b'[')?;
    let mut more = false;
    for position in items(value) {
        push_comma(text, more)?;
        or_return!(push_position(text, style, number, position));
        more = true;
    }
    text.push(b']')?;
    Ok(())
}

/// Appends coordinates where they lie on the map; as they stand, where there is no transform.
fn push_placed<'a, A: Allocator>(
    text: &mut Vec<u8, A>,
    style: &Style,
    number: u128,
    is_one: bool,
    value: Span<'a>,
) -> Result<(), ExportFault<'a>>
    ensures { Appends text.old.items text.new.items result
        (placed_text (view_style style.now) number is_one (node value.entry)) }
{
    if !style.coordinates.grid.is_given() {
        text.extend_from_slice(bytes(value))?;
        return Ok(());
    }
    if is_one {
        push_position(text, style, number, value)
    } else {
        push_positions(text, style, number, value)
    }
}
