//! A map that is a GeoJSON object (RFC 7946): the topology that is looked at in its place, and where its
//! file has a place of that.
ghost use Rattle.std.specs.Prelude.{◌≡◌, ◌≤◌, ◌<◌, None, Some, Ok, length, option_map, IfOk, OnOk};
ghost use Rattle.json_spans.specs.Common.{Json, node};
ghost use Rattle.decimal_texts.specs.Dropped.{whole_value};
ghost use Rattle.topo_outline.specs.Common.{Gives};
ghost use Rattle.geo_topology.specs.Views.{view_made};
ghost use Rattle.border_mend.specs.Geojson.{root_made, made_in, Makes, text_asked, is_geojson, parts_of};
ghost use Rattle.border_mend.specs.Geojson.{place_in_file, fault_in_file, look_in_file, repair_in_file, told_report, without_opens};

use geo_topology::{MadeText, geo_object, topology_text};
use json_spans::{ScanFault, Span, scan};
use mend_report::{LookFault, RepairFault};
use std::alloc::{AllocError, Global};
use std::mem;
use topo_outline::OpenFault;

/// The most bytes of a map: a longer one is looked at as it is, and found too large.
const MOST_BYTES: usize = 67_108_864;

/// The line of a map that opens as it is.
const OPENS: &[u8] = b"opens\n";

/// What a map is.
#[derive(Drop)]
pub(crate) enum Source {
    /// The text that is looked at.
    Own,
    /// A GeoJSON object. A topology is looked at in its place, and these parts of that are copies.
    GeoJson(MadeText),
}

/// The root of a text that is JSON, and not too long.
fn root_of<'a>(alloc: Global, text: &'a [u8]) -> Result<Option<Span<'a>>, AllocError>
    ensures json { length text.now ≤ 67108864 → Json 100 text.now →
        IfOk result (λ root. option_map node root ≡ Some (whole_value text.now)) }
    ensures no_json { (¬ Json 100 text.now) → IfOk result (λ root. root ≡ None) }
    ensures too_long { 67108864 < length text.now → IfOk result (λ root. root ≡ None) }
{
    if text.len() > MOST_BYTES {
        return Ok(None);
    }
    match scan(alloc, text) {
        Ok(root) => Ok(Some(root.span())),
        Err(ScanFault::NotJson { place: _ } | ScanFault::TooDeep { place: _ }) => Ok(None),
        Err(ScanFault::OutOfMemory) => Err(AllocError),
    }
}

/// The topology that the root of a text becomes, where it is a GeoJSON object.
fn topology_of<'a>(alloc: Global, root: Span<'a>) -> Result<Option<MadeText>, OpenFault<'a>>
    ensures { Gives (option_map view_made) result (root_made (node root.entry)) }
{
    match geo_object(alloc, root)? {
        Some(object) => match topology_text(alloc, alloc, object, root) {
            Ok(made) => Ok(Some(made)),
            Err(fault) => Err(fault),
        },
        None => Ok(None),
    }
}

/// The topology that the root of a text becomes, or why it is not looked through.
fn source_of<'a>(alloc: Global, root: Span<'a>) -> Result<Source, LookFault<'a>>
    ensures { Makes result (root_made (node root.entry)) }
{
    match topology_of(alloc, root) {
        Ok(Some(made)) => Ok(Source::GeoJson(made)),
        Ok(None) => Ok(Source::Own),
        Err(OpenFault::OutOfMemory) => Err(LookFault::OutOfMemory),
        Err(fault) => Err(LookFault::Open(fault)),
    }
}

/// What a map with this text is, by the `type` of its root. Of a GeoJSON object the topology is made, or
/// the first fault is answered. Any other text is looked at as it is.
pub(crate) fn made_of<'a>(alloc: Global, text: &'a [u8]) -> Result<Source, LookFault<'a>>
    ensures json { length text.now ≤ 67108864 → Json 100 text.now →
        Makes result (root_made (whole_value text.now)) }
    ensures no_json { (¬ Json 100 text.now) → Makes result (Ok None) }
    ensures too_long { 67108864 < length text.now → Makes result (Ok None) }
{
    match root_of(alloc, text)? {
        Some(root) => source_of(alloc, root),
        None => Ok(Source::Own),
    }
}

/// The text that is looked at: that of the topology, which is taken out of the source, or the map's own.
pub(crate) fn text_asked(own: Vec<u8>, source: &mut Source) -> Vec<u8>
    ensures text { result.items ≡ text_asked own.items (made_in source.old) }
    ensures is_geojson { is_geojson source.new ≡ is_geojson source.old }
    ensures parts { parts_of source.new ≡ parts_of source.old }
{
    match source {
        Source::GeoJson(made) => {
            let empty = Vec::new(*made.text.allocator());
            mem::replace(&mut made.text, empty)
        }
        Source::Own => own,
    }
}

impl Source {
    /// Whether a map is a GeoJSON object.
    pub(crate) fn is_geojson(&self) -> bool
        ensures { result ≡ is_geojson self.now }
    {
        match self {
            Source::GeoJson(_) => true,
            Source::Own => false,
        }
    }

    /// Where the file of a map has a place of the text that is looked at.
    fn in_file(&self, place: usize) -> usize
        ensures { result ≡ place_in_file (parts_of self.now) place }
    {
        match self {
            Source::GeoJson(made) => made.in_file(place).unwrap_or(place),
            Source::Own => place,
        }
    }
}

/// Puts a fault of the text that is looked at where the file has it.
fn put_in_file(source: &Source, fault: &mut OpenFault<'_>)
    ensures { fault.new ≡ fault_in_file (parts_of source.now) fault.old }
{
    match fault {
        OpenFault::NotJson { place } => *place = source.in_file(*place),
        OpenFault::TooDeep { place } => *place = source.in_file(*place),
        OpenFault::NotWhole { place } => *place = source.in_file(*place),
        OpenFault::OutOfRange { place } => *place = source.in_file(*place),
        OpenFault::BadPosition { place } => *place = source.in_file(*place),
        OpenFault::BadArcIndex { place } => *place = source.in_file(*place),
        _ => {}
    }
}

/// Puts what kept a map from being looked through where the file has it.
pub(crate) fn look_in_file(source: &Source, fault: &mut LookFault<'_>)
    ensures { fault.new ≡ look_in_file (parts_of source.now) fault.old }
{
    if let LookFault::Open(fault) = fault {
        put_in_file(source, fault);
    }
}

/// Puts what kept a map from being mended where the file has it.
pub(crate) fn repair_in_file(source: &Source, fault: &mut RepairFault<'_>)
    ensures { fault.new ≡ repair_in_file (parts_of source.now) fault.old }
{
    if let RepairFault::Look(fault) = fault {
        look_in_file(source, fault);
    }
}

/// A report without the line of a map that opens as it is.
fn without_opens(report: &[u8]) -> &[u8]
    ensures { result.now ≡ without_opens report.now }
{
    if report.starts_with(OPENS) {
        &report[OPENS.len()..]
    } else {
        report
    }
}

/// Begins the report of a GeoJSON object with the line that tells so, in the place of the line of a map
/// that opens as it is. The report of any other map stays.
pub(crate) fn put_first_line(source: &Source, report: &mut Vec<u8>) -> Result<(), AllocError>
    ensures { OnOk result (report.new.items
        ≡ told_report (is_geojson source.now) report.old.items) }
{
    if !source.is_geojson() {
        return Ok(());
    }
    let mut text = Vec::from_slice(*report.allocator(), b"geojson\n")?;
    text.extend_from_slice(without_opens(report.as_slice()))?;
    *report = text;
    Ok(())
}
