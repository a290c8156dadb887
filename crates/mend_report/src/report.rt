//! The report of what keeps a map from opening.
ghost use Rattle.std.specs.Prelude.{◌≡◌, ◌↔◌, ◌++◌, ◌&&◌, [], is_some, Ok, None};
ghost use Rattle.std.specs.Prelude.{option_map, IfErr, IfOk, IfSome, OnOk};
ghost use Rattle.walk_faults.specs.Common.{features_seen, Found};
ghost use Rattle.place_text.specs.Common.{IsPlaceText};
ghost use Rattle.mend_report.specs.Report.{reads_unchanged, is_clear, report_of, findings_text, grid_text, mended_report};
ghost use Rattle.mend_report.specs.Remaking.{Remakes, RemakesWhole, TellsMending, PlacesMending, IsMendEnd};
ghost use Rattle.topo_reader.specs.Common.{view_raw};
ghost use Rattle.segment_paths.specs.Common.{paths_seen};
ghost use Rattle.mend_report.specs.Looking.{under, Looked, HasPlaces, MapOpens, EditorOpens, HasWalks, IsEnd};
ghost use Rattle.mend_report.specs.Status.{is_open, report_status};
ghost use Rattle.grid_reader.specs.Common.{IsTold};

use crate::asked::{Asked, Report};
use crate::lines::{push_decimals, push_first, push_found, push_heights, push_lines, push_opens};
use crate::looking::{LookFault, Seen, looked_through};
use crate::remaking::{Remade, remake};
use crate::repair_fault::RepairFault;
use grid_geometry::Pos;
use grid_reader::Told;
use place_text::{push_number, text_of_places};
use segment_paths::SegmentPath;
use std::alloc::{AllocError, Allocator, Global};
use std::hash::RandomState;
use topo_reader::RawDoc;
use walk_faults::Findings;

/// Whether every coordinate is written as a whole number, and nothing was left out.
fn is_plain(grid: Told) -> bool
    ensures { result ≡ reads_unchanged grid }
{
    grid.whole && grid.heights == 0
}

/// Whether nothing is found.
fn is_clear<A: Allocator + Copy>(findings: &Findings<A>) -> bool
    ensures { result ≡ is_clear findings.now.short.items findings.now.repeats.items
        findings.now.touches.items findings.now.crossings.items }
{
    findings.short.is_empty()
        && findings.repeats.is_empty()
        && findings.touches.is_empty()
        && findings.crossings.is_empty()
}

/// Whether nothing keeps the map from opening as it is.
pub fn is_open<A: Allocator + Copy>(report: &Report<A>) -> bool
    ensures { result ≡ is_open report.now }
{
    is_plain(report.grid) && report.dropped == 0 && is_clear(&report.findings)
}

/// Appends what the grid is, and how many lines were left out.
fn push_grid<A: Allocator>(
    text: &mut Vec<u8, A>,
    grid: Told,
    dropped: usize,
) -> Result<(), AllocError>
    ensures { OnOk result (text.new.items ≡ text.old.items ++ grid_text grid dropped) }
{
    append!(text; push_decimals(grid) push_heights(grid) push_lines(dropped))
}

/// Appends what the grid is, and what was found, of each kind at most so many lines.
fn push_findings<A: Allocator, B: Allocator + Copy>(
    text: &mut Vec<u8, A>,
    report: &Report<B>,
    most: usize,
) -> Result<(), AllocError>
    ensures { let found = report.now.findings in OnOk result (text.new.items ≡ text.old.items
        ++ findings_text most report.now.grid report.now.dropped found.short.items found.repeats.items
        found.touches.items found.crossings.items) }
{
    let findings = &report.findings;
    append!(text; push_opens(is_open(report)) push_grid(report.grid, report.dropped)
        push_first(findings.short.as_slice(), most)
        push_first(findings.repeats.as_slice(), most)
        push_first(findings.touches.as_slice(), most)
        push_first(findings.crossings.as_slice(), most))
}

/// Appends the report of what was found, of each kind at most so many lines.
pub(crate) fn push_report<A: Allocator, B: Allocator + Copy>(
    text: &mut Vec<u8, A>,
    report: &Report<B>,
    most: usize,
) -> Result<(), AllocError>
    ensures { OnOk result (text.new.items
        ≡ text.old.items ++ report_of most report.now.grid report.now.dropped report.now.findings) }
{
    append!(text; push_findings(report, most) push_found(&report.findings) b"\n")
}

/// Appends the report of what was found in a map, and of what was done about it, of each kind at most
/// so many lines.
pub(crate) fn push_mended<A: Allocator, B: Allocator + Copy>(
    text: &mut Vec<u8, A>,
    report: &Report<B>,
    remade: &Remade<B>,
    most: usize,
) -> Result<(), AllocError>
    ensures { OnOk result (text.new.items ≡ text.old.items
        ++ mended_report most report.now.grid report.now.dropped report.now.findings
        (paths_seen remade.now.paths.items) remade.now.parted.items remade.now.areas.items) }
{
    append!(text; push_findings(report, most)
        push_first(remade.paths.as_slice(), most)
        push_first(remade.parted.as_slice(), most)
        push_first(remade.areas.as_slice(), most)
        push_found(&report.findings)
        b" paths " push_number(remade.paths.len())
        b" parts " push_number(remade.parted.len())
        b" areas " push_number(remade.areas.len()) b"\n")
}

/// What is written of a map.
#[derive(Drop)]
pub struct Texts<A: Allocator + Copy = Global> {
    /// The report.
    pub report: Vec<u8, A>,
    /// The places, where they are asked for.
    pub places: Option<Vec<u8, A>>,
}

impl<A: Allocator + Copy> Texts<A> {
    /// No report, and places where they are asked for, none of them yet.
    pub fn new(alloc: A, with_places: bool) -> Self
        ensures report { result.report.items ≡ [] }
        ensures places { is_some result.places ≡ with_places }
    {
        Texts {
            report: Vec::new(alloc),
            places: with_places.then(|| Vec::new(alloc)),
        }
    }
}

/// Puts the places of all findings among walks under a transform into `places`, where they are asked
/// for, and with them the paths that mend the map, if these are reported.
fn put_places<'f, A: Allocator + Copy>(
    alloc: A,
    transform: Option<&[u8]>,
    walks: &[Vec<Vec<Vec<Pos, A>, A>, A>],
    findings: &'f Findings<A>,
    paths: Option<&'f [SegmentPath<A>]>,
    places: &mut Option<Vec<u8, A>>,
) -> Result<(), AllocError>
    requires { Found (features_seen walks.now) findings.now }
    ensures asked { OnOk result (is_some places.new ≡ is_some places.old) }
    ensures placed { OnOk result (IfSome places.new
        (λ text. IsPlaceText (option_map (λ t. t.now) transform.entry) (features_seen walks.now)
        findings.now (option_map (λ ps. paths_seen ps.now) paths.entry) text.items)) }
{
    if places.is_none() {
        return Ok(());
    }
    let text = text_of_places(alloc, transform, walks, findings, paths)?;
    *places = Some(text);
    Ok(())
}

/// Looks at a map on the grid that is asked for, appends the report of that grid and of all that keeps
/// the map from opening to `texts.report`, of each kind at most `asked.most` lines, and puts the places
/// of it all into `texts.places`, where they are asked for. What is reported is answered: nothing, and
/// so the status 0, exactly where the map opens as it is: in the editor, unless its grid is made finer.
/// Fails as `map_of` and `look` do, and then `texts` may have a part of a report.
pub fn report_map<'a, A: Allocator + Copy>(
    alloc: A,
    heap: Global,
    seed: RandomState,
    bytes: &'a [u8],
    asked: Asked,
    texts: &mut Texts<A>,
) -> Result<Report<A>, LookFault<'a>>
    ensures looked { IfOk result (λ report. Looked asked.grid bytes.now report.findings) }
    ensures grid { IfOk result (λ report. IsTold asked.grid bytes.now report.grid) }
    ensures dropped { IfOk result (λ report. report.dropped ≡ asked.dropped) }
    ensures opens { IfOk result (λ report.
        report_status (Ok report) ≡ 0 ↔ MapOpens asked bytes.now) }
    ensures editor { IfOk result (λ report. asked.grid.finer ≡ 0
        → report_status (Ok report) ≡ 0 ↔ (asked.dropped ≡ 0) × EditorOpens bytes.now) }
    ensures told { IfOk result (λ report. texts.new.report.items
        ≡ texts.old.report.items ++ report_of asked.most report.grid report.dropped report.findings) }
    ensures asked { OnOk result (is_some texts.new.places ≡ is_some texts.old.places) }
    ensures placed { IfOk result (λ report. IfSome texts.new.places
        (λ places. HasPlaces asked.grid bytes.now report.findings None places.items)) }
    ensures refused { IfErr result (λ fault. IsEnd fault asked.grid bytes.now) }
{
    let Seen {
        transform,
        map,
        report,
    } = or_return!(looked_through(alloc, heap, seed, bytes, asked));
    push_report(&mut texts.report, &report, asked.most)?;
    let (text, walks) = (transform.text(), map.polygons.as_slice());
    put_places(
        alloc,
        text,
        walks,
        &report.findings,
        None,
        &mut texts.places,
    )?;
    Ok(report)
}

/// The map with this transform.
fn with_transform<'x, 'a: 'x, A: Allocator + Copy>(
    transform: Option<&'x [u8]>,
    map: RawDoc<'a, A>,
) -> RawDoc<'x, A>
    ensures { view_raw result ≡ under (option_map (λ t. t.now) transform.entry) (view_raw map.entry) }
{
    RawDoc {
        transform,
        layers: map.layers,
        members: map.members,
        polygons: map.polygons,
    }
}

/// Looks at a map on the grid that is asked for, and mends it. Appends the report of that grid, of all
/// that kept the map from opening, and of what was done about it, to `texts.report`, of each kind at most
/// `asked.most` lines, and puts the places of what was found, and the paths, into `texts.places`, where
/// they are asked for. Answers the paths, the polygons that were taken apart, how areas changed, and the
/// text to be saved, which opens. A map of whole numbers is read as the editor reads it, unless its grid
/// is made finer; positions are hashed by a seed. Fails as `map_of`, `look` and `remake` do, and then `texts` may have a
/// part of a report.
pub fn mend_map<'a, A: Allocator + Copy>(
    alloc: A,
    heap: Global,
    seed: RandomState,
    bytes: &'a [u8],
    asked: Asked,
    texts: &mut Texts<A>,
) -> Result<Remade<A>, RepairFault<'a>>
    ensures mended { IfOk result (λ remade. Remakes asked.grid bytes.now remade) }
    ensures whole { IfOk result (λ remade. asked.grid.finer ≡ 0 → HasWalks bytes.now
        → RemakesWhole bytes.now remade) }
    ensures told { IfOk result (λ remade. TellsMending asked bytes.now remade
        texts.old.report.items texts.new.report.items) }
    ensures asked { OnOk result (is_some texts.new.places ≡ is_some texts.old.places) }
    ensures placed { IfOk result (λ remade.
        PlacesMending asked.grid bytes.now remade texts.new.places) }
    ensures refused { IfErr result (λ fault. IsMendEnd fault asked.grid bytes.now) }
{
    let Seen {
        transform,
        map,
        report,
    } = match looked_through(alloc, heap, seed, bytes, asked) {
        Ok(seen) => seen,
        Err(fault) => return Err(RepairFault::Look(fault)),
    };
    let walks = map.polygons.clone()?;
    let transform = transform.text();
    let map = with_transform(transform, map);
    let remade = or_return!(remake(alloc, heap, seed, map, walks.as_slice()));
    let paths = Some(remade.paths.as_slice());
    let (walks, found) = (walks.as_slice(), &report.findings);
    put_places(alloc, transform, walks, found, paths, &mut texts.places)?;
    push_mended(&mut texts.report, &report, &remade, asked.most)?;
    Ok(remade)
}
