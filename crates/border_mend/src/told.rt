//! What is told of a map.
ghost use Rattle.std.specs.Prelude.{[], IfOk, IfSome};
ghost use Rattle.border_mend.specs.Told.{TellsAsIs};

use crate::asked::Words;
use crate::ending::{ending_of_mending, ending_of_report};
use crate::geojson::Source;
use crate::looking::{Looking, mended, reported};
use mend_report::{LookFault, Remade, RepairFault, Report, Texts, mend_as_is, report_as_is};
use program_ends::Ending;
use std::alloc::{AllocError, Global};
use std::hash::RandomState;

/// What looking at a map came to.
#[derive(Drop)]
pub(crate) enum Outcome<'a> {
    /// It was to be looked through.
    Looked(Result<Report, LookFault<'a>>),
    /// It was to be mended.
    Mended(Result<Remade, RepairFault<'a>>),
}

/// What is told of a map.
#[derive(Drop)]
pub(crate) struct Told<'a> {
    /// What is written of it.
    pub(crate) texts: Texts,
    /// What looking at it came to.
    pub(crate) outcome: Outcome<'a>,
    /// Whether it is a GeoJSON object.
    is_geojson: bool,
}

impl<'a> Told<'a> {
    /// How the program ends once it is told.
    pub(crate) fn ending(&self) -> Ending<'_> {
        let report = self.texts.report.as_slice();
        match &self.outcome {
            Outcome::Looked(outcome) => ending_of_report(outcome, self.is_geojson, report),
            Outcome::Mended(outcome) => ending_of_mending(outcome, report),
        }
    }
}

/// What is told of a map that is looked at.
pub(crate) fn told_of<'a>(alloc: Global, words: &Words, looking: &'a Looking) -> Told<'a> {
    let mut texts = Texts::new(alloc, words.places.is_some());
    let outcome = match words.out {
        Some(_) => Outcome::Mended(mended(alloc, looking, &mut texts)),
        None => Outcome::Looked(reported(alloc, looking, &mut texts)),
    };
    Told {
        texts,
        outcome,
        is_geojson: looking.source.is_geojson(),
    }
}

/// What looking at a map comes to that opens in the editor as it is, where the words take it so. `None`, and
/// nothing is appended to its report, where it is to be looked at more closely.
fn outcome_as_is(
    alloc: Global,
    words: &Words,
    seed: RandomState,
    map: &[u8],
    report: &mut Vec<u8>,
) -> Result<Option<Outcome<'static>>, AllocError>
    ensures { IfOk result (λ found. IfSome found
        (TellsAsIs words.now.asked map.now report.old.items report.new.items)) }
{
    if !words.take_as_is() {
        return Ok(None);
    }
    match words.out {
        Some(_) => match mend_as_is(alloc, alloc, seed, map, words.asked, report)? {
            Some(remade) => Ok(Some(Outcome::Mended(Ok(remade)))),
            None => Ok(None),
        },
        None => match report_as_is(alloc, alloc, seed, map, words.asked, report)? {
            Some(report) => Ok(Some(Outcome::Looked(Ok(report)))),
            None => Ok(None),
        },
    }
}

/// The same of a map with this source, with its report, which has nothing before it. A GeoJSON object does
/// not open as it is.
pub(crate) fn told_as_is(
    alloc: Global,
    words: &Words,
    seed: RandomState,
    source: &Source,
    map: &[u8],
) -> Result<Option<Told<'static>>, AllocError>
    ensures { IfOk result (λ found. IfSome found (λ told.
        TellsAsIs words.now.asked map.now [] told.texts.report.items told.outcome)) }
{
    if source.is_geojson() {
        return Ok(None);
    }
    let mut texts = Texts::new(alloc, false);
    match outcome_as_is(alloc, words, seed, map, &mut texts.report)? {
        Some(outcome) => Ok(Some(Told {
            texts,
            outcome,
            is_geojson: false,
        })),
        None => Ok(None),
    }
}
