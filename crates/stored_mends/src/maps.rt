// What is reported of a map, and what it is mended to.
use crate::cases::Case;
use crate::stored::Stored;
use grid_reader::{PointNeeds, Wants};
use mend_report::{
    Asked, LookFault, Remade, RepairFault, Report, Texts, is_open, mend_map, report_map,
};
use std::alloc::{AllocError, Global};
use std::hash::RandomState;

/// What is asked of the map of a case.
pub(crate) fn asked_of(case: &Case<'_>) -> Asked {
    let grid = Wants {
        digits: case.number("digits", 24).min(24),
        finer: case.number("finer", 0).min(12),
        drop_heights: case.has("heights"),
        points_lie: case.has("lying"),
        points: PointNeeds::NONE,
    };
    Asked {
        grid,
        most: case.number("most", 1000),
        dropped: case.number("dropped", 0),
    }
}

/// Compares why a map is not looked through.
fn compare_fault(stored: &mut Stored<'_>, fault: &LookFault<'_>) -> Result<(), AllocError> {
    let text = match fault {
        LookFault::Open(fault) => format!(in stored.alloc; "{fault}")?,
        LookFault::TooMany => format!(in stored.alloc; "too many findings")?,
        LookFault::OutOfMemory => format!(in stored.alloc; "out of memory")?,
    };
    stored.compare("fault", text.as_str().as_bytes())
}

/// Compares the places of a map, or that there are none.
fn compare_places(
    stored: &mut Stored<'_>,
    word: &str,
    places: &Option<Vec<u8>>,
) -> Result<(), AllocError> {
    match places {
        Some(text) => stored.compare(word, text.as_slice()),
        None => stored.compare(word, b"none"),
    }
}

/// No texts, with places unless the case says that it has none.
fn no_texts(stored: &Stored<'_>) -> Texts {
    Texts::new(stored.alloc, !stored.case.has("plain"))
}

/// Compares whether the map opens, its report, and its places.
fn compare_looked(
    stored: &mut Stored<'_>,
    texts: &Texts,
    report: &Report,
) -> Result<(), AllocError> {
    stored.compare_number("status", if is_open(report) { 0 } else { 1 })?;
    stored.compare_lines("report", texts.report.as_slice())?;
    compare_places(stored, "places", &texts.places)
}

/// Compares what is reported of the map of a case.
pub(crate) fn compare_report(stored: &mut Stored<'_>, seed: RandomState) -> Result<(), AllocError> {
    let (alloc, map) = (stored.alloc, stored.given("map")?);
    let (asked, mut texts) = (asked_of(&stored.case), no_texts(stored));
    match report_map(
        alloc,
        alloc,
        seed,
        map.as_str().as_bytes(),
        asked,
        &mut texts,
    ) {
        Ok(report) => compare_looked(stored, &texts, &report),
        Err(fault) => compare_fault(stored, &fault),
    }
}

/// Compares the report of mending, the places with the paths, and the mended map.
fn compare_remade(
    stored: &mut Stored<'_>,
    texts: &Texts,
    remade: &Remade,
) -> Result<(), AllocError> {
    stored.compare_lines("mended", texts.report.as_slice())?;
    compare_places(stored, "paths", &texts.places)?;
    stored.compare_any("saved", remade.text.as_slice())
}

/// What the map of a case is mended to.
fn mended<'m>(
    stored: &Stored<'_>,
    seed: RandomState,
    map: &'m str,
    texts: &mut Texts,
) -> Result<Remade, RepairFault<'m>> {
    let (alloc, asked) = (stored.alloc, asked_of(&stored.case));
    mend_map(alloc, alloc, seed, map.as_bytes(), asked, texts)
}

/// Compares what the map of a case is mended to.
pub(crate) fn compare_mended(stored: &mut Stored<'_>, seed: RandomState) -> Result<(), AllocError> {
    let map = stored.given("map")?;
    let mut texts = no_texts(stored);
    match mended(stored, seed, map.as_str(), &mut texts) {
        Ok(remade) => compare_remade(stored, &texts, &remade),
        Err(RepairFault::Look(fault)) => compare_fault(stored, &fault),
        Err(_) => stored.compare("fault", b"not mended"),
    }
}

/// Compares whether the map of a case is mended, whatever its text is then.
pub(crate) fn compare_end(stored: &mut Stored<'_>, seed: RandomState) -> Result<(), AllocError> {
    let map = stored.given("map")?;
    let mut texts = no_texts(stored);
    if mended(stored, seed, map.as_str(), &mut texts).is_err() {
        return stored.compare("ends", b"not mended");
    }
    stored.compare("ends", b"mended")
}

/// The lines of a report that tell of areas.
fn area_lines(alloc: Global, report: &[u8]) -> Result<String, AllocError> {
    let mut lines = String::new(alloc);
    for line in str::from_utf8(report).unwrap_or("").lines() {
        if line.starts_with("area ") {
            lines.push_str(line)?;
            lines.push_str("\n")?;
        }
    }
    Ok(lines)
}

/// Compares how the areas of the features change as the map of a case is mended.
pub(crate) fn compare_areas(stored: &mut Stored<'_>, seed: RandomState) -> Result<(), AllocError> {
    let map = stored.given("map")?;
    let mut texts = no_texts(stored);
    if mended(stored, seed, map.as_str(), &mut texts).is_err() {
        return stored.compare("areas", b"not mended");
    }
    let lines = area_lines(stored.alloc, texts.report.as_slice())?;
    stored.compare("areas", lines.as_str().trim_end().as_bytes())
}
