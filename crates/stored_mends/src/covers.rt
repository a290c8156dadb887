// What is told of the overlaps and gaps of a map, and where they are.
use crate::stored::Stored;
use cover_places::{Texts, tell_map};
use cover_report::{Asked, Counts};
use std::alloc::AllocError;
use std::hash::RandomState;

/// Compares the status, the lines of a report, and the places.
fn compare_told(stored: &mut Stored<'_>, counts: Counts, texts: &Texts) -> Result<(), AllocError> {
    stored.compare_number("status", if counts.is_clear() { 0 } else { 1 })?;
    stored.compare_lines("report", texts.report.as_slice())?;
    match &texts.places {
        Some(places) => stored.compare("places", places.as_slice()),
        None => stored.compare("places", b"none"),
    }
}

/// Compares what is told of the overlaps and gaps of the map of a case, or why nothing is.
pub(crate) fn compare_cover(stored: &mut Stored<'_>, seed: RandomState) -> Result<(), AllocError> {
    let alloc = stored.alloc;
    let map = stored.given("map")?;
    let layers = stored.given("layer")?;
    let mut names = Vec::new(alloc);
    for name in layers.as_str().lines() {
        names.push(name)?;
    }
    let asked = Asked {
        layers: names.as_slice(),
        width: stored.case.wide_number("width"),
        area: stored.case.wide_number("area"),
        most: stored.case.number("most", 1000),
    };
    let mut texts = Texts::new(alloc, true);
    match tell_map(
        alloc,
        alloc,
        seed,
        map.as_str().as_bytes(),
        &asked,
        &mut texts,
    ) {
        Ok(counts) => compare_told(stored, counts, &texts),
        Err(fault) => {
            let text = format!(in alloc; "{fault}")?;
            stored.compare("fault", text.as_str().as_bytes())
        }
    }
}
