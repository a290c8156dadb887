//! What is looked at, and what is told of it.
ghost use Rattle.std.specs.Prelude.{◌≡◌, IfErr, IfOk};
ghost use Rattle.border_mend.specs.Geojson.{is_geojson, parts_of};
ghost use Rattle.border_mend.specs.Telling.{EndsLooking, EndsMending, LookEnds, MendEnds, Reports, Mends, TellsLook, TellsMend};

use crate::asked::Words;
use crate::geojson::{Source, look_in_file, put_first_line, repair_in_file, text_asked};
use crate::points::{unread, with_points_on_grid};
use decimal_texts::{Dropped, PointFault, without_lines};
use mend_report::{Asked, LookFault, Remade, RepairFault, Report, Texts, mend_map, report_map};
use program_ends::{Role, Stop, check_apart};
use std::alloc::{AllocError, Global};
use std::hash::RandomState;

/// What is looked at.
#[derive(Drop)]
pub(crate) struct Looking {
    seed: RandomState,
    /// The text of a map, with its points on the grid that is asked for, and what is asked of it.
    map: Result<(Vec<u8>, Asked), PointFault>,
    /// What the map is.
    pub(crate) source: Source,
}

/// A text, and what is asked of it: without its lines, where these are left out.
fn with_lines_asked(
    alloc: Global,
    words: &Words,
    text: Vec<u8>,
) -> Result<(Vec<u8>, Asked), AllocError> {
    if !words.drop_lines {
        return Ok((text, words.asked));
    }
    let Dropped { text, lines } = without_lines(alloc, alloc, text.as_slice())?;
    let asked = Asked {
        dropped: lines,
        ..words.asked
    };
    Ok((text, asked))
}

/// MAP, which is read by now, as it is looked at. No topology is saved over a GeoJSON object.
pub(crate) fn looking_at(
    rt: &HostRuntime,
    words: &Words,
    seed: RandomState,
    map: Vec<u8>,
    source: Source,
) -> Result<Looking, Stop>
    ensures parts { IfOk result (λ looking. parts_of looking.source ≡ parts_of source) }
    ensures geojson { IfOk result (λ looking. is_geojson looking.source ≡ is_geojson source) }
{
    let alloc = rt.alloc();
    let mut source = source;
    if source.is_geojson() {
        check_apart(rt, &words.files(Role::Read))?;
    }
    let text = text_asked(map, &mut source);
    let (text, asked) = with_lines_asked(alloc, words, text)?;
    Ok(Looking {
        seed,
        map: with_points_on_grid(alloc, seed, text, asked),
        source,
    })
}

/// The report of the text, where its points were put on the grid that is asked for.
fn looked<'a>(
    alloc: Global,
    looking: &'a Looking,
    texts: &mut Texts,
) -> Result<Report, LookFault<'a>>
    ensures told { IfOk result (λ report. TellsLook looking.now.map report
        texts.old.report.items texts.new.report.items) }
    ensures refused { IfErr result (λ fault. EndsLooking looking.now.map fault) }
{
    match &looking.map {
        Ok((text, asked)) => report_map(alloc, alloc, looking.seed, text.as_slice(), *asked, texts),
        Err(fault) => Err(unread(*fault)),
    }
}

/// The report of a map. Where it can't be looked through, the fault is where its file has it.
pub(crate) fn reported<'a>(
    alloc: Global,
    looking: &'a Looking,
    texts: &mut Texts,
) -> Result<Report, LookFault<'a>>
    ensures told { IfOk result (λ report. Reports looking.now.source looking.now.map report
        texts.old.report.items texts.new.report.items) }
    ensures refused { IfErr result (λ fault. LookEnds looking.now.source looking.now.map fault) }
{
    match looked(alloc, looking, texts) {
        Ok(report) => {
            put_first_line(&looking.source, &mut texts.report)?;
            Ok(report)
        }
        Err(fault) => {
            let mut fault = fault;
            look_in_file(&looking.source, &mut fault);
            Err(fault)
        }
    }
}

/// What the text is mended to, where its points were put on the grid that is asked for.
fn remade<'a>(
    alloc: Global,
    looking: &'a Looking,
    texts: &mut Texts,
) -> Result<Remade, RepairFault<'a>>
    ensures told { IfOk result (λ remade. TellsMend looking.now.map remade
        texts.old.report.items texts.new.report.items) }
    ensures refused { IfErr result (λ fault. EndsMending looking.now.map fault) }
{
    match &looking.map {
        Ok((text, asked)) => mend_map(alloc, alloc, looking.seed, text.as_slice(), *asked, texts),
        Err(fault) => Err(RepairFault::Look(unread(*fault))),
    }
}

/// What a map is mended to. Where it is not, the fault is where its file has it.
pub(crate) fn mended<'a>(
    alloc: Global,
    looking: &'a Looking,
    texts: &mut Texts,
) -> Result<Remade, RepairFault<'a>>
    ensures told { IfOk result (λ remade. Mends looking.now.source looking.now.map remade
        texts.old.report.items texts.new.report.items) }
    ensures refused { IfErr result (λ fault. MendEnds looking.now.source looking.now.map fault) }
{
    match remade(alloc, looking, texts) {
        Ok(remade) => {
            put_first_line(&looking.source, &mut texts.report)?;
            Ok(remade)
        }
        Err(fault) => {
            let mut fault = fault;
            repair_in_file(&looking.source, &mut fault);
            Err(fault)
        }
    }
}
