// The lines of a file: families of texts, and what is answered to each.
use crate::damage::{Reader, of_pairs, of_places};
use crate::geo::{Told, put_geo};
use crate::opening::{put_opened, put_walks};
use crate::outline::put_outlined;
use crate::pieces::{decoded, filled};
use crate::spans::{put_scanned, put_spans};
use std::alloc::{AllocError, Global};
use std::fmt::{Display, Error, Formatter, Write};

/// What answers to the texts of a file.
#[derive(Clone, Copy)]
pub(crate) enum Door {
    /// `scan`: whether a text is JSON.
    Scan,
    /// `scan`, and what its values are.
    Spans,
    /// `read_outline`.
    Outline,
    /// `read`.
    Read,
    /// `read`, and `read_walks`.
    ReadBoth,
    /// The step from GeoJSON to a topology.
    Geo,
    /// `read_walks`, of the topology that GeoJSON becomes.
    GeoRead,
    /// `scan`, of texts with a byte replaced.
    Damaged,
    /// `scan`, of each two bytes.
    Pairs,
    /// `read`, of maps with a byte replaced.
    DamagedMaps,
}

/// How many texts there are, and how many lines of which the answer is not the stored one.
#[derive(Clone, Copy)]
pub(crate) struct Counts {
    texts: usize,
    others: usize,
}

impl Counts {
    pub(crate) fn new() -> Counts {
        Counts {
            texts: 0,
            others: 0,
        }
    }

    pub(crate) fn add(&mut self, more: Counts) {
        self.texts = self.texts.saturating_add(more.texts);
        self.others = self.others.saturating_add(more.others);
    }

    pub(crate) fn are_as_stored(self) -> bool {
        self.others == 0
    }
}

impl Display for Counts {
    fn fmt<W: Write>(&self, f: &mut Formatter<W>) -> Result<(), Error> {
        if self.are_as_stored() {
            write!(f, "{}, as stored", self.texts)
        } else {
            write!(f, "{}, {} lines not as stored", self.texts, self.others)
        }
    }
}

/// What is found for a line, and of how many texts.
#[derive(Drop)]
struct Found {
    answer: String,
    texts: usize,
}

/// The two numbers of `3-7`, or the one number twice.
fn ends(range: &str) -> (&str, &str) {
    range.split_once("-").unwrap_or((range, range))
}

fn count_from(first: usize, last: usize) -> usize {
    last.saturating_add(1).saturating_sub(first)
}

/// The answer to one text.
fn of_text(alloc: Global, door: Door, text: &[u8]) -> Result<String, AllocError> {
    let mut out = String::new(alloc);
    match door {
        Door::Spans => put_spans(&mut out, alloc, text)?,
        Door::Outline => put_outlined(&mut out, alloc, text)?,
        Door::Geo => put_geo(&mut out, alloc, Told::Text, text)?,
        Door::GeoRead => put_geo(&mut out, alloc, Told::Features, text)?,
        Door::Read => put_opened(&mut out, alloc, text)?,
        Door::ReadBoth => {
            put_opened(&mut out, alloc, text)?;
            out.push_str(" => ")?;
            put_walks(&mut out, alloc, text)?;
        }
        _ => put_scanned(&mut out, alloc, text)?,
    }
    Ok(out)
}

/// The answers to a text that is damaged as the key says: `cuts`, or the places where a byte is replaced.
fn of_damaged(
    alloc: Global,
    reader: Reader,
    text: &mut [u8],
    key: &str,
    want: &str,
) -> Result<Found, AllocError> {
    if key == "cuts" {
        return Ok(Found {
            answer: reader.of_cuts(alloc, text)?,
            texts: text.len().saturating_add(1),
        });
    }
    let (first, last) = ends(key);
    let first = first.parse::<usize>().unwrap_or(usize::MAX);
    let last = last.parse::<usize>().unwrap_or(0);
    let last = last.min(text.len().saturating_sub(1));
    Ok(Found {
        answer: of_places(alloc, reader, text, (first, last), want)?,
        texts: count_from(first, last).saturating_mul(256),
    })
}

/// The answers to the texts that end with one of these bytes, and any other.
fn of_both(alloc: Global, front: &str, key: &str, want: &str) -> Result<Found, AllocError> {
    let mut text = decoded(alloc, front)?;
    text.extend_from_slice(b"..")?;
    let (first, last) = ends(key);
    let first = u8::from_str_radix(first, 16).unwrap_or(255);
    let last = u8::from_str_radix(last, 16).unwrap_or(0);
    Ok(Found {
        answer: of_pairs(alloc, text.as_mut_slice(), (first, last), want)?,
        texts: count_from(usize::from(first), usize::from(last)).saturating_mul(256),
    })
}

/// The place of a line among others: what answers, the family, and the text with a gap.
#[derive(Drop)]
struct Table<'t> {
    door: Door,
    family: &'t str,
    with_gap: &'t str,
    counts: Counts,
    all: Counts,
}

impl<'t> Table<'t> {
    /// What is answered to a line of this key.
    fn found(&self, alloc: Global, key: &str, want: &str) -> Result<Found, AllocError> {
        let reader = match self.door {
            Door::Damaged => Reader::Scanner,
            Door::DamagedMaps => Reader::Opening,
            Door::Pairs => return of_both(alloc, self.with_gap, key, want),
            _ => {
                let text = filled(alloc, self.with_gap, key)?;
                let answer = of_text(alloc, self.door, text.as_slice())?;
                return Ok(Found { answer, texts: 1 });
            }
        };
        let mut text = decoded(alloc, self.with_gap)?;
        of_damaged(alloc, reader, text.as_mut_slice(), key, want)
    }

    /// Takes a line with a key and an answer.
    fn take_row(&mut self, alloc: Global, line: &str, page: &mut String) -> Result<(), AllocError> {
        let (key, want) = line.split_once(" => ").unwrap_or((line, "nothing"));
        let found = self.found(alloc, key, want)?;
        let answer = found.answer.as_str();
        let is_other = answer != want;
        if is_other {
            write!(page, "    {key}: {want} is stored, {answer} is found\n")?;
        }
        self.counts.add(Counts {
            texts: found.texts,
            others: usize::from(is_other),
        });
        Ok(())
    }

    /// Tells of the family, if it has a text.
    fn end_family(&mut self, page: &mut String) -> Result<(), AllocError> {
        if self.counts.texts > 0 {
            write!(page, "  {}: {}\n", self.family, self.counts)?;
        }
        self.all.add(self.counts);
        self.counts = Counts::new();
        Ok(())
    }

    fn take_line(
        &mut self,
        alloc: Global,
        line: &'t str,
        page: &mut String,
    ) -> Result<(), AllocError> {
        if line.is_empty() || line.starts_with("#") {
            return Ok(());
        }
        if let Some(("", title)) = line.split_once("== ") {
            self.end_family(page)?;
            self.family = title;
            self.with_gap = "@";
            return Ok(());
        }
        if let Some(("", with_gap)) = line.split_once("in ") {
            self.with_gap = with_gap;
            return Ok(());
        }
        self.take_row(alloc, line, page)
    }
}

/// Appends what is reported of the families of a file, and gives the counts of its texts.
pub(crate) fn told(
    alloc: Global,
    door: Door,
    file: &str,
    page: &mut String,
) -> Result<Counts, AllocError> {
    let mut table = Table {
        door,
        family: "",
        with_gap: "@",
        counts: Counts::new(),
        all: Counts::new(),
    };
    for line in file.lines() {
        table.take_line(alloc, line, page)?;
    }
    table.end_family(page)?;
    Ok(table.all)
}
