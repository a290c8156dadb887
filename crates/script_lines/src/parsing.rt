ghost use Rattle.std.specs.Prelude.{◌≡◌, ◌∷◌, [], IfOk, MatchResult, Option};
ghost use Rattle.std.specs.Prelude.{Some, None};
ghost use Rattle.edit_records.specs.Common.{string_text};
ghost use Rattle.ring_machine.specs.Command.{Split as Cut, Rename as Name, Thin as Thinning};
ghost use Rattle.script_lines.specs.Lines.{AreSpaced, AreFeatures, AskedWith, Asks, Says};
ghost use Rattle.script_lines.specs.Lines.{is_comment};
ghost use Rattle.script_lines.specs.Commands.{Finds, FindsCommand, says_of, IsRefused};

use crate::ids::id_of;
use crate::lines::{Line, LineFault};
use crate::paths::read_path;
use crate::words::{
    behind, spaced_feature, spaced_position, spaced_token, split_word, wide_number,
};
use edit_records::{Command, IdText, Path};
use grid_geometry::Pos;
use std::alloc::{AllocError, Global};
use std::str;

/// The most that the bound of a thinning may be: twice the area of the whole grid, which no
/// triangle is over.
const MAX_BOUND: u128 = 8_000_000_000_000_000_000_000_000;

/// The most bytes of a line.
const MAX_LINE: usize = 8192;

/// The position after a word.
fn position_behind(tail: &[u8]) -> Option<Pos>
    ensures { Finds result (λ p. AreSpaced tail.now (p ∷ [])) }
{
    let Some(position) = spaced_position(tail) else {
        return None;
    };
    if position.1.is_empty() {
        Some(position.0)
    } else {
        None
    }
}

/// The two positions after a word.
fn pair_behind(tail: &[u8]) -> Option<(Pos, Pos)>
    ensures { Finds result (λ pair. AreSpaced tail.now (pair.0 ∷ pair.1 ∷ [])) }
{
    let Some(first) = spaced_position(tail) else {
        return None;
    };
    Some((first.0, position_behind(first.1)?))
}

/// The three positions after a word.
fn triple_behind(tail: &[u8]) -> Option<(Pos, Pos, Pos)>
    ensures { Finds result (λ all. AreSpaced tail.now (all.0 ∷ all.1 ∷ all.2 ∷ [])) }
{
    let Some(first) = spaced_position(tail) else {
        return None;
    };
    let (second, third) = pair_behind(first.1)?;
    Some((first.0, second, third))
}

/// The bound of a thinning after a word.
fn bound_behind(tail: &[u8]) -> Option<i128>
    ensures { Finds result (λ t. AskedWith tail.now (Thinning t)) }
{
    let word = behind(b" ", tail)?;
    let bound = wide_number(word)?;
    if bound <= MAX_BOUND {
        Some(bound as i128)
    } else {
        None
    }
}

/// The number of a feature after a word.
fn feature_behind(tail: &[u8]) -> Option<u32>
    ensures { Finds result (λ n. AreFeatures tail.now (n ∷ [])) }
{
    let (feature, end) = spaced_feature(tail)?;
    if end.is_empty() { Some(feature) } else { None }
}

/// The numbers of two features after a word.
fn features_behind(tail: &[u8]) -> Option<(u32, u32)>
    ensures { Finds result (λ both. AreFeatures tail.now (both.0 ∷ both.1 ∷ [])) }
{
    let (first, rest) = spaced_feature(tail)?;
    Some((first, feature_behind(rest)?))
}

/// The number of a feature and its new id after a word.
#[tactic(auto, using(crate::proofs::CommandLemmas::renamed))]
fn naming_behind(heap: Global, tail: &[u8]) -> Result<Option<(u32, IdText)>, AllocError>
    ensures { IfOk result (λ found. Finds found
        (λ parts. AskedWith tail.now (Name parts.0 (string_text parts.1)))) }
{
    let Some((feature, words)) = spaced_feature(tail) else {
        return Ok(None);
    };
    let Some((token, end)) = spaced_token(words) else {
        return Ok(None);
    };
    if !end.is_empty() {
        return Ok(None);
    }
    match id_of(heap, token)? {
        Some(id) => Ok(Some((feature, id))),
        None => Ok(None),
    }
}

/// The number of a feature, the id of the new one and the path after a word.
#[tactic(auto, using(crate::proofs::CommandLemmas::cut))]
fn cut_behind(heap: Global, tail: &[u8]) -> Result<Option<(u32, IdText, Path)>, AllocError>
    ensures { IfOk result (λ found. Finds found
        (λ parts. AskedWith tail.now (Cut parts.0 (string_text parts.1) parts.2))) }
{
    let Some((feature, words)) = spaced_feature(tail) else {
        return Ok(None);
    };
    let Some((token, positions)) = spaced_token(words) else {
        return Ok(None);
    };
    let Some(id) = id_of(heap, token)? else {
        return Ok(None);
    };
    match read_path(heap, positions)? {
        Some(path) => Ok(Some((feature, id, path))),
        None => Ok(None),
    }
}

/// What a line asks for by its word.
fn by_word(heap: Global, line: &[u8]) -> Result<Option<Line>, AllocError>
    ensures { IfOk result (λ found. FindsCommand found (Asks line.now)) }
{
    let (word, tail) = split_word(line);
    if word == b"move".as_slice() {
        Ok(pair_behind(tail).map(|(p, q)| Line::Edit(Command::Move(p, q))))
    } else if word == b"insert".as_slice() {
        Ok(triple_behind(tail).map(|(a, b, q)| Line::Edit(Command::Insert(a, b, q))))
    } else if word == b"remove".as_slice() {
        Ok(position_behind(tail).map(|p| Line::Edit(Command::Remove(p))))
    } else if word == b"thin".as_slice() {
        Ok(bound_behind(tail).map(|t| Line::Edit(Command::Thin(t))))
    } else if word == b"split".as_slice() {
        Ok(cut_behind(heap, tail)?.map(|(f, id, path)| Line::Edit(Command::Split(f, id, path))))
    } else if word == b"merge".as_slice() {
        Ok(features_behind(tail).map(|(f, g)| Line::Edit(Command::Merge(f, g))))
    } else if word == b"rename".as_slice() {
        Ok(naming_behind(heap, tail)?.map(|(f, id)| Line::Edit(Command::Rename(f, id))))
    } else if word == b"delete".as_slice() {
        Ok(feature_behind(tail).map(|f| Line::Edit(Command::Delete(f))))
    } else if line == b"undo".as_slice() {
        Ok(Some(Line::Undo))
    } else if word == b"area".as_slice() {
        Ok(feature_behind(tail).map(|f| Line::Edit(Command::Area(f))))
    } else if word == b"at".as_slice() {
        Ok(position_behind(tail).map(|p| Line::Edit(Command::At(p))))
    } else if word == b"neighbours".as_slice() {
        Ok(feature_behind(tail).map(|f| Line::Edit(Command::Neighbours(f))))
    } else if word == b"rings".as_slice() {
        Ok(feature_behind(tail).map(Line::Rings))
    } else if line == b"count".as_slice() {
        Ok(Some(Line::Count))
    } else if line == b"document".as_slice() {
        Ok(Some(Line::Document))
    } else {
        Ok(None)
    }
}

/// Whether the line is empty or a comment.
fn is_comment(line: &[u8]) -> bool
    ensures { result ≡ is_comment line.now }
{
    match line {
        [] => true,
        [first, ..] => *first == b'#',
    }
}

/// What a line of a script says, without its line feed and without the carriage return that is dropped
/// before it. A line is a command's word and what it is asked with, with exactly one space between two
/// of them, and none before or after; a number is `0`, or digits of which the first is not `0`, perhaps
/// after a minus, and an id is a JSON string (RFC 8259, section 7). `heap` holds an id and a path.
/// `BadLine` comes where the line says nothing, as any line of more than 8,192 bytes, `OutOfMemory`
/// where `heap` has no room for what it says.
#[tactic(auto, using(crate::proofs::CommandLemmas::no_memory))]
pub fn parse_line(heap: Global, line: &[u8]) -> Result<Line, LineFault>
    ensures { MatchResult result
        (λ said. Says line.now (says_of said))
        (λ fault. IsRefused fault line.now) }
{
    if line.len() > MAX_LINE {
        return Err(LineFault::BadLine);
    }
    if is_comment(line) {
        return match str::from_utf8(line) {
            Ok(_) => Ok(Line::Skip),
            Err(_) => Err(LineFault::BadLine),
        };
    }
    match by_word(heap, line)? {
        Some(said) => Ok(said),
        None => Err(LineFault::BadLine),
    }
}
