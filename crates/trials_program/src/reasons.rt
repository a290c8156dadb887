//! What is reported of a line that is bad, and of a refusal that names no place.
use edit_program::RefusedLines;
use std::alloc::Global;
use std::test::Fail;

/// Bad lines, each with what is wrong with it first. `;` stands for a tab.
const REASONS: &str = "\
mend 1 1 => unknown word
Move 1 1 2 2 => unknown word
moves 1 1 2 2 => unknown word
move;1 1 2 2 => unknown word
undo; => unknown word
\" => unknown word
 undo => space at the start
  undo => space at the start
  => space at the start
move 1 1  2 2 => two spaces
move  1 1 2 2 => two spaces
rename 0  \"A\" => two spaces
rename  0 \"A\" => two spaces
split 0 \"A\"  1 1 2 2 => two spaces
undo  => space at the end
undo   => two spaces
move 1 1 2 2  => space at the end
move 1 1 2  => space at the end
move  => space at the end
rename 0 \"A\"  => space at the end
rename 0  => space at the end
split 0 \"A\" 1 1 2 2  => space at the end
area x => not a whole number
area 1.0 => not a whole number
area +1 => not a whole number
area 01 => not a whole number
area -0 => not a whole number
area - => not a whole number
area 1e3 => not a whole number
area 1;2 => not a whole number
thin 1.5 => not a whole number
move 1 1 2 2;3 => not a whole number
move 1 -01 2 2 => not a whole number
rename A \"A\" => not a whole number
split 0 \"A\" 1 1 2 y => not a whole number
merge 0 one => not a whole number
area -1 => number out of range
area 4294967296 => number out of range
area 99999999999999999999999999999999999999999999 => number out of range
thin -1 => number out of range
thin 8000000000000000000000001 => number out of range
thin 999999999999999999999999999999999999999999999999 => number out of range
at 1000000000001 0 => number out of range
at 0 -1000000000001 => number out of range
remove 9223372036854775808 0 => number out of range
insert 0 0 1 1 2 1000000000001 => number out of range
split 0 \"A\" 1 1 2 1000000000001 => number out of range
merge 0 -7 => number out of range
move => too few arguments
move 1 1 2 => too few arguments
insert 1 1 2 2 3 => too few arguments
remove 1 => too few arguments
thin => too few arguments
rename 0 => too few arguments
rename => too few arguments
split 0 \"A\" => too few arguments
split 0 \"A\" 1 1 => too few arguments
split 0 \"A\" 1 1 2 => too few arguments
merge 0 => too few arguments
neighbours => too few arguments
rings => too few arguments
at 1 => too few arguments
undo 1 => too many arguments
count all => too many arguments
document 0 => too many arguments
move 1 1 2 2 3 => too many arguments
insert 1 1 2 2 3 3 4 => too many arguments
remove 1 1 1 => too many arguments
thin 1 2 => too many arguments
delete 0 1 => too many arguments
area 0 1 => too many arguments
rings 0 1 => too many arguments
neighbours 0 x => too many arguments
merge 0 1 2 => too many arguments
at 1 1 1 => too many arguments
rename 0 \"A\" 1 => too many arguments
rename 0 A => not a JSON string
rename 0 \" => not a JSON string
rename 0 \"A => not a JSON string
rename 0 \"A\"B => not a JSON string
rename 0 \"A\" \"B\" => not a JSON string
rename 0 \"\\q\" => not a JSON string
rename 0 \"\\ud800\" => not a JSON string
rename 0 \"a;b\" => not a JSON string
split 0 A 1 1 2 2 => not a JSON string
split 0 1 1 2 2 => not a JSON string
split 0 \"A 1 1 2 2 => not a JSON string
split 0 \"\\q\" 1 1 2 2 => not a JSON string
split 0 \"\\q\" 1 1 2 x => not a whole number";

#[test]
fn each_bad_line_has_its_reason(rt: HostRuntime) -> Result<(), Fail> {
    for row in REASONS.lines() {
        let (line, want) = row.rsplit_once(" => ").unwrap_or((row, ""));
        let line = line.replace(rt.alloc(), ";", "\t")?;
        let why = why_of(rt.alloc(), line.as_str().as_bytes(), "bad line")?;
        assert_eq!(rt; why.as_slice(), want.as_bytes(), "{row}");
    }
    Ok(())
}

/// Refusals of lines, and what each is about: nothing where the line does not tell.
const SUBJECTS: &str = "\
move 1 2 3 4 : refused no vertex => 1 2
move 1 2 3 4 : refused occupied => 3 4
move 1 2 3 4 : refused sweeps => 
move 1 2 3 4 : refused conflict 1 2 3 4 / 5 6 7 8 => 
insert 1 2 3 4 5 6 : refused no segment => 1 2 3 4
insert 1 2 3 4 5 6 : refused occupied => 5 6
insert 1 2 3 4 5 6 : refused too large => 
remove -1 2 : refused no vertex => -1 2
remove -1 2 : refused junction => -1 2
remove -1 2 : refused ring short => -1 2
remove -1 2 : refused segment exists => 
split 7 \"A\" 1 2 3 4 5 6 : refused no feature => 7
split 7 \"A\" 1 2 3 4 5 6 : refused no collection => 7
split 7 \"A\" 1 2 3 4 5 6 : refused not on outer ring => 
split 7 \"A\" 1 2 3 4 5 6 3 4 1 2 : refused repeated point => 1 2
split 7 \"A\" 1 2 3 4 5 6 3 4 : refused repeated point => 3 4
split 7 \"A\" 1 2 3 4 5 6 : refused occupied => 
merge 3 4 : refused no feature => 
merge 3 3 : refused same feature => 3
merge 3 4 : refused common else 1 2 => 
rename 5 \"A\" : refused no feature => 5
delete 6 : refused no feature => 6
undo : refused nothing to undo => 
area 8 : refused no feature => 8
rings 9 : refused no feature => 9
neighbours 10 : refused no feature => 10";

/// The last column of the row of a line with this answer.
fn why_of(alloc: Global, line: &[u8], answer: &str) -> Result<Vec<u8>, Fail> {
    let mut lines = RefusedLines::new(alloc);
    lines.take_script(line)?;
    lines.take_script(b"\n")?;
    lines.take_answers(answer.as_bytes())?;
    lines.take_answers(b"\n")?;
    let row = lines.rows();
    let row = row.strip_suffix(b"\n").unwrap_or(row);
    let behind = row.iter().rev().take_while(|byte| **byte != b'\t').count();
    Ok(row[row.len() - behind..].to_vec(alloc)?)
}

#[test]
fn a_refusal_is_about_what_its_line_tells(rt: HostRuntime) -> Result<(), Fail> {
    for row in SUBJECTS.lines() {
        let (asked, want) = row.split_once(" => ").unwrap_or((row, ""));
        let (line, answer) = asked.split_once(" : ").unwrap_or((asked, ""));
        let why = why_of(rt.alloc(), line.as_bytes(), answer)?;
        assert_eq!(rt; why.as_slice(), want.as_bytes(), "{row}");
    }
    Ok(())
}

/// A path has at most 256 positions.
#[test]
fn a_path_is_not_longer(rt: HostRuntime) -> Result<(), Fail> {
    let mut line = String::from_str(rt.alloc(), "split 0 \"A\"")?;
    for i in 0..257u32 {
        line.push_str(format!(in rt.alloc(); " {i} 0")?.as_str())?;
    }
    let why = why_of(rt.alloc(), line.as_str().as_bytes(), "bad line")?;
    assert_eq!(rt; why.as_slice(), b"too many arguments".as_slice());
    Ok(())
}
