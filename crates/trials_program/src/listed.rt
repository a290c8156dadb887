//! Which line of a script each refusal is listed with.
use edit_program::RefusedLines;
use std::alloc::Global;
use std::test::Fail;

/// What is listed of a script with these answers, where each comes in pieces of this length.
fn list_of(alloc: Global, script: &[u8], answers: &[u8], length: usize) -> Result<Vec<u8>, Fail> {
    let mut lines = RefusedLines::new(alloc);
    for piece in script.chunks(length.max(1)) {
        lines.take_script(piece)?;
    }
    lines.end_script()?;
    for piece in answers.chunks(length.max(1)) {
        lines.take_answers(piece)?;
    }
    Ok(lines.rows().to_vec(alloc)?)
}

/// A script, its answers, and what is listed of it.
type Row = (&'static [u8], &'static [u8], &'static [u8]);

const ROWS: &[Row] = &[
    (b"", b"", b""),
    (
        b"undo",
        b"refused nothing to undo\n",
        b"1\trefused nothing to undo\tundo\t\n",
    ),
    (
        b"\n\r\n#\nx\r\n",
        b"bad line\n",
        b"4\tbad line\tx\tunknown word\n",
    ),
    // A carriage return alone is a line at the end, and no empty one.
    (
        b"count\n\r",
        b"features 0 vertices 0 segments 0\nbad line\n",
        b"2\tbad line\t\r\tunknown word\n",
    ),
    (
        b"rings 0\nrings 7\nat 1 1\n",
        b"[[[[0,0],[1,0],[0,1]]]]\nrefused no feature\ninside: border:\n",
        b"2\trefused no feature\trings 7\t7\n",
    ),
    // The text of a map may have line feeds, and words in its strings.
    (
        b"document\n#\nundo\ndocument\nx y\n",
        b"{\"a\":\n{\"b\\\\\":\"}\\\"\",\n\"c\":[{}\n]}\n}\nrefused nothing to undo\n{}\nbad line\n",
        b"3\trefused nothing to undo\tundo\t\n5\tbad line\tx y\tunknown word\n",
    ),
    (
        b"\xff\n#\xff\n",
        b"bad line\nbad line\n",
        b"1\tbad line\t\xff\tnot UTF-8\n2\tbad line\t#\xff\tnot UTF-8\n",
    ),
    // A line may hold a tab; the last one of a row stands before the last column.
    (
        b"a\tb\n",
        b"bad line\n",
        b"1\tbad line\ta\tb\tunknown word\n",
    ),
];

#[test]
fn each_refusal_stands_with_its_line(rt: HostRuntime) -> Result<(), Fail> {
    for (script, answers, rows) in ROWS {
        for length in [1, 2, 7, 1000] {
            let list = list_of(rt.alloc(), script, answers, length)?;
            assert_eq!(rt; list.as_slice(), *rows, "{script:?} {length}");
        }
    }
    Ok(())
}

/// A comment of so many bytes, and what ends it.
fn comment(alloc: Global, length: usize, ending: &[u8]) -> Result<Vec<u8>, Fail> {
    let mut line = vec![in alloc; b'#'; length]?;
    line.extend_from_slice(ending)?;
    Ok(line)
}

/// A comment is skipped up to 8,192 bytes, its carriage return among them, and a longer one is bad. Beside
/// the short line 25 bytes are listed, and beside the long one 21.
#[test]
fn a_long_line_is_cut(rt: HostRuntime) -> Result<(), Fail> {
    let rows = [
        (8192, b"\n".as_slice(), b'2', 26),
        (8191, b"\r\n", b'2', 26),
        (8192, b"\r\n", b'1', 8213),
        (8193, b"\n", b'1', 8213),
        (9000, b"\n", b'1', 8213),
        (20000, b"", b'1', 8213),
    ];
    for (length, ending, number, listed) in rows {
        let mut script = comment(rt.alloc(), length, ending)?;
        script.extend_from_slice(b"x\n")?;
        for piece in [1, 4096, 100_000] {
            let list = list_of(rt.alloc(), script.as_slice(), b"bad line\n", piece)?;
            assert_eq!(rt; list.len(), listed, "{length}");
            assert_eq!(rt; list.first().copied(), Some(number), "{length}");
        }
    }
    Ok(())
}

/// An answer for which no line came is no answer of this script.
#[test]
fn an_answer_has_a_line(rt: HostRuntime) -> Result<(), Fail> {
    let mut lines = RefusedLines::new(rt.alloc());
    lines.take_script(b"count\n")?;
    lines.take_answers(b"features 0 vertices 0 segments 0\n")?;
    assert!(rt; lines.take_answers(b"bad line\n").is_err());
    Ok(())
}
