// `put_fewest`: of lines for a reference MMU, puts the fewest by which one stays not permitted.

use lab_host::{Fault, Printout, put_lossy, read_line, without_feed};
use mmu_lines::{Line, Shrunk, put_answer, shrink};
use script_reader::trim_return;
use std::alloc::Global;
use std::io::BufReader;
use text_builder::Text;

/// Returns the lines of a text.
fn lines_of(alloc: Global, text: &[u8]) -> Result<Vec<Line>, Fault> {
    let mut reader = BufReader::new(alloc, text)?;
    let (mut line, mut lines) = (Vec::new(alloc), Vec::new(alloc));
    'lines: for _number in 1..u64::MAX {
        line.clear();
        if read_line(&mut reader, &mut line)? == 0 {
            break;
        }
        let text = Vec::from_slice(alloc, trim_return(without_feed(line.as_slice())))?;
        lines.push(Line { text })?;
    }
    Ok(lines)
}

/// Appends a line with a line feed, what is no text as U+FFFD.
fn put_line(out: &mut Text, line: &Line) {
    put_lossy(out, line.text.as_slice());
    out.push_str("\n")
}

/// Appends the lines that are kept, the one that is not permitted, and its answer as a comment.
fn put_shrunk(out: &mut Text, lines: &[Line], shrunk: &Shrunk) {
    'lines: for (place, line) in lines.iter().enumerate() {
        match shrunk.keeps.get(place) {
            Some(false) => {}
            Some(true) => put_line(out, line),
            None => {
                put_line(out, line);
                break;
            }
        }
    }
    out.push_str("# ");
    put_answer(out, &shrunk.answer);
    if shrunk.is_cut {
        out.push_str("# the search was cut: fewer lines may do\n");
    }
}

/// Puts the lines that are left of a text, with the answer to the last as a comment; or tells that no line is not permitted.
///
/// # Errors
/// `Memory`: the host is out of memory.
pub fn put_fewest(out: &mut Printout, text: &[u8]) -> Result<(), Fault> {
    let alloc = out.allocator();
    let lines = lines_of(alloc, text)?;
    match shrink(alloc, lines.as_slice())? {
        Some(shrunk) => put_shrunk(&mut out.out, lines.as_slice(), &shrunk),
        None => out.tell("no line is NOT permitted\n"),
    }
    Ok(())
}
