// Files for threads, which `check` takes too: `begins_for_threads` tells one from a script, and `judge` tells its first fault, or
// warns if its processes may fork for ever.

use fork_cycles::{Warning, warn_of_forks};
use lab_host::{Fault, Place, Printout, is_among, read_line, without_feed};
use script_language::LONGEST_SCRIPT;
use script_reader::{ScriptError, ThreadScript, first_field, trim_return};
use std::alloc::Global;
use std::io::{BufReader, Read};

/// Returns the first field of a line; `None` if the line is skipped: empty, of blanks, or a comment.
fn word_of(line: &[u8]) -> Option<&[u8]> {
    let (word, _) = first_field(trim_return(line))?;
    if word.starts_with(b"#") {
        return None;
    }
    Some(word)
}

/// The words of lines that declare a file or an image.
static DECLARATIONS: [&[u8]; 3] = [b"file", b"image", b"elf"];

/// Whether the lines before a line with this word can be the same in a script and in a file for threads: it declares a file or an
/// image.
fn declares(word: &[u8]) -> bool {
    is_among(DECLARATIONS.as_slice(), word)
}

/// Reads the lines before the first that is neither skipped nor a declaration, and that line. They are added to `front`. Returns whether
/// that line is a `pool`, so that the file is one for threads.
///
/// # Errors
/// `Read`: the reader failed. `Memory`: the host is out of memory.
pub fn begins_for_threads<R: Read + Drop>(
    alloc: Global,
    reader: &mut BufReader<R>,
    front: &mut Vec<u8>,
) -> Result<bool, Fault> {
    let mut line = Vec::new(alloc);
    'lines: for _number in 0..u64::MAX {
        line.clear();
        if read_line(reader, &mut line)? == 0 {
            return Ok(false);
        }
        front.extend_from_slice(line.as_slice())?;
        if let Some(word) = word_of(without_feed(line.as_slice()))
            && !declares(word)
        {
            return Ok(word == b"pool".as_slice());
        }
    }
    Ok(false)
}

/// Reads what is left of a file for threads.
///
/// # Errors
/// `Read`: the reader failed. `Memory`: the host is out of memory.
pub fn read_rest<R: Read + Drop>(reader: BufReader<R>, front: &mut Vec<u8>) -> Result<(), Fault> {
    match reader.take(LONGEST_SCRIPT as u64 + 1).read_to_end(front) {
        Ok(_) => Ok(()),
        Err(error) => Err(Fault::of_reading(error)),
    }
}

/// Reads a file for threads, and warns if its processes may fork for ever: if a start reaches a list that forks itself, or forks a list
/// that forks it, and so on. Tells why the file is refused, if it is.
pub fn judge(out: &mut Printout, file: &str, bytes: &[u8]) {
    let alloc = out.allocator();
    let script = match ThreadScript::read(alloc, bytes) {
        Ok(script) => script,
        Err(ScriptError::Memory) => return out.fail(Fault::Memory),
        Err(ScriptError::Line(line, cause)) => {
            let place = Place { file, line };
            return out.tell(format_args!(
                "{place}: refused, {cause}: see \"Files for threads\" in docs/SCRIPTS.md\n"
            ));
        }
    };
    match warn_of_forks(alloc, &script, bytes) {
        Ok(Some(Warning { line, text })) => {
            let place = Place { file, line };
            writeln!(
                &mut out.err,
                "{place}: warning: {text}: processes may fork for ever"
            )
        }
        Ok(None) => {}
        Err(_) => out.fail(Fault::Memory),
    }
}
