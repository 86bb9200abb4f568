//! The program `row_player`: plays all rows (test cases: a script or a file for threads, beside its expected output) in the
//! folder where it runs, scripts first, each kind in the order of their names, and prints for each whether its output is the
//! expected one.
//!
//! A row is a script, `NAME.script`, or a file for threads, `NAME.threads`. The expected output is beside it: all that is
//! written, in `NAME.expect`, or, for a refused row, that and the line on standard error, in `NAME.refused`. A script whose
//! `boot` names no scheme is played again with `sv39` and, if its name begins with `asid-`, with `sv48`: such rows show no
//! counts of frames, so their output does not depend on the scheme. A file for threads is played on one hart, on two and on
//! eight.
#![tactic(auto)]

ghost use Rattle.std.specs.Prelude.{◌≤◌};

use audit_player::{PlayError, Reader, Writer, play, play_threads};
use std::process::ExitCode;
use std::sync::Wait;
use std::thread::Threads;
use std::{fs, io};

/// Returns the names of the rows whose file ends in `ending`, without it, sorted.
fn names(rt: &HostRuntime, ending: &str) -> io::Result<Vec<String>> {
    let mut names = Vec::new(rt.alloc());
    for entry in fs::read_dir(rt, ".")? {
        let entry = entry?;
        if let Some(name) = entry.file_name().strip_suffix(ending) {
            names.push(name.to_string(rt.alloc())?)?;
        }
    }
    names.sort()?;
    Ok(names)
}

/// Returns the extension of the file that has the expected output, and the output: the text, with the line on
/// standard error if playing failed.
fn ending(
    rt: &HostRuntime,
    played: Result<(), PlayError>,
    mut text: Vec<u8>,
) -> io::Result<(&'static str, Vec<u8>)> {
    match played {
        Ok(()) => Ok(("expect", text)),
        Err(error) => {
            let line = format!(in rt.alloc(); "xv6vm: {error}\n")?;
            text.extend_from_slice(line.as_bytes())?;
            Ok(("refused", text))
        }
    }
}

/// Plays a script; returns the extension of the file that has the expected output, and the output.
fn play_script<R: io::Read + Drop>(
    rt: &HostRuntime,
    script: R,
) -> io::Result<(&'static str, Vec<u8>)> {
    let mut text = Vec::new(rt.alloc());
    let mut reader = Reader::new(script);
    let mut writer = Writer::new(&mut text);
    let played = play(rt.alloc(), &mut reader, &mut writer);
    ending(rt, played, text)
}

/// Whether a line is a `boot` with four fields, which name no scheme.
fn names_no_scheme(line: &[u8]) -> bool {
    let (mut words, mut before) = (0u64, b' ');
    for byte in line {
        if before == b' ' && *byte != b' ' {
            words = words.saturating_add(1);
        }
        before = *byte;
    }
    line.starts_with(b"boot ") && words == 5
}

/// Returns the script with a scheme as the last field of its first `boot` that names none. `None`: it has no such line.
fn with_scheme(rt: &HostRuntime, script: &[u8], scheme: &str) -> io::Result<Option<Vec<u8>>> {
    let mut text = Vec::new(rt.alloc());
    let mut named = false;
    for line in script.split(|byte| *byte == b'\n') {
        text.extend_from_slice(line)?;
        if !named && names_no_scheme(line) {
            text.push(b' ')?;
            text.extend_from_slice(scheme.as_bytes())?;
            named = true;
        }
        text.push(b'\n')?;
    }
    // The last line got a line feed more than it had.
    text.pop();
    Ok(if named { Some(text) } else { None })
}

/// Plays the file for threads of this name on `harts` harts, each a thread that `threads` starts; returns the extension of
/// the file that has the expected output, and the output.
fn play_lists<T: Threads + Wait + Sync>(
    rt: &HostRuntime,
    threads: &T,
    name: &str,
    harts: usize,
) -> io::Result<(&'static str, Vec<u8>)>
    requires some { 1 ≤ harts }
    requires few { harts ≤ 8 }
{
    let file = format!(in rt.alloc(); "{name}.threads")?;
    let mut text = Vec::new(rt.alloc());
    let mut reader = Reader::new(fs::open(rt, file.as_str())?);
    let mut writer = Writer::new(&mut text);
    let played = play_threads(threads, rt.alloc(), &mut reader, &mut writer, harts);
    ending(rt, played, text)
}

/// Returns the number of the first line in which two texts differ, counted from 1.
fn first_difference(got: &[u8], wanted: &[u8]) -> usize {
    let mut line: usize = 1;
    for (got, wanted) in got.iter().zip(wanted) {
        if *got != *wanted {
            return line;
        }
        if *got == b'\n' {
            line = line.saturating_add(1);
        }
    }
    line
}

/// Compares the output of the row of this name with the expected one. `None`: they are equal; else the
/// text says where they differ, or that no expected output is there.
fn difference(
    rt: &HostRuntime,
    name: &str,
    came: (&'static str, Vec<u8>),
) -> io::Result<Option<String>> {
    let (ending, got) = came;
    let file = format!(in rt.alloc(); "{name}.{ending}")?;
    let Ok(wanted) = fs::read(rt, file.as_str()) else {
        return Ok(Some(format!(in rt.alloc(); "there is no file {file}")?));
    };
    if got.as_slice() == wanted.as_slice() {
        return Ok(None);
    }
    let line = first_difference(got.as_slice(), wanted.as_slice());
    Ok(Some(format!(in rt.alloc(); "from line {line} of {file} on")?))
}

/// Prints whether the row of this name had its expected output, and what was wrong if not.
fn tell(rt: &HostRuntime, name: &str, wrong: Option<String>) -> io::Result<()> {
    match wrong {
        None => println!(rt; "{name}: ok"),
        Some(wrong) => println!(rt; "{name}: DIFFERS: {wrong}"),
    }
}

/// Plays a script with this scheme in its `boot`, and compares the output with the expected one. `None`: they are equal, or
/// the `boot` of the script names a scheme already.
fn difference_with(
    rt: &HostRuntime,
    name: &str,
    script: &[u8],
    scheme: &str,
) -> io::Result<Option<String>> {
    let Some(text) = with_scheme(rt, script, scheme)? else {
        return Ok(None);
    };
    let came = play_script(rt, text.as_slice())?;
    match difference(rt, name, came)? {
        None => Ok(None),
        Some(wrong) => Ok(Some(format!(in rt.alloc(); "with {scheme}: {wrong}")?)),
    }
}

/// Plays the script of this name, as it is and with each scheme that may be added, and prints whether
/// all had the expected output.
fn judge_script(rt: &HostRuntime, name: &str) -> io::Result<()> {
    let file = format!(in rt.alloc(); "{name}.script")?;
    let came = play_script(rt, fs::open(rt, file.as_str())?)?;
    let mut wrong = difference(rt, name, came)?;
    let script = fs::read(rt, file.as_str())?;
    let schemes: &[&str] = if name.starts_with("asid-") {
        &["sv39", "sv48"]
    } else {
        &["sv39"]
    };
    for scheme in schemes {
        if wrong.is_none() {
            wrong = difference_with(rt, name, script.as_slice(), scheme)?;
        }
    }
    tell(rt, name, wrong)
}

fn run<T: Threads + Wait + Sync>(rt: &HostRuntime, threads: &T) -> io::Result<()> {
    for name in &names(rt, ".script")? {
        judge_script(rt, name.as_str())?;
    }
    for name in &names(rt, ".threads")? {
        for harts in [1, 2, 8] {
            let came = play_lists(rt, threads, name.as_str(), harts)?;
            let wrong = difference(rt, name.as_str(), came)?;
            tell(rt, name.as_str(), wrong)?;
        }
    }
    Ok(())
}

fn main(rt: HostRuntime) -> ExitCode {
    match run(&rt, &rt) {
        Ok(()) => ExitCode::SUCCESS,
        Err(error) => {
            let _ = eprintln!(rt; "row_player: {error}");
            ExitCode::FAILURE
        }
    }
}
