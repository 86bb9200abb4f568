//! The program `xv6vm`: `play FILE` plays a script on the virtual memory of xv6-riscv; `threads FILE --harts N` plays a file
//! for threads on harts that are threads. It reads FILE (`-`: standard input), writes to standard output, and reports a
//! fault on standard error and by its exit status. `--version` prints the version.
#![tactic(auto)]

use audit_player::{PlayError, Reader, Writer, play, play_threads};
use std::alloc::Global;
use std::io::{Read, Write};
use std::process::ExitCode;
use std::sync::Wait;
use std::thread::Threads;
use std::{fs, io};
use version::VERSION;
use xv6vm_words::{CommandLine, Fault, Task};

/// Does the task with the bytes of a reader, and writes the answers. Input is read in blocks; answers are written in pieces
/// of 64 KiB or more, the last of any length.
///
/// # Errors
/// Those of `play` and `play_threads`: the script is refused, host memory was refused, or the reader or the writer failed.
fn play_from<T: Threads + Wait + Sync, R: Read + Drop, W: Write + Drop>(
    threads: &T,
    alloc: Global,
    task: Task,
    reader: R,
    writer: W,
) -> Result<(), PlayError> {
    let mut reader = Reader::new(reader);
    let mut writer = Writer::new(writer);
    match task {
        Task::Play => play(alloc, &mut reader, &mut writer),
        // The command line admits only this range, but no contract says so.
        Task::Threads(harts) => {
            let harts = harts.clamp(1, 8);
            play_threads(threads, alloc, &mut reader, &mut writer, harts)
        }
    }
}

/// Does the task with a file, `-` for standard input, and writes to standard output. Harts are threads that `threads` starts.
///
/// # Errors
/// The file cannot be opened (`Io`), or an error of the player.
fn play_file<T: Threads + Wait + Sync>(
    rt: &HostRuntime,
    threads: &T,
    task: Task,
    file: &str,
) -> Result<(), PlayError> {
    let writer = io::writer(rt);
    if file == "-" {
        return play_from(threads, rt.alloc(), task, rt.reader(), writer);
    }
    match fs::open(rt, file) {
        Ok(file) => play_from(threads, rt.alloc(), task, file, writer),
        Err(_) => Err(PlayError::Io),
    }
}

/// Does what the command line says. Harts are threads that `threads` starts.
///
/// # Errors
/// `Usage`: the command line is wrong. `Play`: the file cannot be opened or the version not be printed (`Io`), or an error of the
/// player.
fn run<T: Threads + Wait + Sync>(rt: &HostRuntime, threads: &T) -> Result<(), Fault> {
    match CommandLine::from_env(rt)? {
        CommandLine::Version => match println!(rt; "xv6vm {VERSION}") {
            Ok(()) => Ok(()),
            Err(_) => Err(Fault::Play(PlayError::Io)),
        },
        CommandLine::File(task, file) => {
            play_file(rt, threads, task, file.as_str())?;
            Ok(())
        }
    }
}

fn main(rt: HostRuntime) -> ExitCode {
    match run(&rt, &rt) {
        Ok(()) => ExitCode::SUCCESS,
        Err(fault) => {
            let status = fault.status();
            // If standard error fails too, only the exit status reports the fault.
            let _ = eprintln!(rt; "xv6vm: {fault}");
            ExitCode::from(status)
        }
    }
}
