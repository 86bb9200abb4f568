// Tests that `CommandLine::parse` of `xv6vm_words` accepts the right command lines and refuses the others, and that each `Fault` has
// its message and exit status: 1 for an error of the player, 2 for a wrong command line.

use audit_player::PlayError;
use script_language::Cause;
use std::alloc::Global;
use std::io;
use std::test::Fail;
use xv6vm_words::{CommandLine, Fault, Task};

/// Parses a command line; the error is the exit status of the program, or 0 if the test has no memory.
fn asked_or_status(alloc: Global, words: &[&str]) -> Result<CommandLine, u8> {
    let mut owned = Vec::new(alloc);
    for word in words {
        let Ok(word) = String::from_str(alloc, word) else {
            return Err(0);
        };
        if owned.push(word).is_err() {
            return Err(0);
        }
    }
    match CommandLine::parse(alloc, owned.as_slice()) {
        Ok(words) => Ok(words),
        Err(fault) => Err(fault.status()),
    }
}

/// The words of a command line, the task and the file.
static ACCEPTED: [(&[&str], Task, &str); 6] = [
    (&["xv6vm", "play", "-"], Task::Play, "-"),
    (&["xv6vm", "play", "a.script"], Task::Play, "a.script"),
    (
        &["xv6vm", "threads", "-", "--harts", "1"],
        Task::Threads(1),
        "-",
    ),
    (
        &["xv6vm", "threads", "--harts", "8", "a"],
        Task::Threads(8),
        "a",
    ),
    (
        &["xv6vm", "threads", "--harts=2", "a"],
        Task::Threads(2),
        "a",
    ),
    (
        &["xv6vm", "threads", "--harts", "0008", "a"],
        Task::Threads(8),
        "a",
    ),
];

/// The words of command lines that ask for the version.
static VERSIONS: [&[&str]; 2] = [&["xv6vm", "--version"], &["xv6vm", "-V"]];

static REFUSED: [&[&str]; 21] = [
    &["xv6vm"],
    &["xv6vm", "play"],
    &["xv6vm", "play", "a", "b"],
    &["xv6vm", "play", "a", "--harts", "2"],
    &["xv6vm", "--help"],
    &["xv6vm", "replay", "a"],
    &["xv6vm", "threads", "a"],
    &["xv6vm", "threads", "--harts", "2"],
    &["xv6vm", "threads", "a", "--harts"],
    &["xv6vm", "threads", "a", "--harts", "0"],
    &["xv6vm", "threads", "a", "--harts", "9"],
    &["xv6vm", "threads", "a", "--harts", "0x2"],
    &["xv6vm", "threads", "a", "--harts", "+2"],
    &["xv6vm", "threads", "a", "--harts=-2"],
    &["xv6vm", "threads", "a", "--harts", " 2"],
    &["xv6vm", "threads", "a", "--harts", "2 "],
    &["xv6vm", "threads", "a", "--harts", "２"],
    &["xv6vm", "threads", "a", "--harts", ""],
    &["xv6vm", "threads", "a", "--harts", "010"],
    &["xv6vm", "play", "--version"],
    &["xv6vm", "version"],
];

#[test]
fn reads_the_words(rt: HostRuntime) -> Result<(), Fail> {
    for (words, task, file) in &ACCEPTED {
        let Ok(CommandLine::File(said, path)) = asked_or_status(rt.alloc(), words) else {
            return Err(Fail::from("words"));
        };
        assert_eq!(rt; (said, path.as_str()), (*task, *file));
    }
    for words in &VERSIONS {
        assert!(rt; matches!(asked_or_status(rt.alloc(), words), Ok(CommandLine::Version)));
    }
    for row in 0..REFUSED.len() {
        let status = asked_or_status(rt.alloc(), REFUSED[row]).err();
        assert_eq!(rt; (row, status), (row, Some(2)));
    }
    Ok(())
}

#[test]
fn prints_what_ended_it(rt: HostRuntime) -> Result<(), Fail> {
    let rows = [
        (Fault::Play(PlayError::Memory), "refused 21 Memory", 1),
        (
            Fault::Play(PlayError::Script(1, Cause::Field)),
            "refused 23 Script line 1 Field",
            1,
        ),
        (Fault::Play(PlayError::Io), "refused 24 Io", 1),
        (
            Fault::Usage,
            "usage: xv6vm play FILE | xv6vm threads FILE --harts N",
            2,
        ),
    ];
    for (fault, text, status) in rows {
        let said = format!(in rt.alloc(); "{fault}")?;
        assert_eq!(rt; said.as_str(), text);
        assert_eq!(rt; fault.status(), status);
    }
    // A word that is not valid text, and memory refused for a word.
    let no_text = Fault::from(io::Error::from(io::ErrorKind::InvalidData));
    assert_eq!(rt; no_text.status(), 2);
    let no_memory = Fault::from(io::Error::from(io::ErrorKind::OutOfMemory));
    assert_eq!(rt; no_memory.status(), 1);
    Ok(())
}
