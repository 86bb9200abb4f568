// Enums for the lines of scripts and of files for threads (the input for processes on threads): the words (`Keyword`), the
// kinds and values of the fields, what a line declares or commands (`Item`, `Command`, `ThreadItem`), and what may be wrong
// with it (`Cause`).

use crate::declarations::{ListedCall, ListedStart, OwnedImage, Pool};
use process_model::{Bytes, Config, FileText, Policy, Segment, Step};
use sv39_entry::Scheme;

/// What is wrong with a line of a script or of a file for threads. The first cause that applies, in this order, is reported.
#[derive(Clone, Copy, PartialEq, Eq, Debug)]
pub enum Cause {
    /// The line has more than `LONGEST_LINE` bytes without its end, or the whole script more than `LONGEST_SCRIPT`.
    TooLong,
    /// A byte is above 127.
    NotAscii,
    /// The first field is no word of this kind of file.
    Word,
    /// A script: a declaration or a `boot` after `boot`, any other line before it, or no `boot`. A file for threads: a
    /// declaration or a `pool` after `pool`, any other line before it, or no `pool`; a call before the first `list`; a call
    /// or a `list` after a `start`.
    Order,
    /// The number of fields is wrong.
    Count,
    /// A field that must be a number, or a slot, is none, or is out of the range of its kind.
    Number,
    /// A field of another kind has a wrong form.
    Field,
    /// A value is outside its limits.
    Limits,
    /// There are too many files, images, lines after `boot` or `pool`, or calls in a list.
    TooMany,
}

/// The word of a line, its first field. Unless said otherwise the line is a declaration or the step or call of that name.
#[derive(Clone, Copy, PartialEq, Eq)]
pub enum Keyword {
    File,
    Image,
    /// Declares an image by the bytes of an ELF file.
    Elf,
    /// Declares what the machine boots with; the lines after it are commands.
    Boot,
    Start,
    Switch,
    Trap,
    /// One instruction of kernel entry or return (`Step::Next`).
    Next,
    /// Adds an entry to a hart's buffer, its TLB (`Step::Fill`).
    Fill,
    /// Removes an entry of a hart's buffer (`Step::Evict`).
    Evict,
    Fetch,
    Load,
    Store,
    /// The kernel fetches its code in the trampoline's page (`Step::TrampolineFetch`).
    Tramp,
    /// The kernel serves the access that waits after a fault (`Step::Serve`).
    Serve,
    Fork,
    Exec,
    Sbrk,
    Mmap,
    Munmap,
    CopyIn,
    CopyOut,
    Exit,
    /// Shows bytes of a file (`Command::Show`).
    Show,
    /// Shows the counts of frames (`Command::Audit`).
    Audit,
    /// Several steps: schedules a process and returns to user mode (`Command::On`).
    On,
    /// Several steps: the process traps, and the hart enters the kernel (`Command::Enter`).
    Enter,
    /// Several steps: three instructions of kernel entry or return (`Command::Leave`).
    Leave,
    /// Several steps: after a fault, kernel entry, the service of the fault and, if the process goes on, the return to user
    /// mode (`Command::Fix`).
    Fix,
    /// In a file for threads: declares the frames and slots that the threads share.
    Pool,
    /// In a file for threads: begins a list of calls.
    List,
}

/// The form in which a field after the word is written.
#[derive(Clone, Copy)]
pub enum FieldKind {
    /// An unsigned number, from 0 to 2^64 - 1.
    Number,
    /// A signed number, from -2^63 to 2^63 - 1.
    Signed,
    /// Bytes: two hexadecimal digits each, or `-` for no bytes.
    Hex,
    /// A slot by number, or `-` for none.
    Slot,
    /// Whether a file may be written: `rw` or `ro`.
    Mode,
    /// A TLB policy: `full` or `asid`.
    Policy,
    /// A scheme of translation: `sv39` or `sv48`.
    Scheme,
    /// A segment: `VADDR:MEMSZ:FLAGS:HEX`.
    Segment,
    /// A buffer entry by number: `@N`.
    Entry,
}

/// Which fields may follow those that a line must have.
#[derive(Clone, Copy)]
pub enum Tail {
    Nothing,
    /// At most one field of this kind.
    Perhaps(FieldKind),
    /// Any number of fields of this kind.
    More(FieldKind),
}

/// The value of a field, as its kind (`FieldKind`) is read.
#[derive(Drop)]
pub enum FieldValue {
    Number(u64),
    Signed(i64),
    Hex(Bytes),
    /// The slot or the buffer entry that a field names, `None` for no slot.
    Optional(Option<u64>),
    /// Whether a file may be written: `rw` is true, `ro` false.
    Writable(bool),
    Policy(Policy),
    Scheme(Scheme),
    Segment(Segment),
}

/// A line of a script after `boot`.
#[derive(Drop)]
pub enum Command {
    /// A step that borrows nothing.
    One(Step<'static>),
    /// Starts a process of the declared image of this number, from 0.
    Start {
        image: usize,
    },
    /// Replaces the process on the hart by one of the declared image of this number, from 0.
    Exec {
        hart: usize,
        image: usize,
    },
    /// The kernel copies these bytes to the process on the hart, from `address` on.
    CopyOut {
        hart: usize,
        address: u64,
        bytes: Bytes,
    },
    /// Schedules the slot's process on the hart and returns to user mode.
    On {
        hart: usize,
        slot: usize,
    },
    /// The process traps, and the hart enters the kernel.
    Enter {
        hart: usize,
    },
    /// The hart executes three instructions of kernel entry or return: from the kernel, the return to user mode.
    Leave {
        hart: usize,
    },
    /// The hart enters the kernel after a fault; the kernel serves the fault; if the reply is `Ready`, the hart returns to
    /// user mode.
    Fix {
        hart: usize,
    },
    /// Shows the file's length in bytes, and its bytes from `offset` on, at most `count` of them.
    Show {
        file: usize,
        offset: u64,
        count: usize,
    },
    /// Shows the counts of frames (`Report`).
    Audit,
}

/// What a line of a script declares (a file, an image, the configuration) or commands. Empty lines and comments are skipped.
#[derive(Drop)]
pub enum Item {
    File(FileText),
    Image(OwnedImage),
    Boot(Config),
    Command(Command),
}

/// What a line of a file for threads declares, each call included. Empty lines and comments are skipped.
#[derive(Drop)]
pub enum ThreadItem {
    File(FileText),
    Image(OwnedImage),
    Pool(Pool),
    /// Begins the list of this number.
    List(usize),
    /// A call of the list that was begun last.
    Call(ListedCall),
    Start(ListedStart),
}
