// `put_argument`: which argument of a line is bad.

use crate::command_words::CommandWord;
use hart_machine::Machine;
use process_model::{LONGEST_COPY, LONGEST_MAPPING, Step, is_width};
use script_language::Command;
use sv39_entry::PAGE_SIZE;
use text_builder::Text;
use walk_lines::Hex;

/// Which argument of an mmap is bad.
fn put_mapping(text: &mut Text, length: u64, protection: u64, flags: u64, file: usize) {
    if length == 0 || length > LONGEST_MAPPING {
        write!(
            text,
            "the length is {length}, and must be 1 to {LONGEST_MAPPING} bytes"
        )
    } else if protection == 0 || protection > 7 {
        write!(
            text,
            "the protection is {protection}, and must be a sum of 1 (PROT_READ), 2 (PROT_WRITE) and 4 (PROT_EXEC)"
        )
    } else if flags != 1 && flags != 2 {
        write!(
            text,
            "the flags are {flags}, and must be 1 (MAP_SHARED) or 2 (MAP_PRIVATE)"
        )
    } else {
        write!(
            text,
            "there is no file {file}: a line such as `file 4096 rw 6162` before `boot` declares one, the first has number 0"
        )
    }
}

/// Which argument of a munmap is bad.
fn put_range(text: &mut Text, address: u64, length: u64) {
    let (at, end) = (Hex(address), Hex(address.saturating_add(length)));
    if address % PAGE_SIZE != 0 {
        write!(text, "the address {at} is no multiple of {PAGE_SIZE}")
    } else if length == 0 {
        text.push_str("the length is 0")
    } else {
        write!(
            text,
            "the bytes from {at} up to {end} do not all lie in one mapping"
        )
    }
}

/// That a kernel copy has too many bytes.
fn put_count(text: &mut Text, count: usize) {
    write!(
        text,
        "{count} bytes are to be copied, and a kernel copy has at most {LONGEST_COPY}"
    );
}

/// Which argument of a step is bad.
fn put_step(text: &mut Text, step: &Step<'_>) {
    match *step {
        Step::Load { width, .. } | Step::Store { width, .. } if !is_width(width) => write!(
            text,
            "the width is {width}, and must be 1, 2, 4 or 8 bytes"
        ),
        Step::TrampolineFetch { offset, .. } => write!(
            text,
            "the offset is {offset}, and must be a multiple of 4 below {PAGE_SIZE}"
        ),
        Step::CopyIn { count, .. } => put_count(text, count),
        Step::Mmap {
            length,
            protection,
            flags,
            file,
            ..
        } => put_mapping(text, length, protection, flags, file),
        Step::Munmap {
            address,
            length,
            ..
        } => put_range(text, address, length),
        _ => {}
    }
}

/// Tells which argument of a command is bad, of one that was refused for that.
pub fn put_argument(text: &mut Text, machine: &Machine, command: &Command) {
    let harts = machine.hart_count();
    match (CommandWord::of(command).hart, command) {
        (Some(hart), _) if hart >= harts => {
            let last = harts.saturating_sub(1);
            write!(text, "there is no hart {hart}: the harts are 0 to {last}")
        }
        (_, Command::One(step)) => put_step(text, step),
        (_, Command::CopyOut { bytes, .. }) => put_count(text, bytes.as_slice().len()),
        _ => {}
    }
}
