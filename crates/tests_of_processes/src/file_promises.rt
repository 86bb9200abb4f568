// Tests that a cabinet makes each promise (a reservation of page I/O); that `copy_page` over files that refuse one promise
// copies a page or is refused, by rows of files, offset, outcome and a byte then; and that each `PromiseError` becomes its
// refusal.

use crate::cabinets::cabinet;
use crate::file_pages::{THREE_FILES, byte_at};
use crate::rows::expect;
use file_cabinet::{Files, PromiseError};
use process_model::Refusal;
use std::test::Fail;
use tests_of_files::{RefusingFiles, copy_page};

static PAGES: [usize; 4] = [0, 1, 65_536, usize::MAX];

#[test]
fn promises_any_pages(rt: HostRuntime) -> Result<(), Fail> {
    let mut files = cabinet(rt.alloc(), &THREE_FILES)?;
    for number in 0..PAGES.len() {
        expect(&rt, number, files.promise(PAGES[number]), Ok(()));
    }
    Ok(())
}

/// A copy of the page at an offset of one file to another file; its outcome, and byte 4,999 of file 0 then.
type PageCopy = (usize, usize, usize, Result<(), Refusal>, Option<u8>);

static COPIES: [PageCopy; 4] = [
    (2, 0, 4_096, Ok(()), Some(135)),
    (1, 0, 0, Err(Refusal::Memory), Some(135)),
    (1, 0, 4_096, Ok(()), Some(0)),
    (2, 0, 0, Ok(()), Some(0)),
];

#[test]
fn copies_over_any_files(rt: HostRuntime) -> Result<(), Fail> {
    let mut files = RefusingFiles {
        files: cabinet(rt.alloc(), &THREE_FILES)?,
        until_refusal: Some(1),
    };
    for number in 0..COPIES.len() {
        let (from, to, offset, outcome, byte) = COPIES[number];
        let copied = copy_page(&mut files, from, to, offset);
        let there = byte_at(&files.files, 0, 4_999);
        expect(&rt, number, (copied, there), (outcome, byte));
    }
    let kept = (files.length(0), files.writable(0));
    expect(&rt, 4, kept, (Some(5_000), true));
    expect(&rt, 5, copy_page(&mut files.files, 2, 0, 4_096), Ok(()));
    Ok(())
}

#[test]
fn refuses_for_the_same_reason(rt: HostRuntime) {
    let memory = Refusal::from(PromiseError::Memory);
    expect(&rt, 0, memory, Refusal::Memory);
    let full = Refusal::from(PromiseError::JournalFull);
    expect(&rt, 1, full, Refusal::JournalFull);
}
