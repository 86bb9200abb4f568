// `Observation`, a struct, and `seen`, which makes it: the heap's size, regions and settled pages (those in memory) of a
// process, its file's bytes and the store's report, to compare before and after an operation.

ghost use Rattle.address_space.specs.Agreement.{body_of, IsAlive};
ghost use Rattle.frame_store.specs.Laws.{IsSeatOf, KeepsSeats};

use crate::accounts::Accounts;
use crate::images_and_file::OneFile;
use address_space::{Layout, Region, Space};
use frame_store::{FrameAccess, FrameSeat};
use process_model::Report;
use std::alloc::{AllocError, Global};
use sv39_entry::FrameNo;

/// A settled page: its number, its frame, and whether it has the copy-on-write mark, and D.
type Settled = (u64, FrameNo, bool, bool);

/// The heap's size, the regions, the settled pages with their bytes, the bytes of the file, and the store's report.
#[derive(Drop, PartialEq, Eq)]
pub(crate) struct Observation {
    size: u64,
    regions: Vec<Region>,
    pages: Vec<Settled>,
    bytes: Vec<u8>,
    file: Vec<u8>,
    accounts: Option<Report>,
}

/// Observes a process, its file and the store.
///
/// # Errors
/// `AllocError`: the host is out of memory.
pub(crate) fn seen<S: FrameSeat, F: FrameAccess<Seat = S> + Accounts>(
    alloc: Global,
    space: &mut Space<S>,
    store: &mut F,
    files: &OneFile,
) -> Result<Observation, AllocError>
    requires fits { IsSeatOf F.invariant store.old space.old.seat }
    requires alive { IsAlive (body_of S.view space.old) }
    ensures alive { IsAlive (body_of S.view space.new) }
    ensures keeps { KeepsSeats F.invariant store.old space.old.seat store.new space.new.seat }
{
    let accounts = store.accounts();
    let mut picture = without_pages(alloc, &space.layout, files, accounts)?;
    see_pages(space, store, &mut picture)?;
    Ok(picture)
}

fn without_pages(
    alloc: Global,
    layout: &Layout,
    files: &OneFile,
    accounts: Option<Report>,
) -> Result<Observation, AllocError> {
    let mut regions = Vec::from_slice(alloc, layout.mappings())?;
    for page in 0..8 {
        if let Some(region) = layout.region_at(page) {
            regions.push(region)?;
        }
    }
    Ok(Observation {
        size: layout.size(),
        regions,
        pages: Vec::new(alloc),
        bytes: Vec::new(alloc),
        file: Vec::from_slice(alloc, files.files.bytes(0).unwrap_or_default())?,
        accounts,
    })
}

/// Adds the settled pages with their bytes. They are fewer than 256, as the store has fewer frames.
fn see_pages<S: FrameSeat, F: FrameAccess<Seat = S>>(
    space: &mut Space<S>,
    store: &mut F,
    picture: &mut Observation,
) -> Result<(), AllocError>
    requires fits { IsSeatOf F.invariant store.old space.old.seat }
    requires alive { IsAlive (body_of S.view space.old) }
    ensures alive { IsAlive (body_of S.view space.new) }
    ensures keeps { KeepsSeats F.invariant store.old space.old.seat store.new space.new.seat }
{
    let mut bytes = [0; 4096];
    let mut from = 0;
    'pages: for _ in 0..256 {
        let end = space.layout.scheme().trapframe().page();
        let Some(found) = space.next_settled(store, from, end) else {
            return Ok(());
        };
        space.page_bytes(store, found.page, &mut bytes);
        let number = found.page.number();
        picture
            .pages
            .push((number, found.frame, found.cow, found.dirty))?;
        picture.bytes.extend_from_slice(&bytes)?;
        from = number + 1;
    }
    Ok(())
}
