// `make_resident`: makes a page resident for an access. An unsettled page (not in memory) gets its first frame, with zeros or
// bytes of its file; a settled page is taken over for a store (copy-on-write). Enum `ResidenceError`: too few frames, or the
// files refused the promise (reservation) of a page read.

ghost use Rattle.std.specs.Prelude.{◌≡◌, ◌+◌, ◌-◌, ◌*◌, ◌^◌, ◌<◌, ◌≤◌, ℕ, false, if◌then◌else◌, IfErr, IfOk, is_ok, IsOk, length, List, None, Some};
ghost use Rattle.address_space.specs.Agreement.{body_of, IsSpace};
ghost use Rattle.address_space.specs.Kept.{KeepsPlace};
ghost use Rattle.address_space.specs.Layouts.{region_of};
ghost use Rattle.fault_rules.specs.MadeResident.{CanMakeResident, HasMadeResident, LacksFrames, WhenMadeResident};
ghost use Rattle.fault_rules.specs.PageService.{moment, served_as, ServesPage, store_model};
ghost use Rattle.frame_store.specs.Laws.{IsSeatOf, KeepsSeats};
ghost use Rattle.process_model.specs.Bytes.{padded};
ghost use Rattle.process_model.specs.Files.{File};
ghost use Rattle.process_model.specs.PageMap.{get};
ghost use Rattle.process_model.specs.Process.{Process, regions};
ghost use Rattle.process_model.specs.Regions as model;
ghost use Rattle.process_model.specs.Regions.{lacks_right, region_at};
ghost use Rattle.process_model.specs.Residence.{leaves_mark, source_page};
ghost use Rattle.table_walk.specs.Tables.{Tables};

use crate::settle::settle_as;
use crate::take_over::take_over;
use address_space::{Region, RegionKind, Source, Space};
use file_cabinet::{Files, PromiseError};
use frame_store::{FrameSeat, FrameSupply, NoFrame};
use sv39_entry::{Access, PAGE_SIZE, Vpn};

/// Why a page is not made resident.
#[derive(Clone, Copy, PartialEq, Eq, Debug)]
pub enum ResidenceError {
    /// Too few frames could be reserved for the page, and for the page tables that it misses. No frame was claimed.
    NoFrame,
    /// `files` refused to promise a read of the file's page with which this page begins: `Memory` (the host is out of
    /// memory) or `JournalFull` (the history of page I/O has no room).
    Unpromised(PromiseError),
}

impl From<NoFrame> for ResidenceError {
    ghost use Rattle.std.specs.Prelude.{◌≡◌};
    ghost use Rattle.fault_rules.specs.declared.residence.ResidenceError.TheVariants as residence_error;

    ghost from_gives = { λ none error. error ≡ residence_error.NoFrame };

    fn from(_: NoFrame) -> ResidenceError {
        ResidenceError::NoFrame
    }
}

impl From<PromiseError> for ResidenceError {
    ghost use Rattle.std.specs.Prelude.{◌≡◌};
    ghost use Rattle.fault_rules.specs.declared.residence.ResidenceError.TheVariants as residence_error;

    ghost from_gives = { λ refused error. error ≡ residence_error.Unpromised refused };

    fn from(error: PromiseError) -> ResidenceError {
        ResidenceError::Unpromised(error)
    }
}

/// Makes `page` resident for `access`, all at once, so that one fault is enough. The page must be in a region that grants the
/// access. An unsettled page is settled with its initial bytes: zeros, or what its file has there. For a store, a settled page
/// with the copy-on-write mark is taken over: it loses the mark, and gets a frame of its own if its frame's reference count is
/// read as other than 1. For a store to a writable shared mapping, the page gets the dirty mark. A page of a file is promised
/// before any frame is taken. Makes no fence: the caller must.
///
/// # Errors
/// `NoFrame`: the space is the process that it was, and no frame was claimed; the bytes of an unsettled page of a file have
/// been read. If nobody else changes the store (`alone`): only if fewer frames are free than the page needs, and success
/// only if not. Over shared frames: only after the free count was read as 0 with fewer than these reserved. `Unpromised`:
/// `files` refused to promise one page read, and the page is an unsettled one of a file. The layout, the seat's view, the
/// store and the files are then unchanged.
pub fn make_resident<S: FrameSeat, F: FrameSupply<Seat = S>, C: Files>(
    space: &mut Space<S>,
    store: &mut F,
    files: &mut C,
    page: Vpn,
    access: Access,
) -> Result<(), ResidenceError>
    requires fits { IsSeatOf F.invariant store.old space.old.seat }
    requires ready { (t : Tables) × (p : Process) × CanMakeResident (body_of S.view space.old) t p access page }
    ensures served { ServesPage (store_model S.view F.invariant F.alone F.free F.count C.files C.becomes C.can_refuse) (moment space.old store.old files.old)
        (moment space.new store.new files.new) access page (λ _. None) (served_as result) }
{
    let Some(settled) = space.settled_page(store, page) else {
        return settle_initial(space, store, files, page, access);
    };
    if access == Access::Store {
        take_over(space, store, &settled)?;
    }
    Ok(())
}

/// `make_resident` for an unsettled page: gives it its first frame, with the initial bytes that its region has for it, and
/// with the dirty mark if the access is a store and stores are written back to a file.
fn settle_initial<S: FrameSeat, F: FrameSupply<Seat = S>, C: Files>(
    space: &mut Space<S>,
    store: &mut F,
    files: &mut C,
    page: Vpn,
    access: Access,
) -> Result<(), ResidenceError>
    requires fits { IsSeatOf F.invariant store.old space.old.seat }
    requires ready { (t : Tables) × (p : Process) × CanMakeResident (body_of S.view space.old) t p access page }
    requires unsettled { (t : Tables) (p : Process) → IsSpace (body_of S.view space.old) t p → get p.settled page ≡ None }
    ensures served { ServesPage (store_model S.view F.invariant F.alone F.free F.count C.files C.becomes C.can_refuse) (moment space.old store.old files.old)
        (moment space.new store.new files.new) access page (λ _. None) (served_as result) }
{
    let Some(region) = space.layout.region_at(page.number()) else {
        unreachable!()
    };
    let Source::File { file, offset } = region.source else {
        settle_bytes(space, store, page, access, &region, &[])?;
        return Ok(());
    };
    let at = place_in_file(&region, offset, page.number());
    settle_from_file(
        space,
        store,
        files,
        page,
        access,
        &region,
        file as usize,
        at,
    )
}

/// `settle_initial` for a page of a file, which begins at byte `at` of it: by the file's bytes where they lie, or by an array
/// into which they are read.
fn settle_from_file<S: FrameSeat, F: FrameSupply<Seat = S>, C: Files>(
    space: &mut Space<S>,
    store: &mut F,
    files: &mut C,
    page: Vpn,
    access: Access,
    region: &Region,
    file: usize,
    at: usize,
) -> Result<(), ResidenceError>
    requires fits { IsSeatOf F.invariant store.old space.old.seat }
    requires ready { (t : Tables) × (p : Process) × CanMakeResident (body_of S.view space.old) t p access page }
    requires unsettled { (t : Tables) (p : Process) → IsSpace (body_of S.view space.old) t p → get p.settled page ≡ None }
    requires region { (t : Tables) (p : Process) → IsSpace (body_of S.view space.old) t p → region_at (regions p) page ≡ Some (region_of region.now) }
    requires source { (offset : ℕ) × ((region_of region.now).source ≡ model.file file offset) × (at ≡ offset + 4096 * (page - region.now.first)) }
    ensures served { ServesPage (store_model S.view F.invariant F.alone F.free F.count C.files C.becomes C.can_refuse) (moment space.old store.old files.old)
        (moment space.new store.new files.new) access page (λ _. None) (served_as result) }
{
    files.promise(1)?;
    if let Some(bytes) = files.lent_page(file, at) {
        settle_bytes(space, store, page, access, region, bytes)?;
        return Ok(());
    }
    let mut bytes = [0; 4096];
    files.read_page(file, at, &mut bytes);
    settle_bytes(space, store, page, access, region, &bytes)?;
    Ok(())
}

/// Settles an unsettled page of a region with the bytes, at most 4,096, with which it begins, and zeros after them; with the
/// dirty mark if the access is a store and stores are written back to a file.
///
/// # Errors
/// `NoFrame`: as for `make_resident`.
fn settle_bytes<S: FrameSeat, F: FrameSupply<Seat = S>>(
    space: &mut Space<S>,
    store: &mut F,
    page: Vpn,
    access: Access,
    region: &Region,
    bytes: &[u8],
) -> Result<(), NoFrame>
    requires fits { IsSeatOf F.invariant store.old space.old.seat }
    requires ready { (t : Tables) × (p : Process) × CanMakeResident (body_of S.view space.old) t p access page }
    requires unsettled { (t : Tables) (p : Process) → IsSpace (body_of S.view space.old) t p → get p.settled page ≡ None }
    requires region { (t : Tables) (p : Process) → IsSpace (body_of S.view space.old) t p → region_at (regions p) page ≡ Some (region_of region.now) }
    requires inside { length bytes.now ≤ 4096 }
    ensures resident { IfOk result (λ _. (files : List File)
        → padded 4096 bytes.now ≡ source_page files (region_of region.now).source (4096 * (page - region.now.first))
        → HasMadeResident (body_of S.view space.old) (body_of S.view space.new) files access page (λ f c. F.alone → c ≡ F.count store.old f)) }
    ensures dry { IfErr result (λ _. LacksFrames (body_of S.view space.old) (body_of S.view space.new) access page) }
    ensures whole { IfErr result (λ _. (t : Tables) (p : Process) → IsSpace (body_of S.view space.old) t p → IsSpace (body_of S.view space.new) t p) }
    ensures enough { F.alone → WhenMadeResident (body_of S.view space.old) access page (F.count store.old) (λ need. IsOk result → need ≤ F.free store.old) }
    ensures short { F.alone → WhenMadeResident (body_of S.view space.old) access page (F.count store.old) (λ need.
        IfErr result (λ _. F.free store.old < need)) }
    ensures free { F.alone → WhenMadeResident (body_of S.view space.old) access page (F.count store.old) (λ need.
        F.free store.new ≡ F.free store.old - (if is_ok result then need else 0)) }
    ensures place { KeepsPlace space.old space.new }
    ensures keeps { KeepsSeats F.invariant store.old space.old.seat store.new space.new.seat }
{
    let mark = is_to_mark(region, access);
    settle_as(space, store, page, bytes, mark)
}

/// Returns the byte of its file, which is mapped from byte `offset` on, with which a page of the region begins. The page is
/// given by its number.
fn place_in_file(region: &Region, offset: u64, page: u64) -> usize
    requires from { region.now.first ≤ page }
    requires to { page < region.now.first + region.now.pages }
    requires reach { offset + 4096 * region.now.pages < 2 ^ 64 }
    ensures { result ≡ offset + 4096 * (page - region.now.first) }
{
    (offset + (page - region.first) * PAGE_SIZE) as usize
}

/// Whether an unsettled page of the region gets the dirty mark for an access that the region grants: for a store to a
/// shared mapping.
fn is_to_mark(region: &Region, access: Access) -> bool
    requires right { lacks_right access (Some (region_of region.now)) ≡ false }
    ensures { result ≡ leaves_mark access (Some (region_of region.now)) }
{
    access == Access::Store && region.kind == RegionKind::SharedMapping
}
