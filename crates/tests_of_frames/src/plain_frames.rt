// Tests that `PlainFrames` counts references of a frame up to 65,535, refuses to reserve more frames than are free beside the
// credits of another seat, and reports the counts of all frames.

use crate::clients::shared_to_the_most;
use crate::rows::expect;
use frame_store::{FrameAccess, FrameSupply, NoFrame, PlainFrames};
use std::test::Fail;
use sv39_entry::FrameNo;

#[test]
fn counts_to_65_535(rt: HostRuntime) -> Result<(), Fail> {
    let (mut frames, mut seat) = PlainFrames::new(rt.alloc(), 16)?;
    let counts = shared_to_the_most(&mut frames, &mut seat)?;
    expect(&rt, 0, counts, (1, 65_534, 65_535));
    Ok(())
}

#[test]
fn refuses_what_is_reserved(rt: HostRuntime) -> Result<(), Fail> {
    let (mut frames, mut first) = PlainFrames::new(rt.alloc(), 5)?;
    let mut second = frames.split(&mut first, &[]);
    expect(&rt, 0, frames.reserve(&mut first, 3), Ok(()));
    expect(&rt, 1, frames.reserve(&mut second, 2), Err(NoFrame));
    frames.give_back(&mut first, 3);
    expect(&rt, 2, frames.reserve(&mut second, 2), Ok(()));
    Ok(())
}

#[test]
fn reports_its_counts(rt: HostRuntime) -> Result<(), Fail> {
    let (mut frames, mut seat) = PlainFrames::new(rt.alloc(), 16)?;
    frames.share(&mut seat, FrameNo(0))?;
    frames.reserve(&mut seat, 2)?;
    let frame = frames.claim(&mut seat);
    frames.store(&mut seat, frame, 511, 7);
    expect(&rt, 0, frames.load(&mut seat, frame, 511), 7);
    let report = frames.report();
    let told = (report.free, report.held, report.shared, report.references);
    expect(&rt, 1, told, (14, 2, 1, 3));
    frames.release(&mut seat, frame);
    expect(&rt, 2, frames.report().free, 15);
    Ok(())
}
