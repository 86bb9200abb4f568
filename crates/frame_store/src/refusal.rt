// The two errors of a frame store, structs without fields: `NoFrame` (too few frames are free) and `SharersFull` (a frame
// has as many references as its count can hold).

/// Too few frames are free for what a call needs to reserve (`FrameSupply::reserve`). Over shared frames: too few were
/// free at some moment of the call.
#[derive(Clone, Copy, PartialEq, Eq, Debug)]
pub struct NoFrame;

/// The frame has `MOST_REFERENCES` references, so no further one can be taken (`FrameSupply::share`, `opened_seat`).
#[derive(Clone, Copy, PartialEq, Eq, Debug)]
pub struct SharersFull;
