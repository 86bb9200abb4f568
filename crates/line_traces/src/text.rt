// `put_trace`: what happens on a line as text.

use crate::accesses::{AccessLine, RuleLine};
use crate::changes::Changes;
use crate::frames::{FrameChanges, Recount};
use crate::leaves::LeafChange;
use crate::request_traces::RequestTrace;
use crate::sums::{AuditSums, ComeAndGone, GivenFrames, TakenFrames};
use crate::traces::LineTrace;
use crate::walks::WalkLine;
use std::fmt;
use text_builder::Text;
use walk_lines::{BufferLine, Hex};

/// The most frames that one line of a trace lists.
const MOST_LISTED: usize = 16;

/// Puts a line, indented.
fn put_line<D: fmt::Display>(out: &mut Text, line: &D) {
    writeln!(out, "        {line}")
}

/// Puts a list of at most `MOST_LISTED` things, with how many more there are; nothing for an empty list.
fn put_list<T: fmt::Display>(out: &mut Text, head: &str, things: &[T]) {
    if things.is_empty() {
        return;
    }
    out.push_str(head);
    let mut before = " ";
    'things: for number in 0..things.len().min(MOST_LISTED) {
        let thing = &things[number];
        write!(out, "{before}{thing}");
        before = ", ";
    }
    match things.len().saturating_sub(MOST_LISTED) {
        0 => out.push_str("\n"),
        more => writeln!(out, " and {more} more"),
    }
}

/// Puts what a line changed of the frames.
fn put_frames(out: &mut Text, frames: &FrameChanges) {
    put_list::<Hex>(out, "        frames taken:", frames.taken.as_slice());
    put_list::<Hex>(
        out,
        "        frames given back:",
        frames.given_back.as_slice(),
    );
    put_list::<Recount>(out, "        references:", frames.recounted.as_slice());
    let (free, held, shared) = (frames.free, frames.held, frames.shared);
    writeln!(
        out,
        "        frames: {free} free, {held} held, {shared} shared"
    );
}

/// Puts the leaves that a line changed, one a line, at most `MOST_LISTED`.
fn put_leaves(out: &mut Text, leaves: &[LeafChange]) {
    'leaves: for number in 0..leaves.len().min(MOST_LISTED) {
        put_line(out, &leaves[number]);
    }
    match leaves.len().saturating_sub(MOST_LISTED) {
        0 => {}
        more => writeln!(out, "        and {more} leaves more"),
    }
}

/// Puts the entries of a buffer, one a line.
fn put_buffer(out: &mut Text, hart: usize, entries: &[BufferLine]) {
    let empty = if entries.is_empty() { " empty" } else { "" };
    writeln!(out, "        TLB of hart {hart}:{empty}");
    'entries: for entry in entries {
        writeln!(out, "          {entry}");
    }
}

/// Puts the number, the line and its answer, if it has one.
fn put_head(out: &mut Text, trace: &LineTrace) {
    let (number, text) = (trace.line, trace.text.as_str());
    match &trace.seen.answer {
        Some(answer) => {
            let answer = answer.as_str();
            writeln!(out, "{number:>4}  {text:<34} => {answer}")
        }
        None => writeln!(out, "{number:>4}  {text}"),
    }
}

/// Puts an access and how the regions decide it, for example `regions: store of 1 byte at 0x1000 granted, in segment 0x1000..0x2000 rw-`.
fn put_access(out: &mut Text, line: &AccessLine) {
    let (access, width, address) = (line.access, line.width, line.address);
    let bytes = if width == 1 { "byte" } else { "bytes" };
    write!(
        out,
        "        regions: {access} of {width} {bytes} at {address} "
    );
    match line.rule {
        Some(RuleLine { number, name }) => write!(out, "denied by rule {number} {name}"),
        None => out.push_str("granted"),
    }
    if let Some(region) = line.region {
        write!(out, ", in {region}");
    }
    out.push_str("\n")
}

/// Puts a word that a walk read, for example `level 0: 0x80012[1] = 0x200051d3 VR--U-A-C leaf 0x80014, 2 references`.
fn put_walk(out: &mut Text, line: &WalkLine) {
    let entry = line.entry;
    write!(out, "        {entry}");
    match line.references {
        Some(1) => out.push_str(", 1 reference\n"),
        Some(count) => writeln!(out, ", {count} references"),
        None => out.push_str("\n"),
    }
}

/// Puts what is seen of the access or the fill of a line.
fn put_request(out: &mut Text, request: &RequestTrace) {
    if let Some(access) = &request.access {
        put_access(out, access);
    }
    if request.serves && !request.walk.is_empty() {
        out.push_str("        the walk of that access, once it is served:\n");
    }
    if let Some(entry) = request.entry {
        writeln!(out, "        uses {entry}");
    }
    'walk: for word in request.walk.as_slice() {
        put_walk(out, word);
    }
    if let Some(reason) = &request.reason {
        put_line(out, reason);
    }
}

/// Returns the hart of a line, 0 if it names none.
fn hart_of(trace: &LineTrace) -> usize {
    match trace.seen.before {
        Some(before) => before.hart,
        None => 0,
    }
}

/// Whether a line served an access.
fn serves(trace: &LineTrace) -> bool {
    match &trace.seen.request {
        Some(request) => request.serves,
        None => false,
    }
}

/// Puts what is other after a line.
fn put_changes(out: &mut Text, trace: &LineTrace, changes: &Changes) {
    match &changes.frames {
        Some(frames) => put_frames(out, frames),
        None if serves(trace) => out.push_str("        frames taken: none\n"),
        None => {}
    }
    put_leaves(out, changes.leaves.as_slice());
    if let Some(after) = changes.after {
        writeln!(out, "        then {after}");
    }
    if let Some(buffer) = &changes.buffer {
        put_buffer(out, hart_of(trace), buffer.as_slice());
    }
}

/// Puts since when sums are, at the begin of a line.
fn put_since(out: &mut Text, since: Option<u64>) {
    match since {
        Some(line) => write!(out, "        since line {line}, "),
        None => out.push_str("        since the boot, "),
    }
}

/// Puts which frames were taken and given back since the audit before.
fn put_frame_sums(out: &mut Text, sums: &AuditSums) {
    let TakenFrames {
        tables,
        pages,
        copies,
    } = sums.taken;
    put_since(out, sums.since);
    writeln!(
        out,
        "frames taken: {tables} for page tables, {pages} for pages, {copies} for copies"
    );
    let GivenFrames { tables, pages } = sums.given_back;
    put_since(out, sums.since);
    writeln!(
        out,
        "frames given back: {tables} of page tables, {pages} of pages"
    );
}

/// Puts how many came and went of some things since the audit before.
fn put_count(out: &mut Text, since: Option<u64>, what: &str, count: ComeAndGone) {
    let ComeAndGone { come, gone } = count;
    put_since(out, since);
    writeln!(out, "{what}: {come} more, {gone} fewer");
}

/// Puts what was taken and given back since the audit before.
fn put_sums(out: &mut Text, sums: &AuditSums) {
    put_frame_sums(out, sums);
    put_count(out, sums.since, "shared frames", sums.shared);
    put_count(out, sums.since, "references", sums.references);
}

/// Puts what happens on a line: the line with its answer and, indented below it, what is seen before it, of its access, and what
/// is other after it. Each line has a line end.
pub fn put_trace(out: &mut Text, trace: &LineTrace) {
    put_head(out, trace);
    if let Some(before) = &trace.seen.before {
        put_line(out, before);
    }
    if let Some(request) = &trace.seen.request {
        put_request(out, request);
    }
    if let Some(note) = &trace.seen.note {
        put_line(out, note);
    }
    if let Some(changes) = &trace.seen.changes {
        put_changes(out, trace, changes);
    }
    if let Some(sums) = &trace.sums {
        put_sums(out, sums);
    }
}
