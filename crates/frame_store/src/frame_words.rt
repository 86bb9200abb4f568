// `FrameWords`, a crate-internal struct: the words of all frames of `PlainFrames`, of which only those down to the lowest frame
// that was written are in memory that the host has to give. Functions: read a word or a part of a frame, store a word, zero a
// part, fill and copy.

ghost use Rattle.std.specs.Int.{from_le_bytes, w64};
ghost use Rattle.std.specs.Prelude.{◌≡◌, ◌+◌, ◌-◌, ◌*◌, ◌/◌, ◌<◌, ◌≤◌, ◌≢◌, ℕ, IfOk, IfSome, None, drop, length, max, replicate};
ghost use Rattle.std.specs.Prelude.{slice_index, slice_set, take, vec_capacity};
ghost use Rattle.frame_store.specs.ZeroWords.{PutsMany, ZerosIn};

use crate::bytes::put_words;
use process_model::MOST_FRAMES;
use std::alloc::{AllocError, Global};
use std::marker::Model;
use sv39_entry::FrameNo;

/// Words per frame.
pub(crate) const WORDS: usize = 512;

/// The words of all frames; contracts see them frame by frame, those of frame 0 first. At first they are all 0.
///
/// Frames are claimed from the last one down, and most machines claim few of many. So the words lie in a list that begins with
/// those of the last frame and ends with those of the lowest frame that was written; frames below it are 0. Memory of the
/// host is reserved for all when the list is made, but the host gives a page of it only when it is first touched, which
/// takes it some microseconds.
#[derive(Drop)]
pub(crate) struct FrameWords {
    list: Vec<u64>,
    frames: usize,
}

impl Model for FrameWords {
    ghost use Rattle.process_model.specs.declared.limits.TheConstants.{MOST_FRAMES};
    ghost use Rattle.std.specs.Prelude.{◌≡◌, ◌*◌, ◌%◌, ◌≤◌, List, ℕ, length, vec_capacity};
    ghost use Rattle.frame_store.specs.ZeroWords.{by_frame};

    ghost Value = { List ℕ };

    ghost view = { λ s. by_frame s.frames s.list.items };

    ghost invariant = { λ s. (s.frames ≤ MOST_FRAMES) × (512 * s.frames ≤ vec_capacity s.list) × (length s.list.items % 512 ≡ 0) };
}

impl FrameWords {
    /// Returns `frames` frames, at most `MOST_FRAMES`, whose words are all 0.
    ///
    /// # Errors
    /// `AllocError`: the host is out of memory.
    pub(crate) fn new(alloc: Global, frames: usize) -> Result<FrameWords, AllocError>
        requires few { frames ≤ MOST_FRAMES }
        ensures zeros { IfOk result (λ w. w ≡ replicate (512 * frames) 0) }
    {
        let list = Vec::with_capacity(alloc, WORDS * frames)?;
        Ok(FrameWords { list, frames })
    }

    /// Returns the word at `index` of a frame.
    pub(crate) fn word(&self, frame: FrameNo, index: usize) -> u64
        requires room { 512 * frame.0 + 512 ≤ length self.now }
        requires in_page { index < 512 }
        ensures { result ≡ slice_index self.now (512 * frame.0 + index) }
    {
        let start = WORDS * block_of(frame, self.frames);
        // asked of the frame, not of the word: a loop over its words asks once
        if self.list.len() < start + WORDS {
            return 0;
        }
        self.list[start + index]
    }

    /// Returns the words of a frame from index `from` on and before `to`; `None` if no word of it was ever written: all are
    /// 0.
    pub(crate) fn part(&self, frame: FrameNo, from: usize, to: usize) -> Option<&[u64]>
        requires room { 512 * frame.0 + 512 ≤ length self.now }
        requires low { from ≤ to }
        requires in_page { to ≤ 512 }
        ensures long { IfSome result (λ part. length part.now ≡ to - from) }
        ensures words { IfSome result (λ part. (i : ℕ) → i < to - from → slice_index part.now i ≡ slice_index self.now (512 * frame.0 + (from + i))) }
        ensures zeros { result ≡ None → ZerosIn self.now frame.0 0 512 }
    {
        let start = WORDS * block_of(frame, self.frames);
        if self.list.len() < start + WORDS {
            return None;
        }
        Some(&self.list[start + from..start + to])
    }

    /// Stores a word at `index` of a frame.
    pub(crate) fn put(&mut self, frame: FrameNo, index: usize, value: u64)
        requires room { 512 * frame.0 + 512 ≤ length self.old }
        requires in_page { index < 512 }
        ensures { self.new ≡ slice_set self.old (512 * frame.0 + index) value }
    {
        let start = WORDS * block_of(frame, self.frames);
        reach(&mut self.list, start + WORDS);
        self.list[start + index] = value;
    }

    /// Zeroes the words of a frame from index `from` on and before `to`.
    pub(crate) fn zero(&mut self, frame: FrameNo, from: usize, to: usize)
        requires room { 512 * frame.0 + 512 ≤ length self.old }
        requires low { from ≤ to }
        requires in_page { to ≤ 512 }
        ensures { PutsMany self.old self.new frame.0 from (to - from) (λ _. 0) }
    {
        let start = WORDS * block_of(frame, self.frames);
        if self.list.len() < start + WORDS {
            return;
        }
        self.list[start + from..start + to].fill(0);
    }

    /// Stores bytes, as little-endian words, to the start of a frame. Bytes after the last whole word are left out.
    pub(crate) fn fill(&mut self, frame: FrameNo, bytes: &[u8])
        requires room { 512 * frame.0 + 512 ≤ length self.old }
        requires in_page { length bytes.now ≤ 4096 }
        ensures { PutsMany self.old self.new frame.0 0 (length bytes.now / 8) (λ i. from_le_bytes w64 (take 8 (drop (8 * i) bytes.now))) }
    {
        let start = WORDS * block_of(frame, self.frames);
        reach(&mut self.list, start + WORDS);
        put_words(&mut self.list[start..start + WORDS], bytes);
    }

    /// Copies all words of the frame `from` to another frame, `to`.
    pub(crate) fn copy(&mut self, from: FrameNo, to: FrameNo)
        requires from { 512 * from.0 + 512 ≤ length self.old }
        requires to { 512 * to.0 + 512 ≤ length self.old }
        requires apart { from.0 ≢ to.0 }
        ensures { PutsMany self.old self.new to.0 0 512 (λ i. slice_index self.old (512 * from.0 + i)) }
    {
        let (here, there) = (block_of(from, self.frames), block_of(to, self.frames));
        reach(&mut self.list, WORDS * here.max(there) + WORDS);
        copy_block(self.list.as_mut_slice(), here, there);
    }
}

/// Returns which place a frame has in the list, of `frames` frames: the last frame has the first.
fn block_of(frame: FrameNo, frames: usize) -> usize
    requires { frame.0 < frames }
    ensures { result ≡ frames - 1 - frame.0 }
{
    frames - 1 - frame.0 as usize
}

/// Makes a list of words longer by zeros, up to `end` words, unless it has as many. Room for them is reserved.
#[inline(always)]
fn reach(list: &mut Vec<u64>, end: usize)
    requires room { end ≤ vec_capacity list.old }
    ensures long { length list.new.items ≡ max (length list.old.items) end }
    ensures same { (p : ℕ) → slice_index list.new.items p ≡ slice_index list.old.items p }
    ensures capacity { vec_capacity list.old ≤ vec_capacity list.new }
{
    if list.len() < end {
        extend(list, end);
    }
}

/// `reach` of a list that is shorter.
#[cold]
#[inline(never)]
fn extend(list: &mut Vec<u64>, end: usize)
    requires room { end ≤ vec_capacity list.old }
    requires short { length list.old.items < end }
    ensures long { length list.new.items ≡ max (length list.old.items) end }
    ensures same { (p : ℕ) → slice_index list.new.items p ≡ slice_index list.old.items p }
    ensures capacity { vec_capacity list.old ≤ vec_capacity list.new }
{
    let Ok(()) = list.resize(end, 0) else {
        unreachable!()
    };
}

/// Copies 512 words, which begin at `start` in `from`, to those that begin at `at` in `to`: in one piece, which is
/// faster than word by word.
fn put_block(to: &mut [u64], at: usize, from: &[u64], start: usize)
    requires from { start + 512 ≤ length from.now }
    requires to { at + 512 ≤ length to.old }
    ensures len { length to.new ≡ length to.old }
    ensures inside { (q : ℕ) → q < 512 → slice_index to.new (at + q) ≡ slice_index from.now (start + q) }
    ensures outside { (p : ℕ) → (at ≤ p → p < at + 512 → ⊥) → slice_index to.new p ≡ slice_index to.old p }
{
    to[at..at + WORDS].copy_from_slice(&from[start..start + WORDS]);
}

/// Copies block `from` of 512 words to another one, `to`.
fn copy_block(words: &mut [u64], from: usize, to: usize)
    requires from { 512 * from + 512 ≤ length words.old }
    requires to { 512 * to + 512 ≤ length words.old }
    requires apart { from ≢ to }
    ensures { PutsMany words.old words.new to 0 512 (λ i. slice_index words.old (512 * from + i)) }
{
    if from < to {
        let (front, back) = words.split_at_mut(WORDS * to);
        put_block(back, 0, front, WORDS * from);
    } else {
        let (front, back) = words.split_at_mut(WORDS * from);
        put_block(front, WORDS * to, back, 0);
    }
}
