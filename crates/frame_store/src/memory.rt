// `Memory`, a crate-internal struct: the 512 words of each frame of `PlainFrames` (`FrameWords`), and for each frame two bounds
// between which its nonzero words lie, so that searches and clears skip zeros. Functions: read a word, search for the next
// nonzero word (`next`) or for one that names no frame of zeros (`next_busy`), store, clear, fill and copy.

ghost use Rattle.std.specs.Int.{from_le_bytes, w64};
ghost use Rattle.std.specs.Prelude.{◌≡◌, ◌+◌, ◌-◌, ◌*◌, ◌/◌, ◌<◌, ◌≤◌, ◌≢◌, ℕ, false, IfOk, length, drop, replicate, slice_get, slice_index};
ghost use Rattle.std.specs.Prelude.{slice_set, take, true};
ghost use Rattle.frame_store.specs.ZeroWords.{IsIdle, IsNextBusy, IsNextIn, NamesBlank, PutsMany, ZerosIn};

use crate::frame_words::{FrameWords, WORDS};
use crate::zeros::zeros_in_front;
use process_model::MOST_FRAMES;
use std::alloc::{AllocError, Global};
use std::marker::Model;
use sv39_entry::{Entry, FrameNo};

/// The words of all frames, frame by frame; contracts see this list. For each frame, two indices bound its nonzero words: a
/// store moves them apart, and a search that reads zeros moves them together. So once a search has found a whole frame to be
/// zeros, no search reads its words until the frame is written again; and to clear a frame, only the words between the
/// bounds are zeroed.
#[derive(Drop)]
pub(crate) struct Memory {
    words: FrameWords,
    /// The words of a frame before this index are 0.
    lows: Vec<u16>,
    /// The words of a frame from this index on are 0.
    highs: Vec<u16>,
}

impl Model for Memory {
    ghost use Rattle.std.specs.Prelude.{List, ℕ};
    ghost use Rattle.frame_store.specs.ZeroWords.{Runs};

    ghost Value = { List ℕ };

    ghost view = { λ s. s.words };

    ghost invariant = { λ s. Runs s.words s.lows.items s.highs.items };
}

impl Memory {
    /// Returns `frames` frames, at most `MOST_FRAMES`, whose words are all 0.
    ///
    /// # Errors
    /// `AllocError`: the host is out of memory.
    pub(crate) fn new(alloc: Global, frames: usize) -> Result<Memory, AllocError>
        requires few { frames ≤ MOST_FRAMES }
        ensures zeros { IfOk result (λ m. m ≡ replicate (512 * frames) 0) }
    {
        let words = FrameWords::new(alloc, frames)?;
        let lows = Vec::from_elem(alloc, WORDS as u16, frames)?;
        let highs = Vec::from_elem(alloc, 0, frames)?;
        Ok(Memory { words, lows, highs })
    }

    /// Returns the word at `index` of a frame.
    pub(crate) fn word(&self, frame: FrameNo, index: usize) -> u64
        requires room { 512 * frame.0 + 512 ≤ length self.now }
        requires in_page { index < 512 }
        ensures { result ≡ slice_index self.now (512 * frame.0 + index) }
    {
        self.words.word(frame, index)
    }

    /// Returns the word at `index` of a frame; `None` if there is no frame of this number.
    pub(crate) fn get(&self, frame: FrameNo, index: usize) -> Option<u64>
        requires in_page { index < 512 }
        ensures { result ≡ slice_get self.now (frame.0 * 512 + index) }
    {
        if frame.0 as usize >= self.lows.len() {
            return None;
        }
        Some(self.word(frame, index))
    }

    /// Returns the index and value of the first word of a frame that is not 0, from index `first` on and before `last`;
    /// `None` if there is none. The words stay; the bounds may tighten.
    pub(crate) fn next(&mut self, frame: FrameNo, first: usize, last: usize) -> Option<(usize, u64)>
        requires room { 512 * frame.0 + 512 ≤ length self.old }
        requires low { first ≤ last }
        requires in_page { last ≤ 512 }
        ensures word { IsNextIn self.old frame.0 first last result }
        ensures same { self.new ≡ self.old }
    {
        let from = first.max(self.lows[frame.0 as usize] as usize);
        let to = last.min(self.highs[frame.0 as usize] as usize);
        if to <= from {
            return None;
        }
        let Some(part) = self.words.part(frame, from, to) else {
            return None;
        };
        let zeros = zeros_in_front(part);
        if zeros == part.len() {
            self.learn(frame, first, last);
            return None;
        }
        let word = part[zeros];
        self.learn(frame, first, from + zeros);
        Some((from + zeros, word))
    }

    /// Tightens a bound of a frame, if possible, by its words from index `first` on and before `end`, which are 0. The words
    /// stay.
    fn learn(&mut self, frame: FrameNo, first: usize, end: usize)
        requires room { 512 * frame.0 + 512 ≤ length self.old }
        requires low { first ≤ end }
        requires in_page { end ≤ 512 }
        requires zeros { ZerosIn self.old frame.0 first end }
        ensures { self.new ≡ self.old }
    {
        let at = frame.0 as usize;
        if first <= self.lows[at] as usize {
            self.lows[at] = self.lows[at].max(end as u16);
            return;
        }
        if end < self.highs[at] as usize {
            return;
        }
        self.highs[at] = self.highs[at].min(first as u16);
    }

    /// Returns the index and value of the first word of a frame, from index `first` on and before `last`, that is not 0 and
    /// names no frame known to be all zeros; `None` if there is none.
    pub(crate) fn next_busy(
        &self,
        frame: FrameNo,
        first: usize,
        last: usize,
    ) -> Option<(usize, u64)>
        requires room { 512 * frame.0 + 512 ≤ length self.now }
        requires in_page { last ≤ 512 }
        ensures { IsNextBusy self.now frame.0 first last result }
    {
        let from = first.max(self.lows[frame.0 as usize] as usize);
        let to = last.min(self.highs[frame.0 as usize] as usize);
        if to <= from {
            return None;
        }
        let Some(part) = self.words.part(frame, from, to) else {
            return None;
        };
        'words: for place in 0..part.len() {
            let word = part[place];
            if !self.is_idle(word) {
                return Some((from + place, word));
            }
        }
        None
    }

    /// Returns whether a word is 0 or names a frame known to be all zeros.
    fn is_idle(&self, word: u64) -> bool
        ensures idle { result ≡ true → IsIdle self.now word }
        ensures busy { result ≡ false → word ≢ 0 }
    {
        word == 0 || self.names_blank(word)
    }

    /// Returns whether a word, as a page table entry, has the page number of a frame known to be all zeros.
    fn names_blank(&self, word: u64) -> bool
        ensures { result ≡ true → NamesBlank self.now word }
    {
        match FrameNo::from_ppn(Entry::from_word(word).ppn()) {
            Some(frame) => self.is_blank(frame),
            None => false,
        }
    }

    /// Returns whether the bounds show that a frame is all zeros.
    fn is_blank(&self, frame: FrameNo) -> bool
        ensures { result ≡ true → ZerosIn self.now frame.0 0 512 }
    {
        let at = frame.0 as usize;
        at < self.lows.len() && self.highs[at] <= self.lows[at]
    }

    /// Stores a word at `index` of a frame.
    pub(crate) fn put(&mut self, frame: FrameNo, index: usize, value: u64)
        requires room { 512 * frame.0 + 512 ≤ length self.old }
        requires in_page { index < 512 }
        ensures { self.new ≡ slice_set self.old (512 * frame.0 + index) value }
    {
        self.words.put(frame, index, value);
        if value == 0 {
            return;
        }
        let place = index as u16;
        self.lows[frame.0 as usize] = self.lows[frame.0 as usize].min(place);
        self.highs[frame.0 as usize] = self.highs[frame.0 as usize].max(place + 1);
    }

    /// Zeroes the words of a frame from index `first` on. Those outside the frame's bounds are zeros already.
    pub(crate) fn clear(&mut self, frame: FrameNo, first: usize)
        requires room { 512 * frame.0 + 512 ≤ length self.old }
        requires in_page { first ≤ 512 }
        ensures { PutsMany self.old self.new frame.0 first (512 - first) (λ _. 0) }
    {
        let to = self.highs[frame.0 as usize] as usize;
        let from = to.min(first.max(self.lows[frame.0 as usize] as usize));
        self.words.zero(frame, from, to);
        self.highs[frame.0 as usize] = self.highs[frame.0 as usize].min(first as u16);
        if first > 0 {
            return;
        }
        self.lows[frame.0 as usize] = WORDS as u16;
    }

    /// Stores bytes, as little-endian words, to the start of a frame. Bytes after the last whole word are left out.
    pub(crate) fn fill(&mut self, frame: FrameNo, bytes: &[u8])
        requires room { 512 * frame.0 + 512 ≤ length self.old }
        requires in_page { length bytes.now ≤ 4096 }
        ensures { PutsMany self.old self.new frame.0 0 (length bytes.now / 8) (λ i. from_le_bytes w64 (take 8 (drop (8 * i) bytes.now))) }
    {
        if bytes.len() < 8 {
            return;
        }
        self.words.fill(frame, bytes);
        self.lows[frame.0 as usize] = 0;
        self.highs[frame.0 as usize] = self.highs[frame.0 as usize].max((bytes.len() / 8) as u16);
    }

    /// Copies all words of the frame `from` to another frame, `to`.
    pub(crate) fn copy(&mut self, from: FrameNo, to: FrameNo)
        requires from { 512 * from.0 + 512 ≤ length self.old }
        requires to { 512 * to.0 + 512 ≤ length self.old }
        requires apart { from.0 ≢ to.0 }
        ensures { PutsMany self.old self.new to.0 0 512 (λ i. slice_index self.old (512 * from.0 + i)) }
    {
        self.words.copy(from, to);
        self.lows[to.0 as usize] = self.lows[from.0 as usize];
        self.highs[to.0 as usize] = self.highs[from.0 as usize];
    }
}
