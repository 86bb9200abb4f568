// `choose`: the questions of a quiz.

use crate::guesses::is_right;
use script_reader::first_field;
use std::alloc::{AllocError, Global};
use usertest_rows::Line;
use usertest_world::Random;

/// The lines of a script that was played, with their answers.
#[derive(Clone, Copy)]
pub struct Script<'a> {
    pub lines: &'a [Line],
    /// The answer to each line; empty if it has none.
    pub answers: &'a [Vec<u8>],
}

/// Returns the first word of a text.
fn first_word(text: &[u8]) -> &[u8] {
    match first_field(text) {
        Some((word, _)) => word,
        None => b"".as_slice(),
    }
}

/// Returns whether an answer says only that all went well.
fn is_plain(answer: &[u8]) -> bool {
    matches!(first_word(answer), b"ok" | b"stored" | b"ready")
}

/// Returns whether an answer says how something came out, and not which number or which bytes.
fn is_verdict(answer: &[u8]) -> bool {
    let is_word = matches!(
        first_word(answer),
        b"fault" | b"ended" | b"refused" | b"entry"
    );
    is_word || is_plain(answer) || answer.starts_with(b"walk fault")
}

impl Script<'_> {
    /// Returns the answer to a line.
    fn answer(&self, at: usize) -> &[u8] {
        match self.answers.get(at) {
            Some(answer) => answer.as_slice(),
            None => b"".as_slice(),
        }
    }

    /// Returns a line.
    fn line(&self, at: usize) -> &[u8] {
        match self.lines.get(at) {
            Some(line) => line.text.as_str().as_bytes(),
            None => b"".as_slice(),
        }
    }

    /// Returns whether an earlier line tells the answer to a line: an equal line has the same answer or, unless this is a verdict, any
    /// line has.
    fn is_told(&self, at: usize) -> bool {
        let answer = self.answer(at);
        let verdict = is_verdict(answer);
        for earlier in 0..at {
            let equal = self.line(earlier) == self.line(at);
            if self.answer(earlier) == answer && (equal || !verdict) {
                return true;
            }
        }
        false
    }

    /// Returns how many of some lines begin with the same word as a line.
    fn count_alike(&self, chosen: &[usize], at: usize) -> usize {
        let word = first_word(self.line(at));
        let mut count = 0usize;
        for other in chosen {
            if first_word(self.line(*other)) == word {
                count = count.saturating_add(1);
            }
        }
        count
    }

    /// Returns whether a line of those chosen has the same answer as a line: a guess that is right for one is right for the other.
    fn is_asked(&self, alloc: Global, chosen: &[usize], at: usize) -> Result<bool, AllocError> {
        for other in chosen {
            if is_right(alloc, self.answer(*other), self.answer(at))? {
                return Ok(true);
            }
        }
        Ok(false)
    }

    /// Returns whether a line may be asked beside those chosen: no two have the same answer, and at most `most` begin with one word.
    fn fits(
        &self,
        alloc: Global,
        chosen: &[usize],
        at: usize,
        most: usize,
    ) -> Result<bool, AllocError> {
        if self.answer(at).is_empty() || self.is_told(at) || self.count_alike(chosen, at) >= most {
            return Ok(false);
        }
        Ok(!self.is_asked(alloc, chosen, at)?)
    }

    /// Adds lines in this order to those chosen, up to `count` in all. If `plain`, lines whose answers say only that all went well, as long
    /// as at most a third are such; else the others.
    fn add(
        &self,
        alloc: Global,
        chosen: &mut Vec<usize>,
        order: &[usize],
        count: usize,
        plain: bool,
    ) -> Result<(), AllocError> {
        let most = count.div_ceil(2);
        let mut added = 0usize;
        for at in order {
            let many = chosen.len();
            if many >= count {
                break;
            }
            if plain && added.saturating_add(1).saturating_mul(3) > many.saturating_add(1) {
                break;
            }
            if is_plain(self.answer(*at)) == plain
                && self.fits(alloc, chosen.as_slice(), *at, most)?
            {
                chosen.push(*at)?;
                added = added.saturating_add(1);
            }
        }
        Ok(())
    }
}

/// Returns places in any order.
fn shuffled(
    alloc: Global,
    random: &mut Random,
    places: &[usize],
) -> Result<Vec<usize>, AllocError> {
    let mut left = Vec::from_slice(alloc, places)?;
    let mut order = Vec::new(alloc);
    for _ in 0..places.len() {
        let at = random.index(left.len());
        if at < left.len() {
            let place = left.remove(at);
            order.push(place)?;
        }
    }
    Ok(order)
}

/// Returns the places of at most `count` lines that are asked, ascending: of those worth a question, any whose answer the script does not
/// tell before. No two have the same answer, and at most a third have one that says only that all went well. Equal seeds choose equally.
///
/// # Errors
/// `AllocError`: the host is out of memory.
pub fn choose(
    alloc: Global,
    seed: u64,
    script: Script<'_>,
    worthy: &[usize],
    count: usize,
) -> Result<Vec<usize>, AllocError> {
    let mut random = Random::of_seed(seed);
    let order = shuffled(alloc, &mut random, worthy)?;
    let mut chosen = Vec::new(alloc);
    let kept = if count > 2 && random.chance(600) {
        1
    } else {
        0
    };
    'turns: for (count, plain) in [
        (count.saturating_sub(kept), false),
        (count, true),
        (count, false),
    ] {
        script.add(alloc, &mut chosen, order.as_slice(), count, plain)?;
    }
    chosen.sort()?;
    Ok(chosen)
}
