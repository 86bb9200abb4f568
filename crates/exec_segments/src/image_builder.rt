// `ImageBuilder`, a struct: makes an `Image` segment by segment. `judge` checks the next one and keeps it if it has pages;
// `into_image` fails if none was kept.

ghost use Rattle.std.specs.Prelude.{◌≡◌, ◌≤◌, IfOk, length, Ok, []};
ghost use Rattle.exec_segments.specs.Loads.{load_of, loads_in, loads_after};
ghost use Rattle.process_model.specs.Images as model;

use crate::image::Image;
use crate::load::Load;
use arrayvec::ArrayVec;
use process_model::{BadImage, MOST_SEGMENTS};
use std::marker::Model;
use sv39_entry::Scheme;

/// The segments with pages that passed their checks so far; the number of the page after the last one (0 if there is none); and
/// the scheme of the address space for which they are checked.
#[derive(Drop)]
pub(crate) struct ImageBuilder<'a> {
    pub(crate) scheme: Scheme,
    pub(crate) loads: ArrayVec<Load<'a>, MOST_SEGMENTS>,
    pub(crate) end: u64,
}

impl<'a> Model for ImageBuilder<'a> {
    ghost use Rattle.std.specs.Prelude.{map};
    ghost use Rattle.exec_segments.specs.Loads.{AreJudged, JudgedLoads, load_of};

    ghost Value = { JudgedLoads };

    ghost view = { λ judging. record { scheme = judging.scheme; loads = map load_of judging.loads.items } };

    ghost invariant = { λ judging. AreJudged judging.scheme (map load_of judging.loads.items) judging.end };
}

impl<'a> ImageBuilder<'a> {
    /// A builder that has no segment yet.
    pub(crate) fn new(scheme: Scheme) -> ImageBuilder<'a>
        ensures scheme { result.scheme ≡ scheme }
        ensures loads { result.loads ≡ [] }
    {
        ImageBuilder {
            scheme,
            loads: ArrayVec::new(),
            end: 0,
        }
    }

    /// The number of the page after the last segment that was kept, 0 if none was.
    pub(crate) fn end_page(&self) -> u64
        ensures { result ≡ model.end_of_loads 0 self.now.loads }
    {
        self.end
    }

    /// Checks the next segment, and keeps it if it has pages.
    ///
    /// # Errors
    /// The first check that it fails (`Load::fault`).
    pub(crate) fn judge(&mut self, load: Load<'a>) -> Result<(), BadImage>
        requires fits { length load.bytes.now ≤ load.file_size }
        ensures scheme { self.new.scheme ≡ self.old.scheme }
        ensures judged { model.judged self.old.scheme self.old.loads (model.load (load_of load.entry)) ≡ loads_after result self.new.loads }
    {
        if let Some(part) = load.fault(self.scheme, self.end, self.loads.len()) {
            return Err(part);
        }
        if load.memory_size > 0 {
            self.end = load.end_page();
            self.loads.push(load);
        }
        Ok(())
    }

    /// The image of the segments that were kept.
    ///
    /// # Errors
    /// `NoLoad`: none was kept.
    pub(crate) fn into_image(self) -> Result<Image<'a>, BadImage>
        ensures loads { loads_in result ≡ model.at_least_one (Ok self.entry.loads) }
        ensures scheme { IfOk result (λ i. i.scheme ≡ self.entry.scheme) }
    {
        if self.loads.is_empty() {
            return Err(BadImage::NoLoad);
        }
        Ok(Image {
            scheme: self.scheme,
            loads: self.loads,
        })
    }
}
