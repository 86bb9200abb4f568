// `Image`, a struct: a program image that passed every check of exec, as its scheme of translation (Sv39 or Sv48) and its 1
// to 16 segments; and two calls that check one: `judged` (an ELF file or a list of segments) and `from_segments` (a list).

ghost use Rattle.std.specs.Prelude.{◌≡◌, IfOk};
ghost use Rattle.exec_segments.specs.Loads.{loads_in};
ghost use Rattle.process_model.specs.Images as model;

use crate::elf::read_image;
use crate::image_builder::ImageBuilder;
use crate::load::Load;
use arrayvec::ArrayVec;
use process_model::{BadImage, MOST_SEGMENTS, Segment};
use std::marker::Model;
use sv39_entry::Scheme;

/// A program image that passed every check, for an address space of one scheme: its segments that have pages, 1 to 16 of
/// them, in ascending order and apart. It borrows their bytes.
#[derive(Drop)]
pub struct Image<'a> {
    pub(crate) scheme: Scheme,
    pub(crate) loads: ArrayVec<Load<'a>, MOST_SEGMENTS>,
}

impl<'a> Model for Image<'a> {
    ghost use Rattle.std.specs.Prelude.{map};
    ghost use Rattle.exec_segments.specs.Loads.{AreLoads, JudgedLoads, load_of};

    ghost Value = { JudgedLoads };

    ghost view = { λ image. record { scheme = image.scheme; loads = map load_of image.loads.items } };

    ghost invariant = { λ image. AreLoads image.scheme (map load_of image.loads.items) };
}

impl<'a> Image<'a> {
    /// Checks an image as a step has it, for an address space of `scheme`, and returns the image of its segments that
    /// have pages; it borrows their bytes. The image is an ELF file (`read_image` says which fields are read) or a list
    /// of segments (`from_segments`).
    ///
    /// # Errors
    /// The first check that fails, as a `BadImage`: of a file those of `read_image`, of a list those of `from_segments`.
    pub fn judged(scheme: Scheme, image: process_model::Image<'a>) -> Result<Image<'a>, BadImage>
        ensures loads { loads_in result ≡ model.image_loads scheme image.entry }
        ensures scheme { IfOk result (λ i. i.scheme ≡ scheme) }
    {
        match image {
            process_model::Image::Elf(bytes) => read_image(scheme, bytes),
            process_model::Image::Segments(segments) => Image::from_segments(scheme, segments),
        }
    }

    /// Checks a list of segments, for an address space of `scheme`, and returns the image of those that have pages; it
    /// borrows their bytes. A segment's size in the file is the number of its bytes; they all lie inside the image.
    ///
    /// # Errors
    /// The first check that fails (`segment_loads`; `BadImage` says what each means). Of each segment in turn: `Sizes`,
    /// `Wraps`, `Align`, and if it has bytes in memory, `TooHigh`, `Order`, `TooMany`. At the end: `NoLoad` (no segment
    /// has pages).
    pub fn from_segments(scheme: Scheme, segments: &'a [Segment]) -> Result<Image<'a>, BadImage>
        ensures loads { loads_in result ≡ model.segment_loads scheme segments.now }
        ensures scheme { IfOk result (λ i. i.scheme ≡ scheme) }
    {
        let mut judging = ImageBuilder::new(scheme);
        'segments: for segment in segments {
            judging.judge(Load::of(segment))?;
        }
        judging.into_image()
    }
}
