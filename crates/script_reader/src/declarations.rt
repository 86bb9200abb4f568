// Parsers of the lines `file`, `image`, `elf` (declarations) and `boot`: each makes the file, the image or the item of the
// configuration from the values of the line's fields. Limits of `file` and `boot` are checked here, images only when they
// are started or executed.

ghost use Rattle.std.specs.Prelude.{◌≡◌, IfOk};
ghost use Rattle.process_model.specs.Files.{fits_file};
ghost use Rattle.script_language.specs.Script as words;
ghost use Rattle.script_language.specs.declared.declarations.OwnedImage.TheVariants as owned;
ghost use Rattle.script_reader.specs.Alone.{item_alone};

use crate::field_access::{index_at, policy_at, scheme_at, take_bytes, take_segments, writable_at};
use crate::in_limits::in_limits;
use process_model::{Config, FileText, LONGEST_FILE};
use script_language::{Cause, FieldValue, Item, Keyword, OwnedImage};
use std::alloc::{AllocError, Global};

/// Makes the file of `file LEN MODE HEX`.
///
/// # Errors
/// `Limits`, exactly when LEN is above `LONGEST_FILE`, or HEX has more than LEN bytes.
pub fn file(alloc: Global, values: Vec<FieldValue>) -> Result<FileText, Cause>
    ensures { result ≡ words.in_limits (fits_file (words.file_of_values values.items)) (words.file_of_values values.items) }
{
    let length = index_at(&values, 0);
    let writable = writable_at(&values, 1);
    let bytes = take_bytes(alloc, values, 2);
    let within = length <= LONGEST_FILE && bytes.as_slice().len() <= length;
    let text = FileText {
        length,
        writable,
        bytes,
    };
    in_limits(within, text)
}

/// Makes the image of `image VADDR:MEMSZ:FLAGS:HEX ..`, with the segments in this order. Whether it loads is
/// checked at a start or exec.
///
/// # Errors
/// `AllocError`: host memory was refused.
pub fn image(alloc: Global, values: Vec<FieldValue>) -> Result<OwnedImage, AllocError>
    ensures { IfOk result (λ image. image ≡ owned.Segments (words.segments_in values.items)) }
{
    let segments = take_segments(alloc, values)?;
    Ok(OwnedImage::Segments(segments))
}

/// Makes the image of `elf HEX`: these bytes. Whether it loads is checked at a start or exec.
pub fn elf(alloc: Global, values: Vec<FieldValue>) -> OwnedImage
    ensures { result ≡ owned.Elf (words.bytes_at values.items 0) }
{
    OwnedImage::Elf(take_bytes(alloc, values, 0))
}

/// Makes the item of `boot HARTS FRAMES SLOTS POLICY [SCHEME]`; the scheme is Sv39 if the line names none.
///
/// # Errors
/// `Limits`, exactly when a size is out of range: 1 to `MOST_HARTS` harts, 1 to `MOST_SLOTS` slots, `FEWEST_FRAMES` to
/// `MOST_FRAMES` frames and no fewer than the kernel takes.
pub fn boot(values: &[FieldValue]) -> Result<Item, Cause>
    ensures { result ≡ item_alone Keyword.Boot values.now }
{
    let config = Config {
        harts: index_at(values, 0),
        frames: index_at(values, 1),
        slots: index_at(values, 2),
        policy: policy_at(values, 3),
        scheme: scheme_at(values, 4),
    };
    in_limits(config.is_bootable(), Item::Boot(config))
}
