// `outside_limits`: which value of a line is outside its limits, and which they are; `no_room`: which list is full.

ghost use Rattle.std.specs.Prelude.{◌≡◌, ◌≤◌, ◌&&◌, Err, IfOk, IfSome, IsSome, List, None, Ok, is_none, length, nat_le, nat_lt};
ghost use Rattle.process_model.specs.Bytes.{is_width};
ghost use Rattle.process_model.specs.Frames.{kernel_frames};
ghost use Rattle.script_language.specs.Fields.{values_of};
ghost use Rattle.script_language.specs.Lines.{fields_of};
ghost use Rattle.process_model.specs.Files.{fits_file};
ghost use Rattle.script_language.specs.Script as words;
ghost use Rattle.script_reader.specs.Rows.{seen};
ghost use Rattle.fault_texts.specs.Limits.{boots, has_room_for};
ghost use Rattle.fault_texts.specs.Mistakes.{IsOfLine};

use line_fields::{Mistake, field_at};
use process_model::{
    Config, FEWEST_FRAMES, LONGEST_COPY, LONGEST_FILE, MOST_FILES, MOST_FRAMES, MOST_HARTS,
    MOST_SLOTS, is_width, kernel_frames,
};
use script_language::{Cause, Command, FieldValue, Item, Keyword, MOST_COMMANDS, MOST_IMAGES};
use script_reader::{
    Draft, Row, index_at, number_at, policy_at, read_values, scheme_at, signed_at,
};
use std::alloc::{AllocError, Global};
use text_builder::Text;

/// Where a value is that is outside its limits.
#[derive(Clone, Copy)]
enum Outside {
    /// In the field of this number after the word, from 0.
    Field(usize),
    /// The line as a whole is at fault.
    Line,
}

/// The number of bytes at this place, 0 if there are none.
fn byte_count(values: &[FieldValue], place: usize) -> usize
    ensures { result ≡ length (words.bytes_at values.now place) }
{
    match values.get(place) {
        Some(FieldValue::Hex(bytes)) => bytes.as_slice().len(),
        _ => 0,
    }
}

/// The limits of `file LEN MODE HEX`.
fn file_limits(text: &mut Text, values: &[FieldValue]) -> Option<Outside>
    ensures { is_none result ≡ fits_file (words.file_of_values values.now) }
{
    let length = index_at(values, 0);
    if length > LONGEST_FILE {
        write!(
            text,
            "LEN is {length}, and a file has at most {LONGEST_FILE} bytes"
        );
        return Some(Outside::Field(0));
    }
    let bytes = byte_count(values, 2);
    if bytes > length {
        write!(
            text,
            "HEX has {bytes} bytes, more than LEN, which is {length}"
        );
        return Some(Outside::Field(2));
    }
    None
}

/// The limits of one size of `boot`: whether `size` is from `least` to `most`; else that is told.
fn is_size(text: &mut Text, name: &str, size: usize, least: usize, most: usize) -> bool
    ensures { result ≡ (nat_le least size && nat_le size most) }
{
    if least <= size && size <= most {
        return true;
    }
    write!(text, "{name} is from {least} to {most}, not {size}");
    false
}

/// Whether memory has the frames that the kernel takes at boot; the number of slots must be within its limits.
fn frame_limits(text: &mut Text, config: &Config) -> Option<Outside>
    requires { config.now.slots ≤ MOST_SLOTS }
    ensures { is_none result ≡ nat_le (kernel_frames config.now.scheme config.now.frames config.now.slots) config.now.frames }
{
    let (frames, slots) = (config.frames, config.slots);
    let needed = kernel_frames(config.scheme, frames, slots);
    if needed <= frames {
        return None;
    }
    let word = if slots == 1 { "slot" } else { "slots" };
    write!(
        text,
        "this boot needs {needed} frames for {slots} {word}, and has {frames}"
    );
    Some(Outside::Line)
}

/// The limits of `boot HARTS FRAMES SLOTS POLICY [SCHEME]`.
fn boot_limits(text: &mut Text, values: &[FieldValue]) -> Option<Outside>
    ensures { is_none result ≡ boots values.now }
{
    let config = Config {
        harts: index_at(values, 0),
        frames: index_at(values, 1),
        slots: index_at(values, 2),
        policy: policy_at(values, 3),
        scheme: scheme_at(values, 4),
    };
    if !is_size(text, "HARTS", config.harts, 1, MOST_HARTS) {
        return Some(Outside::Field(0));
    }
    if !is_size(text, "FRAMES", config.frames, FEWEST_FRAMES, MOST_FRAMES) {
        return Some(Outside::Field(1));
    }
    if !is_size(text, "SLOTS", config.slots, 1, MOST_SLOTS) {
        return Some(Outside::Field(2));
    }
    frame_limits(text, &config)
}

/// Tells that an image or a file, `name`, of this number was not declared, where `count` were.
fn put_not_declared(text: &mut Text, name: &str, number: usize, count: usize) {
    match count {
        0 => write!(text, "no {name} was declared"),
        1 => write!(
            text,
            "{name} {number} was not declared; there is only {name} 0"
        ),
        _ => write!(
            text,
            "{name} {number} was not declared; there are {count}, numbered from 0"
        ),
    }
}

/// The limits of `start IMAGE` and `exec HART IMAGE`, whose IMAGE is at this place.
fn image_limits(
    text: &mut Text,
    draft: &Draft,
    values: &[FieldValue],
    place: usize,
) -> Option<Outside>
    ensures { is_none result ≡ words.has_image draft.now (words.number_at values.now place) }
{
    let image = index_at(values, place);
    if draft.has_image(image) {
        return None;
    }
    put_not_declared(text, "image", image, draft.images().len());
    Some(Outside::Field(place))
}

/// The limits of a width of `load` and `store`.
fn width_limits(text: &mut Text, values: &[FieldValue]) -> Option<Outside>
    ensures { is_none result ≡ is_width (words.number_at values.now 2) }
{
    let width = number_at(values, 2);
    if is_width(width) {
        return None;
    }
    write!(text, "WIDTH is 1, 2, 4 or 8, not {width}");
    Some(Outside::Field(2))
}

/// The limits of COUNT, in `copyin HART ADDRESS COUNT` and `show FILE OFFSET COUNT`.
fn count_limits(text: &mut Text, values: &[FieldValue]) -> Option<Outside>
    ensures { is_none result ≡ nat_le (words.number_at values.now 2) LONGEST_COPY }
{
    let count = index_at(values, 2);
    if count <= LONGEST_COPY {
        return None;
    }
    write!(text, "COUNT is {count}, and may be at most {LONGEST_COPY}");
    Some(Outside::Field(2))
}

/// The limits of `copyout HART ADDRESS HEX`.
fn copied_limits(text: &mut Text, values: &[FieldValue]) -> Option<Outside>
    ensures { is_none result ≡ nat_le (length (words.bytes_at values.now 2)) LONGEST_COPY }
{
    let count = byte_count(values, 2);
    if count <= LONGEST_COPY {
        return None;
    }
    write!(
        text,
        "HEX has {count} bytes, and may have at most {LONGEST_COPY}"
    );
    Some(Outside::Field(2))
}

/// The limits of `exit HART STATUS`.
fn status_limits(text: &mut Text, values: &[FieldValue]) -> Option<Outside>
    ensures { is_none result ≡ words.is_status (words.signed_at values.now 1) }
{
    let status = signed_at(values, 1);
    if i32::try_from(status).is_ok() {
        return None;
    }
    let (least, most) = (i32::MIN, i32::MAX);
    write!(text, "STATUS is from {least} to {most}, not {status}");
    Some(Outside::Field(1))
}

/// The limits of `show FILE OFFSET COUNT`.
fn show_limits(text: &mut Text, draft: &Draft, values: &[FieldValue]) -> Option<Outside>
    ensures { is_none result ≡ (words.has_file draft.now (words.number_at values.now 0) && nat_le (words.number_at values.now 2) LONGEST_COPY) }
{
    let file = index_at(values, 0);
    if !draft.has_file(file) {
        put_not_declared(text, "file", file, draft.files().len());
        return Some(Outside::Field(0));
    }
    count_limits(text, values)
}

/// The value of a line that is outside its limits, by the line's word; which limits these are is told.
fn first_outside(
    text: &mut Text,
    draft: &Draft,
    word: Keyword,
    values: &[FieldValue],
) -> Option<Outside>
    ensures { words.item_of draft.now word values.now ≡ Err Cause.Limits → IsSome result }
{
    match word {
        Keyword::File => file_limits(text, values),
        Keyword::Boot => boot_limits(text, values),
        Keyword::Start => image_limits(text, draft, values, 0),
        Keyword::Exec => image_limits(text, draft, values, 1),
        Keyword::Load => width_limits(text, values),
        Keyword::Store => width_limits(text, values),
        Keyword::CopyIn => count_limits(text, values),
        Keyword::CopyOut => copied_limits(text, values),
        Keyword::Exit => status_limits(text, values),
        Keyword::Show => show_limits(text, draft, values),
        _ => None,
    }
}

/// Returns which value of a line's `fields`, those after its word, is outside its limits, and which they are. `None`: no value is.
///
/// # Errors
/// `AllocError`: host memory was refused.
pub fn outside_limits(
    alloc: Global,
    draft: &Draft,
    row: &Row,
    line: &[u8],
    fields: &[u8],
) -> Result<Option<Mistake>, AllocError>
    ensures found { (vs : List FieldValue) → values_of (seen row.now) (fields_of fields.now) ≡ Ok vs
        → words.item_of draft.now row.now.word vs ≡ Err Cause.Limits → IfOk result IsSome }
    ensures column { IfOk result (λ m. IfSome m (λ m. IsOfLine line.now m)) }
{
    let Ok(values) = read_values(alloc, row, fields)? else {
        return Ok(None);
    };
    let mut text = Text::new(alloc);
    match first_outside(&mut text, draft, row.word, values.as_slice()) {
        Some(outside) => Ok(Some(placed(line, outside, text.finish()?))),
        None => Ok(None),
    }
}

/// The mistake of a value that is outside its limits, with the column of its field.
fn placed(line: &[u8], outside: Outside, text: String) -> Mistake
    ensures { IsOfLine line.now result }
{
    match outside {
        Outside::Field(place) => match field_at(line, place.saturating_add(1)) {
            Some(field) => Mistake::at(field.column, text),
            None => Mistake::of_line(text),
        },
        Outside::Line => Mistake::of_line(text),
    }
}

/// Returns which list is full, for a line with this word: that of files, of images, or of the lines after `boot`. `None`: it has room.
///
/// # Errors
/// `AllocError`: host memory was refused.
pub fn no_room(alloc: Global, draft: &Draft, word: Keyword) -> Result<Option<Mistake>, AllocError>
    ensures found { IfOk result (λ m. is_none m ≡ has_room_for draft.now word) }
    ensures column { IfOk result (λ m. IfSome m (λ m. m.column ≡ None)) }
{
    let mut text = Text::new(alloc);
    let has_room = match word {
        Keyword::File => has_room_for_files(&mut text, draft),
        Keyword::Image => has_room_for_images(&mut text, draft),
        Keyword::Elf => has_room_for_images(&mut text, draft),
        Keyword::Boot => true,
        _ => has_room_for_lines(&mut text, draft),
    };
    if has_room {
        return Ok(None);
    }
    Ok(Some(Mistake::of_line(text.finish()?)))
}

fn has_room_for_files(text: &mut Text, draft: &Draft) -> bool
    ensures { result ≡ has_room_for draft.now Keyword.File }
{
    if draft.files().len() < MOST_FILES {
        return true;
    }
    write!(text, "a script declares at most {MOST_FILES} files");
    false
}

fn has_room_for_images(text: &mut Text, draft: &Draft) -> bool
    ensures { result ≡ has_room_for draft.now Keyword.Image }
{
    if draft.images().len() < MOST_IMAGES {
        return true;
    }
    write!(
        text,
        "a script declares at most {MOST_IMAGES} images, by \"image\" and \"elf\" together"
    );
    false
}

fn has_room_for_lines(text: &mut Text, draft: &Draft) -> bool
    ensures { result ≡ nat_lt (length (draft.now).commands) MOST_COMMANDS }
{
    if draft.has_room(&Item::Command(Command::Audit)) {
        return true;
    }
    write!(
        text,
        "a script has at most {MOST_COMMANDS} lines after \"boot\", empty lines and comments not counted"
    );
    false
}
