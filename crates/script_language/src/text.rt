// The printed text of replies and reports (counts of frames): `put_reply`, `put_scalar_reply` and `put_report` append it to
// a byte vector with room for `LONGEST_TEXT` bytes; and `Display` of `Cause` (what is wrong with a line of a script).

ghost use Rattle.std.specs.Prelude.{◌≡◌, ◌+◌, ◌≤◌, ◌++◌, false, Some, codes, length, vec_len, vec_capacity};
ghost use Rattle.std.specs.Fmt.{decimal, digits};
ghost use Rattle.sv39_entry.specs.RuleText.{rule_text};
ghost use Rattle.script_language.specs.Words as words;
ghost use Rattle.process_model.specs.declared.limits.TheConstants.{LONGEST_COPY};
ghost use Rattle.process_model.specs.declared.reply.Reply.TheVariants.{Scalar};
ghost use Rattle.process_model.specs.declared.reply.ScalarReply.TheVariants.{Exited, Refused};

use crate::digits::{put, put_decimal, put_hexadecimal, put_signed};
use crate::hexes::put_bytes;
use crate::script::Cause;
use process_model::{BadImage, Phase, Refusal, Reply, Report, ScalarReply};
use std::fmt;
use sv39_entry::Rule;

/// The room, in bytes, that each of `put_reply`, `put_scalar_reply` and `put_report` needs: no text of a reply or a report
/// has more.
pub const LONGEST_TEXT: usize = 700;

/// Returns the name of a phase, as answers have it.
pub fn phase_name(phase: Phase) -> &'static str
    ensures text { result.now ≡ words.phase_text phase }
    ensures short { length result.now ≤ 6 }
{
    match phase {
        Phase::Idle => "idle",
        Phase::User => "user",
        Phase::Enter0 => "enter0",
        Phase::Enter1 => "enter1",
        Phase::Enter2 => "enter2",
        Phase::Kernel => "kernel",
        Phase::Leave1 => "leave1",
        Phase::Leave2 => "leave2",
    }
}

/// Returns the name of a check of an image.
fn part_name(part: BadImage) -> &'static str
    ensures text { result.now ≡ words.part_text part }
    ensures short { length result.now ≤ 13 }
{
    match part {
        BadImage::TooLong => "TooLong",
        BadImage::Header => "Header",
        BadImage::Magic => "Magic",
        BadImage::ProgramHeader => "ProgramHeader",
        BadImage::Sizes => "Sizes",
        BadImage::Wraps => "Wraps",
        BadImage::Align => "Align",
        BadImage::Contents => "Contents",
        BadImage::TooHigh => "TooHigh",
        BadImage::Order => "Order",
        BadImage::TooMany => "TooMany",
        BadImage::NoLoad => "NoLoad",
    }
}

impl fmt::Display for Cause {
    ghost output = { λ c. Some (words.cause_text c) };

    fn fmt<W: fmt::Write>(&self, f: &mut fmt::Formatter<W>) -> fmt::Result {
        match self {
            Cause::TooLong => write!(f, "TooLong"),
            Cause::NotAscii => write!(f, "NotAscii"),
            Cause::Word => write!(f, "Word"),
            Cause::Order => write!(f, "Order"),
            Cause::Count => write!(f, "Count"),
            Cause::Number => write!(f, "Number"),
            Cause::Field => write!(f, "Field"),
            Cause::Limits => write!(f, "Limits"),
            Cause::TooMany => write!(f, "TooMany"),
        }
    }
}

/// Returns the number and the name of a refusal, and its detail: the check that the image fails, the phase, or nothing.
pub(crate) fn refusal_words(refusal: Refusal) -> (&'static str, &'static str)
    ensures text { result.0.now ++ result.1.now ≡ words.refusal_text refusal }
    ensures short { length result.0.now + length result.1.now ≤ 26 }
{
    match refusal {
        Refusal::NoFrame => ("9 NoFrame", ""),
        Refusal::NoSlot => ("10 NoSlot", ""),
        Refusal::SharersFull => ("11 SharersFull", ""),
        Refusal::BadImage(part) => ("12 BadImage ", part_name(part)),
        Refusal::BadSize => ("13 BadSize", ""),
        Refusal::NoRoom => ("14 NoRoom", ""),
        Refusal::BadArgument => ("15 BadArgument", ""),
        Refusal::FileNotWritable => ("16 FileNotWritable", ""),
        Refusal::MappingsFull => ("17 MappingsFull", ""),
        Refusal::HoleInMapping => ("18 HoleInMapping", ""),
        Refusal::Impossible(phase) => ("19 Impossible ", phase_name(phase)),
        Refusal::NoEntry => ("20 NoEntry", ""),
        Refusal::Memory => ("21 Memory", ""),
        Refusal::JournalFull => ("22 JournalFull", ""),
    }
}

/// Appends `name` and `count` in decimal digits.
#[inline(always)]
pub(crate) fn put_count(text: &mut Vec<u8>, name: &[u8], count: u64)
    requires short { length name.now ≤ 20 }
    requires room { vec_len text.old + 40 ≤ vec_capacity text.old }
    ensures text { text.new.items ≡ text.old.items ++ (name.now ++ decimal count) }
    ensures len { vec_len text.new ≤ vec_len text.old + 40 }
    ensures capacity { vec_capacity text.old ≤ vec_capacity text.new }
{
    put(text, name);
    put_decimal(text, count);
}

/// Appends `name` and `value` in hexadecimal digits.
#[inline(always)]
fn put_value(text: &mut Vec<u8>, name: &[u8], value: u64)
    requires short { length name.now ≤ 20 }
    requires room { vec_len text.old + 40 ≤ vec_capacity text.old }
    ensures text { text.new.items ≡ text.old.items ++ (name.now ++ digits 16 false value) }
    ensures len { vec_len text.new ≤ vec_len text.old + 40 }
    ensures capacity { vec_capacity text.old ≤ vec_capacity text.new }
{
    put(text, name);
    put_hexadecimal(text, value);
}

/// Appends `name`, and the number and the name of a rule.
pub(crate) fn put_rule(text: &mut Vec<u8>, name: &[u8], rule: Rule)
    requires short { length name.now ≤ 20 }
    requires room { vec_len text.old + 60 ≤ vec_capacity text.old }
    ensures text { text.new.items ≡ text.old.items ++ (name.now ++ rule_text rule) }
    ensures len { vec_len text.new ≤ vec_len text.old + 60 }
    ensures capacity { vec_capacity text.old ≤ vec_capacity text.new }
{
    put_count(text, name, rule.number());
    put(text, b" ");
    put(text, rule.name().as_bytes());
}

/// Appends `name`, the number of bytes, and the bytes in hexadecimal digits.
fn put_counted(text: &mut Vec<u8>, name: &[u8], bytes: &[u8])
    requires short { length name.now ≤ 20 }
    requires few { length bytes.now ≤ LONGEST_COPY }
    requires room { vec_len text.old + 600 ≤ vec_capacity text.old }
    ensures text { text.new.items ≡ text.old.items ++ (name.now ++ decimal (length bytes.now) ++ codes " " ++ words.bytes_text bytes.now) }
    ensures len { vec_len text.new ≤ vec_len text.old + 600 }
    ensures capacity { vec_capacity text.old ≤ vec_capacity text.new }
{
    put_count(text, name, bytes.len() as u64);
    put(text, b" ");
    put_bytes(text, bytes);
}

/// Appends the text of `Reply::Scalar(ScalarReply::Exited)`.
fn put_exit(text: &mut Vec<u8>, status: i32)
    requires room { vec_len text.old + 40 ≤ vec_capacity text.old }
    ensures text { text.new.items ≡ text.old.items ++ words.reply_text (Scalar (Exited status)) }
    ensures len { vec_len text.new ≤ vec_len text.old + 40 }
    ensures capacity { vec_capacity text.old ≤ vec_capacity text.new }
{
    put(text, b"exited ");
    put_signed(text, status);
}

/// Appends the text of `Reply::Scalar(ScalarReply::Refused)`.
#[inline(always)]
fn put_refusal(text: &mut Vec<u8>, refusal: Refusal)
    requires room { vec_len text.old + 60 ≤ vec_capacity text.old }
    ensures text { text.new.items ≡ text.old.items ++ words.reply_text (Scalar (Refused refusal)) }
    ensures len { vec_len text.new ≤ vec_len text.old + 60 }
    ensures capacity { vec_capacity text.old ≤ vec_capacity text.new }
{
    let (name, detail) = refusal_words(refusal);
    put(text, b"refused ");
    put(text, name.as_bytes());
    put(text, detail.as_bytes());
}

/// Appends the text of a reply that carries no bytes to `text`, without a line feed: at most `LONGEST_TEXT` bytes, for which
/// `text` must have room (unused capacity).
pub fn put_scalar_reply(text: &mut Vec<u8>, scalar: ScalarReply)
    requires room { vec_len text.old + LONGEST_TEXT ≤ vec_capacity text.old }
    ensures text { text.new.items ≡ text.old.items ++ words.reply_text (Scalar scalar) }
    ensures len { vec_len text.new ≤ vec_len text.old + LONGEST_TEXT }
    ensures capacity { vec_capacity text.old ≤ vec_capacity text.new }
{
    match scalar {
        ScalarReply::Done => put(text, b"ok"),
        ScalarReply::Started(slot) | ScalarReply::Forked(slot) => put_count(
            text,
            b"slot ",
            slot as u64,
        ),
        ScalarReply::Value(value) => put_value(text, b"value 0x", value),
        ScalarReply::Stored => put(text, b"stored"),
        ScalarReply::Fault(cause) => put_count(text, b"fault ", cause),
        ScalarReply::Filled(entry) => put_count(text, b"entry ", entry as u64),
        ScalarReply::NothingFilled => put(text, b"nothing"),
        ScalarReply::InFrame(frame) => put_count(text, b"frame ", frame as u64),
        ScalarReply::Ready => put(text, b"ready"),
        ScalarReply::Ended(rule) => put_rule(text, b"ended ", rule),
        ScalarReply::OldSize(size) => put_value(text, b"old 0x", size),
        ScalarReply::MappedAt(address) => put_value(text, b"at 0x", address),
        ScalarReply::CopiedOut(count) => put_count(text, b"copied ", count as u64),
        ScalarReply::ShortOut(rule, count) => {
            put_rule(text, b"short ", rule);
            put_count(text, b" done ", count as u64);
        }
        ScalarReply::Exited(status) => put_exit(text, status),
        ScalarReply::Refused(refusal) => put_refusal(text, refusal),
    }
}

/// Appends the text of a reply to `text`, without a line feed: at most `LONGEST_TEXT` bytes, for which `text` must have room
/// (unused capacity).
pub fn put_reply(text: &mut Vec<u8>, reply: &Reply)
    requires room { vec_len text.old + LONGEST_TEXT ≤ vec_capacity text.old }
    ensures text { text.new.items ≡ text.old.items ++ words.reply_text reply.now }
    ensures len { vec_len text.new ≤ vec_len text.old + LONGEST_TEXT }
    ensures capacity { vec_capacity text.old ≤ vec_capacity text.new }
{
    match reply {
        Reply::Scalar(scalar) => put_scalar_reply(text, *scalar),
        Reply::CopiedIn(bytes) => put_counted(text, b"copied ", bytes.as_slice()),
        Reply::ShortIn(rule, bytes) => {
            put_rule(text, b"short ", *rule);
            put_counted(text, b" done ", bytes.as_slice());
        }
    }
}

/// Appends the text of a report (its four counts, in decimal) to `text`, without a line feed: at most `LONGEST_TEXT` bytes,
/// for which `text` must have room (unused capacity).
pub fn put_report(text: &mut Vec<u8>, report: &Report)
    requires room { vec_len text.old + LONGEST_TEXT ≤ vec_capacity text.old }
    ensures text { text.new.items ≡ text.old.items ++ words.report_text report.now }
    ensures len { vec_len text.new ≤ vec_len text.old + LONGEST_TEXT }
    ensures capacity { vec_capacity text.old ≤ vec_capacity text.new }
{
    put_count(text, b"free ", report.free as u64);
    put_count(text, b" held ", report.held as u64);
    put_count(text, b" shared ", report.shared as u64);
    put_count(text, b" references ", report.references as u64);
}
