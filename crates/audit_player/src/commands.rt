// `put_line`: plays one line after `boot` of a script: makes its steps on the machine (one; several for `on`, `enter`,
// `leave`, `fix`; none for `show`, `audit`) and appends its answer to a text. Helpers for each kind of line; `lend` borrows
// an image.

ghost use Rattle.std.specs.Prelude.{◌≡◌, ◌∷◌, ◌≤◌, ◌+◌, List, true, vec_len, vec_capacity};
ghost use Rattle.hart_machine.specs.BufferEntries.{IsInWorld};
ghost use Rattle.process_model.specs.ScalarReplies.{is_scalar};
ghost use Rattle.process_model.specs.Images.{image_loads};
ghost use Rattle.sv39_entry.specs.declared.scheme.Scheme.{Scheme};
ghost use Rattle.process_model.specs.Steps as model;
ghost use Rattle.script_language.specs.Text as words;
ghost use Rattle.process_model.specs.World.{World};
ghost use Rattle.process_model.specs.declared.file.FileText.{FileText};
ghost use Rattle.process_model.specs.declared.reply.ScalarReply.TheVariants.{Done};
ghost use Rattle.process_model.specs.declared.reply.Reply.TheVariants.{Scalar};
ghost use Rattle.process_model.specs.declared.step.Step.TheVariants as steps;
ghost use Rattle.script_reader.specs.PackedLines.{shown};
ghost use Rattle.script_reader.specs.Playable.{IsDeclared};
ghost use Rattle.audit_player.specs.LineOutcomes.{GivesOutcome, AppendsLine};

use crate::answer::{audit, put_shown};
use hart_machine::Machine;
use process_model::{Image, ScalarReply, Step};
use script_language::{Command, LONGEST_TEXT, OwnedImage, put_reply, put_report, put_scalar_reply};
use script_reader::CommandView;

/// Borrows an image of a script for a step or a call. It loads as the script's image does.
pub fn lend(image: &OwnedImage) -> Image<'_>
    ensures loads { (scheme : Scheme) → image_loads scheme result ≡ image_loads scheme (words.lent image.now) }
{
    match image {
        OwnedImage::Elf(bytes) => Image::Elf(bytes.as_slice()),
        OwnedImage::Segments(segments) => Image::Segments(segments.as_slice()),
    }
}

/// Starts a process of an image.
fn start(machine: &mut Machine, image: &OwnedImage) -> ScalarReply
    requires world { (w : World) × IsInWorld machine.old w }
    ensures made { (w : World) → IsInWorld machine.old w
        → GivesOutcome machine.new (Scalar result) (model.step w (steps.Start (words.lent image.now))) }
{
    machine.step_scalar(Step::Start(lend(image)))
}

/// Replaces the process on a hart by one of an image.
fn exec(machine: &mut Machine, hart: usize, image: &OwnedImage) -> ScalarReply
    requires world { (w : World) × IsInWorld machine.old w }
    ensures made { (w : World) → IsInWorld machine.old w
        → GivesOutcome machine.new (Scalar result) (model.step w (steps.Exec hart (words.lent image.now))) }
{
    let image = lend(image);
    machine.step_scalar(Step::Exec { hart, image })
}

/// Copies bytes to the process on a hart, as the kernel (`copyout`).
fn copy_out(machine: &mut Machine, hart: usize, address: u64, bytes: &[u8]) -> ScalarReply
    requires world { (w : World) × IsInWorld machine.old w }
    ensures made { (w : World) → IsInWorld machine.old w
        → GivesOutcome machine.new (Scalar result) (model.step w (steps.CopyOut hart address (record { ref_ptr = (0, 0); now = bytes.now }))) }
{
    machine.step_scalar(Step::CopyOut {
        hart,
        address,
        bytes,
    })
}

/// Makes three instructions of the trampoline: the return to user mode or, after a fault or a trap, kernel entry. The first
/// that is refused is the last that is tried, and its refusal is the reply; if none is, the reply is `reply`.
fn three_next(machine: &mut Machine, hart: usize, reply: ScalarReply) -> ScalarReply
    requires world { (w : World) × IsInWorld machine.old w }
    ensures made { (w : World) → IsInWorld machine.old w
        → GivesOutcome machine.new (Scalar result) (words.series_of w (words.three_next hart) (Scalar reply)) }
{
    'instructions: for _ in 0..3usize {
        let said = machine.step_scalar(Step::Next { hart });
        if let ScalarReply::Refused(_) = said {
            return said;
        }
    }
    reply
}

/// Makes a step, then three instructions of the trampoline. The first of the four that is refused is the last that is tried,
/// and its refusal is the reply; if none is, the reply is `Done`. Inlined, since the callers know which step it is.
#[inline(always)]
fn go_through(machine: &mut Machine, hart: usize, step: Step<'_>) -> ScalarReply
    requires world { (w : World) × IsInWorld machine.old w }
    requires scalar { is_scalar step ≡ true }
    ensures made { (w : World) → IsInWorld machine.old w
        → GivesOutcome machine.new (Scalar result) (words.series_of w (step.entry ∷ words.three_next hart) (Scalar Done)) }
{
    let first = machine.step_scalar(step);
    if let ScalarReply::Refused(_) = first {
        return first;
    }
    three_next(machine, hart, ScalarReply::Done)
}

/// Schedules the process of a slot on a hart, and returns to user mode (`on`).
fn put_on(machine: &mut Machine, hart: usize, slot: usize) -> ScalarReply
    requires world { (w : World) × IsInWorld machine.old w }
    ensures made { (w : World) → IsInWorld machine.old w
        → GivesOutcome machine.new (Scalar result) (words.series_of w (words.on_steps hart slot) (Scalar Done)) }
{
    let slot = Some(slot);
    go_through(machine, hart, Step::Switch { hart, slot })
}

/// Traps, and enters the kernel (`enter`).
fn enter(machine: &mut Machine, hart: usize) -> ScalarReply
    requires world { (w : World) × IsInWorld machine.old w }
    ensures made { (w : World) → IsInWorld machine.old w → GivesOutcome machine.new (Scalar result) (words.series_of w (words.enter_steps hart) (Scalar Done)) }
{
    go_through(machine, hart, Step::Trap { hart })
}

/// Enters the kernel after a fault, serves the fault and, if the reply is `Ready`, returns to user mode (`fix`).
fn fix(machine: &mut Machine, hart: usize) -> ScalarReply
    requires world { (w : World) × IsInWorld machine.old w }
    ensures made { (w : World) → IsInWorld machine.old w → GivesOutcome machine.new (Scalar result) (words.fixed w hart) }
{
    let entered = three_next(machine, hart, ScalarReply::Done);
    if let ScalarReply::Refused(_) = entered {
        return entered;
    }
    let served = machine.step_scalar(Step::Serve { hart });
    if let ScalarReply::Ready = served {
        return three_next(machine, hart, served);
    }
    served
}

/// Makes a step, and appends its reply, which may have bytes. Not inlined, so that other lines need no
/// room for a reply with bytes.
#[inline(never)]
fn put_whole(machine: &mut Machine, step: Step<'_>, text: &mut Vec<u8>)
    requires world { (w : World) × IsInWorld machine.old w }
    requires room { vec_len text.old + LONGEST_TEXT ≤ vec_capacity text.old }
    ensures line_text { (w : World) → IsInWorld machine.old w
        → AppendsLine machine.new text.old.items text.new.items (words.line_result_of (model.step w step.entry)) }
    ensures len { vec_len text.new ≤ vec_len text.old + LONGEST_TEXT }
    ensures capacity { vec_capacity text.old ≤ vec_capacity text.new }
{
    put_reply(text, &machine.step(step));
}

/// Makes a step that is no `copyin`, and appends its reply. Not inlined, so that a load or a store needs no room
/// for what other steps need.
#[inline(never)]
fn put_other(machine: &mut Machine, step: Step<'_>, text: &mut Vec<u8>)
    requires scalar { is_scalar step ≡ true }
    requires world { (w : World) × IsInWorld machine.old w }
    requires room { vec_len text.old + LONGEST_TEXT ≤ vec_capacity text.old }
    ensures line_text { (w : World) → IsInWorld machine.old w
        → AppendsLine machine.new text.old.items text.new.items (words.line_result_of (model.step w step.entry)) }
    ensures len { vec_len text.new ≤ vec_len text.old + LONGEST_TEXT }
    ensures capacity { vec_capacity text.old ≤ vec_capacity text.new }
{
    put_scalar_reply(text, machine.step_scalar(step));
}

/// Makes a step, and appends its reply. Loads and stores, most lines of most scripts, have cases of their own, so that no
/// other step is inlined here.
#[inline(always)]
fn put_step(machine: &mut Machine, step: Step<'_>, text: &mut Vec<u8>)
    requires world { (w : World) × IsInWorld machine.old w }
    requires room { vec_len text.old + LONGEST_TEXT ≤ vec_capacity text.old }
    ensures line_text { (w : World) → IsInWorld machine.old w
        → AppendsLine machine.new text.old.items text.new.items (words.line_result_of (model.step w step.entry)) }
    ensures len { vec_len text.new ≤ vec_len text.old + LONGEST_TEXT }
    ensures capacity { vec_capacity text.old ≤ vec_capacity text.new }
{
    match step {
        Step::Load { .. } => put_scalar_reply(text, machine.step_scalar(step)),
        Step::Store { .. } => put_scalar_reply(text, machine.step_scalar(step)),
        Step::CopyIn { .. } => put_whole(machine, step, text),
        _ => put_other(machine, step, text),
    }
}

/// Plays a line after `boot`: makes its steps, and appends its answer without a line end. The text must have room for
/// `LONGEST_TEXT` bytes more, and the image that the line names must be declared.
pub fn put_answer(
    machine: &mut Machine,
    images: &[OwnedImage],
    command: &Command,
    text: &mut Vec<u8>,
)
    requires world { (w : World) × IsInWorld machine.old w }
    requires declared { (files : List FileText) × IsDeclared files images.now command.now }
    requires room { vec_len text.old + LONGEST_TEXT ≤ vec_capacity text.old }
    ensures line_text { (w : World) → IsInWorld machine.old w
        → AppendsLine machine.new text.old.items text.new.items (words.line_result images.now w command.now) }
    ensures len { vec_len text.new ≤ vec_len text.old + LONGEST_TEXT }
    ensures capacity { vec_capacity text.old ≤ vec_capacity text.new }
{
    match command {
        Command::One(step) => put_step(machine, *step, text),
        Command::Start { image } => put_scalar_reply(text, start(machine, &images[*image])),
        Command::Exec { hart, image } => put_scalar_reply(
            text,
            exec(machine, *hart, &images[*image]),
        ),
        Command::On { hart, slot } => put_scalar_reply(text, put_on(machine, *hart, *slot)),
        Command::Enter { hart } => put_scalar_reply(text, enter(machine, *hart)),
        Command::Leave { hart } => put_scalar_reply(
            text,
            three_next(machine, *hart, ScalarReply::Done),
        ),
        Command::Fix { hart } => put_scalar_reply(text, fix(machine, *hart)),
        Command::Show {
            file,
            offset,
            count,
        } => put_shown(text, machine.files(), *file, *offset, *count),
        Command::Audit => put_report(text, &audit(machine)),
        Command::CopyOut {
            hart,
            address,
            bytes,
        } => put_scalar_reply(text, copy_out(machine, *hart, *address, bytes.as_slice())),
    }
}

/// Plays a line after `boot`, as `Commands` shows it: makes its steps, and appends its answer without a line end. The text
/// must have room for `LONGEST_TEXT` bytes more, and the image that the line names must be declared.
pub fn put_line(
    machine: &mut Machine,
    images: &[OwnedImage],
    line: CommandView<'_>,
    text: &mut Vec<u8>,
)
    requires world { (w : World) × IsInWorld machine.old w }
    requires declared { (files : List FileText) × IsDeclared files images.now (shown line) }
    requires room { vec_len text.old + LONGEST_TEXT ≤ vec_capacity text.old }
    ensures line_text { (w : World) → IsInWorld machine.old w
        → AppendsLine machine.new text.old.items text.new.items (words.line_result images.now w (shown line.entry)) }
    ensures len { vec_len text.new ≤ vec_len text.old + LONGEST_TEXT }
    ensures capacity { vec_capacity text.old ≤ vec_capacity text.new }
{
    match line {
        CommandView::Step(step) => put_step(machine, step, text),
        CommandView::Made(command) => put_answer(machine, images, &command, text),
        CommandView::Kept(command) => put_answer(machine, images, command, text),
    }
}
