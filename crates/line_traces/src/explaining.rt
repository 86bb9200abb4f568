// `explain_answer`: why a line was answered otherwise than by plain success.

ghost use Rattle.hart_machine.specs.BufferEntries.{IsInWorld};
ghost use Rattle.line_player.specs.Answers.{HasPlayed};
ghost use Rattle.line_player.specs.PlayedLines.{Played};
ghost use Rattle.process_model.specs.World.{World};

use crate::answer::Answer;
use crate::arguments::put_argument;
use crate::before::{Before, command_of};
use crate::calls::put_call;
use crate::denials::{Denied, put_denial, rule_of};
use crate::entries::put_entry;
use crate::frame_needs::service_need;
use crate::phases::put_phase;
use crate::requests::{copied, faulted};
use audit_player::lend;
use fault_texts::explain_image;
use hart_machine::Machine;
use line_player::LinePlayer;
use process_model::Step;
use script_language::Command;
use script_reader::Draft;
use std::alloc::{AllocError, Global};
use sv39_entry::{Rule, Va};
use text_builder::Text;

/// The slot that a command puts on a hart.
fn slot_named(command: &Command) -> Option<usize> {
    match command {
        Command::On { slot, .. } => Some(*slot),
        Command::One(Step::Switch { slot, .. }) => *slot,
        _ => None,
    }
}

/// Tells which check the image fails that a command starts or executes.
fn put_bad_image(text: &mut Text, machine: &Machine, draft: &Draft, command: &Command) {
    let number = match command {
        Command::Start { image } | Command::Exec { image, .. } => *image,
        _ => return,
    };
    let Some(image) = draft.images().get(number) else {
        return;
    };
    match explain_image(text.allocator(), machine.scheme(), lend(image)) {
        Ok(Some(check)) => text.push_str(check.as_str()),
        Ok(None) => {}
        Err(_) => text.note(Err(AllocError)),
    }
}

/// Tells why a command was refused, by the number of the refusal.
fn put_refusal(text: &mut Text, machine: &Machine, draft: &Draft, command: &Command, number: u64)
    requires world { (w : World) × IsInWorld machine.now w }
{
    match number {
        12 => put_bad_image(text, machine, draft, command),
        15 => put_argument(text, machine, command),
        19 => put_phase(text, machine, command, slot_named(command)),
        20 => put_entry(text, machine, command),
        _ => put_call(text, machine, draft, command, number),
    }
}

/// Tells what the service of a fault does, which takes so many frames.
fn put_service(text: &mut Text, machine: &Machine, hart: usize, needed: usize) {
    let free = machine.report().free;
    if needed > free {
        write!(
            text,
            "its service takes {needed} frames, free: {free}, so `fix {hart}` ends the process"
        )
    } else {
        write!(
            text,
            "`fix {hart}` serves the fault, then give the line again"
        )
    }
}

/// Tells why an access faulted: a rule denies it, or its page is not resident for it.
fn put_fault(text: &mut Text, machine: &Machine, command: &Command)
    requires world { (w : World) × IsInWorld machine.now w }
{
    let Some(faulted) = faulted(machine, command) else {
        return;
    };
    let (hart, slot, access) = (faulted.hart, faulted.slot, faulted.access);
    if access.width == 0 {
        return;
    }
    match machine.granted(slot, access.access, access.va, access.width) {
        Some(Err(rule)) => {
            let denied = Denied {
                access: access.access,
                va: access.va,
                width: access.width,
                region: machine.region(slot, access.va),
                scheme: machine.scheme(),
            };
            put_denial(text, rule, &denied);
            write!(text, ": its service, `fix {hart}`, ends the process")
        }
        _ => {
            text.push_str("the process may make this access, and its page is not ready for it: ");
            put_service(text, machine, hart, service_need(machine, slot, access.va))
        }
    }
}

/// Tells by which rule an access was denied; if too few frames were free, how many were, and how many were needed.
fn put_rule(text: &mut Text, rule: Rule, denied: &Denied, needed: usize, free: usize) {
    put_denial(text, rule, denied);
    if rule == Rule::NoFrame {
        write!(text, ": needed {needed}, free {free}");
    }
}

/// Tells why a process was ended.
fn put_end(text: &mut Text, machine: &Machine, before: &Before, number: u64) {
    let Some(access) = before.pending else {
        return;
    };
    let denied = Denied {
        access: access.access,
        va: access.va,
        width: access.width,
        region: before.region,
        scheme: machine.scheme(),
    };
    put_rule(text, rule_of(number), &denied, before.needed, before.free);
}

/// Tells why a copy stopped after so many bytes.
fn put_short(text: &mut Text, machine: &Machine, command: &Command, number: u64, done: u64)
    requires world { (w : World) × IsInWorld machine.now w }
{
    let Some(copy) = copied(command) else {
        return;
    };
    let Some(slot) = machine.slot(copy.hart) else {
        return;
    };
    let va = Va(copy.va.0.wrapping_add(done));
    let denied = Denied {
        access: copy.access,
        va,
        width: 1,
        region: machine.region(slot, va),
        scheme: machine.scheme(),
    };
    let (needed, free) = (service_need(machine, slot, va), machine.report().free);
    text.push_str("the copy stopped at a ");
    put_rule(text, rule_of(number), &denied, needed, free);
}

/// Tells why a command was answered in a way that is no plain success.
fn put_answer(
    text: &mut Text,
    player: &LinePlayer,
    before: &Before,
    command: &Command,
    answer: Answer,
)
    requires played { (s : Played) × HasPlayed player.now s }
{
    let (Some(machine), draft) = (player.machine(), player.draft()) else {
        return;
    };
    match answer {
        Answer::Refused(number) => put_refusal(text, machine, draft, command, number),
        Answer::Fault => put_fault(text, machine, command),
        Answer::Ended(number) => put_end(text, machine, before, number),
        Answer::Short(number, done) => put_short(text, machine, command, number, done),
    }
}

/// Returns why a player answered its last line otherwise than by plain success, and which line would be right, in words: one line of
/// text without an end. `before` is what was seen before the line. `None`: the answer is plain success, or there is none.
///
/// # Errors
/// `AllocError`: the host is out of memory.
pub fn explain_answer(
    alloc: Global,
    player: &LinePlayer,
    before: &Before,
    line: &[u8],
) -> Result<Option<String>, AllocError>
    requires played { (s : Played) × HasPlayed player.now s }
{
    let Some(answer) = Answer::of(player.answer()) else {
        return Ok(None);
    };
    let Some(command) = command_of(alloc, player, line)? else {
        return Ok(None);
    };
    let mut text = Text::new(alloc);
    put_answer(&mut text, player, before, &command, answer);
    let text = text.finish()?;
    if text.is_empty() {
        return Ok(None);
    }
    Ok(Some(text))
}
