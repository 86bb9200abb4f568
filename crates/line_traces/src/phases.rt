// `put_phase`: why a line is not possible in the phase of its hart, and which line comes first.

use crate::access_names::access_name;
use crate::command_words::{CommandWord, Need};
use hart_machine::{Machine, Pending};
use process_model::Phase;
use script_language::{Command, phase_name};
use text_builder::Text;
use walk_lines::Hex;

/// Whether the process on a hart has an access that faulted and was not served, and what its service does.
#[derive(Clone, Copy)]
enum Fault {
    /// There is none, or no process.
    None,
    /// Its service makes the access possible.
    Waits,
    /// A rule denies the access, so its service ends the process.
    Ends,
}

/// Where a hart is, as far as it is told.
#[derive(Clone, Copy)]
struct Stand {
    hart: usize,
    phase: Phase,
    slot: Option<usize>,
    /// The last access that faulted.
    pending: Option<Pending>,
    fault: Fault,
}

/// Returns what the service does of an access that faulted, of the process in a slot.
fn fault_of(machine: &Machine, slot: usize, access: Pending) -> Fault {
    if access.served {
        return Fault::None;
    }
    if access.width == 0 {
        return Fault::Waits;
    }
    match machine.granted(slot, access.access, access.va, access.width) {
        Some(Err(_)) => Fault::Ends,
        _ => Fault::Waits,
    }
}

/// Puts a text in which `#` stands for the number of a hart and `@` for a word.
fn put_filled(text: &mut Text, form: &str, hart: usize, word: &str) {
    for character in form.chars() {
        match character {
            '#' => write!(text, "{hart}"),
            '@' => text.push_str(word),
            other => write!(text, "{other}"),
        }
    }
}

impl Stand {
    /// Returns where a hart is; `None` if there is no such hart.
    fn of(machine: &Machine, hart: usize) -> Option<Stand> {
        let phase = machine.phase(hart)?;
        let mut stand = Stand {
            hart,
            phase,
            slot: machine.slot(hart),
            pending: None,
            fault: Fault::None,
        };
        if let Some(slot) = stand.slot {
            stand.pending = machine.pending(slot);
            if let Some(access) = stand.pending {
                stand.fault = fault_of(machine, slot, access);
            }
        }
        Some(stand)
    }

    /// Returns where the hart is, as a text in which `#` stands for its number and `@` for the name of its phase.
    fn place(&self) -> &'static str {
        match self.phase {
            Phase::Idle => "hart # is idle: it has no process",
            Phase::User => "hart # is in user mode",
            Phase::Kernel => "hart # is in the kernel",
            Phase::Enter0 | Phase::Enter1 | Phase::Enter2 =>
                "hart # is on its way into the kernel (@)",
            Phase::Leave1 | Phase::Leave2 => "hart # is on its way back to user mode (@)",
        }
    }

    /// Tells where the hart is: for example `hart 0 is in user mode, with the process of slot 0`.
    fn put(&self, text: &mut Text) {
        put_filled(text, self.place(), self.hart, phase_name(self.phase));
        if let Some(slot) = self.slot {
            write!(text, ", with the process of slot {slot}");
        }
        if let (Some(access), Fault::Waits | Fault::Ends) = (self.pending, self.fault) {
            let (word, address) = (access_name(access.access), Hex(access.va.0));
            write!(
                text,
                ", whose {word} at {address} faulted and waits for its service"
            );
        }
    }

    /// Returns the line that brings the hart to user mode; `#` stands for the hart.
    fn to_user(&self) -> &'static str {
        match (self.phase, self.fault) {
            (Phase::Idle, _) => "`on # S` puts the process of slot S on it",
            (Phase::User, _) => "this is user mode already",
            (Phase::Kernel, Fault::Ends) => "`serve #` serves the fault, which ends the process",
            (Phase::Kernel, Fault::Waits) => "`serve #` serves the fault, then `leave #`",
            (Phase::Kernel, Fault::None) => "`leave #` returns to user mode",
            (Phase::Enter0, Fault::Ends) => "`fix #` serves the fault, which ends the process",
            (Phase::Enter0, Fault::Waits) => "`fix #` serves the fault and returns to user mode",
            (Phase::Enter0 | Phase::Enter1 | Phase::Enter2, _) =>
                "`next #` until it is in the kernel, then `leave #`",
            (Phase::Leave1 | Phase::Leave2, _) => "`next #` goes on until it is in user mode",
        }
    }

    /// Returns the line that brings the hart into the kernel, with no fault that waits; `#` stands for the hart.
    fn to_kernel(&self) -> &'static str {
        match (self.phase, self.fault) {
            (Phase::Idle, _) => "`on # S` puts the process of slot S on it, then `enter #`",
            (Phase::User, _) => "`enter #` first",
            (Phase::Kernel, Fault::None) => "this is the kernel already",
            (Phase::Kernel, _) => "`serve #` first",
            (Phase::Enter0, Fault::Ends) => "`fix #` serves the fault, which ends the process",
            (Phase::Enter0, Fault::Waits) => "`fix #` first, then `enter #`",
            (Phase::Enter0 | Phase::Enter1 | Phase::Enter2, _) =>
                "`next #` until it is in the kernel",
            (Phase::Leave1 | Phase::Leave2, _) =>
                "`next #` until it is in user mode, then `enter #`",
        }
    }
}

/// Returns why a fault is not served now, and which line serves it; `#` stands for the hart, `@` for the line's word.
fn service_text(stand: &Stand) -> &'static str {
    match (stand.phase, stand.fault) {
        (_, Fault::None) => "; no fault waits for its service, so there is nothing to serve",
        (Phase::Kernel, _) => "; `@` begins before the kernel: in it, `serve #` serves the fault",
        (_, Fault::Ends) =>
            "; `serve` is done in the kernel: `fix #` enters it and serves the fault, which ends the process",
        _ => "; `serve` is done in the kernel: `fix #` enters it, serves the fault and returns",
    }
}

/// Returns why the next instruction is not made, and which line comes first; `#` stands for the hart, `@` for the line's word.
fn instruction_text(phase: Phase) -> &'static str {
    match phase {
        Phase::Kernel => "; the process returns only when its fault is served: `serve #` first",
        Phase::Idle => "; `@` needs a process: `on # S` puts the process of slot S on it",
        _ => "; `@` is not needed there: `enter #` or `trap #` begins the way into the kernel",
    }
}

/// Returns what a line needs and which line leads there, in two parts; `#` stands for the hart, `@` for the line's word.
fn need_texts(stand: &Stand, need: Need) -> (&'static str, &'static str) {
    match (need, stand.fault) {
        (Need::User, _) => ("; `@` needs user mode: ", stand.to_user()),
        (Need::Call, Fault::None) => ("; `@` is done in the kernel: ", stand.to_kernel()),
        (Need::Call, _) => (
            "; `@` is done in the kernel, and not while a fault waits: ",
            stand.to_kernel(),
        ),
        (Need::Switch, _) => (
            "; `@` needs the kernel or an idle hart: ",
            stand.to_kernel(),
        ),
        (Need::Service, _) => (service_text(stand), ""),
        (Need::Instruction, _) => (instruction_text(stand.phase), ""),
        (Need::Trampoline, _) => (
            "; `@` needs a phase of entry or return: `trap #` begins one in user mode, `next #` in the kernel",
            "",
        ),
        (Need::Any, _) => ("", ""),
    }
}

/// Tells where a hart is, what a line needs of it, and which line leads there.
fn put_need(text: &mut Text, stand: &Stand, command: CommandWord) {
    stand.put(text);
    let (what, then) = need_texts(stand, command.need);
    put_filled(text, what, stand.hart, command.word);
    put_filled(text, then, stand.hart, command.word);
}

/// Tells which slots have a process, if some have.
fn put_taken(text: &mut Text, machine: &Machine) {
    let mut before = "; slots with one: ";
    'slots: for slot in 0..machine.slot_count() {
        if machine.regions(slot).is_some() {
            write!(text, "{before}{slot}");
            before = ", ";
        }
    }
}

/// Returns the hart on which the process in a slot is.
fn hart_with(machine: &Machine, slot: usize) -> Option<usize> {
    'harts: for hart in 0..machine.hart_count() {
        if machine.slot(hart) == Some(slot) {
            return Some(hart);
        }
    }
    None
}

/// Tells why a process cannot be put on a hart (`here`) that may take one: its slot has none, or it is on a hart.
fn put_slot(text: &mut Text, machine: &Machine, slot: usize, here: usize) {
    let slots = machine.slot_count();
    if slot >= slots {
        let last = slots.saturating_sub(1);
        write!(text, "there is no slot {slot}: the slots are 0 to {last}");
        return;
    }
    match hart_with(machine, slot) {
        Some(hart) => {
            write!(text, "the process of slot {slot} is on hart {hart} already");
            if hart != here {
                write!(
                    text,
                    ": `enter {hart}`, then `switch {hart} -`, takes it off"
                );
            }
        }
        None => {
            write!(text, "slot {slot} has no process");
            put_taken(text, machine);
            text.push_str("; `start I` starts one in the lowest slot that is free");
        }
    }
}

/// Tells why a command is not possible in the phase of the hart that it names, and which line comes first; nothing if there is no such
/// hart. `slot` is the slot that a switch names.
pub fn put_phase(text: &mut Text, machine: &Machine, command: &Command, slot: Option<usize>) {
    let command = CommandWord::of(command);
    let Some(hart) = command.hart else {
        return;
    };
    let Some(stand) = Stand::of(machine, hart) else {
        return;
    };
    match (slot, stand.phase) {
        (Some(slot), Phase::Idle | Phase::Kernel) => put_slot(text, machine, slot, stand.hart),
        _ => put_need(text, &stand, command),
    }
}
