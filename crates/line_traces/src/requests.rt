// What a line of a script asks of a hart: which access of the hart's process waits (`FaultedAccess`), which access the line makes or which page
// it fills (`Request`), what the kernel copies (`KernelCopy`), and which bytes of a process the line touches (`Touched`).

use crate::command_words::CommandWord;
use hart_machine::{Machine, Pending};
use process_model::Step;
use script_language::Command;
use sv39_entry::{Access, Mode, Scheme, Va};

/// An access that a line makes, or a fill.
#[derive(Clone, Copy)]
pub struct Request {
    pub hart: usize,
    /// What is asked for; `None` for a fill.
    pub access: Option<Access>,
    pub mode: Mode,
    pub va: Va,
    /// The width in bytes; 0 for a fill.
    pub width: u64,
    /// The entry of the buffer that serves the access; `None` for a walk.
    pub via: Option<usize>,
    /// Whether the line serves this access, which faulted.
    pub serves: bool,
}

/// Bytes of a process that a line touches: those of its access or its kernel copy, or none at the address of a fill.
#[derive(Clone, Copy, PartialEq, Eq)]
pub struct Touched {
    pub slot: usize,
    pub va: Va,
    /// How many bytes.
    pub width: u64,
}

/// Whether a line serves the fault of a hart's process.
fn serves(command: &Command) -> bool {
    matches!(
        command,
        Command::Fix { .. } | Command::One(Step::Serve { .. })
    )
}

/// The last access that faulted, of the process on a hart.
#[derive(Clone, Copy)]
pub struct FaultedAccess {
    pub hart: usize,
    pub slot: usize,
    pub access: Pending,
}

/// Returns the access that faulted, of the process on the hart that a line names, if there is one.
pub fn faulted(machine: &Machine, command: &Command) -> Option<FaultedAccess> {
    let hart = CommandWord::of(command).hart?;
    let slot = machine.slot(hart)?;
    Some(FaultedAccess {
        hart,
        slot,
        access: machine.pending(slot)?,
    })
}

/// Returns the access that a line serves, if it serves one.
fn served(machine: &Machine, command: &Command) -> Option<Request> {
    let faulted = faulted(machine, command)?;
    let access = faulted.access;
    Some(Request {
        hart: faulted.hart,
        access: Some(access.access),
        mode: Mode::User,
        va: access.va,
        width: access.width,
        via: None,
        serves: true,
    })
}

/// Returns the request of a line: its access, its fill or, if it serves a fault, the access that faulted.
pub fn request_of(machine: &Machine, command: &Command) -> Option<Request> {
    if serves(command) {
        return served(machine, command);
    }
    made_by(machine.scheme(), command)
}

/// Returns the access or the fill of a line, if it makes one, on a machine of this scheme.
pub fn made_by(scheme: Scheme, command: &Command) -> Option<Request> {
    let Command::One(step) = command else {
        return None;
    };
    let (user, kernel) = (Mode::User, Mode::Supervisor);
    let (hart, access, mode, address, width, via) = match *step {
        Step::Fetch { hart, address, via } => (hart, Some(Access::Fetch), user, address, 4, via),
        Step::Load {
            hart,
            address,
            width,
            via,
        } => (hart, Some(Access::Load), user, address, width, via),
        Step::Store {
            hart,
            address,
            width,
            via,
            ..
        } => (hart, Some(Access::Store), user, address, width, via),
        Step::TrampolineFetch { hart, offset, via } => {
            let address = scheme.trampoline().0.wrapping_add(offset);
            (hart, Some(Access::Fetch), kernel, address, 4, via)
        }
        Step::Fill { hart, address } => (hart, None, kernel, address, 0, None),
        _ => return None,
    };
    Some(Request {
        hart,
        access,
        mode,
        va: Va(address),
        width,
        via,
        serves: false,
    })
}

/// A kernel copy: how it accesses the memory of the process on a hart, and which bytes.
#[derive(Clone, Copy)]
pub struct KernelCopy {
    pub hart: usize,
    pub access: Access,
    pub va: Va,
    pub count: usize,
}

/// Returns the kernel copy of a line, if it makes one.
pub fn copied(command: &Command) -> Option<KernelCopy> {
    let (hart, access, address, count) = match command {
        Command::One(
            Step::CopyIn {
                hart,
                address,
                count,
            },
        ) => (*hart, Access::Load, *address, *count),
        Command::CopyOut {
            hart,
            address,
            bytes,
        } => (*hart, Access::Store, *address, bytes.as_slice().len()),
        _ => return None,
    };
    Some(KernelCopy {
        hart,
        access,
        va: Va(address),
        count,
    })
}

/// Returns the bytes that a line touches of the process on its hart; `None` if it touches none, or there is no process.
pub fn touched_by(machine: &Machine, command: &Command) -> Option<Touched> {
    let (hart, va, width) = match request_of(machine, command) {
        Some(request) => (request.hart, request.va, request.width),
        None => {
            let copy = copied(command)?;
            (copy.hart, copy.va, copy.count as u64)
        }
    };
    Some(Touched {
        slot: machine.slot(hart)?,
        va,
        width,
    })
}
