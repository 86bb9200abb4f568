// `CommandWord`: a command as its line begins, the hart that it names, and what it needs of it.

use process_model::Step;
use script_language::Command;

/// What a line needs of the hart that it names.
#[derive(Clone, Copy)]
pub enum Need {
    /// User mode: an access of the process, or a trap.
    User,
    /// The kernel, with no fault that waits: a system call or a copy.
    Call,
    /// The kernel, with a fault that waits: its service.
    Service,
    /// The kernel or an idle hart: a switch.
    Switch,
    /// A phase of entry or return, or the kernel: the next instruction.
    Instruction,
    /// A phase of entry or return: a fetch of the kernel's code there.
    Trampoline,
    /// Nothing.
    Any,
}

/// A command as its line begins.
#[derive(Clone, Copy)]
pub struct CommandWord {
    pub word: &'static str,
    pub need: Need,
    /// The hart that the line names, if it names one.
    pub hart: Option<usize>,
}

/// Returns the word of a line that is one step, what it needs, and the hart that it names.
fn of_step(step: &Step<'_>) -> (&'static str, Need, Option<usize>) {
    match step {
        Step::Start(_) => ("start", Need::Any, None),
        Step::Switch { hart, .. } => ("switch", Need::Switch, Some(*hart)),
        Step::Trap { hart } => ("trap", Need::User, Some(*hart)),
        Step::Next { hart } => ("next", Need::Instruction, Some(*hart)),
        Step::Fill { hart, .. } => ("fill", Need::Any, Some(*hart)),
        Step::Evict { hart, .. } => ("evict", Need::Any, Some(*hart)),
        Step::Fetch { hart, .. } => ("fetch", Need::User, Some(*hart)),
        Step::Load { hart, .. } => ("load", Need::User, Some(*hart)),
        Step::Store { hart, .. } => ("store", Need::User, Some(*hart)),
        Step::TrampolineFetch { hart, .. } => ("tramp", Need::Trampoline, Some(*hart)),
        Step::Serve { hart } => ("serve", Need::Service, Some(*hart)),
        Step::Fork { hart } => ("fork", Need::Call, Some(*hart)),
        Step::Exec { hart, .. } => ("exec", Need::Call, Some(*hart)),
        Step::Sbrk { hart, .. } => ("sbrk", Need::Call, Some(*hart)),
        Step::Mmap { hart, .. } => ("mmap", Need::Call, Some(*hart)),
        Step::Munmap { hart, .. } => ("munmap", Need::Call, Some(*hart)),
        Step::CopyIn { hart, .. } => ("copyin", Need::Call, Some(*hart)),
        Step::CopyOut { hart, .. } => ("copyout", Need::Call, Some(*hart)),
        Step::Exit { hart, .. } => ("exit", Need::Call, Some(*hart)),
    }
}

impl CommandWord {
    /// Returns the word of a command, what it needs, and the hart that it names.
    pub fn of(command: &Command) -> CommandWord {
        let (word, need, hart) = match command {
            Command::One(step) => of_step(step),
            Command::Start { .. } => ("start", Need::Any, None),
            Command::Exec { hart, .. } => ("exec", Need::Call, Some(*hart)),
            Command::CopyOut { hart, .. } => ("copyout", Need::Call, Some(*hart)),
            Command::On { hart, .. } => ("on", Need::Switch, Some(*hart)),
            Command::Enter { hart } => ("enter", Need::User, Some(*hart)),
            Command::Leave { hart } => ("leave", Need::Instruction, Some(*hart)),
            Command::Fix { hart } => ("fix", Need::Service, Some(*hart)),
            Command::Show { .. } => ("show", Need::Any, None),
            Command::Audit => ("audit", Need::Any, None),
        };
        CommandWord { word, need, hart }
    }
}
