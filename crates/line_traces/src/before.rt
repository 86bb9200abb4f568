// `Before`: what is seen of a machine before a line, since a process that the line ends is gone after it; and `command_of`, the command
// of the line.

ghost use Rattle.hart_machine.specs.BufferEntries.{IsInWorld};
ghost use Rattle.line_player.specs.Answers.{HasPlayed};
ghost use Rattle.line_player.specs.PlayedLines.{Played};
ghost use Rattle.process_model.specs.World.{World};

use crate::frame_needs::service_need;
use crate::requests::faulted;
use address_space::Region;
use hart_machine::{Machine, Pending};
use line_player::LinePlayer;
use script_language::{Command, Item};
use script_reader::{LineFault, line_item, trim_return};
use std::alloc::{AllocError, Global};

/// What is seen of a machine before a line.
#[derive(Clone, Copy)]
pub struct Before {
    /// The access that faulted, of the process on the line's hart.
    pub pending: Option<Pending>,
    /// The region that holds the address of that access.
    pub region: Option<Region>,
    /// How many frames its service takes.
    pub needed: usize,
    /// How many frames are free.
    pub free: usize,
}

impl Before {
    /// Nothing is seen: there is no machine.
    pub const NOTHING: Before = Before {
        pending: None,
        region: None,
        needed: 0,
        free: 0,
    };

    /// Returns what is seen of a machine before a command.
    pub fn of_command(machine: &Machine, command: &Command) -> Before
        requires world { (w : World) × IsInWorld machine.now w }
    {
        let free = machine.report().free;
        match faulted(machine, command) {
            Some(it) => Before {
                pending: Some(it.access),
                region: machine.region(it.slot, it.access.va),
                needed: service_need(machine, it.slot, it.access.va),
                free,
            },
            None => Before {
                free,
                ..Before::NOTHING
            },
        }
    }

    /// Returns what is seen before the next line of a player.
    ///
    /// # Errors
    /// `AllocError`: the host is out of memory.
    pub fn line(alloc: Global, player: &LinePlayer, line: &[u8]) -> Result<Before, AllocError>
        requires played { (s : Played) × HasPlayed player.now s }
    {
        let command = command_of(alloc, player, line)?;
        match (&command, player.machine()) {
            (Some(command), Some(machine)) => Ok(Before::of_command(machine, command)),
            _ => Ok(Before::NOTHING),
        }
    }
}

/// Returns the command of a line that the player takes next, `None` if the line has none or is refused, or no machine was booted.
///
/// # Errors
/// `AllocError`: the host is out of memory.
pub fn command_of(
    alloc: Global,
    player: &LinePlayer,
    line: &[u8],
) -> Result<Option<Command>, AllocError>
    requires played { (s : Played) × HasPlayed player.now s }
{
    if player.machine().is_none() {
        return Ok(None);
    }
    match line_item(alloc, player.draft(), trim_return(line)) {
        Ok(Some(Item::Command(command))) => Ok(Some(command)),
        Err(LineFault::Memory) => Err(AllocError),
        Ok(_) | Err(LineFault::Cause(_)) => Ok(None),
    }
}
