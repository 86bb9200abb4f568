// `Commands`, a struct: the list of a script's lines after `boot`, with `push`, `get` and `len`. Lines of eleven kinds with small
// numbers are packed into 24 bytes each (`PackedCommand`, an enum), all others are kept whole. `CommandView`, an enum: a
// line as `get` returns it.

ghost use Rattle.std.specs.Prelude.{◌≡◌, ◌<◌, ◌++◌, ◌∷◌, [], length, map, IfSome, OnOk, OnErr, All, List, slice_index_or};
ghost use Rattle.script_language.specs.declared.script.Command.TheVariants as command;
ghost use Rattle.script_reader.specs.PackedLines as model;

use process_model::Step;
use script_language::Command;
use std::alloc::{AllocError, Global};
use std::marker::Model;

/// A packed line: one of the packed kinds, with small numbers, or the place of a line among those that are kept whole.
#[derive(Clone, Copy)]
enum PackedCommand {
    Switch {
        hart: u16,
        slot: Option<u16>,
    },
    Fill {
        hart: u16,
        address: u64,
    },
    Fetch {
        hart: u16,
        via: Option<u16>,
        address: u64,
    },
    Load {
        width: u8,
        hart: u16,
        via: Option<u16>,
        address: u64,
    },
    Store {
        width: u8,
        hart: u16,
        via: Option<u16>,
        address: u64,
        value: u64,
    },
    CopyIn {
        hart: u16,
        count: u16,
        address: u64,
    },
    Exec {
        hart: u16,
        image: u16,
    },
    On {
        hart: u16,
        slot: u16,
    },
    Enter {
        hart: u16,
    },
    Leave {
        hart: u16,
    },
    Fix {
        hart: u16,
    },
    Whole(usize),
}

// A script may have 100,000 lines after `boot`: each byte of a line counts.
const _: () = prove!(size_of::<PackedCommand>() == 24);

/// A line after `boot`, as `Commands::get` returns it.
#[derive(Drop)]
pub enum CommandView<'a> {
    /// A line that is one step, made again from its packed form.
    Step(Step<'static>),
    /// Any other line that was made again from its packed form.
    Made(Command),
    /// A line that is kept whole; it may be one step too.
    Kept(&'a Command),
}

/// The list of the lines after `boot`. Each takes 24 bytes; one of another than the packed kinds, or with a large number,
/// is kept whole beside them.
#[derive(Drop)]
pub struct Commands {
    packed: Vec<PackedCommand>,
    whole: Vec<Command>,
}

impl Model for Commands {
    ghost use Rattle.std.specs.Prelude.{List, map, length, All};
    ghost use Rattle.script_language.specs.declared.script.Command.{Command};
    ghost use Rattle.script_reader.specs.PackedLines as model;

    ghost Value = { List Command };

    ghost view = { λ c. map (model.unpacked c.whole.items) c.packed.items };

    ghost invariant = { λ c. All (model.IsWithin (length c.whole.items)) c.packed.items };
}

/// The greatest number that fits two bytes.
const MOST_SMALL: usize = 0xffff;

/// A slot or an entry, or none, in two bytes, if it fits.
fn small_or_none(number: Option<usize>) -> Option<Option<u16>>
    ensures { IfSome result (λ it. it ≡ number) }
{
    match number {
        None => Some(None),
        Some(number) if number <= MOST_SMALL => Some(Some(number as u16)),
        Some(_) => None,
    }
}

/// A slot or an entry, or none, from two bytes.
fn wide_or_none(number: Option<u16>) -> Option<usize>
    ensures { result ≡ number }
{
    match number {
        None => None,
        Some(number) => Some(number as usize),
    }
}

/// A hart in two bytes, and a slot or an entry, or none, in two bytes, if they fit.
fn small_both(hart: usize, number: Option<usize>) -> Option<(u16, Option<u16>)>
    ensures { IfSome result (λ it. (it.0 ≡ hart) × (it.1 ≡ number)) }
{
    if hart > MOST_SMALL {
        return None;
    }
    let Some(number) = small_or_none(number) else {
        return None;
    };
    Some((hart as u16, number))
}

/// Packs an access to memory, if its numbers fit.
#[inline(always)]
fn pack_access(step: &Step<'static>) -> Option<PackedCommand>
    ensures { IfSome result (λ packed. model.Says packed (command.One step.now)) }
{
    match *step {
        Step::Fetch { hart, address, via } => {
            let Some((hart, via)) = small_both(hart, via) else {
                return None;
            };
            Some(PackedCommand::Fetch { hart, via, address })
        }
        Step::Load {
            hart,
            address,
            width,
            via,
        } if width <= 0xff => {
            let Some((hart, via)) = small_both(hart, via) else {
                return None;
            };
            Some(PackedCommand::Load {
                width: width as u8,
                hart,
                via,
                address,
            })
        }
        Step::Store {
            hart,
            address,
            width,
            value,
            via,
        } if width <= 0xff => {
            let Some((hart, via)) = small_both(hart, via) else {
                return None;
            };
            Some(PackedCommand::Store {
                width: width as u8,
                hart,
                via,
                address,
                value,
            })
        }
        _ => None,
    }
}

/// Packs a step of a packed kind, if its numbers fit.
#[inline(always)]
fn pack_step(step: &Step<'static>) -> Option<PackedCommand>
    ensures { IfSome result (λ packed. model.Says packed (command.One step.now)) }
{
    match *step {
        Step::Switch { hart, slot } => {
            let Some((hart, slot)) = small_both(hart, slot) else {
                return None;
            };
            Some(PackedCommand::Switch { hart, slot })
        }
        Step::Fill { hart, address } if hart <= MOST_SMALL => Some(PackedCommand::Fill {
            hart: hart as u16,
            address,
        }),
        Step::CopyIn {
            hart,
            address,
            count,
        } if hart <= MOST_SMALL && count <= MOST_SMALL => Some(PackedCommand::CopyIn {
            hart: hart as u16,
            count: count as u16,
            address,
        }),
        _ => pack_access(step),
    }
}

/// Packs a line of a packed kind, if its numbers fit.
#[inline(always)]
fn pack(line: &Command) -> Option<PackedCommand>
    ensures { IfSome result (λ packed. model.Says packed line.now) }
{
    if let Command::One(step) = line {
        return pack_step(step);
    }
    match *line {
        Command::Exec { hart, image } if hart <= MOST_SMALL && image <= MOST_SMALL => {
            Some(PackedCommand::Exec {
                hart: hart as u16,
                image: image as u16,
            })
        }
        Command::On { hart, slot } if hart <= MOST_SMALL && slot <= MOST_SMALL => {
            Some(PackedCommand::On {
                hart: hart as u16,
                slot: slot as u16,
            })
        }
        Command::Enter { hart } if hart <= MOST_SMALL => Some(PackedCommand::Enter {
            hart: hart as u16,
        }),
        Command::Leave { hart } if hart <= MOST_SMALL => Some(PackedCommand::Leave {
            hart: hart as u16,
        }),
        Command::Fix { hart } if hart <= MOST_SMALL => Some(PackedCommand::Fix {
            hart: hart as u16,
        }),
        _ => None,
    }
}

/// Returns the line that a packed one means; `whole` has the lines that are kept whole.
fn unpack(packed: PackedCommand, whole: &[Command]) -> CommandView<'_>
    requires { model.IsWithin (length whole.now) packed }
    ensures { model.shown result ≡ model.unpacked whole.now packed }
{
    match packed {
        PackedCommand::Switch { hart, slot } => CommandView::Step(Step::Switch {
            hart: hart as usize,
            slot: wide_or_none(slot),
        }),
        PackedCommand::Fill { hart, address } => CommandView::Step(Step::Fill {
            hart: hart as usize,
            address,
        }),
        PackedCommand::Fetch { hart, via, address } => CommandView::Step(Step::Fetch {
            hart: hart as usize,
            address,
            via: wide_or_none(via),
        }),
        PackedCommand::Load {
            width,
            hart,
            via,
            address,
        } => CommandView::Step(Step::Load {
            hart: hart as usize,
            address,
            width: width as u64,
            via: wide_or_none(via),
        }),
        PackedCommand::Store {
            width,
            hart,
            via,
            address,
            value,
        } => CommandView::Step(Step::Store {
            hart: hart as usize,
            address,
            width: width as u64,
            value,
            via: wide_or_none(via),
        }),
        PackedCommand::CopyIn {
            hart,
            count,
            address,
        } => CommandView::Step(Step::CopyIn {
            hart: hart as usize,
            address,
            count: count as usize,
        }),
        PackedCommand::Exec { hart, image } => CommandView::Made(Command::Exec {
            hart: hart as usize,
            image: image as usize,
        }),
        PackedCommand::On { hart, slot } => CommandView::Made(Command::On {
            hart: hart as usize,
            slot: slot as usize,
        }),
        PackedCommand::Enter { hart } => CommandView::Made(Command::Enter {
            hart: hart as usize,
        }),
        PackedCommand::Leave { hart } => CommandView::Made(Command::Leave {
            hart: hart as usize,
        }),
        PackedCommand::Fix { hart } => CommandView::Made(Command::Fix {
            hart: hart as usize,
        }),
        PackedCommand::Whole(place) => CommandView::Kept(&whole[place]),
    }
}

impl Commands {
    /// Returns an empty list.
    pub fn new(alloc: Global) -> Commands
        ensures { result ≡ [] }
    {
        Commands {
            packed: Vec::new(alloc),
            whole: Vec::new(alloc),
        }
    }

    /// Returns the number of lines after `boot`.
    pub fn len(&self) -> usize
        ensures { result ≡ length self.now }
    {
        self.packed.len()
    }

    /// Returns line `number`, counted from 0, which must be below `len`.
    pub fn get(&self, number: usize) -> CommandView<'_>
        requires { number < length self.now }
        ensures { model.shown result ≡ slice_index_or self.now number (model.shown result) }
    {
        unpack(self.packed[number], self.whole.as_slice())
    }

    /// Appends a line that is kept whole, as each `fork` or `mmap`; on `AllocError` the list is unchanged. Not inlined: loads and
    /// stores, most lines of most scripts, come here only with a number that is too large to pack.
    #[cold]
    #[inline(never)]
    fn push_whole(&mut self, line: Command) -> Result<(), AllocError>
        ensures pushed { OnOk result (self.new ≡ self.old ++ line ∷ []) }
        ensures kept { OnErr result (self.new ≡ self.old) }
    {
        self.packed.reserve(1)?;
        let place = self.whole.len();
        self.whole.push(line)?;
        self.packed.push_reserved(PackedCommand::Whole(place));
        Ok(())
    }

    /// Appends a line. Inlined, since a call would write the line to memory once more.
    ///
    /// # Errors
    /// `AllocError`: host memory was refused; the list is unchanged.
    #[inline(always)]
    pub fn push(&mut self, line: Command) -> Result<(), AllocError>
        ensures pushed { OnOk result (self.new ≡ self.old ++ line ∷ []) }
        ensures kept { OnErr result (self.new ≡ self.old) }
    {
        self.packed.reserve(1)?;
        match pack(&line) {
            Some(packed) => self.packed.push_reserved(packed),
            None => self.push_whole(line)?,
        }
        Ok(())
    }
}
