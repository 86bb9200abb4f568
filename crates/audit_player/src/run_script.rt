// `run`: plays a parsed script: boots its machine, plays its lines one by one, and writes the answers in pieces while the
// machine runs; `boot` and `prepare` allocate all that it needs.

ghost use Rattle.std.specs.Prelude.{◌≡◌, ◌↔◌, ◌≤◌, ◌+◌, false, [], map, IfOk, IsTrue, IsErrOf, vec_capacity};
ghost use Rattle.hart_machine.specs.BufferEntries.{IsInWorld};
ghost use Rattle.process_model.specs.Files.{file_of};
ghost use Rattle.process_model.specs.World.{booted};
ghost use Rattle.script_reader.specs.Playable.{CanBoot, IsPlayable};
ghost use Rattle.audit_player.specs.PlayResult.{PlaysScript};

use crate::commands::put_line;
use crate::fault::PlayError;
use crate::sink::Sink;
use crate::text_block::BLOCK;
use crate::transfer::write_all;
use file_cabinet::Cabinet;
use hart_machine::{BootError, Machine};
use process_model::Config;
use script_language::{LONGEST_TEXT, put};
use script_reader::Script;
use std::alloc::{AllocError, Global};

/// Boots a machine with these files, which it takes, and returns it. Its sizes must keep the limits.
///
/// # Errors
/// `AllocError`: host memory was refused.
pub fn boot(alloc: Global, config: Config, files: Cabinet) -> Result<Machine, AllocError>
    requires limits { CanBoot config }
    ensures { IfOk result (λ machine. IsInWorld machine (booted config files)) }
{
    match Machine::boot(alloc, config, files) {
        Ok(machine) => Ok(machine),
        Err(BootError::Memory) => Err(AllocError),
        Err(BootError::BadArgument) => unreachable!(),
    }
}

/// Takes all the memory of a run: the machine of a script, booted, and an empty block for its text.
fn prepare(alloc: Global, script: &Script) -> Result<(Machine, Vec<u8>), AllocError>
    requires playable { IsPlayable script.now }
    ensures machine { IfOk result (λ made. IsInWorld made.0 (booted script.now.config (map file_of script.now.files))) }
    ensures block { IfOk result (λ made. made.1.items ≡ []) }
    ensures room { IfOk result (λ made. BLOCK + LONGEST_TEXT + 1 ≤ vec_capacity made.1) }
{
    let files = Cabinet::new(alloc, script.files())?;
    let machine = boot(alloc, script.config(), files)?;
    let block = Vec::with_capacity(alloc, BLOCK + LONGEST_TEXT + 1)?;
    Ok((machine, block))
}

/// Plays a parsed script, and writes its answers: a line for `boot`, and one for each line after it. The script must be
/// playable, as one that the reader of scripts returns is.
///
/// # Errors
/// `Memory`: host memory was refused; nothing is written. `Io`: exactly when the writer fails in this call, if it had not
/// failed before; a prefix of the text is written. No step is made after a write that failed.
pub fn run<W: Sink>(alloc: Global, script: &Script, writer: &mut W) -> Result<(), PlayError>
    requires playable { IsPlayable script.now }
    ensures plays { PlaysScript (W.contents writer.old) (W.contents writer.new) result (Ok script.now) }
    ensures io { W.broken writer.old ≡ false → (IsErrOf result PlayError.Io ↔ IsTrue (W.broken writer.new)) }
{
    let Ok((mut machine, mut block)) = prepare(alloc, script) else {
        return Err(PlayError::Memory);
    };
    let images = script.images();
    let commands = script.commands();
    put(&mut block, b"ok\n");
    'lines: for number in 0..commands.len() {
        put_line(&mut machine, images, commands.get(number), &mut block);
        block.push_reserved(b'\n');
        if block.len() < BLOCK {
            continue;
        }
        if !write_all(writer, block.as_slice()) {
            return Err(PlayError::Io);
        }
        block.clear();
    }
    if write_all(writer, block.as_slice()) {
        Ok(())
    } else {
        Err(PlayError::Io)
    }
}
