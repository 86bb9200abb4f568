// `Script`, a struct: a parsed script (files, images, the configuration of `boot`, the lines after it) with functions that
// return these parts, and `Script::read`, which parses a whole text.

ghost use Rattle.std.specs.Prelude.{◌≡◌, ◌+◌, ◌<◌, IfOk};
ghost use Rattle.script_language.specs.Script as words;
ghost use Rattle.script_reader.specs.ReadResults.{GivesScript};
ghost use Rattle.script_reader.specs.Playable.{IsPlayable};

use crate::commands::Commands;
use crate::draft::Draft;
use crate::fault::ScriptError;
use crate::piece_reader::PieceReader;
use process_model::{Config, FileText};
use script_language::{Cause, LONGEST_SCRIPT, OwnedImage};
use std::alloc::Global;
use std::marker::Model;

/// A parsed script: the files and images that it declares, the configuration of its `boot`, and the lines after `boot`.
#[derive(Drop)]
pub struct Script {
    files: Vec<FileText>,
    images: Vec<OwnedImage>,
    config: Config,
    commands: Commands,
}

impl Model for Script {
    ghost use Rattle.script_language.specs.Script as words;

    ghost Value = { words.Script };

    ghost view = { λ s. record { files = s.files.items; images = s.images.items; config = s.config; commands = s.commands } };
}

impl Script {
    /// Parses a whole script. A script that is returned can be played (`IsPlayable`): only a step can still be refused.
    ///
    /// # Errors
    /// `Line(n, cause)`: the script's first fault, in line `n`, counted from 1. Line 0: the script has more than
    /// 16,777,216 bytes. The line after the last, with `Order`: no line has a fault, and none is a `boot`.
    /// `Memory`: host memory was refused.
    pub fn read(alloc: Global, bytes: &[u8]) -> Result<Script, ScriptError>
        ensures read { GivesScript (λ s. s) result (words.script_of bytes.now) }
        ensures playable { IfOk result IsPlayable }
    {
        if bytes.len() > LONGEST_SCRIPT {
            return Err(ScriptError::Line(0, Cause::TooLong));
        }
        let mut reading = PieceReader::new(alloc);
        let Ok(()) = reading.add(bytes) else {
            return Err(ScriptError::Memory);
        };
        reading.finish()
    }

    /// Makes the script of a draft that was read from `lines` lines, at most `LONGEST_SCRIPT`.
    ///
    /// # Errors
    /// `Line(lines + 1, Order)`: no line was a `boot`.
    pub(crate) fn of(draft: Draft, lines: u64) -> Result<Script, ScriptError>
        requires { lines < LONGEST_SCRIPT + 1 }
        ensures { GivesScript (λ s. s) result (words.whole_with draft lines (draft.config)) }
    {
        let (files, images, config, commands) = draft.into_parts();
        match config {
            Some(config) => Ok(Script {
                files,
                images,
                config,
                commands,
            }),
            None => Err(ScriptError::Line(lines + 1, Cause::Order)),
        }
    }

    /// Returns the declared files; the index is the file's number.
    pub fn files(&self) -> &[FileText]
        ensures { result.now ≡ (self.now).files }
    {
        self.files.as_slice()
    }

    /// Returns the declared images; the index is the image's number.
    pub fn images(&self) -> &[OwnedImage]
        ensures { result.now ≡ (self.now).images }
    {
        self.images.as_slice()
    }

    /// Returns the configuration that `boot` names: sizes, policy and scheme.
    pub fn config(&self) -> Config
        ensures { result ≡ (self.now).config }
    {
        self.config
    }

    /// Returns the lines after `boot`, in order, without those that are skipped.
    pub fn commands(&self) -> &Commands
        ensures { result.now ≡ (self.now).commands }
    {
        &self.commands
    }
}
