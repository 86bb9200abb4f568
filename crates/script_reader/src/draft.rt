// `Draft`, a struct: the files, images, configuration and commands of the script lines read so far. Functions: whether the
// next line may have a word (order), whether there is room for an item (what a line declares or commands), and adding one.

ghost use Rattle.std.specs.Prelude.{◌≡◌, ◌&&◌, OnOk, OnErr, is_some, length, nat_lt};
ghost use Rattle.script_language.specs.declared.script.Item.TheVariants as item;
ghost use Rattle.script_language.specs.Script as words;

use crate::commands::Commands;
use crate::push::push;
use process_model::{Config, FileText, MOST_FILES};
use script_language::{Command, Item, Keyword, MOST_COMMANDS, MOST_IMAGES, OwnedImage};
use std::alloc::{AllocError, Global};
use std::marker::Model;

/// What the lines of a script read so far declare and command.
#[derive(Drop)]
pub struct Draft {
    files: Vec<FileText>,
    images: Vec<OwnedImage>,
    config: Option<Config>,
    commands: Commands,
}

impl Model for Draft {
    ghost use Rattle.script_language.specs.Script as words;

    ghost Value = { words.Draft };

    ghost view = { λ d. record { files = d.files.items; images = d.images.items; config = d.config; commands = d.commands } };
}

/// Whether lines with this word precede the steps: declarations, and `boot`.
fn comes_first(word: Keyword) -> bool
    ensures { result ≡ words.comes_first word }
{
    matches!(
        word,
        Keyword::File | Keyword::Image | Keyword::Elf | Keyword::Boot
    )
}

impl Draft {
    /// Returns the draft of no lines.
    pub fn new(alloc: Global) -> Draft
        ensures { result ≡ words.no_lines }
    {
        Draft {
            files: Vec::new(alloc),
            images: Vec::new(alloc),
            config: None,
            commands: Commands::new(alloc),
        }
    }

    /// Returns the files that were declared.
    pub fn files(&self) -> &[FileText]
        ensures { result.now ≡ (self.now).files }
    {
        self.files.as_slice()
    }

    /// Returns the images that were declared.
    pub fn images(&self) -> &[OwnedImage]
        ensures { result.now ≡ (self.now).images }
    {
        self.images.as_slice()
    }

    /// Whether the next line may have this word: until `boot` was read a declaration or `boot`, from then on any other.
    pub fn in_order(&self, word: Keyword) -> bool
        ensures { result ≡ words.in_order self.now word }
    {
        comes_first(word) != self.config.is_some()
    }

    /// Whether an image of this number was declared; they are numbered from 0.
    pub fn has_image(&self, number: usize) -> bool
        ensures { result ≡ words.has_image self.now number }
    {
        number < self.images.len()
    }

    /// Whether a file of this number was declared; they are numbered from 0.
    pub fn has_file(&self, number: usize) -> bool
        ensures { result ≡ words.has_file self.now number }
    {
        number < self.files.len()
    }

    /// Whether the script may have one more item of this kind.
    pub fn has_room(&self, item: &Item) -> bool
        ensures { result ≡ words.has_room self.now item.now }
    {
        match item {
            Item::File(_) => self.files.len() < MOST_FILES,
            Item::Image(_) => self.images.len() < MOST_IMAGES,
            Item::Boot(_) => true,
            Item::Command(_) => self.commands.len() < MOST_COMMANDS,
        }
    }

    /// Adds the item of a line after those of the lines before it.
    ///
    /// # Errors
    /// `AllocError`: host memory was refused; the draft is unchanged.
    pub fn add(&mut self, item: Item) -> Result<(), AllocError>
        ensures added { OnOk result (self.new ≡ words.with_item self.old item) }
        ensures kept { OnErr result (self.new ≡ self.old) }
    {
        match item {
            Item::File(file) => push(&mut self.files, file),
            Item::Image(image) => push(&mut self.images, image),
            Item::Boot(config) => {
                self.config = Some(config);
                Ok(())
            }
            Item::Command(command) => self.commands.push(command),
        }
    }

    /// Whether `boot` was read, and the script may have one more line after it.
    pub fn takes_commands(&self) -> bool
        ensures { result ≡ (is_some (self.now).config && nat_lt (length (self.now).commands) MOST_COMMANDS) }
    {
        self.config.is_some() && self.commands.len() < MOST_COMMANDS
    }

    /// Adds a command after those of the lines before it. Inlined, since the caller may know which command it is.
    ///
    /// # Errors
    /// `AllocError`: host memory was refused; the draft is unchanged.
    #[inline(always)]
    pub fn add_command(&mut self, command: Command) -> Result<(), AllocError>
        ensures added { OnOk result (self.new ≡ words.with_item self.old (item.Command command)) }
        ensures kept { OnErr result (self.new ≡ self.old) }
    {
        self.commands.push(command)
    }

    /// Returns the files, the images, the configuration (`None` if no line was a `boot`) and the commands.
    pub fn into_parts(self) -> (Vec<FileText>, Vec<OwnedImage>, Option<Config>, Commands)
        ensures files { result.0.items ≡ self.files }
        ensures images { result.1.items ≡ self.images }
        ensures config { result.2 ≡ self.config }
        ensures commands { result.3 ≡ self.commands }
    {
        let Draft {
            files,
            images,
            config,
            commands,
        } = self;
        (files, images, config, commands)
    }
}
