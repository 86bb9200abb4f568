// `LinePlayer`, a struct: what the lines of a script so far declared, and the machine once one was booted; and `LineReply`, an enum, how a
// line was answered.

ghost use Rattle.std.specs.Prelude.{◌≡◌, [], IfOk, IfSome, is_some, OnErr, Some};
ghost use Rattle.hart_machine.specs.BufferEntries.{IsInWorld};
ghost use Rattle.process_model.specs.World.{World};
ghost use Rattle.script_language.specs.declared.script.Item.TheVariants as item;
ghost use Rattle.script_reader.specs.Playable.{CanBoot, IsDeclared};
ghost use Rattle.line_player.specs.PlayedLines as played;
ghost use Rattle.line_player.specs.Answers.{Answers, HasPlayed};

use audit_player::{boot, put_answer};
use file_cabinet::Cabinet;
use hart_machine::Machine;
use process_model::Config;
use script_language::{Cause, Command, Item, LONGEST_TEXT, put};
use script_reader::{Draft, LineFault, line_item, lines_fit, trim_return};
use std::alloc::{AllocError, Global};

/// How a line was answered.
#[derive(Clone, Copy, PartialEq, Eq)]
pub enum LineReply {
    /// It is empty, a comment or a declaration.
    Nothing,
    /// By a text, `LinePlayer::answer`.
    Text,
    /// It has a fault, and nothing was done.
    Refused(Cause),
}

/// A script that is played line by line: what the lines so far declared, the machine once one was booted, and the last answer.
#[derive(Drop)]
pub struct LinePlayer {
    alloc: Global,
    draft: Draft,
    machine: Option<Machine>,
    answer: Vec<u8>,
}

impl LinePlayer {
    /// Returns a player that has taken no line.
    ///
    /// # Errors
    /// `AllocError`: host memory was refused.
    #[tactic(auto, using(crate::proofs::Still::begun))]
    pub fn new(alloc: Global) -> Result<LinePlayer, AllocError>
        ensures nothing { IfOk result (λ x. HasPlayed x played.nothing_played) }
        ensures plays { IfOk result (λ x. (s : played.Played) × HasPlayed x s) }
    {
        LinePlayer::of_no_lines(alloc)
    }

    /// `new`; what it has played is that it has played nothing.
    fn of_no_lines(alloc: Global) -> Result<LinePlayer, AllocError>
        ensures { IfOk result (λ x. HasPlayed x played.nothing_played) }
    {
        // by this law no lines are sound
        lines_fit();
        Ok(LinePlayer {
            alloc,
            draft: Draft::new(alloc),
            machine: None,
            answer: Vec::with_capacity(alloc, LONGEST_TEXT)?,
        })
    }

    /// Returns the machine, once one was booted; `None` before that.
    #[tactic(auto, using(crate::proofs::Still::in_world))]
    pub fn machine(&self) -> Option<&Machine>
        requires played { (s : played.Played) × HasPlayed self.now s }
        ensures booted { (s : played.Played) → HasPlayed self.now s → is_some result ≡ is_some s.world }
        ensures world { (s : played.Played) → HasPlayed self.now s → IfSome result (λ m. (w : World) × (s.world ≡ Some w) × IsInWorld m.now w) }
        ensures some { IfSome result (λ m. (w : World) × IsInWorld m.now w) }
    {
        match &self.machine {
            Some(machine) => Some(machine),
            None => None,
        }
    }

    /// Returns what the lines so far declared.
    pub fn draft(&self) -> &Draft
        ensures { (s : played.Played) → HasPlayed self.now s → result.now ≡ s.draft }
    {
        &self.draft
    }

    /// Returns the text by which the last line was answered, without a line end; empty if it was answered otherwise.
    pub fn answer(&self) -> &[u8]
        ensures { result.now ≡ self.now.answer.items }
    {
        self.answer.as_slice()
    }

    /// Takes the next line, without its end, and answers it as `play` would.
    ///
    /// # Errors
    /// `AllocError`: host memory was refused; nothing was done.
    #[tactic(auto, using(crate::proofs::Still::still))]
    pub fn line(&mut self, line: &[u8]) -> Result<LineReply, AllocError>
        requires played { (s : played.Played) × HasPlayed self.old s }
        ensures answered { IfOk result (λ reply. (s : played.Played) → HasPlayed self.old s → Answers self.new reply (played.next_answer s line.now)) }
        ensures kept { OnErr result ((s : played.Played) → HasPlayed self.old s → HasPlayed self.new s) }
        ensures plays { (s : played.Played) × HasPlayed self.new s }
    {
        self.take(line)
    }

    /// `line`; what it plays is what its answers say.
    fn take(&mut self, line: &[u8]) -> Result<LineReply, AllocError>
        requires played { (s : played.Played) × HasPlayed self.old s }
        ensures answered { IfOk result (λ reply. (s : played.Played) → HasPlayed self.old s → Answers self.new reply (played.next_answer s line.now)) }
        ensures kept { OnErr result ((s : played.Played) → HasPlayed self.old s → HasPlayed self.new s) }
    {
        // by this law what a line says fits the lines before it
        lines_fit();
        self.answer.clear();
        match line_item(self.alloc, &self.draft, trim_return(line)) {
            Ok(None) => Ok(LineReply::Nothing),
            Ok(Some(Item::Command(command))) => Ok(self.command(&command)),
            Ok(Some(Item::Boot(config))) => self.boot(config),
            Ok(Some(item)) => {
                self.draft.add(item)?;
                Ok(LineReply::Nothing)
            }
            Err(LineFault::Memory) => Err(AllocError),
            Err(LineFault::Cause(cause)) => Ok(LineReply::Refused(cause)),
        }
    }

    /// Plays a command, whose image or file must be declared, if a machine was booted.
    fn command(&mut self, command: &Command) -> LineReply
        requires played { (s : played.Played) × HasPlayed self.old s }
        requires declared { IsDeclared (self.old.draft).files (self.old.draft).images command.now }
        requires empty { self.old.answer.items ≡ [] }
        ensures { (s : played.Played) → HasPlayed self.old s → Answers self.new result (played.command_answer s s.world command.now) }
    {
        let Some(machine) = &mut self.machine else {
            return LineReply::Nothing;
        };
        put_answer(machine, self.draft.images(), command, &mut self.answer);
        LineReply::Text
    }

    /// Boots a machine, whose sizes must keep the limits, with the files that were declared.
    ///
    /// # Errors
    /// `AllocError`: host memory was refused; nothing was done.
    fn boot(&mut self, config: Config) -> Result<LineReply, AllocError>
        requires played { (s : played.Played) × HasPlayed self.old s }
        requires limits { CanBoot config }
        requires empty { self.old.answer.items ≡ [] }
        ensures answered { IfOk result (λ reply. (s : played.Played) → HasPlayed self.old s
            → Answers self.new reply (played.item_answer s (item.Boot config))) }
        ensures kept { OnErr result ((s : played.Played) → HasPlayed self.old s → HasPlayed self.new s) }
    {
        let files = Cabinet::new(self.alloc, self.draft.files())?;
        let machine = boot(self.alloc, config, files)?;
        self.draft.add(Item::Boot(config))?;
        self.machine = Some(machine);
        put(&mut self.answer, b"ok");
        Ok(LineReply::Text)
    }
}
