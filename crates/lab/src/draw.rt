// The machine of a script, drawn: `DrawLines` draws it after the last line; `KeptLines` keeps a script that is played to its end, of
// which `PageLines` then writes a page to step through, on `Paper`.

ghost use Rattle.line_player.specs.Answers.{HasPlayed};
ghost use Rattle.line_player.specs.PlayedLines.{Played};

use handouts::split;
use lab_host::{ChosenLine, Fault, Listener, Place, Printout, played, tell_end};
use line_player::{LinePlayer, LineReply};
use line_traces::{Ledger, trace_line};
use pictures::{Page, PageHead, put_picture};
use std::alloc::{AllocError, Global};
use std::io::Write;
use text_builder::Text;

/// Draws the machine after the last line.
#[derive(Drop)]
pub struct DrawLines<'a> {
    file: &'a str,
    /// The picture (SVG), at the end.
    pub text: Text,
}

impl<'a> DrawLines<'a> {
    /// Returns a drawing of a script of which nothing was read.
    pub fn new(alloc: Global, file: &'a str) -> DrawLines<'a> {
        DrawLines {
            file,
            text: Text::new(alloc),
        }
    }
}

impl Listener for DrawLines<'_> {
    fn line(
        &mut self,
        out: &mut Printout,
        player: &mut LinePlayer,
        number: u64,
        line: &[u8],
    ) -> Result<(), AllocError> {
        let place = Place {
            file: self.file,
            line: number,
        };
        played(out, place, player, split(line).line)?;
        Ok(())
    }

    fn end(&mut self, out: &mut Printout, player: &LinePlayer, lines: u64) {
        tell_end(out, self.file, player, lines);
        if let Some(machine) = player.machine() {
            put_picture(&mut self.text, machine);
        }
    }
}

/// Keeps the lines of a script, without the answers that they expect, and plays them.
#[derive(Drop)]
pub struct KeptLines<'a> {
    file: &'a str,
    /// The line at which the page opens, if one is named.
    chosen: Option<ChosenLine>,
    /// The lines so far, each with its line feed.
    pub text: Vec<u8>,
}

impl<'a> KeptLines<'a> {
    /// Returns what is kept of a script of which nothing was read.
    pub fn new(alloc: Global, file: &'a str, chosen: Option<ChosenLine>) -> KeptLines<'a> {
        KeptLines {
            file,
            chosen,
            text: Vec::new(alloc),
        }
    }
}

impl Listener for KeptLines<'_> {
    fn line(
        &mut self,
        out: &mut Printout,
        player: &mut LinePlayer,
        number: u64,
        line: &[u8],
    ) -> Result<(), AllocError> {
        let place = Place {
            file: self.file,
            line: number,
        };
        let bare = split(line).line;
        let reply = played(out, place, player, bare)?;
        if let (Some(chosen), LineReply::Text) = (&mut self.chosen, reply) {
            chosen.pass(number);
        }
        self.text.extend_from_slice(bare)?;
        self.text.extend_from_slice(b"\n")
    }

    fn end(&mut self, out: &mut Printout, player: &LinePlayer, lines: u64) {
        tell_end(out, self.file, player, lines);
        if let Some(chosen) = &self.chosen {
            chosen.tell_missing(out, self.file, lines);
        }
    }
}

/// Where a page is written.
#[derive(Drop)]
pub enum Paper<'a, W> {
    /// Standard output.
    Screen,
    /// A file, with its path.
    File(&'a str, W),
}

/// Writes a page to step through, line by line.
#[derive(Drop)]
pub struct PageLines<'a, W> {
    alloc: Global,
    paper: Paper<'a, W>,
    page: Page,
    ledger: Ledger,
}

impl<'a, W: Write + Drop> PageLines<'a, W> {
    /// Returns a page of which nothing was written.
    pub fn new(alloc: Global, paper: Paper<'a, W>) -> PageLines<'a, W> {
        PageLines {
            alloc,
            paper,
            page: Page::new(alloc),
            ledger: Ledger::new(alloc),
        }
    }

    /// Writes what comes next on the page.
    fn put(&mut self, out: &mut Printout, text: Text) {
        let Ok(text) = text.finish() else {
            return out.fail(Fault::Memory);
        };
        match &mut self.paper {
            Paper::Screen => out.out.push_str(text.as_str()),
            Paper::File(name, file) => {
                if let Err(error) = file.write_all(text.as_bytes()) {
                    out.fail(Fault::of_file(self.alloc, name, error));
                }
            }
        }
    }

    /// Writes the beginning of a page.
    pub fn begin(&mut self, out: &mut Printout, head: PageHead<'_>) {
        let mut text = Text::new(self.alloc);
        Page::put_start(&mut text, head);
        self.put(out, text)
    }
}

impl<W: Write + Drop> Listener for PageLines<'_, W> {
    fn line(
        &mut self,
        out: &mut Printout,
        player: &mut LinePlayer,
        number: u64,
        line: &[u8],
    ) -> Result<(), AllocError> {
        let mut trace = trace_line(self.alloc, player, number, split(line).line)?;
        self.ledger.add(&mut trace, player.machine())?;
        let mut text = Text::new(self.alloc);
        self.page.put_step(&mut text, &trace, player.machine());
        self.put(out, text);
        Ok(())
    }

    fn end(&mut self, out: &mut Printout, _player: &LinePlayer, _lines: u64) {
        let mut text = Text::new(self.alloc);
        Page::put_end(&mut text);
        self.put(out, text)
    }
}
