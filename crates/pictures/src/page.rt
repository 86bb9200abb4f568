// `Page`: a page of HTML in which a reader steps from line to line of a script: its beginning, each line, its end.

ghost use Rattle.std.specs.Prelude.{IfSome};
ghost use Rattle.hart_machine.specs.BufferEntries.{IsInWorld};
ghost use Rattle.process_model.specs.World.{World};

use crate::escape::put_escaped;
use crate::page_body::BODY;
use crate::page_script::SCRIPT;
use crate::page_style::STYLE;
use crate::views::{ShownParts, put_json};
use hart_machine::Machine;
use line_traces::{LineTrace, put_trace};
use std::alloc::{AllocError, Global};
use text_builder::Text;

/// What stands before the title.
const BEFORE_TITLE: &str = r#"<!doctype html>
<html lang="en">
<head>
<meta charset="utf-8">
<meta name="viewport" content="width=device-width, initial-scale=1">
<title>"#;

/// How a page begins.
#[derive(Clone, Copy)]
pub struct PageHead<'a> {
    pub title: &'a str,
    /// The number of the line at which it opens, from 1; else it opens at the first.
    pub line: Option<u64>,
    /// Whether it asks for the answer of each line before it shows it.
    pub quiz: bool,
}

/// A page, and what was put of it.
#[derive(Drop)]
pub struct Page {
    alloc: Global,
    shown: ShownParts,
}

impl Page {
    /// Returns a page of which nothing was put.
    pub fn new(alloc: Global) -> Page {
        Page {
            alloc,
            shown: ShownParts::new(alloc),
        }
    }

    /// Puts the beginning of a page.
    pub fn put_start(out: &mut Text, head: PageHead<'_>) {
        out.push_str(BEFORE_TITLE);
        put_escaped(out, head.title);
        out.push_str("</title>\n");
        out.push_str(STYLE);
        out.push_str("</head>\n<body");
        if let Some(number) = head.line {
            write!(out, " data-line=\"{number}\"");
        }
        if head.quiz {
            out.push_str(" data-quiz");
        }
        out.push_str(">\n");
        out.push_str(BODY);
    }

    /// Puts what a line changed of a machine as JSON; `null` if there is no machine.
    fn put_machine(&mut self, out: &mut Text, machine: Option<&Machine>)
        requires world { IfSome machine (λ m. (w : World) × IsInWorld m.now w) }
    {
        match machine {
            Some(machine) => self.shown.put_changes(out, machine),
            None => out.push_str("null"),
        }
    }

    /// Puts a line of a script, what happened on it and what it changed of the machine, as JSON in an element of its own.
    pub fn put_step(&mut self, out: &mut Text, trace: &LineTrace, machine: Option<&Machine>)
        requires world { IfSome machine (λ m. (w : World) × IsInWorld m.now w) }
    {
        self.shown.touch(trace.touched);
        let mut told = Text::new(self.alloc);
        put_trace(&mut told, trace);
        out.push_str("<script type=\"application/json\" class=\"step\">{\"trace\":");
        put_json(out, trace);
        out.push_str(",\"told\":");
        match told.finish() {
            Ok(told) => put_json(out, &told),
            Err(_) => out.note(Err(AllocError)),
        }
        out.push_str(",\"machine\":");
        self.put_machine(out, machine);
        out.push_str("}</script>\n");
    }

    /// Puts the end of a page.
    pub fn put_end(out: &mut Text) {
        out.push_str(SCRIPT);
    }
}
