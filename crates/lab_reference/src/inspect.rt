// `put_dump`: puts what address spaces in a dump of physical memory map, and what is suspicious about them.

use command_words::InspectWords;
use lab_host::{Fault, Printout, put_object};
use std::alloc::{AllocError, Global};
use sv39_entry::Satp;
use table_dumps::{
    Dump, EntryLine, Finding, FindingLine, FindingObject, Findings, Leaves, RunLine, Space,
    SpaceLine, SpaceObject, TablesLine, leaf_findings, outside_findings, reserved_findings,
    runs_of, shared_findings, table_findings,
};
use text_builder::Text;
use walk_rules::Extensions;

/// Returns the address spaces of the command line.
///
/// # Errors
/// `Told`: one of them cannot be listed; that was told. `Memory`: the host is out of memory.
fn spaces_of(
    out: &mut Printout,
    words: &InspectWords,
    dump: &Dump<'_>,
) -> Result<Vec<Space>, Fault> {
    let alloc = out.allocator();
    let mut spaces = Vec::new(alloc);
    'satps: for word in &words.satps {
        let satp = Satp::from_word(*word);
        match Space::read(alloc, dump, words.extensions, satp) {
            Ok(space) => spaces.push(space)?,
            Err(error) => {
                let file = words.file.as_str();
                out.tell(format_args!("{file}: satp 0x{word:x}: {error}\n"));
                return Err(Fault::Told);
            }
        }
    }
    Ok(spaces)
}

/// Returns all that is suspicious.
fn findings_of(
    alloc: Global,
    words: &InspectWords,
    dump: &Dump<'_>,
    spaces: &[Space],
) -> Result<Vec<Finding>, AllocError> {
    let x = words.extensions;
    let leaves = Leaves {
        needing_update: words.needing_update,
    };
    let mut found = Findings::new(alloc);
    for (number, space) in spaces.iter().enumerate() {
        outside_findings(dump, x, number, space, &mut found);
        reserved_findings(dump, x, number, space, &mut found);
        leaf_findings(dump, number, space, leaves, &mut found);
    }
    table_findings(alloc, dump, x, spaces, &mut found);
    shared_findings(alloc, spaces, &mut found);
    found.finish()
}

/// Appends the page tables of an address space, as `vmprint` prints them.
fn put_tables(out: &mut Text, number: usize, space: &Space) {
    let line = SpaceLine {
        number,
        satp: space.satp,
        top: space.top,
    };
    let tables = TablesLine {
        root: space.satp.ppn(),
    };
    write!(out, "{line}\n{tables}\n");
    'entries: for entry in &space.entries {
        let line = EntryLine {
            top: space.top,
            entry: *entry,
        };
        writeln!(out, "{line}");
    }
}

/// Appends the mappings of an address space, by runs.
fn put_runs(out: &mut Text, space: &Space) {
    let Ok(runs) = runs_of(out.allocator(), space) else {
        return out.note(Err(AllocError));
    };
    let (mappings, count) = (space.mappings.len(), runs.len());
    writeln!(out, "mappings: {mappings}, in {count} runs");
    'runs: for run in &runs {
        let line = RunLine {
            run: *run,
            top: space.top,
        };
        writeln!(out, "{line}");
    }
    out.push_str("\n")
}

/// Appends address spaces, and what is suspicious.
fn put_text(out: &mut Text, spaces: &[Space], found: &[Finding]) {
    for (number, space) in spaces.iter().enumerate() {
        put_tables(out, number, space);
        put_runs(out, space);
    }
    let count = found.len();
    writeln!(out, "suspicious: {count}");
    'findings: for finding in found {
        let line = FindingLine(finding);
        writeln!(out, "{line}");
    }
}

/// Appends address spaces, and what is suspicious, as JSON objects, one a line.
fn put_objects(out: &mut Text, extensions: Extensions, spaces: &[Space], found: &[Finding]) {
    for (number, space) in spaces.iter().enumerate() {
        let object = SpaceObject {
            number,
            space,
            extensions,
        };
        put_object(out, &object);
    }
    for finding in found {
        put_object(out, &FindingObject(finding));
    }
}

/// Puts each address space of a dump, then what is suspicious.
///
/// # Errors
/// `Told`: an address space cannot be listed; that was told. `Memory`: the host is out of memory.
pub fn put_dump(out: &mut Printout, words: &InspectWords, bytes: &[u8]) -> Result<(), Fault> {
    let dump = Dump::new(words.base, bytes);
    let spaces = spaces_of(out, words, &dump)?;
    let (spaces, alloc) = (spaces.as_slice(), out.allocator());
    let found = findings_of(alloc, words, &dump, spaces)?;
    let found = found.as_slice();
    if words.json {
        put_objects(&mut out.out, words.extensions, spaces, found);
    } else {
        put_text(&mut out.out, spaces, found);
    }
    Ok(())
}
