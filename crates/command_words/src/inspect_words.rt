// `InspectWords`: a struct, what a command line of `inspect` says; `INSPECT`, its form.

use crate::misuse::Misuse;
use crate::options::{FILE, JSON, file_of, number_of};
use crate::words::{Argument, FLAG, OPTION, Word};
use clap::{ArgAction, ArgMatches};
use std::alloc::{AllocError, Global};
use sv39_entry::{KERNBASE, PAGE_SIZE};
use walk_rules::{AdScheme, Extensions};

/// A dump of physical memory is read, and it is printed what address spaces in it map.
#[derive(Drop)]
pub struct InspectWords {
    pub file: String,
    /// The physical page number of the dump's first byte.
    pub base: u64,
    /// The words of satp, one for each address space.
    pub satps: Vec<u64>,
    pub extensions: Extensions,
    /// Whether leaves with A or D clear are told.
    pub needing_update: bool,
    /// Whether JSON objects are printed in place of text.
    pub json: bool,
}

/// The word `inspect`.
pub static INSPECT: Word = Word {
    name: "inspect",
    about: "Look into a kernel: page tables, mappings and what is suspicious, in a dump of memory",
    arguments: &[
        row!(FILE; help: "The dump, as pmemsave of QEMU writes it; - is standard input"),
        row!(OPTION; name: "at", value_name: Some("ADDRESS"), help: "The physical address of the first byte, 0x80000000 if none is given"),
        row!(OPTION; name: "satp", value_name: Some("WORD"), action: ArgAction::Append, required: true,
            help: "A value of satp; once for each address space"),
        row!(FLAG; name: "svade", help: "Tell leaves with A clear, or with W and D clear, too"),
        row!(FLAG; name: "svnapot", help: "The hart has Svnapot: leaves of 64 KiB"),
        row!(FLAG; name: "svpbmt", help: "The hart has Svpbmt: memory types in leaves"),
        row!(JSON; help: "Print JSON objects, one a line"),
    ],
};

/// Returns the physical page number of the first byte of a dump.
///
/// # Errors
/// `Word`: `--at` is no number, or no multiple of 4,096. `Memory`: the host is out of memory.
fn base_of(alloc: Global, given: &ArgMatches<'_>) -> Result<u64, Misuse> {
    let address = match given.get_str("at") {
        Some(word) => number_of(alloc, "--at", word)?,
        None => KERNBASE,
    };
    if address % PAGE_SIZE != 0 {
        let text = format!(in alloc; "--at: 0x{address:x} is no multiple of {PAGE_SIZE}")?;
        return Err(Misuse::Word(text));
    }
    Ok(address / PAGE_SIZE)
}

/// Returns the values of satp.
///
/// # Errors
/// `Word`: one is no number. `Memory`: the host is out of memory.
fn satps_of(alloc: Global, given: &ArgMatches<'_>) -> Result<Vec<u64>, Misuse> {
    let mut satps = Vec::new(alloc);
    if let Some(words) = given.get_strs("satp") {
        for word in words {
            let satp = number_of(alloc, "--satp", word)?;
            satps.push(satp)?;
        }
    }
    Ok(satps)
}

impl InspectWords {
    /// Returns what the word is told.
    ///
    /// # Errors
    /// `Word`: a number is wrong. `Memory`: the host is out of memory.
    pub fn of(alloc: Global, given: &ArgMatches<'_>) -> Result<InspectWords, Misuse> {
        Ok(InspectWords {
            file: file_of(alloc, given)?,
            base: base_of(alloc, given)?,
            satps: satps_of(alloc, given)?,
            extensions: Extensions {
                svnapot: given.get_flag("svnapot"),
                svpbmt: given.get_flag("svpbmt"),
                ad: AdScheme::Either,
            },
            needing_update: given.get_flag("svade"),
            json: given.get_flag("json"),
        })
    }
}
