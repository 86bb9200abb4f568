//! The part of the C library that plays scripts: `xv6vm_play`, from the bytes of a script to the bytes of its text, and `Played`,
//! how that ended. `xv6vm.h` of `xv6vm_c` declares it. Nothing checks a caller in C, so it has an answer for all that C can pass.
#![tactic(auto)]

ghost use Rattle.std.specs.Prelude.{◌≡◌, ◌≢◌, ◌<◌, ◌⊎◌, length, take, drop, Ok, Err};
ghost use Rattle.script_language.specs.Script.{Script, script_of};
ghost use Rattle.script_language.specs.Text.{text_of};
ghost use Rattle.script_language.specs.declared.script.Cause.{Cause as ScriptCause};
ghost use Rattle.xv6vm_play_c.specs.Causes.{cause_number};

use audit_player::{PlayError, Reader, Writer, play};
use script_language::Cause;
use std::alloc::Global;

/// How the play of a script ended. What does not belong to its status is 0.
#[repr(C)]
#[derive(Clone, Copy, PartialEq, Eq, Debug)]
pub struct Played {
    /// 0: played, and its text is in the buffer; 21: the host refused memory; 23: the script is at fault; 25: its text has more
    /// bytes than the buffer.
    pub status: u32,
    /// Of status 23 the cause: 1 `TooLong`, 2 `NotAscii`, 3 `Word`, 4 `Order`, 5 `Count`, 6 `Number`, 7 `Field`, 8 `Limits`,
    /// 9 `TooMany` of `script_language::Cause`.
    pub cause: u32,
    /// Of status 23 the first line at fault, from 1; 0 is the script as a whole.
    pub line: u64,
}

/// Plays a script: boots its machine, makes its steps, and puts its text, the answers of `boot` and of the lines after it, at
/// the front of `text`. `written` becomes the number of bytes of the whole text, also if it does not fit; 0 if there is none.
/// Unless all of the text fits, `text` is as it was. Takes memory from the host, and gives all of it back.
#[unsafe(no_mangle)]
pub extern "C" fn xv6vm_play(
    alloc: Global,
    script: &[u8],
    text: &mut [u8],
    written: &mut usize,
) -> Played
    ensures played { result.status ≡ 0 → (s : Script) × (script_of script.now ≡ Ok s) × (take written.new text.new ≡ text_of s)
        × (written.new ≡ length (text_of s)) }
    ensures rest { result.status ≡ 0 → drop written.new text.new ≡ drop written.new text.old }
    ensures refused { result.status ≡ 23 → (c : ScriptCause) × (script_of script.now ≡ Err (result.line, c)) × (result.cause ≡ cause_number c) }
    ensures too_long { result.status ≡ 25 → (s : Script) × (script_of script.now ≡ Ok s) × (written.new ≡ length (text_of s))
        × (length text.old < written.new) }
    ensures stays { result.status ≢ 0 → text.new ≡ text.old }
    ensures nothing { result.status ≢ 0 → result.status ≢ 25 → written.new ≡ 0 }
    ensures zero { result.status ≢ 23 → (result.cause ≡ 0) × (result.line ≡ 0) }
    ensures code { (result.status ≡ 0) ⊎ ((result.status ≡ 21) ⊎ ((result.status ≡ 23) ⊎ (result.status ≡ 25))) }
{
    *written = 0;
    let mut reader = Reader::new(script);
    let mut writer = Writer::new(Vec::new(alloc));
    match play(alloc, &mut reader, &mut writer) {
        Ok(()) => {}
        Err(PlayError::Script(line, cause)) => {
            return Played {
                status: 23,
                cause: number_of(cause),
                line,
            };
        }
        // bytes in memory are read without an error, and written without one but for want of memory
        Err(PlayError::Memory | PlayError::Io) => return ended(21),
    }
    let answers = writer.into_inner();
    *written = answers.len();
    if answers.len() > text.len() {
        return ended(25);
    }
    let (front, _) = text.split_at_mut(answers.len());
    front.copy_from_slice(answers.as_slice());
    ended(0)
}

/// Returns the end of a play with a status other than 23.
fn ended(status: u32) -> Played
    ensures { result ≡ record { status = status; cause = 0; line = 0 } }
{
    Played {
        status,
        cause: 0,
        line: 0,
    }
}

/// Returns the number of a cause.
fn number_of(cause: Cause) -> u32
    ensures { result ≡ cause_number cause }
{
    match cause {
        Cause::TooLong => 1,
        Cause::NotAscii => 2,
        Cause::Word => 3,
        Cause::Order => 4,
        Cause::Count => 5,
        Cause::Number => 6,
        Cause::Field => 7,
        Cause::Limits => 8,
        Cause::TooMany => 9,
    }
}
