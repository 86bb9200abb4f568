//! What scripts do. A theorem about their language (`script_language`): the text of every accepted script has, line by line, the
//! replies of one run of the model, which meet the headline of `process_laws` (what a process may rely on). It is the `ensures`
//! clause of a function that does nothing.
//!
//! And tests of the model (`process_model`), in `proofs/`, a file for each subject: whole scripts, each with the text that
//! playing it writes or the fault for which it is refused, and some equations, computed from the definitions. `proofs/Playing`
//! defines their row types, `proofs/Openings` and `proofs/ElfFiles` what many scripts share.
#![tactic(auto)]

ghost use Rattle.std.specs.Prelude.{◌≡◌, List, Ok, ℕ};
ghost use Rattle.script_language.specs.Script.{Script, script_of};
ghost use Rattle.script_laws.specs.ScriptRuns.{IsTextOfRun};

/// For every script that is accepted, the text to write for it (`text_of`) has, line by line, the replies to the steps of
/// one run since boot, and these replies meet the headline (`IsTextOfRun`).
pub fn script_text_is_a_run()
    ensures { (bytes : List ℕ) (s : Script) → script_of bytes ≡ Ok s → IsTextOfRun s }
{}
