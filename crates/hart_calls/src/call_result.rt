// `CallResult` (enum): how a call that is neither fork nor exit ended in its process's space, before its journal entry is
// made: answered, a copy stopped by the files, the process to be ended by a rule, or the call not made since the files
// refused to promise its page (to reserve the reading of it).

use crate::journal_reply::JournalReply;
use process_model::Refusal;
use sv39_entry::Rule;

/// The result of a call that is neither fork nor exit.
#[derive(Drop)]
pub(crate) enum CallResult {
    /// The model's reply. The process continues, and no child begins.
    Answered(JournalReply),
    /// A copy that stopped after this number of bytes, because the files refused to promise the page of the next byte.
    Unpromised(Refusal, usize),
    /// The kernel ends the process by this rule.
    Ended(Rule),
    /// The files refused to promise the page that an access would read. The call was not made, and the process ends.
    Unserved(Refusal),
}
