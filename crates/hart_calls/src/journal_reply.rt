// `JournalReply` (struct): a reply as a journal (a process's calls with their replies) stores it, in 16 bytes, or in a box if
// it may carry bytes; `StoredReply` (enum): the reply as it is read. Functions that make and read both; `room_for_reply`
// allocates the box for a CopyIn.

ghost use Rattle.std.specs.Prelude.{◌≡◌, IfOk};
ghost use Rattle.hart_calls.specs.CallKinds.{HasRoomFor};
ghost use Rattle.hart_calls.specs.JournalReplies.{kept_reply, stored_reply};
ghost use Rattle.hart_calls.specs.Replay.{forked};
ghost use Rattle.process_model.specs.declared.reply.Reply.TheVariants.{Scalar};

use process_model::{Call, Refusal, Reply, ScalarReply};
use std::alloc::{AllocError, Global};
use std::marker::Model;
use sv39_entry::Rule;

/// How a journal keeps a reply: one that carries no bytes as `ScalarReply` has it, but with no tag around it, so that a tag and
/// a word are enough; one that may carry bytes in a box.
#[derive(Drop)]
enum Kept {
    Done,
    Started(usize),
    Forked(usize),
    Value(u64),
    Stored,
    Fault(u64),
    Filled(usize),
    NothingFilled,
    InFrame(usize),
    Ready,
    Ended(Rule),
    OldSize(u64),
    MappedAt(u64),
    CopiedOut(usize),
    ShortOut(Rule, usize),
    Exited(i32),
    Refused(Refusal),
    Long(Box<Reply>),
}

impl Kept {
    /// Keeps a reply that carries no bytes.
    #[inline(always)]
    fn scalar(scalar: ScalarReply) -> Kept
        ensures { kept_reply result ≡ Scalar scalar }
    {
        match scalar {
            ScalarReply::Done => Kept::Done,
            ScalarReply::Started(slot) => Kept::Started(slot),
            ScalarReply::Forked(slot) => Kept::Forked(slot),
            ScalarReply::Value(value) => Kept::Value(value),
            ScalarReply::Stored => Kept::Stored,
            ScalarReply::Fault(cause) => Kept::Fault(cause),
            ScalarReply::Filled(entry) => Kept::Filled(entry),
            ScalarReply::NothingFilled => Kept::NothingFilled,
            ScalarReply::InFrame(frame) => Kept::InFrame(frame),
            ScalarReply::Ready => Kept::Ready,
            ScalarReply::Ended(rule) => Kept::Ended(rule),
            ScalarReply::OldSize(size) => Kept::OldSize(size),
            ScalarReply::MappedAt(address) => Kept::MappedAt(address),
            ScalarReply::CopiedOut(count) => Kept::CopiedOut(count),
            ScalarReply::ShortOut(rule, count) => Kept::ShortOut(rule, count),
            ScalarReply::Exited(status) => Kept::Exited(status),
            ScalarReply::Refused(refusal) => Kept::Refused(refusal),
        }
    }
}

/// A stored reply, as it is read.
#[derive(Clone, Copy)]
pub enum StoredReply<'r> {
    /// A reply that carries no bytes.
    Scalar(ScalarReply),
    /// A reply that may carry bytes.
    Long(&'r Reply),
}

/// A reply as a journal stores it, in little memory: a reply that may carry bytes (of a copy from the process; few do) is in
/// a box. Contracts see the `Reply` that it stands for.
#[derive(Drop)]
pub struct JournalReply {
    kept: Kept,
}

impl Model for JournalReply {
    ghost use Rattle.hart_calls.specs.JournalReplies.{kept_reply};
    ghost use Rattle.process_model.specs.declared.reply.Reply.{Reply};

    ghost Value = { Reply };

    ghost view = { λ r. kept_reply r.kept };
}

impl JournalReply {
    /// Stores a reply that carries no bytes.
    pub(crate) fn scalar(scalar: ScalarReply) -> JournalReply
        ensures { result ≡ Scalar scalar }
    {
        JournalReply {
            kept: Kept::scalar(scalar),
        }
    }

    /// Stores a reply that may carry bytes, in the box `room`.
    pub(crate) fn long(room: Box<Reply>, reply: Reply) -> JournalReply
        ensures { result ≡ reply }
    {
        let mut room = room;
        let _before = Box::replace(&mut room, reply);
        JournalReply {
            kept: Kept::Long(room),
        }
    }

    /// Returns how many children the reply names: 1 if it is `Forked`, else 0.
    pub(crate) fn forked(&self) -> usize
        ensures { result ≡ forked self.now }
    {
        match &self.kept {
            Kept::Forked(_) => 1,
            Kept::Long(reply) => forked_by(reply),
            _ => 0,
        }
    }

    /// Returns the reply: `Scalar` if it carries no bytes, else `Long`.
    pub fn kept(&self) -> StoredReply<'_>
        ensures { stored_reply result ≡ self.now }
    {
        match &self.kept {
            Kept::Done => StoredReply::Scalar(ScalarReply::Done),
            Kept::Started(slot) => StoredReply::Scalar(ScalarReply::Started(*slot)),
            Kept::Forked(slot) => StoredReply::Scalar(ScalarReply::Forked(*slot)),
            Kept::Value(value) => StoredReply::Scalar(ScalarReply::Value(*value)),
            Kept::Stored => StoredReply::Scalar(ScalarReply::Stored),
            Kept::Fault(cause) => StoredReply::Scalar(ScalarReply::Fault(*cause)),
            Kept::Filled(entry) => StoredReply::Scalar(ScalarReply::Filled(*entry)),
            Kept::NothingFilled => StoredReply::Scalar(ScalarReply::NothingFilled),
            Kept::InFrame(frame) => StoredReply::Scalar(ScalarReply::InFrame(*frame)),
            Kept::Ready => StoredReply::Scalar(ScalarReply::Ready),
            Kept::Ended(rule) => StoredReply::Scalar(ScalarReply::Ended(*rule)),
            Kept::OldSize(size) => StoredReply::Scalar(ScalarReply::OldSize(*size)),
            Kept::MappedAt(address) => StoredReply::Scalar(ScalarReply::MappedAt(*address)),
            Kept::CopiedOut(count) => StoredReply::Scalar(ScalarReply::CopiedOut(*count)),
            Kept::ShortOut(rule, count) => StoredReply::Scalar(ScalarReply::ShortOut(
                *rule, *count,
            )),
            Kept::Exited(status) => StoredReply::Scalar(ScalarReply::Exited(*status)),
            Kept::Refused(refusal) => StoredReply::Scalar(ScalarReply::Refused(*refusal)),
            Kept::Long(reply) => StoredReply::Long(reply),
        }
    }
}

/// How many children a reply names: 1 if it is `Forked`, else 0.
fn forked_by(reply: &Reply) -> usize
    ensures { result ≡ forked reply.now }
{
    match reply {
        Reply::Scalar(ScalarReply::Forked(_)) => 1,
        _ => 0,
    }
}

/// Allocates a box for the reply of a call that may carry bytes: `Some` if the call is `CopyIn`.
///
/// # Errors
/// `AllocError`: the host is out of memory.
pub(crate) fn room_for_reply(
    alloc: Global,
    call: Call<'_>,
) -> Result<Option<Box<Reply>>, AllocError>
    ensures { IfOk result (λ room. HasRoomFor call.entry room) }
{
    match call {
        Call::CopyIn { .. } => Ok(Some(Box::new(alloc, Reply::Scalar(ScalarReply::Done))?)),
        _ => Ok(None),
    }
}
