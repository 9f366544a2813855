//! Answers a list of requests in order, and writes the replies one after the other.
ghost use Rattle.std.specs.Prelude.{◌≡◌, flat_map, Err, IfOk, OnErr, OnOk, List, true};
ghost use Rattle.std.specs.Io.KnownBytes.{Appends};
ghost use Rattle.std.specs.List.{list_all};
ghost use Rattle.sqlite.specs.Held.{state};
ghost use Rattle.sqlite.specs.State.{HasCleanDisk};
ghost use Rattle.wgr_office.specs.Serving.{is_available, written_reply};
ghost use Rattle.wgr_office.specs.declared.answer.Answer as given;
ghost use Rattle.wgr_io.specs.Device.{IsCut};
ghost use Rattle.wgr_service.specs.Batch.{IsBatch};
ghost use Rattle.wgr_service.specs.declared.batch.BatchFault.TheVariants as fault;

use sqlite::Alter;
use std::alloc::Global;
use wgr_io::{Write, WriteFault, write_all};
use wgr_office::{Answer, Event, Office};

/// Why not all replies were written.
#[derive(Clone, Copy, Debug, PartialEq, Eq)]
pub enum BatchFault {
    /// There was no memory for the answers: nothing was done or written.
    NoMemory,
    /// All requests were answered, but a write of the replies failed partway.
    Write,
}

/// Answers all requests in turn, as [`Office::run`] does, and writes their replies one after the other.
/// Returns whether all were available, that is, none was answered with the bytes of `unavailable`.
pub fn answer_all<S: Alter, W: Write>(
    alloc: Global,
    office: &mut Office<S>,
    requests: &[Event],
    out: &mut W,
) -> Result<bool, BatchFault>
    ensures clean { HasCleanDisk (state S.Store office.new) → HasCleanDisk (state S.Store office.old) }
    ensures answered { IfOk result (λ whole. (answers : List given.Answer) × IsBatch S.Store office.old office.new requests.now answers × Appends (W.contents out.old) (W.contents out.new) (flat_map written_reply answers) × (whole ≡ list_all is_available answers)) }
    ensures sound { OnOk result (W.failed out.new ≡ W.failed out.old) }
    ensures undone { result ≡ Err fault.NoMemory → (office.new ≡ office.old) × (out.new ≡ out.old) }
    ensures cut { result ≡ Err fault.Write → (W.failed out.new ≡ true) × ((answers : List given.Answer) × IsBatch S.Store office.old office.new requests.now answers × IsCut (W.contents out.old) (W.contents out.new) (flat_map written_reply answers)) }
{
    let answers = match office.run(alloc, requests) {
        Ok(answers) => answers,
        Err(_) => return Err(BatchFault::NoMemory),
    };
    match write_replies(&answers, out) {
        Ok(()) => Ok(are_available(&answers)),
        Err(_) => Err(BatchFault::Write),
    }
}

// Whether no request was answered Unavailable.
fn are_available(answers: &[Answer]) -> bool
    ensures { result ≡ list_all is_available answers.now }
{
    answers.iter().all(|answer| answer.is_available())
}

// Writes the replies, or only their first bytes if a write fails.
fn write_replies<W: Write>(answers: &[Answer], out: &mut W) -> Result<(), WriteFault>
    ensures ok { OnOk result (Appends (W.contents out.old) (W.contents out.new) (flat_map written_reply answers.now)) }
    ensures sound { OnOk result (W.failed out.new ≡ W.failed out.old) }
    ensures cut { OnErr result (IsCut (W.contents out.old) (W.contents out.new) (flat_map written_reply answers.now)) }
    ensures failed { OnErr result (W.failed out.new ≡ true) }
{
    for answer in answers {
        write_all(out, answer.reply())?;
    }
    Ok(())
}
