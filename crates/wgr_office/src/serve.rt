//! Serves one connection: reads a message, answers it, and writes the reply.
ghost use Rattle.std.specs.Prelude.{◌≡◌, ℕ, true, IfErr, IfOk, OnErr, OnOk};
ghost use Rattle.std.specs.Io.KnownBytes.{Appends};
ghost use Rattle.sqlite.specs.State.{HasCleanDisk};
ghost use Rattle.sqlite.specs.Held.{state};
ghost use Rattle.std.specs.declared.vec.Vec.{Vec};
ghost use Rattle.std.specs.declared.alloc.Global.{Global};
ghost use Rattle.wgr_office.specs.Serving.{IsAnsweredAt, IsReplied, IsServeFault, IsTaken, TakesMessage, written_reply};

use crate::answer::Answer;
use crate::office::Office;
use sqlite::Alter;
use std::alloc::Global;
use wgr_http::read_message;
use wgr_io::{DeviceError, Read, ReadFault, Write, WriteFault, write_all};
use wgr_request::laws::beginnings_ask;

/// Why a connection was not fully served.
#[derive(Clone, Copy, Debug, PartialEq, Eq)]
pub enum ServeFault {
    /// Reading failed: nothing was done, and nothing written.
    Read,
    /// Writing failed: the request was answered, and this many bytes of the reply were written.
    Write { sent: usize },
}

impl<S: Alter> Office<S> {
    /// Reads a message, answers it at this moment (seconds since 1970-01-01), writes the reply, and returns
    /// the answer.
    ///
    /// If there is no memory to read it, the reply is [`unavailable`](wgr_reply::unavailable).
    /// Which request such a message holds is unknown. In a list of events it counts as one that asks
    /// nothing, and it is left out of comparisons.
    pub fn serve_one<R: Read, W: Write>(
        &mut self,
        alloc: Global,
        now: u64,
        input: &mut R,
        out: &mut W,
    ) -> Result<Answer, ServeFault>
        ensures clean { HasCleanDisk (state S.Store self.new) → HasCleanDisk (state S.Store self.old) }
        ensures ok { IfOk result (λ answer. TakesMessage S.Store self.old self.new now (R.remaining input.old) answer × Appends (W.contents out.old) (W.contents out.new) (written_reply answer)) }
        // No read is made once the answer is decided: a client may keep its side open.
        ensures taken { (message : Vec ℕ Global)
            × IsTaken (R.remaining input.old) (R.remaining input.new) (R.pieces input.old) (R.pieces input.new) message.items
            × OnOk result (IsReplied S.Store self.old self.new now message.items (W.contents out.old) (W.contents out.new)) }
        ensures sound { OnOk result ((R.failed input.new ≡ R.failed input.old) × (W.failed out.new ≡ W.failed out.old)) }
        ensures fault { IfErr result (λ fault. IsServeFault S.Store self.old self.new now
            (record { input = R.remaining input.old; read_failed = R.failed input.old; written = W.contents out.old; write_failed = W.failed out.old })
            (record { input = R.remaining input.new; read_failed = R.failed input.new; written = W.contents out.new; write_failed = W.failed out.new })
            fault) }
    {
        let answer = match answered(alloc, self, now, input) {
            Ok(answer) => answer,
            Err(_) => return Err(ServeFault::Read),
        };
        match write_all(out, answer.reply()) {
            Ok(()) => Ok(answer),
            Err(WriteFault { sent }) => Err(ServeFault::Write { sent }),
        }
    }
}

// The answer to what a reader returns; Unavailable if there is no memory to read it.
fn answered<S: Alter, R: Read>(
    alloc: Global,
    office: &mut Office<S>,
    now: u64,
    input: &mut R,
) -> Result<Answer, DeviceError>
    ensures clean { HasCleanDisk (state S.Store office.new) → HasCleanDisk (state S.Store office.old) }
    ensures ok { IfOk result (λ answer. TakesMessage S.Store office.old office.new now (R.remaining input.old) answer) }
    ensures taken { (message : Vec ℕ Global)
        × IsTaken (R.remaining input.old) (R.remaining input.new) (R.pieces input.old) (R.pieces input.new) message.items
        × IfOk result (λ answer. IsAnsweredAt S.Store office.old office.new now message.items answer) }
    ensures sound { OnOk result (R.failed input.new ≡ R.failed input.old) }
    ensures failed { OnErr result (R.failed input.new ≡ true) }
    ensures undone { OnErr result (office.new ≡ office.old) }
{
    beginnings_ask();
    let mut message = Vec::new(alloc);
    match read_message(input, &mut message) {
        Ok(()) => Ok(office.answer(alloc, now, &message)),
        Err(ReadFault::NoMemory) => Ok(Answer::Unavailable),
        Err(ReadFault::Device) => Err(DeviceError),
    }
}
