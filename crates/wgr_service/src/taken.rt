//! The line of a connection for orders: an order is carried out, or a reading is answered.
ghost use Rattle.std.specs.Prelude.{◌≡◌, true, IfOk, OnErr, OnOk};
ghost use Rattle.std.specs.Io.KnownBytes.{Appends};
ghost use Rattle.wgr_io.specs.Device.{IsCut};
ghost use Rattle.wgr_service.specs.Counts.{replies_of};
ghost use Rattle.wgr_service.specs.Readings.{HasTaken, TakesAt, is_taken_available, taken_text};

use crate::copies::Archive;
use crate::desk::Desk;
use crate::lines::{LineEnd, carry_out_line, write_line_end};
use crate::readings::{ReadingEnd, read, write_reading_end};
use sqlite::Alter;
use std::alloc::Global;
use wgr_io::{DeviceError, Read, ReadFault, Write, WriteFault};
use wgr_office::Office;
use wgr_words::{LineFault, read_first_line, reading_in};

/// How the line ended.
#[derive(Drop)]
pub(crate) enum Taken {
    /// As an order, or as neither.
    Order(LineEnd),
    /// As a reading.
    Reading(ReadingEnd),
}

impl Taken {
    /// Whether neither memory nor the store failed.
    pub(crate) fn is_available(&self) -> bool
        ensures { result ≡ is_taken_available self.now }
    {
        match self {
            Taken::Order(end) => end.is_available(),
            Taken::Reading(end) => end.is_available(),
        }
    }
}

/// Takes the first line of the input. Nothing is done without a newline.
pub(crate) fn take_line<S: Alter, A: Archive, R: Read>(
    alloc: Global,
    office: &mut Office<S>,
    desk: &mut Desk<A>,
    input: &mut R,
) -> Result<Taken, DeviceError>
    ensures ok { IfOk result (λ taken. HasTaken S.Store office.old office.new (R.remaining input.old) taken) }
    ensures sound { OnOk result (R.failed input.new ≡ R.failed input.old) }
    ensures failed { OnErr result (R.failed input.new ≡ true) }
    ensures undone { OnErr result (office.new ≡ office.old) }
    ensures counts { replies_of desk.new ≡ replies_of desk.old }
{
    match read_first_line(alloc, input) {
        Ok(Some(line)) => Ok(take(alloc, office, desk, &line)),
        Ok(None) => Ok(Taken::Order(LineEnd::Unspelled(LineFault::NoOrder))),
        Err(ReadFault::NoMemory) => Ok(Taken::Order(LineEnd::Unspelled(LineFault::NoMemory))),
        Err(ReadFault::Device) => Err(DeviceError),
    }
}

// Takes a line without its newline.
fn take<S: Alter, A: Archive>(
    alloc: Global,
    office: &mut Office<S>,
    desk: &mut Desk<A>,
    line: &[u8],
) -> Taken
    ensures taken { TakesAt S.Store office.old office.new line.now result }
    ensures counts { replies_of desk.new ≡ replies_of desk.old }
{
    match reading_in(alloc, line) {
        Ok(Some(reading)) => Taken::Reading(read(alloc, office, desk, reading)),
        Ok(None) => Taken::Order(carry_out_line(alloc, office, line)),
        Err(_) => Taken::Order(LineEnd::Unspelled(LineFault::NoMemory)),
    }
}

/// Writes how the line ended.
pub(crate) fn write_taken<W: Write>(taken: &Taken, out: &mut W) -> Result<(), WriteFault>
    ensures ok { OnOk result (Appends (W.contents out.old) (W.contents out.new) (taken_text taken.now)) }
    ensures sound { OnOk result (W.failed out.new ≡ W.failed out.old) }
    ensures cut { OnErr result (IsCut (W.contents out.old) (W.contents out.new) (taken_text taken.now)) }
    ensures failed { OnErr result (W.failed out.new ≡ true) }
{
    match taken {
        Taken::Order(end) => write_line_end(end, out),
        Taken::Reading(end) => write_reading_end(end, out),
    }
}
