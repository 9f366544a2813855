//! What is printed of a connection.
ghost use Rattle.std.specs.Prelude.{◌≡◌, false, true};
ghost use Rattle.wgr_office.specs.Between.{Keeps};
ghost use Rattle.wgr_service.specs.Connections.{IsAppended, failure_line};
ghost use Rattle.wgr_service.specs.Readings.{is_taken_available};
ghost use Rattle.wgr_service.specs.Reports.{IsReport, report_line};
ghost use Rattle.wgr_service.specs.declared.lines.LineEnd.TheVariants as line_end;
ghost use Rattle.wgr_service.specs.declared.taken.Taken.TheVariants as taken_as;
ghost use Rattle.wgr_words.specs.declared.line.LineFault.{LineFault};

use crate::lines::LineEnd;
use crate::network::Door;
use crate::taken::Taken;
use sqlite::Alter;
use wgr_io::{Write, write_all};
use wgr_office::Office;
use wgr_words::LineFault;

/// What the loop over connections knows of one that was served.
#[derive(Clone, Copy, Debug, PartialEq, Eq)]
pub(crate) enum Report {
    /// It was answered.
    Fine,
    /// Memory or the store failed as it was answered.
    Unavailable,
    /// The store failed for good as it was answered.
    Shut,
    /// It could not be accepted, read, or fully answered.
    Failed,
}

/// The report of a connection that was answered, as available or not.
pub(crate) fn report_of<S: Alter>(office: &mut Office<S>, is_available: bool) -> Report
    ensures report { IsReport is_available result }
    ensures same { is_available ≡ true → office.new ≡ office.old }
    ensures keeps { Keeps S.Store office.old office.new }
{
    if is_available {
        Report::Fine
    } else if office.is_shut() {
        Report::Shut
    } else {
        Report::Unavailable
    }
}

/// The report of a line whose end was written. One that spells nothing has asked nothing of the store.
pub(crate) fn report_of_taken<S: Alter>(office: &mut Office<S>, taken: &Taken) -> Report
    ensures report { IsReport (is_taken_available taken.now) result }
    ensures same { (why : LineFault) → taken.now ≡ taken_as.Order (line_end.Unspelled why) → office.new ≡ office.old }
    ensures keeps { Keeps S.Store office.old office.new }
{
    match taken {
        Taken::Order(LineEnd::Unspelled(LineFault::NoMemory)) => Report::Unavailable,
        Taken::Order(LineEnd::Unspelled(_)) => Report::Fine,
        asked => report_of(office, asked.is_available()),
    }
}

/// Writes the line of a report. If standard error fails, nothing can be reported.
pub(crate) fn write_report<E: Write>(door: Door, report: Report, err: &mut E)
    ensures sound { E.failed err.new ≡ false → E.failed err.old ≡ false }
    ensures written { IsAppended (E.failed err.new) (E.contents err.old) (E.contents err.new) (report_line door report) }
{
    let _ = write_all(err, report_line(door, report));
}

fn report_line(door: Door, report: Report) -> &'static [u8]
    ensures { result.now ≡ report_line door report }
{
    match report {
        Report::Fine => b"",
        Report::Unavailable | Report::Shut => b"wgr: unavailable\n",
        Report::Failed => failure_line(door),
    }
}

fn failure_line(door: Door) -> &'static [u8]
    ensures { result.now ≡ failure_line door }
{
    match door {
        Door::Requests => b"wgr: connection\n",
        Door::Orders => b"wgr: order\n",
    }
}
