//! Serves connections one after the other: reads a message or an order from each, and writes the answer.
ghost use Rattle.std.specs.Prelude.{◌≡◌, ◌<◌, ◌+◌, ℕ, false, List, Option, flat_map};
ghost use Rattle.sqlite.specs.Effect.{Database};
ghost use Rattle.sqlite.specs.Held.{state};
ghost use Rattle.sqlite.specs.State.{HasCleanDisk};
ghost use Rattle.wgr_model.specs.Steps.{Event};
ghost use Rattle.wgr_register.specs.Standing.{StandsAt};
ghost use Rattle.wgr_service.specs.Connections.{AreConnectionsServed, AreUnharmed, IsAppended, HasMet, HasOutcome, ConnectionEnd, Reports, contacts_of, counted_all, door_of, ends_of, line_of, meeting_of, served_moment, status_in, weight};
ghost use Rattle.wgr_service.specs.Counts.{counted_if, replies_of};
ghost use Rattle.wgr_service.specs.Network.{Logs};
ghost use Rattle.wgr_service.specs.declared.network.Door.TheVariants as door;

use crate::copies::Archive;
use crate::desk::Desk;
use crate::network::{Arrival, Door, Missed, Network};
use crate::report::{Report, report_of, report_of_taken, write_report};
use crate::taken::{take_line, write_taken};
use sqlite::Alter;
use std::alloc::Global;
use wgr_io::{Read, Write};
use wgr_model::laws::rows_are_isolated;
use wgr_office::Office;

/// How serving ended.
#[derive(Clone, Copy, Debug, PartialEq, Eq)]
pub enum Ending {
    /// All connections were served.
    Served,
    /// The store failed for good: every later answer would be Unavailable.
    Shut,
}

/// Serves `count` connections of requests, and the orders and readings that come meanwhile: reads a message
/// or a line from each, answers it, and writes the answer. It ends earlier if the store fails for good.
///
/// A message's moment is `now`, or else the clock's time after its connection was accepted (seconds
/// since 1970-01-01). For a connection that fails, as one does that takes longer than its limit, `wgr: connection`
/// or `wgr: order` is written to `err`; it counts too, if it isn't an order's. For an answer that is Unavailable,
/// `wgr: unavailable` is written.
///
/// The register handles the answered messages and orders like a list of events, so each tenant's replies and
/// rows are those that its own requests and the accepted orders about it give on its own rows alone. Where the
/// network's log is known, a message asks what its connection's bytes ask (one that is answered Unavailable is
/// what they begin with), an order is that of its connection's first line, and the answer is what was written to
/// that connection. A reading keeps the rows. The desk counts each reply that was written, under its status.
pub fn serve_connections<S: Alter, N: Network, A: Archive, E: Write>(
    alloc: Global,
    office: &mut Office<S>,
    network: &mut N,
    desk: &mut Desk<A>,
    count: u64,
    now: Option<u64>,
    err: &mut E,
) -> Ending
    ensures clean { HasCleanDisk (state S.Store office.new) → HasCleanDisk (state S.Store office.old) }
    // The register was at some rows.
    ensures stood { HasCleanDisk (state S.Store office.new) → (db : Database) × (late : List Event) × StandsAt S.Store office.old db late }
    ensures served { (outcomes : List ConnectionEnd) × AreConnectionsServed S.Store office.old office.new now count result outcomes
        × IsAppended (E.failed err.new) (E.contents err.old) (E.contents err.new) (flat_map line_of outcomes)
        × Logs (N.log network.old) (N.log network.new) (flat_map contacts_of outcomes)
        × (replies_of desk.new ≡ counted_all outcomes (replies_of desk.old)) }
{
    office.rules_hold();
    rows_are_isolated();
    let mut served = 0;
    while served < count {
        let (door, report) = serve_next(alloc, office, network, desk, now, err);
        if let Report::Shut = report {
            return Ending::Shut;
        }
        served += weight(door);
    }
    Ending::Served
}

// How much a connection adds to the number of those that are served.
fn weight(door: Door) -> u64
    ensures { result ≡ weight door }
{
    match door {
        Door::Requests => 1,
        Door::Orders => 0,
    }
}

// Serves the next connection, and reports it on `err`.
fn serve_next<S: Alter, N: Network, A: Archive, E: Write>(
    alloc: Global,
    office: &mut Office<S>,
    network: &mut N,
    desk: &mut Desk<A>,
    now: Option<u64>,
    err: &mut E,
) -> (Door, Report)
    ensures clean { HasCleanDisk (state S.Store office.new) → HasCleanDisk (state S.Store office.old) }
    ensures sound { E.failed err.new ≡ false → E.failed err.old ≡ false }
    ensures fewer { N.orders network.new < N.orders network.old + weight result.0 }
    ensures served { (outcome : ConnectionEnd) × HasOutcome S.Store office.old office.new now outcome × (door_of outcome ≡ result.0) × Reports result.1 outcome
        × IsAppended (E.failed err.new) (E.contents err.old) (E.contents err.new) (line_of outcome)
        × Logs (N.log network.old) (N.log network.new) (contacts_of outcome)
        × (replies_of desk.new ≡ counted_if (status_in outcome) (replies_of desk.old)) }
{
    let (door, report) = serve_one(alloc, office, network, desk, now);
    desk.count_report(report);
    write_report(door, report, err);
    (door, report)
}

// Waits for a connection, serves it, and ends it.
fn serve_one<S: Alter, N: Network, A: Archive>(
    alloc: Global,
    office: &mut Office<S>,
    network: &mut N,
    desk: &mut Desk<A>,
    now: Option<u64>,
) -> (Door, Report)
    ensures clean { HasCleanDisk (state S.Store office.new) → HasCleanDisk (state S.Store office.old) }
    ensures fewer { N.orders network.new < N.orders network.old + weight result.0 }
    ensures outcome { (outcome : ConnectionEnd) × HasOutcome S.Store office.old office.new now outcome × (door_of outcome ≡ result.0) × Reports result.1 outcome
        × Logs (N.log network.old) (N.log network.new) (contacts_of outcome)
        × (replies_of desk.new ≡ counted_if (status_in outcome) (replies_of desk.old)) }
{
    let Arrival {
        door,
        mut reader,
        mut writer,
        clock,
    } = match network.next() {
        Ok(arrival) => arrival,
        Err(Missed { door }) => return (door, Report::Failed),
    };
    let report = serve_arrival(
        alloc,
        office,
        desk,
        now,
        door,
        clock,
        &mut reader,
        &mut writer,
    );
    desk.count_pace(network.end(reader, writer));
    (door, report)
}

// Serves a connection that was accepted at this time of the clock.
fn serve_arrival<S: Alter, A: Archive, R: Read, W: Write>(
    alloc: Global,
    office: &mut Office<S>,
    desk: &mut Desk<A>,
    now: Option<u64>,
    door: Door,
    clock: Option<u64>,
    input: &mut R,
    out: &mut W,
) -> Report
    ensures clean { HasCleanDisk (state S.Store office.new) → HasCleanDisk (state S.Store office.old) }
    ensures outcome { AreUnharmed (ends_of R.remaining R.failed W.contents W.failed input.old out.old) → HasMet S.Store office.old office.new now (replies_of desk.old) (replies_of desk.new) (meeting_of door clock (ends_of R.remaining R.failed W.contents W.failed input.old out.old) (ends_of R.remaining R.failed W.contents W.failed input.new out.new)) result }
{
    match door {
        Door::Requests => serve_request(alloc, office, desk, now, clock, input, out),
        Door::Orders => serve_order(alloc, office, desk, input, out),
    }
}

// Answers a tenant's message, at the given moment or the clock's.
fn serve_request<S: Alter, A: Archive, R: Read, W: Write>(
    alloc: Global,
    office: &mut Office<S>,
    desk: &mut Desk<A>,
    now: Option<u64>,
    clock: Option<u64>,
    input: &mut R,
    out: &mut W,
) -> Report
    ensures clean { HasCleanDisk (state S.Store office.new) → HasCleanDisk (state S.Store office.old) }
    ensures outcome { AreUnharmed (ends_of R.remaining R.failed W.contents W.failed input.old out.old) → HasMet S.Store office.old office.new now (replies_of desk.old) (replies_of desk.new) (meeting_of door.Requests clock (ends_of R.remaining R.failed W.contents W.failed input.old out.old) (ends_of R.remaining R.failed W.contents W.failed input.new out.new)) result }
{
    let Some(moment) = moment_of(now, clock) else {
        return Report::Failed;
    };
    match office.serve_one(alloc, moment, input, out) {
        Ok(answer) => {
            desk.count_reply(&answer);
            report_of(office, answer.is_available())
        }
        Err(_) => Report::Failed,
    }
}

// The given moment, or else the clock's.
fn moment_of(now: Option<u64>, clock: Option<u64>) -> Option<u64>
    ensures { result ≡ served_moment now clock }
{
    match now {
        Some(now) => Some(now),
        None => clock,
    }
}

// Carries out an operator's order, or answers a reading.
fn serve_order<S: Alter, A: Archive, R: Read, W: Write>(
    alloc: Global,
    office: &mut Office<S>,
    desk: &mut Desk<A>,
    input: &mut R,
    out: &mut W,
) -> Report
    ensures clean { HasCleanDisk (state S.Store office.new) → HasCleanDisk (state S.Store office.old) }
    ensures outcome { (now clock : Option ℕ) → AreUnharmed (ends_of R.remaining R.failed W.contents W.failed input.old out.old) → HasMet S.Store office.old office.new now (replies_of desk.old) (replies_of desk.new) (meeting_of door.Orders clock (ends_of R.remaining R.failed W.contents W.failed input.old out.old) (ends_of R.remaining R.failed W.contents W.failed input.new out.new)) result }
{
    let taken = match take_line(alloc, office, desk, input) {
        Ok(taken) => taken,
        Err(_) => return Report::Failed,
    };
    desk.count_taken(&taken);
    match write_taken(&taken, out) {
        Ok(()) => report_of_taken(office, &taken),
        Err(_) => Report::Failed,
    }
}
