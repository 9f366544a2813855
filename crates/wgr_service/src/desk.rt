//! What a service knows of itself, for an operator's readings.
ghost use Rattle.std.specs.Prelude.{◌≡◌, ◌+◌, IfOk};
ghost use Rattle.wgr_office.specs.Serving.{status_of};
ghost use Rattle.wgr_service.specs.Counts.{counted, counted_if, no_replies, replies_of};
ghost use Rattle.wgr_service.specs.Status.{status_text};
ghost use Rattle.wgr_show.specs.Figures.{capped};

use crate::network::Pace;
use crate::report::Report;
use crate::taken::Taken;
use std::alloc::{AllocError, Global};
use wgr_http::StatusCode;
use wgr_office::Answer;
use wgr_show::{Figures, metrics_text};

/// What was served so far. A count stays at the greatest number of 64 bits.
#[derive(Clone, Copy)]
pub(crate) struct Tally {
    /// Replies by their status.
    pub(crate) replies: Replies,
    /// Orders by their exit status.
    pub(crate) orders: Orders,
    /// Connections that could not be accepted, read, or fully answered.
    pub(crate) failed: u64,
    /// Those of them of which a limit of time was over.
    pub(crate) late: u64,
}

/// A field for each status.
#[derive(Clone, Copy)]
pub(crate) struct Replies {
    pub(crate) done: u64,
    pub(crate) bad_request: u64,
    pub(crate) unauthorized: u64,
    pub(crate) forbidden: u64,
    pub(crate) not_found: u64,
    pub(crate) wrong_method: u64,
    pub(crate) conflict: u64,
    pub(crate) no_length: u64,
    pub(crate) too_large: u64,
    pub(crate) unavailable: u64,
}

#[derive(Clone, Copy)]
pub(crate) struct Orders {
    pub(crate) done: u64,
    pub(crate) failed: u64,
    pub(crate) refused: u64,
}

impl Replies {
    // Counts one more of this status.
    fn add(&mut self, status: StatusCode)
        ensures { self.new ≡ counted status self.old }
    {
        match status {
            StatusCode::Done => add_one(&mut self.done),
            StatusCode::BadRequest => add_one(&mut self.bad_request),
            StatusCode::Unauthorized => add_one(&mut self.unauthorized),
            StatusCode::Forbidden => add_one(&mut self.forbidden),
            StatusCode::NotFound => add_one(&mut self.not_found),
            StatusCode::MethodNotAllowed => add_one(&mut self.wrong_method),
            StatusCode::Conflict => add_one(&mut self.conflict),
            StatusCode::LengthRequired => add_one(&mut self.no_length),
            StatusCode::ContentTooLarge => add_one(&mut self.too_large),
            StatusCode::ServiceUnavailable => add_one(&mut self.unavailable),
        }
    }
}

/// The desk at which an operator reads: since when the service runs, what it served, and where its files are.
#[derive(Drop)]
pub struct Desk<A> {
    pub(crate) archive: A,
    pub(crate) started: u64,
    pub(crate) tally: Tally,
}

impl<A> Desk<A> {
    /// The desk of a service that starts at this moment (seconds since 1970-01-01, or 0 where it isn't known).
    pub fn new(archive: A, started: u64) -> Desk<A>
        ensures { replies_of result ≡ no_replies }
    {
        Desk {
            archive,
            started,
            tally: Tally {
                replies: Replies {
                    done: 0,
                    bad_request: 0,
                    unauthorized: 0,
                    forbidden: 0,
                    not_found: 0,
                    wrong_method: 0,
                    conflict: 0,
                    no_length: 0,
                    too_large: 0,
                    unavailable: 0,
                },
                orders: Orders {
                    done: 0,
                    failed: 0,
                    refused: 0,
                },
                failed: 0,
                late: 0,
            },
        }
    }

    /// Counts the reply to a request by its status; an order has none.
    pub(crate) fn count_reply(&mut self, answer: &Answer)
        ensures { replies_of self.new ≡ counted_if (status_of answer.now) (replies_of self.old) }
    {
        if let Some(status) = answer.status() {
            self.tally.replies.add(status);
        }
    }

    /// Counts an order by its exit status; a reading isn't counted.
    pub(crate) fn count_taken(&mut self, taken: &Taken)
        ensures { replies_of self.new ≡ replies_of self.old }
    {
        let Taken::Order(end) = taken else {
            return;
        };
        let orders = &mut self.tally.orders;
        match end.status() {
            0 => add_one(&mut orders.done),
            1 => add_one(&mut orders.failed),
            _ => add_one(&mut orders.refused),
        }
    }

    /// Counts a connection that failed.
    pub(crate) fn count_report(&mut self, report: Report)
        ensures { replies_of self.new ≡ replies_of self.old }
    {
        if let Report::Failed = report {
            add_one(&mut self.tally.failed);
        }
    }

    /// Counts a connection that was late.
    pub(crate) fn count_pace(&mut self, pace: Pace)
        ensures { replies_of self.new ≡ replies_of self.old }
    {
        if let Pace::Late = pace {
            add_one(&mut self.tally.late);
        }
    }
}

fn add_one(count: &mut u64)
    ensures { count.new ≡ capped (count.old + 1) }
{
    *count = count.saturating_add(1);
}

/// The figures of a service and of its register, with the numbers of networks and of servers' files in
/// memory, as lines of a Prometheus text file.
pub(crate) fn status_text(
    alloc: Global,
    started: u64,
    tally: Tally,
    register: Figures,
    loaded: usize,
    cached: usize,
) -> Result<Vec<u8>, AllocError>
    ensures { IfOk result (λ text. text.items ≡ status_text started tally register loaded cached) }
{
    let Replies {
        done,
        bad_request,
        unauthorized,
        forbidden,
        not_found,
        wrong_method,
        conflict,
        no_length,
        too_large,
        unavailable,
    } = tally.replies;
    metrics_text(
        alloc,
        &[
            ("wgr_service_start_time_seconds", started),
            ("wgr_service_requests_total{status=\"200\"}", done),
            ("wgr_service_requests_total{status=\"400\"}", bad_request),
            ("wgr_service_requests_total{status=\"401\"}", unauthorized),
            ("wgr_service_requests_total{status=\"403\"}", forbidden),
            ("wgr_service_requests_total{status=\"404\"}", not_found),
            ("wgr_service_requests_total{status=\"405\"}", wrong_method),
            ("wgr_service_requests_total{status=\"409\"}", conflict),
            ("wgr_service_requests_total{status=\"411\"}", no_length),
            ("wgr_service_requests_total{status=\"413\"}", too_large),
            ("wgr_service_requests_total{status=\"503\"}", unavailable),
            ("wgr_service_orders_total{status=\"0\"}", tally.orders.done),
            (
                "wgr_service_orders_total{status=\"1\"}",
                tally.orders.failed,
            ),
            (
                "wgr_service_orders_total{status=\"2\"}",
                tally.orders.refused,
            ),
            ("wgr_service_failed_connections_total", tally.failed),
            ("wgr_service_late_connections_total", tally.late),
            ("wgr_service_tenants", register.tenants),
            ("wgr_service_tokens", register.tokens),
            ("wgr_service_networks", register.networks),
            ("wgr_service_peers", register.peers),
            ("wgr_service_routes", register.routes),
            ("wgr_service_networks_in_memory", loaded as u64),
            ("wgr_service_files_in_memory", cached as u64),
        ],
    )
}
