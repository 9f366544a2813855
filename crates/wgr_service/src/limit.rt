//! Limits on the time of a connection.
use crate::network::Door;
use std::time::{Clock, Duration, Instant};

/// How many seconds a tenant's connection may send nothing, its message may take from the moment at which the service
/// begins to read it until all of it has come, and its reply from the first byte that is written until all is taken. So
/// no client of the service holds it up for longer.
const REQUEST_SECONDS: u64 = 10;

/// The same for an order's line and its answer. An answer may take long to make, as a large copy does: that time is
/// in neither.
const ORDER_SECONDS: u64 = 5;

/// How long all reads of a connection may take, and again all writes.
pub(crate) fn most_time(door: Door) -> Duration {
    match door {
        Door::Requests => Duration::from_secs(REQUEST_SECONDS),
        Door::Orders => Duration::from_secs(ORDER_SECONDS),
    }
}

/// The time that all reads of a connection may take together, or all writes.
#[derive(Clone, Copy)]
pub(crate) struct Limit {
    length: Duration,
    until: Option<Instant>,
}

impl Limit {
    /// A limit that begins as it is first asked for what is left.
    pub(crate) fn new(length: Duration) -> Limit {
        Limit {
            length,
            until: None,
        }
    }

    /// A limit that begins now, if the clock can be read.
    pub(crate) fn begun<C: Clock>(length: Duration, clock: &C) -> Limit {
        let mut limit = Limit::new(length);
        let _ = limit.left(clock);
        limit
    }

    /// Whether it has begun.
    pub(crate) fn is_begun(&self) -> bool {
        self.until.is_some()
    }

    /// The time that is left. Where the clock can't be read that is all of it, so no wait is without an end.
    pub(crate) fn left<C: Clock>(&mut self, clock: &C) -> Duration {
        let Ok(now) = Instant::now(clock) else {
            return self.length;
        };
        match self.until {
            Some(until) => until.duration_since(now),
            None => {
                self.until = now.checked_add(self.length);
                self.length
            }
        }
    }
}
