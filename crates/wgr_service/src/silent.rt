//! Connections of requests that were accepted and have sent nothing yet.
ghost use Rattle.std.specs.Prelude.{◌≡◌, ◌++◌, ◌+◌, [], ◌∷◌, IfNone, IfSome};
ghost use Rattle.std.specs.Vec.{vec_len};

use crate::limit::{Limit, most_time};
use crate::network::Door;
use crate::watch::Watch;
use std::alloc::Global;
use std::io;
use std::net::{Net, OpenStream};
use std::os::fd::AsRawFd;
use std::time::{Clock, Duration};

/// How many connections are kept that have sent nothing. One more ends the time of the oldest.
const SILENT_MOST: usize = 256;

/// A connection, and the time that is left for it: to send something, or else for its message.
#[derive(Drop)]
pub(crate) struct Waiting<H: Net> {
    pub(crate) stream: H::Stream,
    pub(crate) limit: Limit,
}

/// The connections that have sent nothing yet, the oldest first. So none of them holds up one that has sent something.
#[derive(Drop)]
pub(crate) struct Silent<H: Net> {
    waiting: Vec<Waiting<H>>,
}

impl<H: Clock + Net> Silent<H> {
    /// None.
    pub(crate) fn new(alloc: Global) -> Silent<H> {
        Silent {
            waiting: Vec::new(alloc),
        }
    }

    /// Takes out the oldest one that has sent something, whose time for its message begins now; or else one whose time is
    /// over.
    pub(crate) fn take(&mut self, host: &H, watch: &Watch) -> Option<Waiting<H>>
        ensures some { IfSome result (λ _. vec_len self.new.waiting + 1 ≡ vec_len self.old.waiting) }
        ensures none { IfNone result (vec_len self.new.waiting ≡ vec_len self.old.waiting) }
    {
        let (place, most) = match self.first_that_sent() {
            Some(place) => (place, most_time(Door::Requests)),
            None => (self.first_over(host)?, Duration::ZERO),
        };
        if place >= self.waiting.len() {
            return None;
        }
        let mut one = self.waiting.remove(place);
        release(&one.stream, watch);
        one.limit = Limit::begun(most, host);
        Some(one)
    }

    // The place of the oldest one that has sent something.
    fn first_that_sent(&self) -> Option<usize> {
        for (place, one) in self.waiting.iter().enumerate() {
            if !is_silent(&one.stream) {
                return Some(place);
            }
        }
        None
    }

    // The place of the oldest one, if its time is over or there are too many.
    fn first_over(&mut self, host: &H) -> Option<usize>
        ensures { vec_len self.new.waiting ≡ vec_len self.old.waiting }
    {
        let is_full = self.waiting.len() > SILENT_MOST;
        let oldest = self.waiting.first_mut()?;
        if is_full || oldest.limit.left(host).is_zero() {
            Some(0)
        } else {
            None
        }
    }

    /// Keeps a connection that was accepted now, as long as it has sent nothing; or hands on the one to be served.
    pub(crate) fn keep(&mut self, one: Waiting<H>, watch: &Watch) -> Option<Waiting<H>>
        ensures kept { IfNone result (self.new.waiting.items ≡ self.old.waiting.items ++ one ∷ []) }
        ensures handed_on { IfSome result (λ it. (it ≡ one) × (self.new.waiting.items ≡ self.old.waiting.items)) }
    {
        if !is_watched(&one.stream, watch) {
            let _ = one.stream.set_nonblocking(false);
            return Some(one);
        }
        match self.waiting.push(one) {
            Ok(()) => None,
            Err(failed) => {
                let one = failed.value;
                release(&one.stream, watch);
                Some(one)
            }
        }
    }

    /// The time that is left to the oldest one, if there is one.
    pub(crate) fn left(&mut self, host: &H) -> Option<Duration> {
        Some(self.waiting.first_mut()?.limit.left(host))
    }
}

// Waits for the first byte of a connection, if it has sent nothing yet. From then on no read of it waits.
fn is_watched<S: OpenStream + AsRawFd>(stream: &S, watch: &Watch) -> bool {
    stream.set_nonblocking(true).is_ok() && is_silent(stream) && watch.add(stream).is_ok()
}

// Waits for it no more.
fn release<S: OpenStream + AsRawFd>(stream: &S, watch: &Watch) {
    let _ = watch.remove(stream);
    let _ = stream.set_nonblocking(false);
}

// Whether a connection of which no read waits has sent nothing yet. One that broke off or was ended has something, which
// is told by a read.
fn is_silent<S: OpenStream>(stream: &S) -> bool {
    let mut first = [0];
    match stream.peek(&mut first) {
        Ok(_) => false,
        Err(error) => error.kind() == io::ErrorKind::WouldBlock,
    }
}
