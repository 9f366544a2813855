//! The answers to events.
ghost use Rattle.std.specs.Prelude.{◌≡◌};
ghost use Rattle.wgr_office.specs.Pages.{IsEnd, IsPageMade};
ghost use Rattle.wgr_office.specs.Serving.{is_available, written_reply, status_of};

use std::alloc::{AllocError, Global};
use wgr_http::StatusCode;
use wgr_register::{AskFault, Done, OrderRefusal};
use wgr_reply::{HttpReply, Response, unavailable, write_response};
use wgr_request::RequestFault;

/// The answer to an event.
#[derive(Drop)]
pub enum Answer {
    /// The reply to a request.
    Reply(HttpReply),
    /// Memory or the store failed; the rows are unchanged.
    Unavailable,
    /// The order is done or refused. `Office::run` returns this, `Office::answer` never does.
    Order(Result<Done, OrderRefusal>),
}

impl Answer {
    /// The bytes written to a client: those of the reply, or of [`unavailable`]. An order has none.
    pub fn reply(&self) -> &[u8]
        ensures { result.now ≡ written_reply self.now }
    {
        match self {
            Answer::Reply(reply) => reply.bytes.as_slice(),
            Answer::Unavailable => unavailable(),
            Answer::Order(_) => &[],
        }
    }

    /// The reply's status, which its first line has too. An order has none.
    pub fn status(&self) -> Option<StatusCode>
        ensures { result ≡ status_of self.now }
    {
        match self {
            Answer::Reply(reply) => Some(reply.status),
            Answer::Unavailable => Some(StatusCode::ServiceUnavailable),
            Answer::Order(_) => None,
        }
    }

    /// Whether neither memory nor the store failed.
    pub fn is_available(&self) -> bool
        ensures { result ≡ is_available self.now }
    {
        !matches!(self, Answer::Unavailable)
    }
}

// The answer for a reply, or `Unavailable` if there was no memory to make it.
pub(crate) fn made(reply: Result<HttpReply, AllocError>) -> Answer
    ensures { IsPageMade reply result }
{
    match reply {
        Ok(reply) => Answer::Reply(reply),
        Err(_) => Answer::Unavailable,
    }
}

// The answer for the result of a request. What is accepted is 200.
pub(crate) fn ended(alloc: Global, asked: Result<Vec<u8>, AskFault>) -> Answer
    ensures { IsEnd asked result }
{
    match asked {
        Ok(bytes) => Answer::Reply(HttpReply {
            status: StatusCode::Done,
            bytes,
        }),
        Err(AskFault::Refused(why)) => made(write_response(alloc, Response::Refused(why))),
        Err(AskFault::UnknownToken) => {
            made(write_response(alloc, Response::Fault(RequestFault::UnknownToken)))
        }
        Err(AskFault::ReadOnly) => made(write_response(alloc, Response::ReadOnly)),
        Err(AskFault::NoSuchNetwork) => made(write_response(alloc, Response::NoSuchNetwork)),
        Err(AskFault::Fault(_)) => Answer::Unavailable,
    }
}
