//! The answer to a request, as bytes.
ghost use Rattle.std.specs.Prelude.{◌≡◌, [], IfOk};
ghost use Rattle.wgr_http.specs.Reply.{reply_bytes};
ghost use Rattle.wgr_reply.specs.Bodies.{fact_members};
ghost use Rattle.wgr_reply.specs.Response.{done, fault_shown, json, problem, response_bytes, shown_bytes, unavailable_shown};
ghost use Rattle.wgr_reply.specs.StatusLine.{IsOfStatus, IsReply};

use crate::bodies::{Adopted, Fact, InReply, Networks, Owner, Peers, Problem, Revoked};
use crate::refused::{fact_of, status_of};
use std::alloc::{AllocError, Global};
use wgr_core::{CommandRefusal, Name, Network, PeerView};
use wgr_http::{Kind, StatusCode, write_reply};
use wgr_json::{ToJson, to_json};
use wgr_request::RequestFault;

/// The answer to a request.
#[derive(Clone, Copy)]
pub enum Response<'a> {
    /// The peer after the change.
    Peer(&'a PeerView),
    /// The number of the removed peer.
    Revoked(u32),
    /// The peers, in their order.
    Peers(&'a [PeerView]),
    /// The number of the peer that has the address.
    Owner(u32),
    /// The numbers of the added peers, ascending, and how many lines had a key that was already held.
    Adopted { added: &'a [u32], known: u32 },
    /// A tenant's networks by name, in their order.
    Networks(&'a [(Name, Network)]),
    /// The text of a configuration file.
    File(&'a [u8]),
    /// The network refuses the command.
    Refused(CommandRefusal),
    /// The token only reads, and the command may change the network.
    ReadOnly,
    /// The tenant has no network of the name.
    NoSuchNetwork,
    /// The request is refused by its bytes, or no tenant has its token.
    Fault(RequestFault),
}

/// The reply to a request, as bytes.
#[derive(Drop)]
pub struct HttpReply {
    /// The status in the first line of the bytes.
    pub status: StatusCode,
    pub bytes: Vec<u8>,
}

/// The reply.
pub fn write_response(alloc: Global, response: Response<'_>) -> Result<HttpReply, AllocError>
    ensures { IfOk result (λ reply. IsReply reply (response_bytes response.entry)) }
{
    match response {
        Response::Peer(peer) => write_done(alloc, peer),
        Response::Revoked(number) => write_done(alloc, &Revoked(number)),
        Response::Peers(peers) => write_done(alloc, &Peers(peers)),
        Response::Owner(number) => write_done(alloc, &Owner(number)),
        Response::Adopted { added, known } => write_done(alloc, &Adopted { added, known }),
        Response::Networks(networks) => write_done(alloc, &Networks(networks)),
        Response::File(text) => write_bytes(alloc, StatusCode::Done, Kind::Text, b"", text),
        Response::Refused(why) => {
            write_problem(alloc, status_of(why), b"", why.name(), fact_of(why))
        }
        Response::ReadOnly => write_plain(alloc, StatusCode::Forbidden, "read_only"),
        Response::NoSuchNetwork => write_plain(alloc, StatusCode::NotFound, "no_such_network"),
        Response::Fault(fault) => write_fault(alloc, fault),
    }
}

/// The bytes of the reply where a request can't be served because memory or the store fails. They
/// take no memory, since there may be none to make them.
pub fn unavailable() -> &'static [u8]
    ensures bytes { result.now ≡ shown_bytes unavailable_shown }
    ensures status { IsOfStatus unavailable_shown.status result.now }
{
    b"HTTP/1.1 503 Service Unavailable\r\nContent-Type: application/json\r\nContent-Length: 23\r\nConnection: close\r\n\r\n{\"error\":\"unavailable\"}"
}

// The reply of this status and with this body.
fn write_bytes(
    alloc: Global,
    status: StatusCode,
    kind: Kind,
    allow: &[u8],
    body: &[u8],
) -> Result<HttpReply, AllocError>
    ensures { IfOk result (λ reply. IsReply reply (reply_bytes status kind allow.now body.now)) }
{
    let bytes = write_reply(alloc, status, kind, allow, body)?;
    Ok(HttpReply { status, bytes })
}

// The reply that shows a value.
fn write_done<T: ToJson<InReply>>(alloc: Global, value: &T) -> Result<HttpReply, AllocError>
    ensures { IfOk result (λ reply. IsReply reply (shown_bytes (done (json (T.shown value.now))))) }
{
    let body = to_json(alloc, value)?;
    write_bytes(alloc, StatusCode::Done, Kind::Json, b"", &body)
}

// The reply that reports a refusal with the fact that it carries.
fn write_problem(
    alloc: Global,
    status: StatusCode,
    allow: &[u8],
    name: &str,
    fact: Fact<'_>,
) -> Result<HttpReply, AllocError>
    ensures { IfOk result (λ reply. IsReply reply (shown_bytes (problem status allow.now name.now (fact_members fact.entry)))) }
{
    let body = to_json(alloc, &Problem { name, fact })?;
    write_bytes(alloc, status, Kind::Json, allow, &body)
}

// The reply that reports a refusal without a fact.
fn write_plain(alloc: Global, status: StatusCode, name: &str) -> Result<HttpReply, AllocError>
    ensures { IfOk result (λ reply. IsReply reply (shown_bytes (problem status [] name.now (fact_members Fact.None)))) }
{
    write_problem(alloc, status, b"", name, Fact::None)
}

// The reply that reports a fault of a request.
fn write_fault(alloc: Global, fault: RequestFault) -> Result<HttpReply, AllocError>
    ensures { IfOk result (λ reply. IsReply reply (shown_bytes (fault_shown fault))) }
{
    match fault {
        RequestFault::Message(fault) => write_plain(alloc, fault.status(), fault.name()),
        RequestFault::NoSuchPath => write_plain(alloc, StatusCode::NotFound, "no_such_path"),
        RequestFault::WrongMethod(methods) => {
            let allow = methods.text().as_bytes();
            write_problem(
                alloc,
                StatusCode::MethodNotAllowed,
                allow,
                "wrong_method",
                Fact::None,
            )
        }
        RequestFault::UnknownToken => write_plain(alloc, StatusCode::Unauthorized, "unknown_token"),
        RequestFault::BadField(field) => {
            let fact = Fact::Field(field.name());
            write_problem(alloc, StatusCode::BadRequest, b"", "bad_field", fact)
        }
        RequestFault::BadDump { line, field } => {
            let fact = Fact::Place { field, line };
            write_problem(alloc, StatusCode::BadRequest, b"", "bad_dump", fact)
        }
    }
}
