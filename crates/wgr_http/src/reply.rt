//! Replies as bytes.
ghost use Rattle.std.specs.Prelude.{◌≡◌, ◌++◌, length, string_bytes, IfOk, OnOk};
ghost use Rattle.wgr_http.specs.Reply.{extra_line, first_lines, media_type, reply_bytes};

use crate::StatusCode;
use std::alloc::{AllocError, Global};

/// What the body of a reply is.
#[derive(Clone, Copy, Debug, PartialEq, Eq)]
pub enum Kind {
    /// `application/json`
    Json,
    /// `text/plain`
    Text,
}

/// The bytes of a reply, which ends its connection.
///
/// `allow` are the methods that the path of a 405 has, as `GET, POST`; other replies don't show
/// them.
pub fn write_reply(
    alloc: Global,
    status: StatusCode,
    kind: Kind,
    allow: &[u8],
    body: &[u8],
) -> Result<Vec<u8>, AllocError>
    ensures { IfOk result (λ v. v.items ≡ reply_bytes status kind allow.now body.now) }
{
    let head = first_lines_of(alloc, status, kind, body.len())?;
    let mut reply = Vec::new(alloc);
    reply.extend_from_slice(head.as_bytes())?;
    push_extra_line(status, allow, &mut reply)?;
    reply.extend_from_slice(b"Connection: close\r\n\r\n")?;
    reply.extend_from_slice(body)?;
    Ok(reply)
}

// The lines of each reply, up to the length of its body.
fn first_lines_of(
    alloc: Global,
    status: StatusCode,
    kind: Kind,
    size: usize,
) -> Result<String, AllocError>
    ensures { IfOk result (λ s. string_bytes s ≡ first_lines status kind size) }
{
    let number = status.number();
    let reason = status.reason();
    let kind = media_type_of(kind);
    format!(in alloc;
        "HTTP/1.1 {number} {reason}\r\nContent-Type: {kind}\r\nContent-Length: {size}\r\n"
    )
}

fn media_type_of(kind: Kind) -> &'static str
    ensures { result.now ≡ media_type kind }
{
    match kind {
        Kind::Json => "application/json",
        Kind::Text => "text/plain",
    }
}

// The line that only replies of this status have.
fn push_extra_line(status: StatusCode, allow: &[u8], reply: &mut Vec<u8>) -> Result<(), AllocError>
    ensures { OnOk result (reply.new.items ≡ reply.old.items ++ extra_line status allow.now) }
{
    match status {
        StatusCode::Unauthorized => reply.extend_from_slice(b"WWW-Authenticate: Bearer\r\n"),
        StatusCode::MethodNotAllowed => {
            reply.extend_from_slice(b"Allow: ")?;
            reply.extend_from_slice(allow)?;
            reply.extend_from_slice(b"\r\n")
        }
        StatusCode::Done
        | StatusCode::BadRequest
        | StatusCode::Forbidden
        | StatusCode::NotFound
        | StatusCode::Conflict
        | StatusCode::LengthRequired
        | StatusCode::ContentTooLarge
        | StatusCode::ServiceUnavailable => Ok(()),
    }
}
