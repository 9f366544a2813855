//! One request message.
ghost use Rattle.std.specs.Prelude.{◌≡◌};
ghost use Rattle.wgr_http.specs.Field.{field_view};
ghost use Rattle.wgr_http.specs.Length.{length_value};
ghost use Rattle.wgr_http.specs.Message.{Answers, IsHeadless, body_view, fault_name, fault_status, judged, sized_by, view_result};

use crate::StatusCode;
use crate::field_lines::FieldLines;
use crate::head::{Head, MAX_HEAD};
use crate::length::{MAX_BODY, length_of};
use crate::token::token_of;
use crate::unfinished::may_become_head;

/// A request message, as slices of its bytes. What comes after its body is no part of it.
#[derive(Clone, Copy)]
pub struct Message<'a> {
    pub method: &'a [u8],
    /// The request target (RFC 9112 section 3.2), which is UTF-8.
    pub target: &'a [u8],
    /// The bearer token, where there is one of the form that [`is_token`](crate::is_token) checks.
    pub token: Option<&'a [u8]>,
    /// At most 2,097,152 bytes.
    pub body: &'a [u8],
}

/// Why bytes are no message.
#[derive(Clone, Copy, Debug, PartialEq, Eq)]
pub enum MessageFault {
    /// There is no head: the bytes end before it does, or no bytes can follow that make them a head
    /// of at most 32 fields.
    BadHead,
    /// Two `Authorization` or `Content-Length` lines, or a length that is no number of 1 to 20 digits.
    /// It is reported as `BadHead` is. As one fault with it, such a head would be known from all but
    /// its last byte.
    BadFields,
    /// The head may be one and has more than 8,192 bytes, or the body more than 2,097,152.
    TooLarge,
    /// A `Transfer-Encoding`, or a POST without `Content-Length`.
    LengthRequired,
    /// The body has fewer bytes than `Content-Length` says, or the message has none.
    Truncated,
}

impl MessageFault {
    /// The status of the reply that reports it.
    pub fn status(self) -> StatusCode
        ensures { result ≡ fault_status self }
    {
        match self {
            MessageFault::BadHead => StatusCode::BadRequest,
            MessageFault::BadFields => StatusCode::BadRequest,
            MessageFault::TooLarge => StatusCode::ContentTooLarge,
            MessageFault::LengthRequired => StatusCode::LengthRequired,
            MessageFault::Truncated => StatusCode::BadRequest,
        }
    }

    /// Its name in the reply that reports it: letters and underscores.
    pub fn name(self) -> &'static str
        ensures { result.now ≡ fault_name self }
    {
        match self {
            MessageFault::BadHead => "bad_head",
            MessageFault::BadFields => "bad_head",
            MessageFault::TooLarge => "too_large",
            MessageFault::LengthRequired => "length_required",
            MessageFault::Truncated => "truncated",
        }
    }
}

impl<'a> Message<'a> {
    /// The message at the front of the bytes, or its first fault.
    pub fn read(bytes: &'a [u8]) -> Result<Message<'a>, MessageFault>
        ensures { Answers bytes.now (view_result result) }
    {
        match Head::read(bytes) {
            Some(head) => judge(
                head.method,
                head.target,
                head.authorization,
                head.content_length,
                head.transfer_encoding,
                &bytes[head.len..],
            ),
            None => Err(headless_fault(bytes)),
        }
    }
}

// The message of a head and of the bytes after it.
fn judge<'a>(
    method: &'a [u8],
    target: &'a [u8],
    authorization: FieldLines<'a>,
    content_length: FieldLines<'a>,
    transfer_encoding: FieldLines<'a>,
    rest: &'a [u8],
) -> Result<Message<'a>, MessageFault>
    ensures { view_result result ≡ judged method.now target.now (field_view authorization.entry)
        (field_view content_length.entry) (field_view transfer_encoding.entry) rest.now }
{
    let token = match authorization {
        FieldLines::Repeated => return Err(MessageFault::BadFields),
        FieldLines::Absent => None,
        FieldLines::Once(credentials) => token_of(credentials),
    };
    let length = match content_length {
        FieldLines::Repeated => return Err(MessageFault::BadFields),
        FieldLines::Absent => None,
        FieldLines::Once(value) => Some(value),
    };
    match transfer_encoding {
        FieldLines::Absent => {}
        FieldLines::Once(_) | FieldLines::Repeated => return Err(MessageFault::LengthRequired),
    }
    let body = match length {
        Some(value) => body_of(value, rest)?,
        None if method == b"POST".as_slice() => return Err(MessageFault::LengthRequired),
        None => &[],
    };
    Ok(Message {
        method,
        target,
        token,
        body,
    })
}

// The body of the length that the value of `Content-Length` gives.
fn body_of<'a>(value: &[u8], rest: &'a [u8]) -> Result<&'a [u8], MessageFault>
    ensures { body_view result ≡ sized_by rest.now (length_value value.now) }
{
    let Some(length) = length_of(value) else {
        return Err(MessageFault::BadFields);
    };
    if length > MAX_BODY {
        return Err(MessageFault::TooLarge);
    }
    let length = length as usize;
    if rest.len() < length {
        return Err(MessageFault::Truncated);
    }
    Ok(&rest[..length])
}

// The fault of bytes that have no head.
fn headless_fault(bytes: &[u8]) -> MessageFault
    ensures { IsHeadless bytes.now result }
{
    if bytes.is_empty() {
        MessageFault::Truncated
    } else if bytes.len() <= MAX_HEAD {
        MessageFault::BadHead
    } else if may_become_head(bytes) {
        MessageFault::TooLarge
    } else {
        MessageFault::BadHead
    }
}
