//! The head of a message: its request line and header fields.
ghost use Rattle.std.specs.Prelude.{◌≡◌, ◌≤◌, length, drop, take, IfSome, IfNone};
ghost use Rattle.httparse.specs.Grammar.{RequestHead};
ghost use Rattle.httparse.specs.Spans.{IsRequestAt, IsRequestWithin};
ghost use Rattle.wgr_http.specs.Head.{HasHead, HasNoHead};
ghost use Rattle.wgr_http.specs.Extent.{IsHeadOf, HasExtent, wanted};
ghost use Rattle.wgr_http.specs.Field.{field_view};

use crate::field_lines::{FieldLines, field_of};
use crate::length::{MAX_BODY, length_of};
use httparse::Status;
use httparse::spans::{EMPTY_HEADER_SPAN, HeaderSpan, RequestSpans, parse_request};

/// The most bytes of a head, its empty line among them.
pub(crate) const MAX_HEAD: usize = 8192;

/// The most header fields of a head.
pub(crate) const MAX_HEADERS: usize = 32;

/// The parts of a head that decide what the message is.
#[derive(Clone, Copy)]
pub(crate) struct Head<'a> {
    /// How many bytes the head has.
    pub len: usize,
    pub method: &'a [u8],
    pub target: &'a [u8],
    pub authorization: FieldLines<'a>,
    pub content_length: FieldLines<'a>,
    pub transfer_encoding: FieldLines<'a>,
}

impl<'a> Head<'a> {
    /// The head at the front of the bytes. It doesn't say why there is none, though `httparse` distinguishes
    /// an incomplete head from a wrong one: so the definition of a message needs only the grammar.
    pub(crate) fn read(bytes: &'a [u8]) -> Option<Head<'a>>
        ensures none { IfNone result (HasNoHead bytes.now) }
        ensures some { IfSome result (λ head. (h : RequestHead)
            × HasHead bytes.now h (drop head.len bytes.now) × IsHeadOf head h) }
        ensures within { IfSome result (λ head. head.len ≤ length bytes.now) }
    {
        let mut headers = [EMPTY_HEADER_SPAN; MAX_HEADERS];
        let spans = spans_of(bytes, &mut headers)?;
        let front = front_of(bytes);
        let used = &headers[..spans.headers];
        Some(Head {
            len: spans.len,
            method: spans.method.of(front),
            target: spans.path.of(front),
            authorization: field_of(front, used, b"authorization"),
            content_length: field_of(front, used, b"content-length"),
            transfer_encoding: field_of(front, used, b"transfer-encoding"),
        })
    }
}

/// How many bytes of a message decide it, where it has a head.
pub(crate) fn extent_of(bytes: &[u8]) -> Option<usize>
    ensures none { IfNone result (HasNoHead bytes.now) }
    ensures some { IfSome result (HasExtent bytes.now) }
{
    let head = Head::read(bytes)?;
    Some(
        head.len
            + wanted_of(
                head.authorization,
                head.content_length,
                head.transfer_encoding,
            ),
    )
}

// How many bytes of a body decide the message: none where its head does.
fn wanted_of(
    authorization: FieldLines,
    content_length: FieldLines,
    transfer_encoding: FieldLines,
) -> usize
    ensures value { result ≡ wanted (field_view authorization.entry) (field_view content_length.entry) (field_view transfer_encoding.entry) }
    ensures most { result ≤ 2097152 }
{
    match authorization {
        FieldLines::Repeated => return 0,
        FieldLines::Absent => {}
        FieldLines::Once(_) => {}
    }
    match transfer_encoding {
        FieldLines::Absent => {}
        FieldLines::Once(_) => return 0,
        FieldLines::Repeated => return 0,
    }
    let value = match content_length {
        FieldLines::Absent => return 0,
        FieldLines::Repeated => return 0,
        FieldLines::Once(value) => value,
    };
    match length_of(value) {
        Some(length) => {
            if length > MAX_BODY {
                0
            } else {
                length as usize
            }
        }
        None => 0,
    }
}

// Where the parts of the head are in the front of the bytes.
fn spans_of(bytes: &[u8], headers: &mut [HeaderSpan; MAX_HEADERS]) -> Option<RequestSpans>
    ensures none { IfNone result (HasNoHead bytes.now) }
    ensures head { IfSome result (λ spans. (h : RequestHead)
        × HasHead bytes.now h (drop spans.len bytes.now) × IsRequestAt (take 8192 bytes.now) headers.new spans h) }
    ensures within { IfSome result (IsRequestWithin (take 8192 bytes.now) headers.new) }
{
    match parse_request(front_of(bytes), headers) {
        Ok(Status::Complete(spans)) => Some(spans),
        Ok(Status::Partial) => None,
        Err(_) => None,
    }
}

/// The bytes in which the head has to lie.
pub(crate) fn front_of(bytes: &[u8]) -> &[u8]
    ensures { result.now ≡ take 8192 bytes.now }
{
    if bytes.len() > MAX_HEAD {
        &bytes[..MAX_HEAD]
    } else {
        bytes
    }
}
