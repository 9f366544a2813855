//! Messages at their limits, readers in pieces and readers that fail, and replies. The rows follow
//! from RFC 9112; no row is copied from this crate's answers.
ghost use Rattle.std.specs.Prelude.{◌<◌, map, Some};

use crate::unfinished::may_become_head;
use crate::{Kind, Message, MessageFault, StatusCode, is_token, read_message, write_reply};
use std::alloc::AllocGlobal;
use std::io;
use std::process::Abort;
use wgr_io::{Device, DeviceError, Read, ReadFault};

/// Whether the bytes are a message, or else have the fault of this name.
fn check(rt: &(impl Abort + AllocGlobal), bytes: &[u8], wanted: &str) {
    match Message::read(bytes) {
        Ok(_) => assert_eq!(rt; "message", wanted),
        Err(fault) => assert_eq!(rt; fault.name(), wanted),
    }
}

/// A head of so many fields. Its last one has so many bytes of a value.
fn head(rt: &(impl Abort + AllocGlobal), fields: usize, value: usize) -> Vec<u8> {
    let mut text = Vec::new(rt.alloc());
    text.extend_from_slice(b"GET / HTTP/1.1")
        .expect(rt, "memory");
    for _ in 0..fields {
        text.extend_from_slice(b"\r\nA: ").expect(rt, "memory");
    }
    for _ in 0..value {
        text.push(b'a').expect(rt, "memory");
    }
    text.extend_from_slice(b"\r\n\r\n").expect(rt, "memory");
    text
}

#[test]
fn messages(rt: HostRuntime) -> io::Result<()> {
    let rows: [(&[u8], &str); 14] = [
        (b"", "truncated"),
        (b"GET /networks HTTP/1.1\r\n", "bad_head"),
        (b"GET /networks HTTP/1.1\r\n\r\n", "message"),
        (b"\r\n\nGET /networks HTTP/1.1\n\n", "message"),
        (b"GET  /networks HTTP/1.1\r\n\r\n", "bad_head"),
        (b"GET /\xFF HTTP/1.1\r\n\r\n", "bad_head"),
        (b"GET /\xC3\xA4 HTTP/1.1\r\n\r\n", "message"),
        (b"GET / HTTP/1.1\r\nHost : a\r\n\r\n", "bad_head"),
        (b"GET / HTTP/1.1\r\nContent-Length:\r\n\r\n", "bad_head"),
        (
            b"GET / HTTP/1.1\r\ncontent-length: 0\r\nContent-Length: 0\r\n\r\n",
            "bad_head",
        ),
        (
            b"GET / HTTP/1.1\r\ntransfer-encoding: x\r\n\r\n",
            "length_required",
        ),
        (
            b"POST / HTTP/1.1\r\nContent-Length: 3\r\n\r\n{}",
            "truncated",
        ),
        (
            b"POST / HTTP/1.1\r\nContent-Length: 2097152\r\n\r\n",
            "truncated",
        ),
        (
            b"POST / HTTP/1.1\r\nContent-Length: 2097153\r\n\r\n",
            "too_large",
        ),
    ];
    for (bytes, wanted) in rows {
        check(&rt, bytes, wanted);
    }
    Ok(())
}

#[test]
fn parts(rt: HostRuntime) {
    let message = Message::read(MESSAGE).expect(&rt, "a message");
    assert_eq!(rt; message.method, b"POST".as_slice());
    assert_eq!(rt; message.target, b"/x".as_slice());
    assert_eq!(rt; message.token, Some(b"abc".as_slice()));
    assert_eq!(rt; message.body, b"{ab}".as_slice());
}

#[test]
fn heads_at_their_limits(rt: HostRuntime) -> io::Result<()> {
    let rows = [
        (1usize, 8169usize, 8192usize, "message"),
        (1, 8170, 8193, "too_large"),
        (1, 8170, 8192, "bad_head"),
        (32, 0, 8192, "message"),
        (32, 8169, 8193, "too_large"),
        (33, 0, 8192, "bad_head"),
        (33, 8192, 8193, "bad_head"),
        (33, 8192, 9000, "bad_head"),
    ];
    for (fields, value, most, wanted) in rows {
        let bytes = head(&rt, fields, value);
        check(&rt, &bytes[..most.min(bytes.len())], wanted);
    }
    Ok(())
}

/// Beginnings, and whether bytes can follow that make each a head.
#[test]
fn beginnings(rt: HostRuntime) {
    let rows: [(&[u8], bool); 19] = [
        (b"", true),
        (b"\r\n\r", true),
        (b"\r\r", false),
        (b"GET / HTTP/1.1\r\nA: b\r\n\r", true),
        (b"GET / HTTP/1.1\r\nA: \x01", false),
        (b"GET / HTTP/1.1\r\nA: \x80", true),
        (b"GET / HTTP/1.1\r\nHost ", false),
        (b"GET / HTTP/1.1\r\n ", false),
        (b"GET / HTTP/2", false),
        (b"GET / \n", false),
        (b"GET  ", false),
        (b"\x16\x03\x01", false),
        (b"GET /\xFF", false),
        (b"GET /\xC3", true),
        (b"GET /\xC3 ", false),
        (b"GET /\xC3\xA4 HTTP/1", true),
        (b"GET /\xED\xA0", false),
        (b"GET /\xF0\x9F\x98", true),
        (b"GET /a b", false),
    ];
    for (bytes, open) in rows {
        assert_eq!(rt; may_become_head(bytes), open, "{bytes:?}");
    }
}

/// The 33rd field is one too many from its first byte on.
#[test]
fn fields_that_have_begun(rt: HostRuntime) {
    let bytes = head(&rt, 33, 8192);
    // a request line of 16 bytes, and 32 lines of 5
    for (count, open) in [(176, true), (177, false), (8192, false), (8193, false)] {
        assert_eq!(rt;
            may_become_head(&bytes[..count.min(bytes.len())]),
            open,
            "{count}"
        );
    }
    let mut bytes = head(&rt, 32, 0);
    // all but its last LF
    bytes.truncate(177);
    assert!(rt; may_become_head(&bytes));
}

/// The message's token where its one field line is this.
fn token_of(rt: &(impl Abort + AllocGlobal), line: &str) -> Vec<u8> {
    let mut bytes = Vec::new(rt.alloc());
    let mut token = Vec::new(rt.alloc());
    for part in ["GET / HTTP/1.1\r\n", line, "\r\n\r\n"] {
        bytes
            .extend_from_slice(part.as_bytes())
            .expect(rt, "memory");
    }
    if let Some(text) = Message::read(&bytes).expect(rt, "a message").token {
        token.extend_from_slice(text).expect(rt, "memory");
    }
    token
}

#[test]
fn tokens(rt: HostRuntime) {
    let rows = [
        ("Authorization: Bearer a", "a"),
        ("authorization:bEARER   !~", "!~"),
        ("Authorization: Bearer a b", ""),
        ("Authorization: Bearer\ta", ""),
        ("Authorization: Bearera", ""),
        ("Authorization: Bearer", ""),
        ("Authorization: Basic a", ""),
        ("Proxy-Authorization: Bearer a", ""),
    ];
    for (line, token) in rows {
        assert_eq!(rt; token_of(&rt, line).as_slice(), token.as_bytes(), "{line}");
    }
    assert!(rt; is_token(&[b'!'; 128]) && !is_token(&[b'!'; 129]) && !is_token(b""));
    assert!(rt; is_token(b"~") && !is_token(b"\x7f") && !is_token(b" "));
}

/// Gives at most `piece` bytes at a time; the call of number `fails_at` fails.
#[derive(Drop)]
struct Pieces<'a> {
    bytes: &'a [u8],
    piece: usize,
    calls: usize,
    fails_at: usize,
}

impl<'a> io::Read for Pieces<'a> {
    fn read(&mut self, buf: &mut [u8]) -> io::Result<usize> {
        self.calls = self.calls.saturating_add(1);
        if self.calls == self.fails_at {
            return Err(io::Error::from(io::ErrorKind::Other));
        }
        let count = self.piece.min(buf.len()).min(self.bytes.len());
        let (first, rest) = self.bytes.split_at(count);
        buf[..count].copy_from_slice(first);
        self.bytes = rest;
        Ok(count)
    }
}

/// A message of 89 bytes, and 4 bytes after it.
const MESSAGE: &[u8] =
    b"POST /x HTTP/1.1\r\nAuthorization: Bearer abc\r\nContent-Length: 00000000000000000004\r\n\r\n{ab}GET ";

#[test]
fn read_up_to_the_failure(rt: HostRuntime) -> io::Result<()> {
    let mut message = Vec::new(rt.alloc());
    for fails_at in 0..93usize {
        let mut input = Device::new(Pieces {
            bytes: MESSAGE,
            piece: 1,
            calls: 0,
            fails_at,
        });
        match read_message(&mut input, &mut message) {
            Ok(()) => {
                assert!(rt; fails_at == 0 || fails_at > 89, "{fails_at}");
                assert_eq!(rt; message.as_slice(), &MESSAGE[..89]);
            }
            Err(fault) => {
                assert_eq!(rt; fault, ReadFault::Device);
                assert_eq!(rt; message.len(), fails_at.saturating_sub(1));
            }
        }
    }
    Ok(())
}

/// Gives at most `piece` bytes at a time, and records what each call gave.
#[derive(Drop)]
struct Recorded<'a, A: Abort + AllocGlobal> {
    rt: &'a A,
    bytes: &'a [u8],
    piece: usize,
    given: Vec<Vec<u8>>,
    failed: bool,
    ghost some: { 0 < piece },
}

impl<'a, A: Abort + AllocGlobal> Read for Recorded<'a, A> {
    ghost remaining = { λ r. Some r.bytes.now };

    ghost pieces = { λ r. Some (map (λ piece. piece.items) r.given.items) };

    ghost failed = { λ r. r.failed };

    fn read(&mut self, buf: &mut [u8]) -> Result<usize, DeviceError> {
        let count = self.piece.min(buf.len()).min(self.bytes.len());
        let (first, rest) = self.bytes.split_at(count);
        buf[..count].copy_from_slice(first);
        self.bytes = rest;
        let mut given = Vec::new(self.rt.alloc());
        given.extend_from_slice(first).expect(self.rt, "memory");
        self.given.push(given).expect(self.rt, "memory");
        Ok(count)
    }
}

/// No call is made once a head of 5,000 bytes is there: a client may keep its side open.
#[test]
fn reads_stop_with_the_message(rt: HostRuntime) {
    let bytes = head(&rt, 1, 4977);
    let mut message = Vec::new(rt.alloc());
    for (piece, calls) in [
        (1usize, 5000usize),
        (999, 6),
        (4999, 2),
        (5000, 1),
        (9999, 1),
    ] {
        let mut input = Recorded {
            rt: &rt,
            bytes: &bytes,
            piece,
            given: Vec::new(rt.alloc()),
            failed: false,
        };
        assert!(rt; read_message(&mut input, &mut message).is_ok());
        assert_eq!(rt; message, bytes);
        assert_eq!(rt; input.given.len(), calls);
    }
}

/// Bytes that can't become a head are refused by the first of them that makes it so, however they come.
#[test]
fn refused_at_once(rt: HostRuntime) {
    let rows: [(&[u8], usize); 3] = [
        (b"GET / HTTP/1.1\r\nA: \x7F and more", 20),
        (b"\x16\x03\x01\x02\x00\x01\x00\x01\xFC\x03\x03", 1),
        (b"GET /\xC3\xA4\xC3/ HTTP/1.1\r\n\r\n", 9),
    ];
    let mut message = Vec::new(rt.alloc());
    for (bytes, calls) in rows {
        for (piece, made) in [(1usize, calls), (40, 1)] {
            let mut input = Recorded {
                rt: &rt,
                bytes,
                piece,
                given: Vec::new(rt.alloc()),
                failed: false,
            };
            assert!(rt; read_message(&mut input, &mut message).is_ok());
            assert_eq!(rt; input.given.len(), made);
            check(&rt, &message, "bad_head");
        }
    }
}

#[test]
fn replies(rt: HostRuntime) -> io::Result<()> {
    let rows = [
        (StatusCode::Done, "200 OK", ""),
        (StatusCode::BadRequest, "400 Bad Request", ""),
        (
            StatusCode::Unauthorized,
            "401 Unauthorized",
            "WWW-Authenticate: Bearer\r\n",
        ),
        (StatusCode::Forbidden, "403 Forbidden", ""),
        (StatusCode::NotFound, "404 Not Found", ""),
        (
            StatusCode::MethodNotAllowed,
            "405 Method Not Allowed",
            "Allow: GET, POST\r\n",
        ),
        (StatusCode::Conflict, "409 Conflict", ""),
        (StatusCode::LengthRequired, "411 Length Required", ""),
        (StatusCode::ContentTooLarge, "413 Content Too Large", ""),
        (
            StatusCode::ServiceUnavailable,
            "503 Service Unavailable",
            "",
        ),
    ];
    for (status, line, extra) in rows {
        for (kind, name) in [(Kind::Json, "application/json"), (Kind::Text, "text/plain")] {
            let bytes = write_reply(rt.alloc(), status, kind, b"GET, POST", b"{}")?;
            let wanted = format!(in rt.alloc();
                "HTTP/1.1 {line}\r\nContent-Type: {name}\r\nContent-Length: 2\r\n{extra}Connection: close\r\n\r\n{{}}"
            )?;
            assert_eq!(rt; bytes.as_slice(), wanted.as_bytes());
        }
    }
    for (fault, status) in [
        (MessageFault::BadHead, 400),
        (MessageFault::BadFields, 400),
        (MessageFault::TooLarge, 413),
        (MessageFault::LengthRequired, 411),
        (MessageFault::Truncated, 400),
    ] {
        assert_eq!(rt; fault.status().number(), status);
    }
    Ok(())
}
