//! Whole messages in tables. `@` is the key of 32 bytes 0x01 wherever it occurs.
use super::{put, put_number, put_prefix, shown, text_of};
use crate::{Paths, Request, RequestFault, request_of, token_digest};
use std::alloc::AllocGlobal;
use std::process::Abort;
use wgr_core::{Command, SeenPeer};
use wgr_http::MessageFault;
use wgr_text::write_key;

fn fault_words(fault: RequestFault) -> (&'static str, &'static str) {
    match fault {
        RequestFault::Message(MessageFault::BadHead) => ("bad_head", ""),
        RequestFault::Message(MessageFault::BadFields) => ("bad_head", ""),
        RequestFault::Message(MessageFault::TooLarge) => ("too_large", ""),
        RequestFault::Message(MessageFault::LengthRequired) => ("length_required", ""),
        RequestFault::Message(MessageFault::Truncated) => ("truncated", ""),
        RequestFault::NoSuchPath => ("no_such_path", ""),
        RequestFault::WrongMethod(methods) => ("wrong_method", methods.text()),
        RequestFault::UnknownToken => ("unknown_token", ""),
        RequestFault::BadField(field) => ("bad_field", field.name()),
        RequestFault::BadDump { .. } => ("bad_dump", ""),
    }
}

fn command_word(command: &Command) -> &'static str {
    match command {
        Command::Add { .. } => "add",
        Command::Move { .. } => "move",
        Command::Revoke { .. } => "revoke",
        Command::Route { .. } => "route",
        Command::Unroute { .. } => "unroute",
        Command::Renew { .. } => "renew",
        Command::Adopt { .. } => "adopt",
        Command::List => "list",
        Command::Owner { .. } => "owner",
        Command::ServerFile { .. } => "server",
        Command::PeerFile { .. } => "file",
    }
}

/// `abc` for the digest of that token, `-` for none.
fn digest_word(digest: Option<[u8; 32]>) -> &'static str {
    match digest {
        Some(digest) if Some(digest) == token_digest(b"abc") => "abc",
        Some(_) => "another",
        None => "-",
    }
}

/// A line of a dump: key, prefixes, handshake, received, sent and keepalive.
fn put_line(rt: &(impl Abort + AllocGlobal), out: &mut Vec<u8>, line: &SeenPeer) {
    let mut key = Vec::new(rt.alloc());
    write_key(&line.key, &mut key).expect(rt, "memory");
    put(rt, out, &key);
    for prefix in line.allowed.as_slice() {
        put_prefix(rt, out, prefix);
    }
    put_number(rt, out, line.status.handshake.value());
    put_number(rt, out, line.status.received.value());
    put_number(rt, out, line.status.sent.value());
    put_number(rt, out, u64::from(line.keepalive));
}

fn put_command(rt: &(impl Abort + AllocGlobal), out: &mut Vec<u8>, command: &Command) {
    put(rt, out, command_word(command).as_bytes());
    let Command::Adopt { server, lines } = command else {
        let fields = shown(rt, command);
        put(rt, out, &fields);
        return;
    };
    let mut key = Vec::new(rt.alloc());
    match server {
        Some(server) => write_key(server, &mut key).expect(rt, "memory"),
        None => put(rt, &mut key, b"-"),
    }
    put(rt, out, &key);
    for line in lines.as_slice() {
        put_line(rt, out, line);
    }
}

fn put_refusal(rt: &(impl Abort + AllocGlobal), out: &mut Vec<u8>, why: RequestFault) {
    let (name, fact) = fault_words(why);
    put(rt, out, name.as_bytes());
    put(rt, out, fact.as_bytes());
    if let RequestFault::BadDump { line, field } = why {
        put_number(rt, out, line as u64);
        put_number(rt, out, u64::from(field));
    }
}

/// The digest and what is asked; of a command the network's name before it.
fn asked(rt: &(impl Abort + AllocGlobal), bytes: &[u8]) -> Vec<u8> {
    let paths = Paths::new(rt.alloc()).expect(rt, "memory");
    let mut out = Vec::new(rt.alloc());
    match request_of(rt.alloc(), &paths, bytes).expect(rt, "memory") {
        Request::Refused { why, digest } => {
            put(rt, &mut out, digest_word(digest).as_bytes());
            put_refusal(rt, &mut out, why);
        }
        Request::Networks { digest } => {
            put(rt, &mut out, digest_word(Some(digest)).as_bytes());
            put(rt, &mut out, b"networks");
        }
        Request::Ask {
            digest,
            name,
            command,
        } => {
            put(rt, &mut out, digest_word(Some(digest)).as_bytes());
            put(rt, &mut out, name);
            put_command(rt, &mut out, &command);
        }
    }
    out
}

/// A message of this first line, these further lines of its head, and this body.
fn message(rt: &(impl Abort + AllocGlobal), first: &str, lines: &str, body: &str) -> Vec<u8> {
    let body = text_of(rt, body.as_bytes());
    let length = body.len();
    let head = format!(in rt.alloc();
        "{first} HTTP/1.1\r\n{lines}Content-Length: {length}\r\n\r\n"
    ).expect(rt, "memory");
    let mut bytes = Vec::new(rt.alloc());
    bytes
        .extend_from_slice(head.as_bytes())
        .expect(rt, "memory");
    bytes.extend_from_slice(&body).expect(rt, "memory");
    bytes
}

fn check(rt: &(impl Abort + AllocGlobal), bytes: &[u8], wanted: &str) {
    let found = asked(rt, bytes);
    let wanted = text_of(rt, wanted.as_bytes());
    assert_eq!(rt; found.as_slice(), wanted.as_slice());
}

/// First line and body of a message with the token `abc`, and what it asks.
const GRANTED: &[(&str, &str, &str)] = &[
    ("GET /networks", "", "abc networks"),
    ("GET /networks", "{}", "abc networks"),
    ("GET /networks/office/peers", "", "abc office list"),
    ("GET /networks/office/peers", "x", "abc office list"),
    (
        "POST /networks/office/peers",
        r#"{"key":"@"}"#,
        "abc office add @ [] - 0 0",
    ),
    (
        "POST /networks/a/peers",
        r#"{"keepalive":25,"end":9,"address":"10.8.0.9","label":"b","key":"@"}"#,
        "abc a add @ [b] 10.8.0.9 9 25",
    ),
    ("DELETE /networks/a/peers/2", "", "abc a revoke 2"),
    ("DELETE /networks/a/peers/2", "x", "abc a revoke 2"),
    ("POST /networks/a/peers/3/address", "{}", "abc a move 3 -"),
    (
        "POST /networks/a/peers/3/routes",
        r#"{"prefix":"10.1.2.3/8"}"#,
        "abc a route 3 10.0.0.0/8",
    ),
    (
        "POST /networks/a/peers/3/lease",
        r#"{"end":5}"#,
        "abc a renew 3 5",
    ),
    (
        "GET /networks/a/peers/3/file/quick",
        "",
        "abc a file 3 quick",
    ),
    (
        "POST /networks/a/unroute",
        r#"{"prefix":"::"}"#,
        "abc a unroute ::/128",
    ),
    (
        "POST /networks/a/dump",
        "@\t(none)\t51820\toff\n",
        "abc a adopt -",
    ),
    (
        "POST /networks/a/dump",
        "(none)\t@\t51820\toff\n@\t@\t[::1]:1\t10.8.0.2,10.1.0.0/16\t1\t2\t3\t25\n@\t(none)\t-\t(none)\t0\t0\t9223372036854775808\toff",
        "abc a adopt @ @ 10.8.0.2/32 10.1.0.0/16 1 2 3 25 @ 0 0 9223372036854775807 0",
    ),
    ("GET /networks/a/owner/FD00::2", "", "abc a owner fd00::2"),
    ("GET /networks/a/server/wg", "", "abc a server wg"),
    // A name that no network can have isn't refused for its form.
    (
        "GET /networks/Office%20of%20a.name.that.has.more.than.32.bytes/peers",
        "",
        "abc Office%20of%20a.name.that.has.more.than.32.bytes list",
    ),
    // Where two checks fail, the first one is reported.
    ("PUT /network", "", "abc no_such_path"),
    ("PUT /networks/a/peers/01", "", "abc no_such_path"),
    ("POST /networks/a/peers/0/lease", "x", "abc no_such_path"),
    ("PUT /networks", "", "abc wrong_method GET"),
    ("PUT /networks/a/peers", "x", "abc wrong_method GET, POST"),
    ("POST /networks/a/owner/x", "", "abc wrong_method GET"),
    ("GET /networks/a/dump", "x", "abc wrong_method POST"),
    // What the bytes refuse.
    ("POST /networks/a/peers", "", "abc bad_field body"),
    (
        "POST /networks/a/peers",
        r#"{"key":"@","prefix":"::"}"#,
        "abc bad_field body",
    ),
    (
        "POST /networks/a/peers",
        r#"{"label":0,"address":0}"#,
        "abc bad_field key",
    ),
    (
        "POST /networks/a/peers/1/address",
        r#"{"address":null}"#,
        "abc bad_field address",
    ),
    (
        "POST /networks/a/peers/1/routes",
        "{}",
        "abc bad_field prefix",
    ),
    ("POST /networks/a/peers/1/lease", "{}", "abc bad_field end"),
    ("POST /networks/a/unroute", "{}", "abc bad_field prefix"),
    ("POST /networks/a/dump", "", "abc bad_dump 1 1"),
    (
        "POST /networks/a/dump",
        "@\t@\t1\toff\n@\t@\tx\t(none)\t0",
        "abc bad_dump 2 6",
    ),
    (
        "GET /networks/a/owner/10.8.0.256",
        "",
        "abc bad_field address",
    ),
    (
        "GET /networks/a/owner/10.8.0.2?",
        "",
        "abc bad_field address",
    ),
];

#[test]
fn messages_with_a_token(rt: HostRuntime) {
    for &(first, body, wanted) in GRANTED {
        let bytes = message(&rt, first, "authorization:  bearer   abc \r\n", body);
        check(&rt, &bytes, wanted);
    }
}

/// First line, further lines and body of a message, and what it asks.
const OTHERS: &[(&str, &str, &str, &str)] = &[
    ("GET /networks", "", "", "- unknown_token"),
    ("GET /network", "", "", "- no_such_path"),
    ("PUT /networks", "", "", "- wrong_method GET"),
    ("POST /networks/a/peers", "", "x", "- unknown_token"),
    ("POST /networks/a/dump", "", "x", "- unknown_token"),
    ("GET /networks/a/owner/x", "", "", "- unknown_token"),
    (
        "GET /networks",
        "Authorization: Bearer abcd\r\n",
        "",
        "another networks",
    ),
    (
        "GET /networks",
        "Authorization: Basic abc\r\n",
        "",
        "- unknown_token",
    ),
    (
        "GET /networks",
        "Authorization: Bearer a b\r\n",
        "",
        "- unknown_token",
    ),
    (
        "GET /network",
        "Authorization: Bearer abc\r\nAuthorization: Bearer abc\r\n",
        "",
        "- bad_head",
    ),
    (
        "PUT /network",
        "Authorization: Bearer abc\r\nTransfer-Encoding: chunked\r\n",
        "",
        "- length_required",
    ),
];

#[test]
fn other_messages(rt: HostRuntime) {
    for &(first, lines, body, wanted) in OTHERS {
        let bytes = message(&rt, first, lines, body);
        check(&rt, &bytes, wanted);
    }
    check(&rt, b"", "- truncated");
    check(&rt, b"GET /networks HTTP/1.1\r\n", "- bad_head");
    check(&rt, &[b'x'; 8193], "- too_large");
    let no_length = b"POST /network HTTP/1.1\r\nAuthorization: Bearer abc\r\n\r\n";
    check(&rt, no_length, "- length_required");
    let cut = b"PUT /network HTTP/1.1\r\nContent-Length: 2\r\n\r\n{";
    check(&rt, cut, "- truncated");
    let two =
        b"GET /networks HTTP/1.1\r\nAuthorization: Bearer abc\r\n\r\nGET /network HTTP/1.1\r\n\r\n";
    check(&rt, two, "abc networks");
}

/// A message with a token of so many letters.
fn long_token(rt: &(impl Abort + AllocGlobal), length: usize) -> Vec<u8> {
    let mut bytes = Vec::new(rt.alloc());
    let head = b"GET /networks HTTP/1.1\r\nAuthorization: Bearer ";
    bytes
        .extend_from_slice(head.as_slice())
        .expect(rt, "memory");
    for _ in 0..length {
        bytes.push(b'a').expect(rt, "memory");
    }
    bytes.extend_from_slice(b"\r\n\r\n").expect(rt, "memory");
    bytes
}

#[test]
fn tokens_at_their_limit(rt: HostRuntime) {
    check(&rt, &long_token(&rt, 128), "another networks");
    check(&rt, &long_token(&rt, 129), "- unknown_token");
}
