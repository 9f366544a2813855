//! Events and their replies in tables.
use std::alloc::AllocGlobal;
use std::process::Abort;

mod census;
mod events;
mod lines;
mod many;
mod messages;
mod streams;

/// The text of the key that this letter denotes in tables.
fn key_text(letter: u8) -> Option<&'static [u8]> {
    match letter {
        b'^' => Some(b"AAAAAAAAAAAAAAAAAAAAAAAAAAAAAAAAAAAAAAAAAAA="),
        b'@' => Some(b"AQEBAQEBAQEBAQEBAQEBAQEBAQEBAQEBAQEBAQEBAQE="),
        b'&' => Some(b"AgICAgICAgICAgICAgICAgICAgICAgICAgICAgICAgI="),
        b'~' => Some(b"AwMDAwMDAwMDAwMDAwMDAwMDAwMDAwMDAwMDAwMDAwM="),
        b'$' => Some(b"CQkJCQkJCQkJCQkJCQkJCQkJCQkJCQkJCQkJCQkJCQk="),
        _ => None,
    }
}

/// The text of a table, in which `^`, `@`, `&`, `~` and `$` denote the keys of 32 bytes 0x00, 0x01, 0x02,
/// 0x03 and 0x09.
fn text_of(rt: &(impl Abort + AllocGlobal), row: &[u8]) -> Vec<u8> {
    let mut text = Vec::new(rt.alloc());
    for &byte in row {
        let one = [byte];
        let part = key_text(byte).unwrap_or(one.as_slice());
        text.extend_from_slice(part).expect(rt, "memory");
    }
    text
}

/// A head, followed by the body.
fn joined(rt: &(impl Abort + AllocGlobal), head: &str, body: &[u8]) -> Vec<u8> {
    let mut bytes = Vec::new(rt.alloc());
    bytes
        .extend_from_slice(head.as_bytes())
        .expect(rt, "memory");
    bytes.extend_from_slice(body).expect(rt, "memory");
    bytes
}

/// The whole reply. `lines` are header lines between `Content-Length` and `Connection`.
fn reply(rt: &(impl Abort + AllocGlobal), status: &str, lines: &str, body: &str) -> Vec<u8> {
    let body = text_of(rt, body.as_bytes());
    let length = body.len();
    let head = format!(in rt.alloc();
        "HTTP/1.1 {status}\r\nContent-Type: application/json\r\nContent-Length: {length}\r\n{lines}Connection: close\r\n\r\n"
    ).expect(rt, "memory");
    joined(rt, &head, &body)
}

const FOUND: &str = "200 OK";

const BAD: &str = "400 Bad Request";

const NOBODY: &str = "401 Unauthorized";

const FORBIDDEN: &str = "403 Forbidden";

const NOT_FOUND: &str = "404 Not Found";

const CONFLICT: &str = "409 Conflict";
