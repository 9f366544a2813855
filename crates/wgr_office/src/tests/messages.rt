//! Whole messages and whole replies, byte for byte.
use super::lines::{end, given, office};
use super::text_of;
use crate::Office;
use sqlite::MemStore;
use std::alloc::AllocGlobal;
use std::process::Abort;
use wgr_io::Device;

/// Messages that change nothing, and the replies to them.
const MESSAGES: &[(&[u8], &[u8])] = &[
    (
        b"",
        b"HTTP/1.1 400 Bad Request\r\nContent-Type: application/json\r\nContent-Length: 21\r\nConnection: close\r\n\r\n{\"error\":\"truncated\"}",
    ),
    (
        b"GET /networks HTTP/1.1\r\n",
        b"HTTP/1.1 400 Bad Request\r\nContent-Type: application/json\r\nContent-Length: 20\r\nConnection: close\r\n\r\n{\"error\":\"bad_head\"}",
    ),
    (
        b"GET /networks HTTP/1.1\r\nAuthorization: Bearer abc\r\nAuthorization: Bearer abc\r\n\r\n",
        b"HTTP/1.1 400 Bad Request\r\nContent-Type: application/json\r\nContent-Length: 20\r\nConnection: close\r\n\r\n{\"error\":\"bad_head\"}",
    ),
    (
        b"POST /networks/office/peers HTTP/1.1\r\nAuthorization: Bearer abc\r\n\r\n",
        b"HTTP/1.1 411 Length Required\r\nContent-Type: application/json\r\nContent-Length: 27\r\nConnection: close\r\n\r\n{\"error\":\"length_required\"}",
    ),
    (
        b"POST /networks/office/peers HTTP/1.1\r\nAuthorization: Bearer abc\r\nContent-Length: 54\r\n\r\n{\"key\":\"@\"",
        b"HTTP/1.1 400 Bad Request\r\nContent-Type: application/json\r\nContent-Length: 21\r\nConnection: close\r\n\r\n{\"error\":\"truncated\"}",
    ),
    (
        b"PUT /networks/office/peers HTTP/1.1\r\nAuthorization: Bearer abc\r\n\r\n",
        b"HTTP/1.1 405 Method Not Allowed\r\nContent-Type: application/json\r\nContent-Length: 24\r\nAllow: GET, POST\r\nConnection: close\r\n\r\n{\"error\":\"wrong_method\"}",
    ),
    (
        b"GET /networks/office/peers/2 HTTP/1.1\r\nAuthorization: Bearer abc\r\n\r\n",
        b"HTTP/1.1 405 Method Not Allowed\r\nContent-Type: application/json\r\nContent-Length: 24\r\nAllow: DELETE\r\nConnection: close\r\n\r\n{\"error\":\"wrong_method\"}",
    ),
    (
        b"POST /networks/office/peers HTTP/1.1\r\nAuthorization: Bearer abc\r\nContent-Length: 64\r\n\r\n{\"key\":\"@\",\"extra\":0}",
        b"HTTP/1.1 400 Bad Request\r\nContent-Type: application/json\r\nContent-Length: 36\r\nConnection: close\r\n\r\n{\"error\":\"bad_field\",\"field\":\"body\"}",
    ),
    (
        b"POST /networks/office/peers HTTP/1.1\r\nContent-Length: 64\r\n\r\n{\"key\":\"@\",\"extra\":0}",
        b"HTTP/1.1 401 Unauthorized\r\nContent-Type: application/json\r\nContent-Length: 25\r\nWWW-Authenticate: Bearer\r\nConnection: close\r\n\r\n{\"error\":\"unknown_token\"}",
    ),
    (
        b"GET /networks/lab/peers HTTP/1.1\r\nAuthorization: Bearer abc\r\n\r\n",
        b"HTTP/1.1 404 Not Found\r\nContent-Type: application/json\r\nContent-Length: 27\r\nConnection: close\r\n\r\n{\"error\":\"no_such_network\"}",
    ),
    (
        b"GET /networks HTTP/1.1\r\nauthorization: bEARER   abc\r\n\r\n",
        b"HTTP/1.1 200 OK\r\nContent-Type: application/json\r\nContent-Length: 160\r\nConnection: close\r\n\r\n{\"networks\":[{\"capacity\":4096,\"endpoint\":\"vpn.example.net:51820\",\"name\":\"office\",\"pool\":\"10.8.0.0/24\",\"server\":\"$\"}]}",
    ),
];

const LIST: &[u8] = b"GET /networks/office/peers HTTP/1.1\r\nAuthorization: Bearer abc\r\n\r\n";

const NO_PEERS: &[u8] =
    b"HTTP/1.1 200 OK\r\nContent-Type: application/json\r\nContent-Length: 12\r\nConnection: close\r\n\r\n{\"peers\":[]}";

const NETWORKS: &[u8] =
    b"HTTP/1.1 200 OK\r\nContent-Type: application/json\r\nContent-Length: 160\r\nConnection: close\r\n\r\n{\"networks\":[{\"capacity\":4096,\"endpoint\":\"vpn.example.net:51820\",\"name\":\"office\",\"pool\":\"10.8.0.0/24\",\"server\":\"$\"}]}";

const TOO_LARGE: &[u8] =
    b"HTTP/1.1 413 Content Too Large\r\nContent-Type: application/json\r\nContent-Length: 21\r\nConnection: close\r\n\r\n{\"error\":\"too_large\"}";

/// Connections served in turn: the bytes received and the bytes written. Bytes after a message are not part of it.
const CONNECTIONS: &[(&[u8], &[u8])] = &[
    (
        b"POST /networks/office/peers HTTP/1.1\r\nAuthorization: Bearer abc\r\nContent-Length: 54\r\n\r\n{\"key\":\"@\"}",
        b"HTTP/1.1 200 OK\r\nContent-Type: application/json\r\nContent-Length: 148\r\nConnection: close\r\n\r\n{\"address\":\"10.8.0.2/32\",\"end\":0,\"keepalive\":0,\"key\":\"@\",\"label\":\"\",\"number\":1,\"routes\":[],\"status\":null}",
    ),
    (
        b"GET /networks/office/peers HTTP/1.1\r\nAuthorization: Bearer abc\r\n\r\nmore",
        b"HTTP/1.1 200 OK\r\nContent-Type: application/json\r\nContent-Length: 160\r\nConnection: close\r\n\r\n{\"peers\":[{\"address\":\"10.8.0.2/32\",\"end\":0,\"keepalive\":0,\"key\":\"@\",\"label\":\"\",\"number\":1,\"routes\":[],\"status\":null}]}",
    ),
    (
        b"GET /networks/office/peers HTTP/1.1\r\n\r\nmore",
        b"HTTP/1.1 401 Unauthorized\r\nContent-Type: application/json\r\nContent-Length: 25\r\nWWW-Authenticate: Bearer\r\nConnection: close\r\n\r\n{\"error\":\"unknown_token\"}",
    ),
];

fn check(
    rt: &(impl Abort + AllocGlobal),
    office: &mut Office<MemStore>,
    message: &[u8],
    wanted: &[u8],
) {
    let answer = office.answer(rt.alloc(), 7, &text_of(rt, message));
    assert_eq!(rt;
        given(rt, &answer).as_slice(),
        text_of(rt, wanted).as_slice()
    );
}

/// A message that asks for the list of networks, with a head of this many bytes.
fn long_head(rt: &(impl Abort + AllocGlobal), length: usize) -> Vec<u8> {
    let mut bytes = text_of(
        rt,
        b"GET /networks HTTP/1.1\r\nAuthorization: Bearer abc\r\nX: ",
    );
    for _ in 0..length.saturating_sub(bytes.len() + 4) {
        bytes.push(b'x').expect(rt, "memory");
    }
    bytes.extend_from_slice(b"\r\n\r\n").expect(rt, "memory");
    bytes
}

#[test]
fn messages_are_answered(rt: HostRuntime) {
    let mut office = office(&rt);
    for &(message, wanted) in MESSAGES {
        check(&rt, &mut office, message, wanted);
        check(&rt, &mut office, LIST, NO_PEERS);
    }
    check(&rt, &mut office, &long_head(&rt, 8192), NETWORKS);
    check(&rt, &mut office, &long_head(&rt, 8193), TOO_LARGE);
    end(office);
}

fn serve(
    rt: &(impl Abort + AllocGlobal),
    office: &mut Office<MemStore>,
    message: &[u8],
    wanted: &[u8],
) {
    let bytes = text_of(rt, message);
    let mut input = Device::new(bytes.as_slice());
    let mut out = Device::new(Vec::new(rt.alloc()));
    let answer = office
        .serve_one(rt.alloc(), 7, &mut input, &mut out)
        .expect(rt, "an answer");
    let number = answer.status().expect(rt, "a status").number();
    let line = format!(in rt.alloc(); "HTTP/1.1 {number} ").expect(rt, "memory");
    assert!(rt; wanted.starts_with(line.as_bytes()));
    assert_eq!(rt; out.inner.as_slice(), text_of(rt, wanted).as_slice());
}

#[test]
fn connections_are_served(rt: HostRuntime) {
    let mut office = office(&rt);
    for &(message, wanted) in CONNECTIONS {
        serve(&rt, &mut office, message, wanted);
    }
    assert!(rt; !office.is_shut());
    end(office);
}
