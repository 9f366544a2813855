//! Connections that pass one byte per call, and connections that fail at each read and write in turn.
use super::lines::{end, given, message, office};
use super::{joined, text_of};
use crate::{Answer, Office, ServeFault};
use sqlite::MemStore;
use std::alloc::AllocGlobal;
use std::io;
use std::process::Abort;
use wgr_io::Device;

/// Returns one byte per call; the call with this number fails.
#[derive(Drop)]
struct Bytes<'a> {
    left: &'a [u8],
    calls: usize,
    fails_at: usize,
}

impl<'a> io::Read for Bytes<'a> {
    fn read(&mut self, buf: &mut [u8]) -> io::Result<usize> {
        self.calls = self.calls.saturating_add(1);
        if self.calls == self.fails_at {
            return Err(io::Error::from(io::ErrorKind::ConnectionReset));
        }
        let Some((first, rest)) = self.left.split_first() else {
            return Ok(0);
        };
        if buf.is_empty() {
            return Ok(0);
        }
        buf[0] = *first;
        self.left = rest;
        Ok(1)
    }
}

/// Accepts one byte per call; the call with this number fails, or accepts none.
#[derive(Drop)]
struct Narrow {
    taken: Vec<u8>,
    calls: usize,
    fails_at: usize,
    takes_none: bool,
}

impl io::Write for Narrow {
    fn write(&mut self, buf: &[u8]) -> io::Result<usize> {
        self.calls = self.calls.saturating_add(1);
        if self.calls == self.fails_at && self.takes_none {
            return Ok(0);
        }
        if self.calls == self.fails_at {
            return Err(io::Error::from(io::ErrorKind::BrokenPipe));
        }
        let Some(first) = buf.first() else {
            return Ok(0);
        };
        self.taken.push(*first)?;
        Ok(1)
    }

    fn flush(&mut self) -> io::Result<()> {
        Ok(())
    }
}

const ADD: &[u8] =
    b"POST /networks/office/peers HTTP/1.1\r\nAuthorization: Bearer abc\r\nContent-Length: 54\r\n\r\n{\"key\":\"@\"}";

const LIST: &[u8] = b"GET /networks/office/peers HTTP/1.1\r\nAuthorization: Bearer abc\r\n\r\n";

const NO_PEERS: &[u8] =
    b"HTTP/1.1 200 OK\r\nContent-Type: application/json\r\nContent-Length: 12\r\nConnection: close\r\n\r\n{\"peers\":[]}";

fn listed(rt: &(impl Abort + AllocGlobal), office: &mut Office<MemStore>) -> Vec<u8> {
    let answer = office.answer(rt.alloc(), 7, LIST);
    given(rt, &answer)
}

#[test]
fn a_read_that_fails_does_nothing(rt: HostRuntime) {
    let mut office = office(&rt);
    let message = text_of(&rt, ADD);
    for fails_at in 1..=message.len() {
        let mut input = Device::new(Bytes {
            left: &message,
            calls: 0,
            fails_at,
        });
        let mut out = Device::new(Vec::new(rt.alloc()));
        let served = office.serve_one(rt.alloc(), 7, &mut input, &mut out);
        assert!(rt; matches!(served, Err(ServeFault::Read)), "{fails_at}");
        assert!(rt; out.inner.is_empty());
        assert_eq!(rt; listed(&rt, &mut office).as_slice(), NO_PEERS);
    }
    // The message is complete at its last byte, so no further read is made.
    let mut input = Device::new(Bytes {
        left: &message,
        calls: 0,
        fails_at: message.len() + 1,
    });
    let mut out = Device::new(Vec::new(rt.alloc()));
    let served = office.serve_one(rt.alloc(), 7, &mut input, &mut out);
    assert!(rt; matches!(served, Ok(Answer::Reply(_))));
    end(office);
}

// Renews the first peer's lease over a failing writer, and returns the result and the bytes that were written.
fn renewed(
    rt: &(impl Abort + AllocGlobal),
    office: &mut Office<MemStore>,
    lease: usize,
    fails_at: usize,
    takes_none: bool,
) -> (Result<Answer, ServeFault>, Vec<u8>) {
    let body = format!(in rt.alloc(); "{{\"end\":{lease}}}").expect(rt, "memory");
    let target = "/networks/office/peers/1/lease";
    let bytes = message(rt, "POST", "abc", target, body.as_bytes());
    let mut input = Device::new(Bytes {
        left: &bytes,
        calls: 0,
        fails_at: 0,
    });
    let mut out = Device::new(Narrow {
        taken: Vec::new(rt.alloc()),
        calls: 0,
        fails_at,
        takes_none,
    });
    let served = office.serve_one(rt.alloc(), 7, &mut input, &mut out);
    (served, out.inner.taken)
}

fn peer_until(rt: &(impl Abort + AllocGlobal), lease: usize) -> Vec<u8> {
    let peer = format!(in rt.alloc();
        "{{\"address\":\"10.8.0.2/32\",\"end\":{lease},\"keepalive\":0,\"key\":\"@\",\"label\":\"\",\"number\":1,\"routes\":[],\"status\":null}}"
    ).expect(rt, "memory");
    text_of(rt, peer.as_bytes())
}

// The reply to a renewal, and the list after it; the leases have four digits.
fn renewal_and_list(rt: &(impl Abort + AllocGlobal), lease: usize) -> (Vec<u8>, Vec<u8>) {
    let peer = peer_until(rt, lease);
    let reply = joined(
        rt,
        "HTTP/1.1 200 OK\r\nContent-Type: application/json\r\nContent-Length: 151\r\nConnection: close\r\n\r\n",
        &peer,
    );
    let list = joined(
        rt,
        "HTTP/1.1 200 OK\r\nContent-Type: application/json\r\nContent-Length: 163\r\nConnection: close\r\n\r\n{\"peers\":[",
        &peer,
    );
    let list = joined(rt, str::from_utf8(&list).expect(rt, "a text"), b"]}");
    (reply, list)
}

#[test]
fn a_write_that_fails_tells_what_went_out(rt: HostRuntime) {
    let mut office = office(&rt);
    let message = text_of(&rt, ADD);
    assert!(rt; !given(&rt, &office.answer(rt.alloc(), 7, &message)).is_empty());
    let (reply, _) = renewal_and_list(&rt, 1000);
    for fails_at in 1..=reply.len() {
        let lease = fails_at.saturating_add(1000);
        let (wanted, list) = renewal_and_list(&rt, lease);
        let (served, taken) = renewed(&rt, &mut office, lease, fails_at, fails_at % 2 == 0);
        let sent = fails_at.saturating_sub(1);
        assert!(rt;
            served.err() == Some(ServeFault::Write { sent }),
            "{fails_at}"
        );
        assert_eq!(rt; taken.as_slice(), wanted.get(..sent).expect(&rt, "bytes"));
        assert_eq!(rt; listed(&rt, &mut office).as_slice(), list.as_slice());
    }
    end(office);
}
