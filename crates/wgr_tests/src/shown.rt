//! Peers, answers and refusals as tables show them:
//!
//! - a peer as `NUMBER ADDRESS [PREFIX ..]`, followed by `at HANDSHAKE RECEIVED SENT KEEPALIVE`
//!   where an interface showed it; peers are separated by `; `;
//! - an adoption as `[NUMBER ..] known COUNT`;
//! - files that may be made as `server FORM` or `NUMBER FORM`;
//! - a refusal by its text, after `line LINE: ` if a line of an adoption is refused.
use std::alloc::AllocGlobal;
use std::process::Abort;
use wgr_core::{CommandRefusal, Form, Peer, PeerView, Reply, Status};
use wgr_text::{Prefix, write_prefix};

/// A text that is being written.
#[derive(Drop)]
pub(crate) struct Shown<'a, R> {
    rt: &'a R,
    text: Vec<u8>,
}

impl<'a, R: Abort + AllocGlobal> Shown<'a, R> {
    pub(crate) fn new(rt: &'a R) -> Shown<'a, R> {
        Shown {
            rt,
            text: Vec::new(rt.alloc()),
        }
    }

    pub(crate) fn into_text(self) -> Vec<u8> {
        self.text
    }

    pub(crate) fn put(&mut self, text: &str) {
        self.put_bytes(text.as_bytes());
    }

    pub(crate) fn put_bytes(&mut self, bytes: &[u8]) {
        self.text.extend_from_slice(bytes).expect(self.rt, "memory");
    }

    pub(crate) fn put_number(&mut self, number: u64) {
        let text = number.to_string(self.rt.alloc()).expect(self.rt, "memory");
        self.put(&text);
    }

    // Puts the mark, unless the text is empty.
    pub(crate) fn separate(&mut self, mark: &str) {
        if !self.text.is_empty() {
            self.put(mark);
        }
    }

    pub(crate) fn put_prefix(&mut self, prefix: &Prefix) {
        self.put(" ");
        write_prefix(prefix, &mut self.text).expect(self.rt, "memory");
    }

    pub(crate) fn put_peer(&mut self, peer: &Peer, routes: &[Prefix]) {
        self.put_number(u64::from(peer.number));
        self.put_prefix(&Prefix::full(peer.address));
        for route in routes {
            self.put_prefix(route);
        }
        if let Some(status) = peer.status {
            self.put_status(&status, peer.keepalive);
        }
    }

    fn put_status(&mut self, status: &Status, keepalive: u16) {
        self.put(" at ");
        self.put_number(status.handshake.value());
        self.put(" ");
        self.put_number(status.received.value());
        self.put(" ");
        self.put_number(status.sent.value());
        self.put(" ");
        self.put_number(u64::from(keepalive));
    }

    fn put_views(&mut self, views: &[PeerView]) {
        for view in views {
            self.separate("; ");
            self.put_peer(&view.peer, view.routes.as_slice());
        }
    }

    fn put_adopted(&mut self, added: &[u32], known: u32) {
        for number in added {
            self.put_number(u64::from(*number));
            self.put(" ");
        }
        self.put("known ");
        self.put_number(u64::from(known));
    }

    fn put_form(&mut self, form: Form) {
        match form {
            Form::Wg => self.put(" wg"),
            Form::Quick => self.put(" quick"),
        }
    }

    pub(crate) fn put_reply(&mut self, reply: &Reply) {
        match reply {
            Reply::Peer(view) => self.put_peer(&view.peer, view.routes.as_slice()),
            Reply::Revoked(number) | Reply::Owner(number) => self.put_number(u64::from(*number)),
            Reply::List(views) => self.put_views(views.as_slice()),
            Reply::Adopted { added, known } => self.put_adopted(added.as_slice(), *known),
            Reply::Server(form) => {
                self.put("server");
                self.put_form(*form);
            }
            Reply::File { number, form } => {
                self.put_number(u64::from(*number));
                self.put_form(*form);
            }
        }
    }

    pub(crate) fn put_refusal(&mut self, refusal: &CommandRefusal) {
        if let Some(line) = refusal.line {
            self.put("line ");
            self.put_number(line as u64);
            self.put(": ");
        }
        let text = refusal.to_string(self.rt.alloc()).expect(self.rt, "memory");
        self.put(&text);
    }
}
