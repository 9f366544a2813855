//! Peers as JSON.
ghost use Rattle.std.specs.Prelude.{◌≡◌, refl, map, Option, OnOk};
ghost use Rattle.serde_json.specs.Data.{member, no_members};
ghost use Rattle.serde_json.specs.Events.{SendsValue};
ghost use Rattle.wgr_reply.specs.Shown.{peer_data, status_data};
ghost use Rattle.wgr_reply.specs.Whole.{peer_whole, status_whole};

use crate::bodies::InReply;
use serde::Serializer;
use std::alloc::Global;
use wgr_core::{PeerView, Status};
use wgr_json::{List, ToJson, send_member, send_number, send_text};
use wgr_text::Prefix;

impl ToJson<InReply> for PeerView {
    ghost shown = { λ v. peer_data v };

    ghost whole = { λ v. peer_whole v };

    fn send<S: Serializer>(&self, alloc: Global, out: &mut S) -> Result<(), S::Error> {
        let peer = &self.peer;
        out.begin_map(Some(8))?;
        send_member::<InReply, _, _>(alloc, "address", &Prefix::full(peer.address), out)?;
        send_number("end", peer.until.seconds(), out)?;
        send_number("keepalive", u64::from(peer.keepalive), out)?;
        send_member::<InReply, _, _>(alloc, "key", &peer.key, out)?;
        send_text("label", peer.label.as_str(), out)?;
        send_number("number", u64::from(peer.number), out)?;
        send_member::<InReply, _, _>(alloc, "routes", &List(self.routes.as_slice()), out)?;
        send_member::<InReply, _, _>(alloc, "status", &SeenStatus(peer.status), out)?;
        out.end_map()
    }
}

// What an interface showed, if it did.
#[derive(Clone, Copy)]
struct SeenStatus(Option<Status>);

impl ToJson<InReply> for SeenStatus {
    ghost shown = { λ s. status_data s.0 };

    ghost whole = { λ s. status_whole s.0 };

    fn send<S: Serializer>(&self, _alloc: Global, out: &mut S) -> Result<(), S::Error> {
        match self.0 {
            None => out.unit(),
            Some(status) => {
                out.begin_map(Some(3))?;
                send_number("handshake", status.handshake.value(), out)?;
                send_number("received", status.received.value(), out)?;
                send_number("sent", status.sent.value(), out)?;
                out.end_map()
            }
        }
    }
}
