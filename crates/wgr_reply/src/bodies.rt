//! The bodies of replies, as JSON.
ghost use Rattle.std.specs.Prelude.{◌≡◌, refl, map, OnOk};
ghost use Rattle.serde_json.specs.Data.{member, no_members};
ghost use Rattle.serde_json.specs.Events.{SendsValue};
ghost use Rattle.wgr_reply.specs.Bodies.{adopted_data, networks_data, owner_data, peers_data, problem_data, revoked_data};
ghost use Rattle.wgr_reply.specs.Whole.{adopted_whole, networks_whole, peers_whole, problem_whole};

use serde::Serializer;
use std::alloc::Global;
use wgr_core::{Name, Network, PeerView};
use wgr_json::{List, ToJson, send_member, send_number, send_text};

/// Where this crate shows values.
pub(crate) struct InReply;

/// Peers, in their order.
#[derive(Clone, Copy)]
pub(crate) struct Peers<'a>(pub &'a [PeerView]);

/// A tenant's networks by name, in their order.
#[derive(Clone, Copy)]
pub(crate) struct Networks<'a>(pub &'a [(Name, Network)]);

/// The number of the removed peer.
#[derive(Clone, Copy, Debug)]
pub(crate) struct Revoked(pub u32);

/// The number of the peer that has an address.
#[derive(Clone, Copy, Debug)]
pub(crate) struct Owner(pub u32);

/// The numbers of the added peers, ascending, and how many lines had a key that was already held.
#[derive(Clone, Copy)]
pub(crate) struct Adopted<'a> {
    pub added: &'a [u32],
    pub known: u32,
}

/// Why a request is refused: the refusal's name, and the fact that it carries.
#[derive(Clone, Copy)]
pub(crate) struct Problem<'a> {
    pub name: &'a str,
    pub fact: Fact<'a>,
}

/// A fact that a refusal carries.
#[derive(Clone, Copy)]
pub(crate) enum Fact<'a> {
    None,
    /// The number of a peer.
    Number(u32),
    /// The name of a field.
    Field(&'a str),
    /// A line of a dump, counted from 1.
    Line(usize),
    /// A field of a line of a dump, both counted from 1.
    Place { field: u8, line: usize },
}

impl<'a> ToJson<InReply> for Peers<'a> {
    ghost shown = { λ p. peers_data p.0.now };

    ghost whole = { λ p. peers_whole p.0.now };

    fn send<S: Serializer>(&self, alloc: Global, out: &mut S) -> Result<(), S::Error> {
        out.begin_map(Some(1))?;
        send_member::<InReply, _, _>(alloc, "peers", &List(self.0), out)?;
        out.end_map()
    }
}

impl<'a> ToJson<InReply> for Networks<'a> {
    ghost shown = { λ n. networks_data n.0.now };

    ghost whole = { λ n. networks_whole n.0.now };

    fn send<S: Serializer>(&self, alloc: Global, out: &mut S) -> Result<(), S::Error> {
        out.begin_map(Some(1))?;
        send_member::<InReply, _, _>(alloc, "networks", &List(self.0), out)?;
        out.end_map()
    }
}

impl ToJson<InReply> for Revoked {
    ghost shown = { λ r. revoked_data r.0 };

    ghost whole = { λ r. refl };

    fn send<S: Serializer>(&self, _alloc: Global, out: &mut S) -> Result<(), S::Error> {
        out.begin_map(Some(1))?;
        send_number("revoked", u64::from(self.0), out)?;
        out.end_map()
    }
}

impl ToJson<InReply> for Owner {
    ghost shown = { λ o. owner_data o.0 };

    ghost whole = { λ o. refl };

    fn send<S: Serializer>(&self, _alloc: Global, out: &mut S) -> Result<(), S::Error> {
        out.begin_map(Some(1))?;
        send_number("number", u64::from(self.0), out)?;
        out.end_map()
    }
}

impl<'a> ToJson<InReply> for Adopted<'a> {
    ghost shown = { λ a. adopted_data a.added.now a.known };

    ghost whole = { λ a. adopted_whole a.added.now a.known };

    fn send<S: Serializer>(&self, alloc: Global, out: &mut S) -> Result<(), S::Error> {
        out.begin_map(Some(2))?;
        send_member::<InReply, _, _>(alloc, "added", &List(self.added), out)?;
        send_number("known", u64::from(self.known), out)?;
        out.end_map()
    }
}

impl<'a> ToJson<InReply> for Problem<'a> {
    ghost shown = { λ p. problem_data p };

    ghost whole = { λ p. problem_whole p };

    fn send<S: Serializer>(&self, _alloc: Global, out: &mut S) -> Result<(), S::Error> {
        match self.fact {
            Fact::None => {
                out.begin_map(Some(1))?;
                send_text("error", self.name, out)?;
                out.end_map()
            }
            Fact::Number(number) => {
                out.begin_map(Some(2))?;
                send_text("error", self.name, out)?;
                send_number("number", u64::from(number), out)?;
                out.end_map()
            }
            Fact::Field(field) => {
                out.begin_map(Some(2))?;
                send_text("error", self.name, out)?;
                send_text("field", field, out)?;
                out.end_map()
            }
            Fact::Line(line) => {
                out.begin_map(Some(2))?;
                send_text("error", self.name, out)?;
                send_number("line", line as u64, out)?;
                out.end_map()
            }
            Fact::Place { field, line } => {
                out.begin_map(Some(3))?;
                send_text("error", self.name, out)?;
                send_number("field", u64::from(field), out)?;
                send_number("line", line as u64, out)?;
                out.end_map()
            }
        }
    }
}
