//! What the types of a command and of a network guarantee, stated for a proof. Each function only reads a value's
//! parts, whose contracts say of what form they are.
ghost use Rattle.std.specs.Prelude.{All, IfSome};
ghost use Rattle.wgr_core.specs.Forms.{HasForms, IsPeerFormed, IsFormedCommand, IsFormedLine, IsKeepalive, IsKey, IsStatus};
ghost use Rattle.wgr_core.specs.Outcome.{AreLinesAsked, IsAsked, IsPrefixAsked};
ghost use Rattle.wgr_peers.specs.Host.{IsHost};

use crate::command::Command;
use crate::network::Network;
use crate::seen_peer::SeenPeer;
use wgr_peers::{Peer, Status};
use wgr_text::{Key, Prefix};

impl Command {
    /// Does nothing. Its contract says what the types of the command's fields guarantee: each prefix is
    /// masked and fits its family, and each other field is of its form.
    pub fn forms_hold(&self)
        ensures asked { IsAsked self.now }
        ensures forms { IsFormedCommand self.now }
    {
        match self {
            Command::Add {
                key,
                label,
                until,
                keepalive,
                ..
            } => {
                key_has_form(key);
                keepalive_has_form(*keepalive);
                let _label = label.as_str();
                let _end = until.seconds();
            }
            Command::Route { prefix, .. } => prefix_has_form(prefix),
            Command::Renew { until, .. } => {
                let _end = until.seconds();
            }
            Command::Adopt { lines, .. } => {
                lines_have_forms(lines.as_slice());
                allowed_have_forms(lines.as_slice());
            }
            _ => {}
        }
    }
}

impl Network {
    /// Does nothing. Its contract says what the types of the fields guarantee.
    pub fn forms_hold(&self)
        ensures forms { HasForms self.now }
        ensures host { IsHost self.now.host }
    {
        let _host = self.host().as_str();
        let server = self.server_key();
        key_has_form(&server);
        peers_have_forms(self.peers());
    }
}

// Each field of a peer is of its form.
fn peer_has_form(peer: &Peer)
    ensures { IsPeerFormed peer.now }
{
    key_has_form(&peer.key);
    let _label = peer.label.as_str();
    let _until = peer.until.seconds();
    keepalive_has_form(peer.keepalive);
    seen_has_form(&peer.status);
}

// The same for all peers.
fn peers_have_forms(peers: &[Peer])
    ensures { All IsPeerFormed peers.now }
{
    for peer in peers {
        peer_has_form(peer);
    }
}

fn seen_has_form(status: &Option<Status>)
    ensures { IfSome status.now IsStatus }
{
    if let Some(status) = status {
        status_has_form(status);
    }
}

// A key has 32 bytes.
fn key_has_form(key: &Key)
    ensures { IsKey key.now }
{
    let _bytes = key.0;
}

// The counts of a status are within their limit.
fn status_has_form(status: &Status)
    ensures { IsStatus status.now }
{
    let _handshake = status.handshake.value();
    let _received = status.received.value();
    let _sent = status.sent.value();
}

// What the lines report is of its form.
fn lines_have_forms(lines: &[SeenPeer])
    ensures { All IsFormedLine lines.now }
{
    for line in lines {
        line_has_form(line);
    }
}

fn line_has_form(line: &SeenPeer)
    ensures { IsFormedLine line.now }
{
    key_has_form(&line.key);
    status_has_form(&line.status);
    keepalive_has_form(line.keepalive);
}

// The seconds fit 16 bits.
fn keepalive_has_form(seconds: u16)
    ensures { IsKeepalive seconds }
{}

// Each prefix of the lines is masked and fits its family.
fn allowed_have_forms(lines: &[SeenPeer])
    ensures { AreLinesAsked lines.now }
{
    for line in lines {
        prefixes_have_forms(line.allowed.as_slice());
    }
}

fn prefixes_have_forms(allowed: &[Prefix])
    ensures { All IsPrefixAsked allowed.now }
{
    for prefix in allowed {
        prefix_has_form(prefix);
    }
}

pub(crate) fn prefix_has_form(prefix: &Prefix)
    ensures { IsPrefixAsked prefix.now }
{
    let _address = prefix.address();
    let _length = prefix.length();
}
