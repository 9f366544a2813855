//! What an accepted command answers.
use crate::form::Form;
use wgr_peers::{Items, Peer};
use wgr_text::Prefix;

/// A peer with the routes that lead to it, in their order.
#[derive(Drop)]
pub struct PeerView {
    pub peer: Peer,
    pub routes: Items<Prefix>,
}

/// What an accepted command answers.
#[derive(Drop)]
pub enum Reply {
    /// The peer after the change.
    Peer(PeerView),
    /// The number of the removed peer.
    Revoked(u32),
    /// The live peers by number.
    List(Items<PeerView>),
    /// The number of the peer that has the address.
    Owner(u32),
    /// The numbers of the added peers, ascending, and how many lines had a key that was already held.
    Adopted { added: Items<u32>, known: u32 },
    /// The server's file may be made, in this form.
    Server(Form),
    /// The file of the peer with this number may be made, in this form.
    File { number: u32, form: Form },
}
