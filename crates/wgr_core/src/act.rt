//! A command on a network, and its outcome.
ghost use Rattle.std.specs.Prelude.{◌≡◌, not, is_some, IfOk, IfSome};
ghost use Rattle.wgr_core.specs.Change.{Fits, Meets, MeetsLive};
ghost use Rattle.wgr_core.specs.Outcome.{is_reading, leaving, live_outcome, outcome_of};

use crate::change::Change;
use crate::command::Command;
use crate::fault::ActFault;
use crate::live::Live;
use crate::network::Network;
use crate::refusal::Refusal;
use crate::reply::Reply;
use std::alloc::Global;
use wgr_peers::{Items, Peer};

impl Network {
    /// What the command answers at this moment, and what it changes. The network itself stays as
    /// it is: [`Change::apply`] or [`Network::apply`] makes the change. A reading gives none; any other
    /// accepted command gives one, which also removes the expired peers.
    ///
    /// No peer or route is copied except those of the answer, and those on which Adopt tries its lines.
    pub fn act(
        &self,
        alloc: Global,
        now: u64,
        command: &Command,
    ) -> Result<(Reply, Option<Change>), ActFault>
        ensures outcome { Meets self.now result (outcome_of self.now now command.now) }
        ensures change { IfOk result (λ given. is_some given.1 ≡ not (is_reading command.now)) }
        ensures fits { IfOk result (λ given. IfSome given.1 (λ c. Fits c self.now)) }
    {
        command.forms_hold();
        let (live, removed) = Live::at(self, alloc, now)?;
        live.act(alloc, now, command, removed)
    }
}

impl Live<'_> {
    // The same for the live network, from which `removed` were removed: a table, with an arm for each
    // command.
    fn act(
        &self,
        alloc: Global,
        now: u64,
        command: &Command,
        removed: Items<u32>,
    ) -> Result<(Reply, Option<Change>), ActFault>
        ensures { MeetsLive (is_reading command.now) (leaving command.now) self.now removed result (live_outcome self.now now command.now) }
    {
        match command {
            Command::Add {
                key,
                label,
                address,
                until,
                keepalive,
            } => {
                if let Some(why) = self.join_refusal(now, key, *until) {
                    return Err(ActFault::from(why));
                }
                let address = self.place(None, &self.pool(), *address)?;
                let peer = Peer {
                    number: self.next(),
                    key: *key,
                    label: label.copy()?,
                    address,
                    second: None,
                    until: *until,
                    keepalive: *keepalive,
                    status: None,
                };
                self.joined(alloc, peer, removed)
            }
            Command::Move { number, address } => self.moved(alloc, *number, *address, removed),
            Command::Revoke { number } => self.revoked(alloc, *number, removed),
            Command::Route { number, prefix } => self.routed(alloc, *number, *prefix, removed),
            Command::Unroute { prefix } => self.unrouted(alloc, prefix, removed),
            Command::Renew { number, until } => self.renewed(alloc, now, *number, *until, removed),
            Command::Adopt { server, lines } => {
                let live = self.network.live_at(alloc, self.moment)?;
                live.adopted(alloc, *server, lines.as_slice(), removed)
            }
            Command::List => Ok((Reply::List(self.views(alloc)?), None)),
            Command::Owner { address } => match self.owner(address) {
                Some(number) => Ok((Reply::Owner(number), None)),
                None => Err(ActFault::from(Refusal::NobodysAddress)),
            },
            Command::ServerFile { form } => Ok((Reply::Server(*form), None)),
            Command::PeerFile { number, form } => match self.peer(*number) {
                Some(_) => Ok((
                    Reply::File {
                        number: *number,
                        form: *form,
                    },
                    None,
                )),
                None => Err(ActFault::from(Refusal::NoSuchPeer)),
            },
        }
    }
}
