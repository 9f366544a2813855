//! Requests of tenants.
ghost use Rattle.std.specs.Prelude.{◌≡◌, ◌<◌, length, slice_index_or, slice_set, IfOk, IfSome, OnErr};
ghost use Rattle.wgr_core.specs.Change.{Fits, applied_if};
ghost use Rattle.wgr_model.specs.Register.{NetworkEntry};
ghost use Rattle.wgr_model.specs.Steps.{Ask, IsStep, Networks, act};
ghost use Rattle.wgr_plain.specs.Calls.{IsActed, answer_of};

use crate::answer::Answer;
use crate::listing::listed;
use crate::look::{right_of, tenant_of_token};
use crate::register::Register;
use std::alloc::{AllocError, Global};
use wgr_core::{ActFault, Change, Command, Items, Name, Network};
use wgr_orders::{NetworkEntry, place_of};

impl Register {
    /// A command, at this moment, to the network of this name that the tenant of the token has; if
    /// memory runs out, the register is as before.
    pub fn ask(
        &mut self,
        alloc: Global,
        digest: &[u8; 32],
        name: &Name,
        now: u64,
        command: &Command,
    ) -> Result<Answer, AllocError>
        ensures step { IfOk result (λ answer. IsStep self.old (Ask digest.now name.now now command.now) (answer_of answer) self.new) }
        ensures undone { OnErr result (self.new ≡ self.old) }
    {
        let Some(id) = tenant_of_token(&self.tokens, digest) else {
            return Ok(Answer::UnknownToken);
        };
        let right = right_of(&self.readers, digest);
        if !right.allows(command) {
            return Ok(Answer::ReadOnly);
        }
        let Some(place) = place_of(&self.networks, id, name.as_bytes()) else {
            return Ok(Answer::NoSuchNetwork);
        };
        let Acted { answer, after } = act_on(alloc, &self.networks[place].network, now, command)?;
        command.forms_hold();
        match after {
            Some(network) => {
                put_network(&mut self.networks, place, network);
                Ok(answer)
            }
            None => Ok(answer),
        }
    }

    /// The networks of the tenant of the token, in the order of their names.
    pub fn networks(&self, alloc: Global, digest: &[u8; 32]) -> Result<Answer, AllocError>
        ensures { IfOk result (λ answer. IsStep self.now (Networks digest.now) (answer_of answer) self.now) }
    {
        match tenant_of_token(&self.tokens, digest) {
            Some(id) => Ok(Answer::Listed(listed(alloc, &self.networks, id)?)),
            None => Ok(Answer::UnknownToken),
        }
    }
}

// What a command answers, and the network after it where it is accepted.
#[derive(Drop)]
struct Acted {
    answer: Answer,
    after: Option<Network>,
}

// The command on one network, which is left unchanged.
fn act_on(
    alloc: Global,
    network: &Network,
    now: u64,
    command: &Command,
) -> Result<Acted, AllocError>
    ensures { IfOk result (λ acted. IsActed (act network.now now command.now) (answer_of acted.answer) acted.after) }
{
    match network.act(alloc, now, command) {
        Ok((reply, change)) => {
            let after = changed(alloc, network, &change)?;
            let shown = changed(alloc, network, &change)?;
            Ok(Acted {
                answer: Answer::Replied(reply, shown),
                after: Some(after),
            })
        }
        Err(ActFault::Refused(why)) => Ok(Acted {
            answer: Answer::Declined(why),
            after: None,
        }),
        Err(ActFault::NoMemory) => Err(AllocError),
    }
}

// Replaces a network by another, under the same ids and name.
fn put_network(networks: &mut Vec<NetworkEntry>, place: usize, network: Network)
    requires { place < length networks.old.items }
    ensures { (d : NetworkEntry) → networks.new.items ≡ slice_set networks.old.items place (record (slice_index_or networks.old.items place d) { network = network }) }
{
    let network_entry = &mut networks[place];
    network_entry.network = network;
}

// The network with the change, or a copy where there is none.
fn changed(alloc: Global, network: &Network, change: &Option<Change>) -> Result<Network, AllocError>
    requires { IfSome change.now (λ c. Fits c network.now) }
    ensures { IfOk result (λ after. after ≡ applied_if change.now network.now) }
{
    match change {
        Some(change) => change.apply(alloc, network),
        None => copied(alloc, network),
    }
}

// A copy of the network.
pub(crate) fn copied(alloc: Global, network: &Network) -> Result<Network, AllocError>
    ensures { IfOk result (λ copy. copy ≡ network.now) }
{
    let nothing = Change {
        removed: Items::new(alloc),
        peers: Items::new(alloc),
        routes_put: Items::new(alloc),
        routes_gone: Items::new(alloc),
        next: network.next(),
    };
    nothing.apply(alloc, network)
}
