//! The addresses that peers have, in two sets: the first ones and the second ones.
ghost use Rattle.std.specs.Prelude.{◌≡◌, true, map, flat_map, is_some, option_to_list, IfOk, IfSome, OnOk, OnErr};
ghost use Rattle.wgr_text.specs.Prefix.{IsAddr};
ghost use Rattle.wgr_pool.specs.Spans.{IsHeld};
ghost use Rattle.wgr_peers.specs.Peers.{is_first, is_second, is_there};
ghost use Rattle.wgr_peers.specs.PeerIndex.{HasAlso, HasAllBut, HasMoved, HasSame};

use crate::peer::Peer;
use std::alloc::{AllocError, Global};
use wgr_pool::AddressSet;
use wgr_text::Addr;

/// The first addresses of the peers, in the order of their numbers.
pub(crate) fn first_addresses(alloc: Global, peers: &[Peer]) -> Result<Vec<Addr>, AllocError>
    ensures { IfOk result (λ addresses. addresses.items ≡ map (λ p. p.address) peers.now) }
{
    peers.iter().map(|peer| peer.address).collect(alloc)
}

/// The second addresses of those that have one, in the order of their numbers.
pub(crate) fn second_addresses(alloc: Global, peers: &[Peer]) -> Result<Vec<Addr>, AllocError>
    ensures { IfOk result (λ addresses. addresses.items ≡ flat_map (λ p. option_to_list p.second) peers.now) }
{
    let mut addresses = Vec::new(alloc);
    for peer in peers {
        if let Some(second) = peer.second {
            addresses.push(second)?;
        }
    }
    Ok(addresses)
}

/// Inserts the peer's addresses, each into its set; if memory runs out, the sets have the same addresses as before.
pub(crate) fn insert_addresses(
    addresses: &mut AddressSet,
    seconds: &mut AddressSet,
    peer: &Peer,
) -> Result<(), AllocError>
    ensures first { OnOk result (HasAlso (is_first peer.now) addresses.old addresses.new) }
    ensures second { OnOk result (HasAlso (is_second peer.now) seconds.old seconds.new) }
    ensures same { OnErr result (HasSame addresses.old addresses.new) }
    ensures same_seconds { OnErr result (seconds.new ≡ seconds.old) }
{
    let known = addresses.contains(&peer.address);
    addresses.insert(peer.address)?;
    let Some(second) = peer.second else {
        return Ok(());
    };
    let inserted = seconds.insert(second);
    if inserted.is_err() && !known {
        addresses.remove(&peer.address);
    }
    inserted
}

/// Removes the peer's addresses, each from its set.
pub(crate) fn remove_addresses(addresses: &mut AddressSet, seconds: &mut AddressSet, peer: &Peer)
    ensures first { HasAllBut (is_first peer.now) addresses.old addresses.new }
    ensures second { HasAllBut (is_second peer.now) seconds.old seconds.new }
{
    addresses.remove(&peer.address);
    if let Some(second) = &peer.second {
        seconds.remove(second);
    }
}

/// Puts a peer's addresses in place of another's, each in its set. Where the other has no second address, the
/// peer has none.
pub(crate) fn move_addresses(
    addresses: &mut AddressSet,
    seconds: &mut AddressSet,
    from: &Peer,
    to: &Peer,
)
    requires first { IsAddr from.now.address → IsHeld addresses.old from.now.address }
    requires second { IfSome from.now.second (λ a. IsAddr a → IsHeld seconds.old a) }
    requires place { is_some to.now.second ≡ true → is_some from.now.second ≡ true }
    ensures first { HasMoved (is_first from.now) (is_first to.now) addresses.old addresses.new }
    ensures second { HasMoved (is_second from.now) (is_second to.now) seconds.old seconds.new }
{
    from.address.rules_hold();
    if from.address != to.address {
        addresses.replace(&from.address, to.address);
    }
    move_second(seconds, from.second, to.second);
}

// Puts an address in place of one that the set has, or only removes that.
fn move_second(seconds: &mut AddressSet, from: Option<Addr>, to: Option<Addr>)
    requires held { IfSome from (λ a. IsAddr a → IsHeld seconds.old a) }
    requires place { is_some to ≡ true → is_some from ≡ true }
    ensures { HasMoved (is_there from) (is_there to) seconds.old seconds.new }
{
    if from == to {
        return;
    }
    let Some(from) = from else {
        return;
    };
    from.rules_hold();
    match to {
        Some(to) => seconds.replace(&from, to),
        None => seconds.remove(&from),
    }
}
