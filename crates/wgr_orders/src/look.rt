//! Lookups, each a walk along one list.
ghost use Rattle.std.specs.Prelude.{◌≡◌, ◌+◌, ◌<◌, ◌||◌, ℕ, length, map, nat_eq, slice_index_or, false, MatchOption, None, IfOk};
ghost use Rattle.std.specs.List.{list_any};
ghost use Rattle.wgr_model.specs.Register.{is_same};
ghost use Rattle.wgr_model.specs.Consistent.{IsId, max_entries};
ghost use Rattle.wgr_model.specs.Steps.{has_endpoint, network_at};
ghost use Rattle.wgr_orders.specs.Places.{IsNetworkPlace};

use crate::entries::NetworkEntry;
use std::alloc::{AllocError, Global};
use wgr_core::{Host, Port};
use wgr_model::MAX_ENTRIES;

/// Whether two texts are byte for byte the same.
pub fn is_same(one: &[u8], other: &[u8]) -> bool
    ensures { result ≡ is_same one.now other.now }
{
    one == other
}

/// The place of the network of this name that the tenant of this id has.
pub fn place_of(networks: &[NetworkEntry], id: u32, name: &[u8]) -> Option<usize>
    ensures { MatchOption result (network_at networks.now id name.now ≡ None) (λ place. IsNetworkPlace networks.now id name.now place) }
{
    for (place, network_entry) in networks.iter().enumerate() {
        if network_entry.tenant == id && is_same(name, network_entry.name.as_bytes()) {
            return Some(place);
        }
    }
    None
}

// Whether a network has the endpoint.
pub(crate) fn has_endpoint(networks: &[NetworkEntry], host: &Host, port: Port) -> bool
    ensures { result ≡ has_endpoint networks.now (host.now, port) }
{
    for network_entry in networks {
        let network = &network_entry.network;
        if is_same(host.as_str().as_bytes(), network.host().as_str().as_bytes())
            && network.port() == port
        {
            return true;
        }
    }
    false
}

// The ids of the networks.
pub(crate) fn network_ids(alloc: Global, networks: &[NetworkEntry]) -> Result<Vec<u32>, AllocError>
    ensures { IfOk result (λ ids. ids.items ≡ map (λ h. h.id) networks.now) }
{
    let mut ids = Vec::new(alloc);
    for network_entry in networks {
        ids.push(network_entry.id)?;
    }
    Ok(ids)
}

/// The lowest id that isn't among these.
pub fn unused_id(ids: &[u32]) -> u32
    requires { length ids.now < max_entries }
    ensures id { IsId result }
    ensures unused { list_any (nat_eq result) ids.now ≡ false }
{
    let mut used = [false; MAX_ENTRIES + 1];
    lowest(&mut used, ids)
}

// The lowest id that isn't among these, with a flag for each id, of which none is set.
fn lowest(used: &mut [bool], ids: &[u32]) -> u32
    requires room { length ids.now < max_entries }
    requires all { length used.old ≡ max_entries + 1 }
    requires clear { (id : ℕ) → id < max_entries + 1 → slice_index_or used.old id false ≡ false }
    ensures id { IsId result }
    ensures unused { list_any (nat_eq result) ids.now ≡ false }
{
    mark_all(used, ids);
    let mut id = 1;
    while used[id as usize] {
        id += 1;
    }
    id
}

// Sets the flag of each of these ids that has one.
fn mark_all(used: &mut [bool], ids: &[u32])
    ensures len { length used.new ≡ length used.old }
    ensures marked { (id : ℕ) → id < length used.old → slice_index_or used.new id false ≡ (slice_index_or used.old id false || list_any (nat_eq id) ids.now) }
{
    for id in ids {
        mark(used, *id);
    }
}

// Sets the flag of this id, if it has one.
fn mark(used: &mut [bool], id: u32)
    ensures len { length used.new ≡ length used.old }
    ensures marked { (other : ℕ) → other < length used.old → slice_index_or used.new other false ≡ (slice_index_or used.old other false || nat_eq other id) }
{
    let place = id as usize;
    if place < used.len() {
        used[place] = true;
    }
}
