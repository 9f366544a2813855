//! Networks that stay in memory between requests.
//!
//! The least recently used is dropped first. Where memory is refused, and after a fault, none is kept:
//! the next request loads its network from the rows.
ghost use Rattle.std.specs.Prelude.{◌≡◌, ◌≤◌, None, IfOk, IfSome, OnOk, length, nat_eq};
ghost use Rattle.std.specs.List.{IsDistinct};
ghost use Rattle.std.specs.Map.{keys_of, lookup, remove_entry};
ghost use Rattle.wgr_core.specs.Change.{Fits, applied_if};
ghost use Rattle.wgr_model.specs.Rows.{IsFormed, Tables};
ghost use Rattle.wgr_register.specs.Recent.{max_recent};
ghost use Rattle.wgr_register.specs.Loaded.{AreFormed, AreOthersFormed, entries_of};

use crate::recent::{MAX_RECENT, Recent};
use std::alloc::{AllocError, Global};
use wgr_core::{Change, Network};

/// How many networks stay in memory between requests, of all tenants together.
pub const NETWORKS_IN_MEMORY: usize = MAX_RECENT;

/// Networks by the ids of their rows, [`NETWORKS_IN_MEMORY`] at most.
pub(crate) type Networks = Recent<Network>;

/// Takes out the network of this id, if it is kept.
pub(crate) fn take(loaded: &mut Option<Networks>, id: u32) -> Option<Network>
    ensures value { result ≡ lookup (nat_eq id) (entries_of loaded.old) }
    ensures rest { entries_of loaded.new ≡ remove_entry (nat_eq id) (entries_of loaded.old) }
    ensures distinct { IsDistinct nat_eq (keys_of (entries_of loaded.old)) }
{
    let mut networks = loaded.take()?;
    let _count = networks.len();
    let network = networks.pop(u64::from(id));
    *loaded = Some(networks);
    network
}

/// Whether the network of this id is kept. No contract says it: the caller may act either way.
pub(crate) fn is_kept(loaded: &Option<Networks>, id: u32) -> bool {
    match loaded {
        Some(networks) => networks.has(u64::from(id)),
        None => false,
    }
}

/// Keeps the network of this id, in place of one that was kept.
pub(crate) fn keep(alloc: Global, loaded: &mut Option<Networks>, id: u32, network: Network)
    ensures { (t : Tables) → AreOthersFormed id (entries_of loaded.old) t → IsFormed t id network → AreFormed (entries_of loaded.new) t }
{
    let Ok(mut networks) = taken_or_new(alloc, loaded) else {
        return;
    };
    if let Ok(_) = networks.put(u64::from(id), network) {
        *loaded = Some(networks);
    }
}

// Those that are kept, or none yet.
fn taken_or_new(alloc: Global, loaded: &mut Option<Networks>) -> Result<Networks, AllocError>
    ensures entries { IfOk result (λ networks. networks.entries ≡ entries_of loaded.old) }
    ensures none { loaded.new ≡ None }
{
    match loaded.take() {
        Some(networks) => Ok(networks),
        None => Recent::new(alloc),
    }
}

/// Keeps the network of this id as the change leaves it.
pub(crate) fn keep_changed(
    alloc: Global,
    loaded: &mut Option<Networks>,
    id: u32,
    mut network: Network,
    change: Option<Change>,
)
    requires { IfSome change (λ c. Fits c network) }
    ensures { (t : Tables) → AreOthersFormed id (entries_of loaded.old) t → IsFormed t id (applied_if change network) → AreFormed (entries_of loaded.new) t }
{
    let Some(change) = change else {
        keep(alloc, loaded, id, network);
        return;
    };
    match network.apply(alloc, change) {
        Ok(()) => keep(alloc, loaded, id, network),
        Err(_) => *loaded = None,
    }
}

/// How many are kept.
pub(crate) fn count(loaded: &Option<Networks>) -> usize
    ensures kept { result ≡ length (entries_of loaded.now) }
    ensures at_most { result ≤ max_recent }
{
    match loaded {
        Some(kept) => kept.len(),
        None => 0,
    }
}

/// Drops the network of this id.
pub(crate) fn forget(loaded: &mut Option<Networks>, id: u32)
    ensures { (t : Tables) → AreOthersFormed id (entries_of loaded.old) t → AreFormed (entries_of loaded.new) t }
{
    let _gone = take(loaded, id);
}
