//! A tenant's networks by name.
ghost use Rattle.std.specs.Prelude.{◌≡◌, ℕ, ◌<◌, ◌≤◌, IfOk, length};
ghost use Rattle.wgr_model.specs.Listing.{EntriesOf};

use crate::ask::copied;
use std::alloc::{AllocError, Global};
use wgr_core::{Items, Name, Network};
use wgr_orders::{ByName, NetworkEntry};

// Copies of the networks of the tenant of this id, in the order of their names.
pub(crate) fn listed(
    alloc: Global,
    networks: &[NetworkEntry],
    id: u32,
) -> Result<Items<(Name, Network)>, AllocError>
    ensures { IfOk result (λ entries. EntriesOf networks.now id entries) }
{
    let mut listed = ByName::new(alloc);
    let mut rest = networks.len();
    while rest > 0 {
        rest -= 1;
        let network_entry = &networks[rest];
        if network_entry.tenant == id {
            let network = copied(alloc, &network_entry.network)?;
            listed.put(network_entry.name.copy()?, network)?;
        }
    }
    Ok(Items::of(listed.into_entries(alloc)?))
}
