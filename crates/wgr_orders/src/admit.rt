//! Whether a network may be added.
ghost use Rattle.std.specs.Prelude.{◌≡◌, [], false, IfOk};
ghost use Rattle.wgr_model.specs.Consistent.{IsId};
ghost use Rattle.wgr_model.specs.Steps.{has_network, is_full};
ghost use Rattle.wgr_orders.specs.Orders.{IsAdmitted, IsChecked};

use crate::entries::{NetworkEntry, Tenant};
use crate::look::{has_endpoint, network_ids, place_of, unused_id};
use crate::order::Settings;
use crate::overlap::overlap_refusal;
use crate::refusal::{OrderFault, OrderRefusal};
use std::alloc::{AllocError, Global};
use wgr_core::{Name, Pool};
use wgr_model::MAX_ENTRIES;

/// The id for a network of these settings among these networks, or why it isn't added. Only the
/// settings of the given networks are read.
pub fn admit_network(
    alloc: Global,
    tenants: &[Tenant],
    networks: &[NetworkEntry],
    tenant: u32,
    name: &Name,
    settings: &Settings,
) -> Result<Result<u32, OrderRefusal>, AllocError>
    ensures { IfOk result (λ admitted. IsAdmitted (record { tenants = tenants.now; tokens = []; readers = []; networks = networks.now }) tenant name.now settings.now admitted) }
{
    match checked_pool(alloc, tenants, networks, tenant, name, settings) {
        Ok(_) => Ok(Ok(new_id(alloc, networks)?)),
        Err(OrderFault::Refused(why)) => Ok(Err(why)),
        Err(OrderFault::NoMemory) => Err(AllocError),
    }
}

/// The pool of a network of these settings, where it may be added to these networks.
pub fn checked_pool(
    alloc: Global,
    tenants: &[Tenant],
    networks: &[NetworkEntry],
    id: u32,
    name: &Name,
    settings: &Settings,
) -> Result<Pool, OrderFault>
    ensures { IsChecked (record { tenants = tenants.now; tokens = []; readers = []; networks = networks.now }) id name.now settings.now result }
{
    if place_of(networks, id, name.as_bytes()).is_some() {
        return Err(OrderFault::Refused(OrderRefusal::NameHeld));
    }
    let Some(pool) = settings.pool() else {
        return Err(OrderFault::Refused(OrderRefusal::BadPool));
    };
    if let Some(why) = overlap_refusal(alloc, tenants, networks, &pool)? {
        return Err(OrderFault::Refused(why));
    }
    if has_endpoint(networks, &settings.host, settings.port) {
        return Err(OrderFault::Refused(OrderRefusal::PortHeld));
    }
    if is_full(networks) {
        return Err(OrderFault::Refused(OrderRefusal::RegisterFull));
    }
    Ok(pool)
}

/// An id that none of these networks has.
pub fn new_id(alloc: Global, networks: &[NetworkEntry]) -> Result<u32, AllocError>
    requires room { is_full networks.now ≡ false }
    ensures { IfOk result (λ id. IsId id × (has_network networks.now id ≡ false)) }
{
    let ids = network_ids(alloc, networks)?;
    Ok(unused_id(&ids))
}

/// Whether a list of entries is full.
pub fn is_full<T>(entries: &[T]) -> bool
    ensures { result ≡ is_full entries.now }
{
    entries.len() >= MAX_ENTRIES
}
