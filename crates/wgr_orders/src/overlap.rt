//! Pools that have an address in common.
ghost use Rattle.std.specs.Prelude.{◌≡◌, ◌<◌, List, length, slice_index_or, drop, IfOk};
ghost use Rattle.std.specs.Option.{option_map};
ghost use Rattle.wgr_orders.specs.Names.{NamesOf};
ghost use Rattle.wgr_orders.specs.Orders.{refusal_of};
ghost use Rattle.wgr_model.specs.Consistent.{overlaps};
ghost use Rattle.wgr_model.specs.Register.{Bytes, Tenant};
ghost use Rattle.wgr_model.specs.Steps.{comes_before, first_of, name_of, overlapping, pool_refusal};

use crate::entries::{NetworkEntry, Tenant};
use crate::refusal::OrderRefusal;
use std::alloc::{AllocError, Global};
use std::collections::BTreeMap;
use std::marker::Model;
use wgr_core::Pool;

// The names of a tenant and of a network.
#[derive(Drop)]
struct Names {
    tenant: String,
    network: String,
}

impl Model for Names {
    ghost use Rattle.std.specs.Prelude.{string_bytes};
    ghost use Rattle.wgr_model.specs.Register.{Bytes};

    ghost Value = { Bytes × Bytes };

    ghost view = { λ n. (string_bytes n.tenant, string_bytes n.network) };
}

// Why a network with this pool isn't added, where its pool has an address in common with others.
pub(crate) fn overlap_refusal(
    alloc: Global,
    tenants: &[Tenant],
    networks: &[NetworkEntry],
    pool: &Pool,
) -> Result<Option<OrderRefusal>, AllocError>
    ensures { IfOk result (λ refusal. option_map refusal_of refusal ≡ pool_refusal (overlapping tenants.now networks.now pool.now)) }
{
    let tenant_names = names_by_id(alloc, tenants)?;
    let overlapping = overlapping(alloc, &tenant_names, networks, pool)?;
    if overlapping.is_empty() {
        return Ok(None);
    }
    let first = &overlapping[first_of(&overlapping)];
    Ok(Some(OrderRefusal::PoolOverlaps {
        tenant: first.tenant.clone()?,
        network: first.network.clone()?,
    }))
}

// The names of each network whose pool has an address in common with this one.
fn overlapping(
    alloc: Global,
    tenants: &BTreeMap<u32, &str>,
    networks: &[NetworkEntry],
    pool: &Pool,
) -> Result<Vec<Names>, AllocError>
    ensures { (named : List Tenant) → NamesOf named tenants.now → IfOk result (λ names. names.items ≡ overlapping named networks.now pool.now) }
{
    let mut names = Vec::new(alloc);
    for network_entry in networks {
        if overlaps(pool, &network_entry.network.pool()) {
            names.push(Names {
                tenant: name_of(tenants, network_entry.tenant).to_string(alloc)?,
                network: network_entry.name.as_str().to_string(alloc)?,
            })?;
        }
    }
    Ok(names)
}

// Whether the two pools have an address in common.
fn overlaps(one: &Pool, other: &Pool) -> bool
    ensures { result ≡ overlaps one.now other.now }
{
    !one.prefix().disjoint(&other.prefix())
}

// The names of the tenants by their ids; of several with one id, the first one's.
fn names_by_id<'a>(
    alloc: Global,
    tenants: &'a [Tenant],
) -> Result<BTreeMap<u32, &'a str>, AllocError>
    ensures { IfOk result (λ names. NamesOf tenants.now names) }
{
    let mut names = BTreeMap::new(alloc);
    let mut rest = tenants.len();
    while rest > 0 {
        rest -= 1;
        let tenant = &tenants[rest];
        names.insert(tenant.id, tenant.name.as_str())?;
    }
    Ok(names)
}

// The name of the tenant of this id.
fn name_of<'a>(names: &BTreeMap<u32, &'a str>, id: u32) -> &'a str
    ensures { (tenants : List Tenant) → NamesOf tenants names.now → result.now ≡ name_of tenants id }
{
    match names.get(&id) {
        Some(name) => *name,
        None => "",
    }
}

// The place of the first names: in byte order by the tenant's, then by the network's.
fn first_of(names: &[Names]) -> usize
    requires { 0 < length names.now }
    ensures within { result < length names.now }
    ensures first { (d : Bytes × Bytes) → slice_index_or names.now result d ≡ first_of (slice_index_or names.now 0 d) (drop 1 names.now) }
{
    let mut first = 0;
    for place in 1..names.len() {
        if comes_before(&names[place], &names[first]) {
            first = place;
        }
    }
    first
}

fn comes_before(one: &Names, other: &Names) -> bool
    ensures { result ≡ comes_before one.now other.now }
{
    let tenants = one.tenant.as_bytes().cmp(other.tenant.as_bytes());
    let networks = one.network.as_bytes().cmp(other.network.as_bytes());
    tenants.then(networks).is_lt()
}
