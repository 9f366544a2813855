//! The orders of what distinguishes networks.
ghost use Rattle.std.specs.Prelude.{◌≡◌};
ghost use Rattle.std.specs.List.Sorted.{IsPermutation, IsSorted};
ghost use Rattle.std.specs.Ordering.{nat_cmp};
ghost use Rattle.wgr_model.specs.Rows.{family_number};
ghost use Rattle.wgr_checks.specs.Sorted.{endpoint_cmp, pool_cmp, slot_cmp};

use std::cmp::Ordering;
use wgr_peers::{Host, Name, Port};
use wgr_pool::Pool;
use wgr_text::Family;

// How the ids of two tenants and the names of two of their networks are ordered.
fn slot_order(one: &(u32, Name), other: &(u32, Name)) -> Ordering
    ensures { result ≡ slot_cmp one.now other.now }
{
    match one.0.cmp(&other.0) {
        Ordering::Equal => one.1.as_bytes().cmp(other.1.as_bytes()),
        unequal => unequal,
    }
}

// How two endpoints are ordered.
fn endpoint_order(one: &(Host, Port), other: &(Host, Port)) -> Ordering
    ensures { result ≡ endpoint_cmp one.now other.now }
{
    match one.0.as_str().as_bytes().cmp(other.0.as_str().as_bytes()) {
        Ordering::Equal => one.1.number().cmp(&other.1.number()),
        unequal => unequal,
    }
}

// How two families are ordered: IPv4 before IPv6.
fn family_order(one: Family, other: Family) -> Ordering
    ensures { result ≡ nat_cmp (family_number one) (family_number other) }
{
    match (one, other) {
        (Family::V4, Family::V6) => Ordering::Less,
        (Family::V6, Family::V4) => Ordering::Greater,
        _ => Ordering::Equal,
    }
}

// How the first addresses of two pools are ordered.
fn pool_order(one: &Pool, other: &Pool) -> Ordering
    ensures { result ≡ pool_cmp one.now other.now }
{
    let one = one.prefix().address();
    let other = other.prefix().address();
    match family_order(one.family(), other.family()) {
        Ordering::Equal => one.number().cmp(&other.number()),
        unequal => unequal,
    }
}

/// Puts ids in order.
pub(crate) fn sort_ids(all: &mut Vec<u32>)
    ensures same { IsPermutation all.old.items all.new.items }
    ensures sorted { IsSorted nat_cmp all.new.items }
{
    all.sort_unstable();
}

pub(crate) fn sort_slots(all: &mut Vec<(u32, Name)>)
    ensures same { IsPermutation all.old.items all.new.items }
    ensures sorted { IsSorted slot_cmp all.new.items }
{
    all.sort_unstable_by(|one, other| slot_order(one, other));
}

pub(crate) fn sort_endpoints(all: &mut Vec<(Host, Port)>)
    ensures same { IsPermutation all.old.items all.new.items }
    ensures sorted { IsSorted endpoint_cmp all.new.items }
{
    all.sort_unstable_by(|one, other| endpoint_order(one, other));
}

pub(crate) fn sort_pools(all: &mut Vec<Pool>)
    ensures same { IsPermutation all.old.items all.new.items }
    ensures sorted { IsSorted pool_cmp all.new.items }
{
    all.sort_unstable_by(|one, other| pool_order(one, other));
}
