//! Keys that no two rows share: each comes before the next.
ghost use Rattle.std.specs.Prelude.{◌≡◌, ◌↔◌, IsTrue, nat_eq};
ghost use Rattle.std.specs.List.{IsDistinct};
ghost use Rattle.std.specs.List.Sorted.{IsSorted};
ghost use Rattle.std.specs.Ordering.{nat_cmp};
ghost use Rattle.std.specs.declared.cmp.Ordering.TheVariants.{Less};
ghost use Rattle.std.specs.Cmp.Lexicographic.{slice_cmp};
ghost use Rattle.wgr_model.specs.Register.{is_same};
ghost use Rattle.wgr_model.specs.Consistent.{same_endpoint, same_slot};
ghost use Rattle.wgr_checks.specs.Sorted.{endpoint_cmp, slot_cmp};

use std::cmp::Ordering;
use wgr_peers::{Host, Name, Port};

/// Whether no id occurs twice.
pub fn ids_differ(ids: &[u32]) -> bool
    ensures is { IsTrue result → IsDistinct nat_eq ids.now }
    ensures only { IsSorted nat_cmp ids.now → IsDistinct nat_eq ids.now → IsTrue result }
{
    for at in 1..ids.len() {
        if ids[at - 1] >= ids[at] {
            return false;
        }
    }
    true
}

// Whether a text comes before another, byte by byte.
fn is_below(one: &[u8], next: &[u8]) -> bool
    ensures { IsTrue result ↔ (slice_cmp nat_cmp one.now next.now ≡ Less) }
{
    match one.cmp(next) {
        Ordering::Less => true,
        _ => false,
    }
}

fn is_name_below(one: &Name, next: &Name) -> bool
    ensures { IsTrue result ↔ (slice_cmp nat_cmp one.now next.now ≡ Less) }
{
    is_below(one.as_bytes(), next.as_bytes())
}

/// Whether no name occurs twice.
pub fn names_differ(names: &[Name]) -> bool
    ensures is { IsTrue result → IsDistinct is_same names.now }
    ensures only { IsSorted (slice_cmp nat_cmp) names.now → IsDistinct is_same names.now → IsTrue result }
{
    for at in 1..names.len() {
        if !is_name_below(&names[at - 1], &names[at]) {
            return false;
        }
    }
    true
}

/// Whether no digest of a token occurs twice.
pub fn digests_differ(digests: &[[u8; 32]]) -> bool
    ensures is { IsTrue result → IsDistinct is_same digests.now }
    ensures only { IsSorted (slice_cmp nat_cmp) digests.now → IsDistinct is_same digests.now → IsTrue result }
{
    for at in 1..digests.len() {
        if !is_below(&digests[at - 1], &digests[at]) {
            return false;
        }
    }
    true
}

// Whether a tenant's id and a network's name come before others: by the id, then by the name.
fn is_slot_below(one: &(u32, Name), next: &(u32, Name)) -> bool
    ensures { IsTrue result ↔ (slot_cmp one.now next.now ≡ Less) }
{
    match one.0.cmp(&next.0) {
        Ordering::Less => true,
        Ordering::Equal => is_below(one.1.as_bytes(), next.1.as_bytes()),
        Ordering::Greater => false,
    }
}

/// Whether no tenant has two networks of the same name.
pub fn slots_differ(slots: &[(u32, Name)]) -> bool
    ensures is { IsTrue result → IsDistinct same_slot slots.now }
    ensures only { IsSorted slot_cmp slots.now → IsDistinct same_slot slots.now → IsTrue result }
{
    for at in 1..slots.len() {
        if !is_slot_below(&slots[at - 1], &slots[at]) {
            return false;
        }
    }
    true
}

// Whether an endpoint comes before another: by the host, then by the port.
fn is_endpoint_below(one: &(Host, Port), next: &(Host, Port)) -> bool
    ensures { IsTrue result ↔ (endpoint_cmp one.now next.now ≡ Less) }
{
    match one.0.as_str().as_bytes().cmp(next.0.as_str().as_bytes()) {
        Ordering::Less => true,
        Ordering::Equal => one.1.number() < next.1.number(),
        Ordering::Greater => false,
    }
}

/// Whether no endpoint occurs twice.
pub fn endpoints_differ(endpoints: &[(Host, Port)]) -> bool
    ensures is { IsTrue result → IsDistinct same_endpoint endpoints.now }
    ensures only { IsSorted endpoint_cmp endpoints.now → IsDistinct same_endpoint endpoints.now → IsTrue result }
{
    for at in 1..endpoints.len() {
        if !is_endpoint_below(&endpoints[at - 1], &endpoints[at]) {
            return false;
        }
    }
    true
}
