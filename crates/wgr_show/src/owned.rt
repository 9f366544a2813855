//! What tenants own, in the order in which it is shown.
ghost use Rattle.std.specs.Prelude.{◌≡◌, ℕ, List, map, nat_eq, IfOk};
ghost use Rattle.std.specs.List.{filter};
ghost use Rattle.std.specs.List.Sorted.{IsPermutation, IsSortedByKey};
ghost use Rattle.std.specs.declared.cmp.Ordering.{Ordering};
ghost use Rattle.wgr_show.specs.Owned.{owned_cmp};

use std::alloc::{AllocError, Global};
use std::cmp::Ordering;
use wgr_orders::{Counted, Granted};

/// What a tenant owns.
pub(crate) trait Owned {
    ghost owner_of: { Self → ℕ };

    ghost label_of: { Self → List ℕ };

    /// The tenant's id.
    fn owner(&self) -> u32
        ensures { result ≡ owner_of self.now };

    /// The bytes by which a tenant's entries are in order.
    fn label(&self) -> &[u8]
        ensures { result.now ≡ label_of self.now };
}

impl Owned for Granted {
    ghost owner_of = { λ t. t.token.tenant };

    ghost label_of = { λ t. t.token.digest };

    fn owner(&self) -> u32 {
        self.token.tenant
    }

    fn label(&self) -> &[u8] {
        &self.token.digest
    }
}

impl Owned for Counted {
    ghost owner_of = { λ n. n.network_entry.tenant };

    ghost label_of = { λ n. n.network_entry.name };

    fn owner(&self) -> u32 {
        self.network_entry.tenant
    }

    fn label(&self) -> &[u8] {
        self.network_entry.name.as_bytes()
    }
}

/// All of them, by their tenants' ids, then by label.
pub(crate) fn sorted<T: Owned>(alloc: Global, all: &[T]) -> Result<Vec<&T>, AllocError>
    ensures same { IfOk result (λ s. IsPermutation all.now (map (λ r. r.now) s.items)) }
    ensures sorted { IfOk result (λ s. IsSortedByKey (λ r. r.now) (owned_cmp T.owner_of T.label_of) s.items) }
{
    let mut sorted = references(alloc, all)?;
    sorted.sort_unstable_by(|one, other| order(*one, *other));
    Ok(sorted)
}

// References to all of them.
fn references<T>(alloc: Global, all: &[T]) -> Result<Vec<&T>, AllocError>
    ensures { IfOk result (λ v. map (λ r. r.now) v.items ≡ all.now) }
{
    all.iter().collect(alloc)
}

fn order<T: Owned>(one: &T, other: &T) -> Ordering
    ensures { result ≡ owned_cmp T.owner_of T.label_of one.now other.now }
{
    match one.owner().cmp(&other.owner()) {
        Ordering::Equal => one.label().cmp(other.label()),
        unequal => unequal,
    }
}

/// Those of the tenant of this id, of all that are sorted.
pub(crate) fn owned_by<'a, 'c, T: Owned>(sorted: &'a [&'c T], id: u32) -> &'a [&'c T]
    requires { IsSortedByKey (λ r. r.now) (owned_cmp T.owner_of T.label_of) sorted.now }
    ensures { result.now ≡ filter (λ r. nat_eq (T.owner_of r.now) id) sorted.now }
{
    let start = sorted.partition_point(|owned| owned.owner() < id);
    let rest = &sorted[start..];
    let count = rest.partition_point(|owned| owned.owner() <= id);
    &rest[..count]
}
