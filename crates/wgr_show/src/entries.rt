//! Tenants with what they own, in the order in which they are shown.
ghost use Rattle.std.specs.Prelude.{◌≡◌, map, IfOk};
ghost use Rattle.std.specs.List.{filter};
ghost use Rattle.std.specs.List.Sorted.{IsSortedByKey};
ghost use Rattle.std.specs.Option.{option_map};
ghost use Rattle.wgr_show.specs.Entries.{entry_of, shown_of};
ghost use Rattle.wgr_show.specs.Owned.{network_cmp, token_cmp};
ghost use Rattle.wgr_show.specs.Shown.{IsSortedOf, asked_tenants, is_asked};

use crate::owned::owned_by;
use std::alloc::{AllocError, Global};
use wgr_orders::{Counted, Granted, Tenant, is_same};

/// A tenant, its tokens by digest and its networks by name.
#[derive(Clone, Copy)]
pub(crate) struct Entry<'a, 'c> {
    pub tenant: &'c Tenant,
    pub tokens: &'a [&'c Granted],
    pub networks: &'a [&'c Counted],
}

/// The tenants by name: all, or those of a name.
pub(crate) fn asked_tenants<'c>(
    alloc: Global,
    tenants: &'c [Tenant],
    name: Option<&str>,
) -> Result<Vec<&'c Tenant>, AllocError>
    ensures { IfOk result (λ v. IsSortedOf (λ t. t.name) (asked_tenants (option_map (λ n. n.now) name.entry) tenants.now) (map (λ r. r.now) v.items)) }
{
    let mut found = Vec::new(alloc);
    for tenant in tenants {
        if is_asked(tenant, name) {
            found.push(tenant)?;
        }
    }
    found.sort_unstable_by(|one: &&Tenant, other| {
        one.name.as_bytes().cmp(other.name.as_bytes())
    });
    Ok(found)
}

// Whether the tenant is among those of a name.
fn is_asked(tenant: &Tenant, name: Option<&str>) -> bool
    ensures { result ≡ is_asked (option_map (λ n. n.now) name.entry) tenant.now }
{
    match name {
        Some(name) => is_same(name.as_bytes(), tenant.name.as_bytes()),
        None => true,
    }
}

/// Each of the tenants with what it owns, of lists that are sorted.
pub(crate) fn entries_of<'a, 'c>(
    alloc: Global,
    tenants: &[&'c Tenant],
    tokens: &'a [&'c Granted],
    networks: &'a [&'c Counted],
) -> Result<Vec<Entry<'a, 'c>>, AllocError>
    requires tokens { IsSortedByKey (λ r. r.now) token_cmp tokens.now }
    requires networks { IsSortedByKey (λ r. r.now) network_cmp networks.now }
    ensures { IfOk result (λ es. map shown_of es.items ≡ map (λ t. entry_of tokens.now networks.now t.now) tenants.now) }
{
    let mut entries = Vec::with_capacity(alloc, tenants.len())?;
    for tenant in tenants {
        entries.push(entry_of(tenant, tokens, networks))?;
    }
    Ok(entries)
}

// The tenant with what it owns.
fn entry_of<'a, 'c>(
    tenant: &'c Tenant,
    tokens: &'a [&'c Granted],
    networks: &'a [&'c Counted],
) -> Entry<'a, 'c>
    requires tokens { IsSortedByKey (λ r. r.now) token_cmp tokens.now }
    requires networks { IsSortedByKey (λ r. r.now) network_cmp networks.now }
    ensures { shown_of result ≡ entry_of tokens.now networks.now tenant.now }
{
    Entry {
        tenant,
        tokens: owned_by(tokens, tenant.id),
        networks: owned_by(networks, tenant.id),
    }
}
