//! Lookups, each a walk along one list.
ghost use Rattle.std.specs.Prelude.{◌≡◌, map, false, None, IfOk};
ghost use Rattle.wgr_model.specs.Register.{id_of, right_of};
ghost use Rattle.wgr_model.specs.Steps.{tenant_of_token};

use crate::register::Token;
use std::alloc::{AllocError, Global};
use wgr_orders::{Right, Tenant, is_same};

// The id of the tenant of this name.
pub(crate) fn id_of(tenants: &[Tenant], name: &[u8]) -> Option<u32>
    ensures { result ≡ id_of tenants.now name.now }
{
    for tenant in tenants {
        if is_same(name, tenant.name.as_bytes()) {
            return Some(tenant.id);
        }
    }
    None
}

// The id of the tenant that the token of this digest names.
pub(crate) fn tenant_of_token(tokens: &[Token], digest: &[u8; 32]) -> Option<u32>
    ensures { result ≡ tenant_of_token tokens.now digest.now }
{
    for token in tokens {
        if is_same(digest, &token.digest) {
            return Some(token.tenant);
        }
    }
    None
}

// The right of the token of this digest.
pub(crate) fn right_of(readers: &[[u8; 32]], digest: &[u8; 32]) -> Right
    ensures { result ≡ right_of readers.now digest.now }
{
    for reader in readers {
        if is_same(digest, reader) {
            return Right::Read;
        }
    }
    Right::Full
}

// The ids of the tenants.
pub(crate) fn tenant_ids(alloc: Global, tenants: &[Tenant]) -> Result<Vec<u32>, AllocError>
    ensures { IfOk result (λ ids. ids.items ≡ map (λ t. t.id) tenants.now) }
{
    let mut ids = Vec::new(alloc);
    for tenant in tenants {
        ids.push(tenant.id)?;
    }
    Ok(ids)
}
