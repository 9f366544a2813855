//! A register's entries, as text.
ghost use Rattle.std.specs.Prelude.{◌≡◌, ◌&&◌, ◌==◌, ◌++◌, codes, is_some, length, map, true, false, IfOk, IfNone, IfSome};
ghost use Rattle.std.specs.Option.{option_map};
ghost use Rattle.serde_json.specs.Written.{compact_text};
ghost use Rattle.std.specs.List.Sorted.{IsSortedByKey};
ghost use Rattle.wgr_show.specs.Entries.{entry_of, shown_of};
ghost use Rattle.wgr_show.specs.Owned.{network_cmp, token_cmp};
ghost use Rattle.wgr_show.specs.Json.{IsRegisterJson, register_data};
ghost use Rattle.wgr_show.specs.Shown.{is_there};

use crate::entries::{Entry, asked_tenants, entries_of};
use crate::owned::sorted;
use crate::shown::Register;
use crate::table::tables;
use std::alloc::{AllocError, Global};
use wgr_json::to_json;
use wgr_orders::{Census, Counted, Granted, Tenant};

/// The tenants by name, each with its networks by name and its tokens by digest: all, or the one of a name.
/// It is JSON on one line, or a table of networks and one of tokens. `None` where no tenant has the name.
///
/// It takes time in proportion to `n log n` for `n` entries.
pub fn show_text(
    alloc: Global,
    census: &Census,
    tenant: Option<&str>,
    is_json: bool,
) -> Result<Option<Vec<u8>>, AllocError>
    ensures some { IfOk result (λ shown. IfSome shown (λ _. is_there (option_map (λ name. name.now) tenant.entry) census.now.tenants.items ≡ true)) }
    ensures none { IfOk result (λ shown. IfNone shown (is_there (option_map (λ name. name.now) tenant.entry) census.now.tenants.items ≡ false)) }
    ensures json { IfOk result (λ shown. IfSome shown (λ text. is_json ≡ true → IsRegisterJson census.now (option_map (λ name. name.now) tenant.entry) text.items)) }
{
    let tenants = asked_tenants(alloc, &census.tenants, tenant)?;
    if is_missing(tenant, &tenants) {
        return Ok(None);
    }
    let tokens = sorted(alloc, &census.tokens)?;
    let networks = sorted(alloc, &census.networks)?;
    Ok(Some(text_of(alloc, &tenants, &tokens, &networks, is_json)?))
}

// Whether a name is asked for, and no tenant has it.
fn is_missing(name: Option<&str>, found: &[&Tenant]) -> bool
    ensures { result ≡ (is_some name.entry && (length found.now == 0)) }
{
    name.is_some() && found.is_empty()
}

// These tenants with what they own, as text.
fn text_of(
    alloc: Global,
    tenants: &[&Tenant],
    tokens: &[&Granted],
    networks: &[&Counted],
    is_json: bool,
) -> Result<Vec<u8>, AllocError>
    requires tokens { IsSortedByKey (λ r. r.now) token_cmp tokens.now }
    requires networks { IsSortedByKey (λ r. r.now) network_cmp networks.now }
    ensures json { IfOk result (λ text. is_json ≡ true → text.items ≡ compact_text (register_data (map (λ t. entry_of tokens.now networks.now t.now) tenants.now)) ++ codes "\n") }
{
    let entries = entries_of(alloc, tenants, tokens, networks)?;
    if is_json {
        json_line(alloc, &entries)
    } else {
        tables(alloc, &entries)
    }
}

// The entries as JSON, on one line.
fn json_line(alloc: Global, entries: &[Entry<'_, '_>]) -> Result<Vec<u8>, AllocError>
    ensures { IfOk result (λ text. text.items ≡ compact_text (register_data (map shown_of entries.now)) ++ codes "\n") }
{
    let mut text = to_json(alloc, &Register(entries))?;
    text.push(b'\n')?;
    Ok(text)
}
