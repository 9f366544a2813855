//! Entries as JSON.
ghost use Rattle.std.specs.Prelude.{◌≡◌, map, refl, IfOk, OnOk};
ghost use Rattle.std.specs.List.{filter};
ghost use Rattle.serde_json.specs.Data.{member, no_members};
ghost use Rattle.serde_json.specs.Events.{SendsValue};
ghost use Rattle.wgr_show.specs.Entries.{shown_of};
ghost use Rattle.wgr_show.specs.Json.{counted_data, only_reads, register_data, tenant_alone, tenant_and_readers, tenant_data, tenant_with, token_data};
ghost use Rattle.wgr_show.specs.Whole.{register_whole, tenant_whole};

use crate::entries::Entry;
use serde::Serializer;
use std::alloc::{AllocError, Global};
use wgr_json::{List, ToJson, send_member, send_number, send_text};
use wgr_orders::{Counted, Granted, Right};

/// Where this crate shows values.
pub(crate) struct InListing;

/// All that is shown.
#[derive(Clone, Copy)]
pub(crate) struct Register<'e, 'a, 'c>(pub &'e [Entry<'a, 'c>]);

impl<'e, 'a, 'c> ToJson<InListing> for Register<'e, 'a, 'c> {
    ghost shown = { λ r. register_data (map shown_of r.0.now) };

    ghost whole = { λ r. register_whole (map shown_of r.0.now) };

    fn send<S: Serializer>(&self, alloc: Global, out: &mut S) -> Result<(), S::Error> {
        out.begin_map(Some(1))?;
        send_member::<InListing, _, _>(alloc, "tenants", &List(self.0), out)?;
        out.end_map()
    }
}

impl<'a, 'c> ToJson<InListing> for Entry<'a, 'c> {
    ghost shown = { λ e. tenant_data (shown_of e) };

    ghost whole = { λ e. tenant_whole (shown_of e) };

    fn send<S: Serializer>(&self, alloc: Global, out: &mut S) -> Result<(), S::Error> {
        match readers_of(alloc, self.tokens) {
            Ok(readers) => send_tenant(alloc, self, &readers, out),
            Err(_) => Err(out.custom("no memory")),
        }
    }
}

// Those of the tokens that only read.
fn readers_of<'c>(alloc: Global, tokens: &[&'c Granted]) -> Result<Vec<&'c Granted>, AllocError>
    ensures { IfOk result (λ readers. readers.items ≡ filter (λ t. only_reads t.now.right) tokens.now) }
{
    let mut readers = Vec::new(alloc);
    for token in tokens {
        if only_reads(token.right) {
            readers.push(*token)?;
        }
    }
    Ok(readers)
}

/// Whether a token of this right only reads.
pub(crate) fn only_reads(right: Right) -> bool
    ensures { result ≡ only_reads right }
{
    match right {
        Right::Full => false,
        Right::Read => true,
    }
}

// A tenant with those of its tokens that only read, which have a member where there are any.
fn send_tenant<S: Serializer>(
    alloc: Global,
    entry: &Entry<'_, '_>,
    readers: &[&Granted],
    out: &mut S,
) -> Result<(), S::Error>
    ensures { OnOk result (SendsValue (tenant_with (shown_of entry.now) (map (λ t. t.now) readers.now)) (S.written out.old) (S.written out.new)) }
{
    if readers.is_empty() {
        send_alone(alloc, entry, out)
    } else {
        send_with_readers(alloc, entry, readers, out)
    }
}

fn send_alone<S: Serializer>(
    alloc: Global,
    entry: &Entry<'_, '_>,
    out: &mut S,
) -> Result<(), S::Error>
    ensures { OnOk result (SendsValue (tenant_alone (shown_of entry.now)) (S.written out.old) (S.written out.new)) }
{
    let tenant = entry.tenant;
    out.begin_map(Some(3))?;
    send_text("name", tenant.name.as_str(), out)?;
    send_member::<InListing, _, _>(alloc, "tokens", &List(entry.tokens), out)?;
    send_member::<InListing, _, _>(alloc, "networks", &List(entry.networks), out)?;
    out.end_map()
}

fn send_with_readers<S: Serializer>(
    alloc: Global,
    entry: &Entry<'_, '_>,
    readers: &[&Granted],
    out: &mut S,
) -> Result<(), S::Error>
    ensures { OnOk result (SendsValue (tenant_and_readers (shown_of entry.now) (map (λ t. t.now) readers.now)) (S.written out.old) (S.written out.new)) }
{
    let tenant = entry.tenant;
    out.begin_map(Some(4))?;
    send_text("name", tenant.name.as_str(), out)?;
    send_member::<InListing, _, _>(alloc, "tokens", &List(entry.tokens), out)?;
    send_member::<InListing, _, _>(alloc, "readers", &List(readers), out)?;
    send_member::<InListing, _, _>(alloc, "networks", &List(entry.networks), out)?;
    out.end_map()
}

impl<'a> ToJson<InListing> for &'a Granted {
    ghost shown = { λ t. token_data t.now };

    ghost whole = { λ t. refl };

    fn send<S: Serializer>(&self, alloc: Global, out: &mut S) -> Result<(), S::Error> {
        match hex::encode(alloc, &self.token.digest) {
            Ok(digest) => out.str(digest.as_str()),
            Err(_) => Err(out.custom("no memory")),
        }
    }
}

impl<'a> ToJson<InListing> for &'a Counted {
    ghost shown = { λ n. counted_data n.now };

    ghost whole = { λ n. refl };

    fn send<S: Serializer>(&self, alloc: Global, out: &mut S) -> Result<(), S::Error> {
        let network = &self.network_entry.network;
        out.begin_map(Some(8))?;
        send_text("name", self.network_entry.name.as_str(), out)?;
        send_member::<InListing, _, _>(alloc, "pool", &network.pool().prefix(), out)?;
        send_text("host", network.host().as_str(), out)?;
        send_number("port", u64::from(network.port().number()), out)?;
        send_member::<InListing, _, _>(alloc, "server", &network.server_key(), out)?;
        send_number("capacity", u64::from(network.capacity().peers()), out)?;
        send_number("peers", self.peers as u64, out)?;
        send_number("routes", self.routes as u64, out)?;
        out.end_map()
    }
}
