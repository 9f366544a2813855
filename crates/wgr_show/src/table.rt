//! Tables for a person.
use crate::columns::aligned;
use crate::entries::Entry;
use crate::shown::only_reads;
use std::alloc::{AllocError, Global};
use wgr_json::text_of_prefix;
use wgr_orders::{Counted, Granted, Right};

/// A table of networks, and one of tokens where there is one. Rights are shown where a token only reads.
pub(crate) fn tables(alloc: Global, entries: &[Entry<'_, '_>]) -> Result<Vec<u8>, AllocError> {
    let mut networks = String::from_str(
        alloc,
        "TENANT\tNETWORK\tPOOL\tENDPOINT\tCAPACITY\tPEERS\tROUTES\n",
    )?;
    let shows_rights = have_reader(entries);
    let mut tokens = String::from_str(alloc, token_columns(shows_rights))?;
    let mut has_token = false;
    for entry in entries {
        write_networks(alloc, entry, &mut networks)?;
        write_tokens(alloc, entry, shows_rights, &mut tokens)?;
        has_token = has_token || !entry.tokens.is_empty();
    }
    let mut text = aligned(alloc, &networks)?;
    if has_token {
        text.push('\n')?;
        text.push_str(&aligned(alloc, &tokens)?)?;
    }
    Ok(text.into_bytes())
}

// Whether a token of a tenant only reads.
fn have_reader(entries: &[Entry<'_, '_>]) -> bool {
    for entry in entries {
        if has_reader(entry) {
            return true;
        }
    }
    false
}

fn has_reader(entry: &Entry<'_, '_>) -> bool {
    for token in entry.tokens {
        if only_reads(token.right) {
            return true;
        }
    }
    false
}

// The first line of the table of tokens.
fn token_columns(shows_rights: bool) -> &'static str {
    if shows_rights {
        "TENANT\tTOKEN\tRIGHT\n"
    } else {
        "TENANT\tTOKEN\n"
    }
}

// Appends a tenant's networks. One that has none has a line too.
fn write_networks(
    alloc: Global,
    entry: &Entry<'_, '_>,
    out: &mut String,
) -> Result<(), AllocError> {
    let tenant = entry.tenant;
    let tenant = tenant.name.as_str();
    if entry.networks.is_empty() {
        return writeln!(out, "{tenant}\t-\t-\t-\t-\t-\t-");
    }
    for counted in entry.networks {
        write_network(alloc, tenant, counted, out)?;
    }
    Ok(())
}

// Appends the line of a network.
fn write_network(
    alloc: Global,
    tenant: &str,
    counted: &Counted,
    out: &mut String,
) -> Result<(), AllocError> {
    let name = counted.network_entry.name.as_str();
    let network = &counted.network_entry.network;
    let pool = text_of_prefix(alloc, &network.pool().prefix())?;
    let endpoint = network.host().endpoint(alloc, network.port())?;
    let capacity = network.capacity().peers();
    let peers = counted.peers;
    let routes = counted.routes;
    writeln!(
        out,
        "{tenant}\t{name}\t{pool}\t{endpoint}\t{capacity}\t{peers}\t{routes}"
    )
}

// Appends a line for each token of a tenant.
fn write_tokens(
    alloc: Global,
    entry: &Entry<'_, '_>,
    shows_right: bool,
    out: &mut String,
) -> Result<(), AllocError> {
    let tenant = entry.tenant;
    for token in entry.tokens {
        write_token(alloc, tenant.name.as_str(), token, shows_right, out)?;
    }
    Ok(())
}

// Appends the line of a token.
fn write_token(
    alloc: Global,
    tenant: &str,
    granted: &Granted,
    shows_right: bool,
    out: &mut String,
) -> Result<(), AllocError> {
    let digest = hex::encode(alloc, &granted.token.digest)?;
    if !shows_right {
        return writeln!(out, "{tenant}\t{digest}");
    }
    let right = match granted.right {
        Right::Full => "full",
        Right::Read => "read",
    };
    writeln!(out, "{tenant}\t{digest}\t{right}")
}
