//! The values of a command's arguments, by their names.
ghost use Rattle.std.specs.Prelude.{◌≡◌, false, IfOk, map, option_map};
ghost use Rattle.clap.specs.Words.{all_of, first_of, found_of, rows_of, rule_of};
ghost use Rattle.wgr_command_line.specs.Words.{asked_of, batch_in, choice_rule, flag_rule, init_in, is_set, migrate_in, network_add_in, network_end_in, option_rule, optional_rule, orders_in, plan_in, serve_in, show_in, tenant_add_in, token_end_in, token_grant_in, value_rule, values_rule};

use crate::invocation::Invocation;
use clap::{Arg, ArgAction, ArgMatches};
use std::alloc::{AllocError, Global};
use wgr_words::{NetworkWords, OrderWords};

/// A required positional value.
pub(crate) fn value<'a>(alloc: Global, id: &'a str, shown: &'a str, help: &'a str) -> Arg<'a>
    ensures rule { rule_of result ≡ value_rule id.now }
    ensures local { result.global ≡ false }
{
    Arg::new(alloc, id)
        .value_name(shown)
        .required(true)
        .help(help)
}

/// A required value of an option.
pub(crate) fn option<'a>(alloc: Global, id: &'a str, shown: &'a str, help: &'a str) -> Arg<'a>
    ensures rule { rule_of result ≡ option_rule id.now }
    ensures local { result.global ≡ false }
{
    value(alloc, id, shown, help).long(id)
}

/// An optional positional value.
pub(crate) fn optional<'a>(alloc: Global, id: &'a str, shown: &'a str, help: &'a str) -> Arg<'a>
    ensures rule { rule_of result ≡ optional_rule id.now }
    ensures local { result.global ≡ false }
{
    Arg::new(alloc, id).value_name(shown).help(help)
}

/// An optional value of an option.
pub(crate) fn choice<'a>(alloc: Global, id: &'a str, shown: &'a str, help: &'a str) -> Arg<'a>
    ensures rule { rule_of result ≡ choice_rule id.now }
    ensures local { result.global ≡ false }
{
    optional(alloc, id, shown, help).long(id)
}

/// An option without a value.
pub(crate) fn flag<'a>(alloc: Global, id: &'a str, help: &'a str) -> Arg<'a>
    ensures rule { rule_of result ≡ flag_rule id.now }
    ensures local { result.global ≡ false }
{
    Arg::new(alloc, id)
        .long(id)
        .action(ArgAction::SetTrue)
        .help(help)
}

/// Positional values, of which at least one is required.
pub(crate) fn values<'a>(alloc: Global, id: &'a str, shown: &'a str, help: &'a str) -> Arg<'a>
    ensures rule { rule_of result ≡ values_rule id.now }
    ensures local { result.global ≡ false }
{
    value(alloc, id, shown, help).num_args(1..)
}

/// The first value under this name.
pub(crate) fn first<'a>(found: &ArgMatches<'a>, id: &str) -> Option<&'a str>
    ensures { option_map (λ text. text.now) result ≡ first_of id.now (rows_of (found_of found.now)) }
{
    found.get_str(id)
}

/// Whether the option without a value under this name is given.
pub(crate) fn is_set(found: &ArgMatches<'_>, id: &str) -> bool
    ensures { result ≡ is_set id.now (rows_of (found_of found.now)) }
{
    match first(found, id) {
        Some(text) => text == "true",
        None => false,
    }
}

pub(crate) fn plan<'a>(found: &ArgMatches<'a>) -> Option<Invocation<'a>>
    ensures { option_map asked_of result ≡ plan_in (rows_of (found_of found.now)) }
{
    let pool = first(found, "pool")?;
    Some(Invocation::Plan { pool })
}

pub(crate) fn init<'a>(found: &ArgMatches<'a>) -> Option<Invocation<'a>>
    ensures { option_map asked_of result ≡ init_in (rows_of (found_of found.now)) }
{
    let db = first(found, "db")?;
    Some(Invocation::Init { db })
}

pub(crate) fn migrate<'a>(found: &ArgMatches<'a>) -> Option<Invocation<'a>>
    ensures { option_map asked_of result ≡ migrate_in (rows_of (found_of found.now)) }
{
    let db = first(found, "db")?;
    Some(Invocation::Migrate { db })
}

pub(crate) fn tenant_add<'a>(found: &ArgMatches<'a>) -> Option<Invocation<'a>>
    ensures { option_map asked_of result ≡ tenant_add_in (rows_of (found_of found.now)) }
{
    let db = first(found, "db")?;
    let name = first(found, "name")?;
    Some(Invocation::Operate {
        db,
        order: OrderWords::TenantAdd { name },
    })
}

pub(crate) fn token_grant<'a>(found: &ArgMatches<'a>) -> Option<Invocation<'a>>
    ensures { option_map asked_of result ≡ token_grant_in (rows_of (found_of found.now)) }
{
    let db = first(found, "db")?;
    let tenant = first(found, "tenant")?;
    let right = first(found, "right");
    Some(Invocation::Operate {
        db,
        order: OrderWords::TokenGrant { tenant, right },
    })
}

pub(crate) fn token_end<'a>(found: &ArgMatches<'a>) -> Option<Invocation<'a>>
    ensures { option_map asked_of result ≡ token_end_in (rows_of (found_of found.now)) }
{
    let db = first(found, "db")?;
    let order = match first(found, "digest") {
        Some(digest) => OrderWords::DigestEnd { digest },
        None => OrderWords::TokenEnd,
    };
    Some(Invocation::Operate { db, order })
}

pub(crate) fn network_add<'a>(found: &ArgMatches<'a>) -> Option<Invocation<'a>>
    ensures { option_map asked_of result ≡ network_add_in (rows_of (found_of found.now)) }
{
    let db = first(found, "db")?;
    let tenant = first(found, "tenant")?;
    let name = first(found, "name")?;
    let pool = first(found, "pool")?;
    let host = first(found, "host")?;
    let port = first(found, "port")?;
    let key = first(found, "key")?;
    let capacity = first(found, "capacity")?;
    Some(Invocation::Operate {
        db,
        order: OrderWords::NetworkAdd(NetworkWords {
            tenant,
            name,
            pool,
            host,
            port,
            key,
            capacity,
        }),
    })
}

pub(crate) fn network_end<'a>(found: &ArgMatches<'a>) -> Option<Invocation<'a>>
    ensures { option_map asked_of result ≡ network_end_in (rows_of (found_of found.now)) }
{
    let db = first(found, "db")?;
    let tenant = first(found, "tenant")?;
    let name = first(found, "name")?;
    Some(Invocation::Operate {
        db,
        order: OrderWords::NetworkEnd { tenant, name },
    })
}

pub(crate) fn orders<'a>(found: &ArgMatches<'a>) -> Option<Invocation<'a>>
    ensures { option_map asked_of result ≡ orders_in (rows_of (found_of found.now)) }
{
    let db = first(found, "db")?;
    let file = first(found, "file");
    Some(Invocation::Orders { db, file })
}

pub(crate) fn show<'a>(found: &ArgMatches<'a>) -> Option<Invocation<'a>>
    ensures { option_map asked_of result ≡ show_in (rows_of (found_of found.now)) }
{
    let db = first(found, "db")?;
    let tenant = first(found, "tenant");
    let is_json = is_set(found, "json");
    Some(Invocation::Show {
        db,
        tenant,
        is_json,
    })
}

/// All values under this name.
pub(crate) fn all<'a>(
    alloc: Global,
    found: &ArgMatches<'a>,
    id: &str,
) -> Result<Option<Vec<&'a str>>, AllocError>
    ensures { IfOk result (λ all. option_map (λ texts. map (λ text. text.now) texts.items) all ≡ all_of id.now (rows_of (found_of found.now))) }
{
    let Some(texts) = found.get_strs(id) else {
        return Ok(None);
    };
    let mut all = Vec::new(alloc);
    all.extend_from_slice(texts)?;
    Ok(Some(all))
}

pub(crate) fn batch<'a>(
    alloc: Global,
    found: &ArgMatches<'a>,
) -> Result<Option<Invocation<'a>>, AllocError>
    ensures { IfOk result (λ invocation. option_map asked_of invocation ≡ batch_in (rows_of (found_of found.now))) }
{
    let Some(db) = first(found, "db") else {
        return Ok(None);
    };
    let Some(now) = first(found, "now") else {
        return Ok(None);
    };
    let Some(files) = all(alloc, found, "file")? else {
        return Ok(None);
    };
    Ok(Some(Invocation::Batch { db, now, files }))
}

pub(crate) fn serve<'a>(found: &ArgMatches<'a>) -> Option<Invocation<'a>>
    ensures { option_map asked_of result ≡ serve_in (rows_of (found_of found.now)) }
{
    let db = first(found, "db")?;
    let place = first(found, "place")?;
    let count = first(found, "count")?;
    let now = first(found, "now");
    let orders = first(found, "orders");
    Some(Invocation::Serve {
        db,
        place,
        count,
        now,
        orders,
    })
}
