//! The commands and their arguments, as `clap` parses them.
ghost use Rattle.std.specs.Prelude.{◌≡◌, false, true, IfErr, IfOk};
ghost use Rattle.clap.specs.Words.{app_of, kind_of, rule_of, with_subcommand};
ghost use Rattle.wgr_command_line.specs.Words.{batch_app, choice_rule, db_app, field_app, init_app, migrate_app, network_add_app, network_app, network_end_app, orders_app, plan_app, send_app, serve_app, show_app, socket_app, tenant_add_app, token_end_app, token_grant_app, wgr_alone, wgr_app};

use crate::help;
use crate::values::{choice, flag, option, optional, value, values};
use clap::error::ErrorKind;
use clap::{Arg, Command, Error};
use std::alloc::Global;

pub(crate) fn wgr_command<'a>(alloc: Global) -> Result<Command<'a>, Error>
    ensures app { IfOk result (λ command. app_of command ≡ wgr_app) }
    ensures memory { IfErr result (λ error. kind_of error ≡ ErrorKind.OutOfMemory) }
{
    let command = bare_command(alloc)?;
    let command = with_command(command, plan_command(alloc)?)?;
    let command = with_command(command, init_command(alloc)?)?;
    let command = with_command(command, migrate_command(alloc)?)?;
    let command = with_command(command, tenant_add_command(alloc)?)?;
    let command = with_command(command, token_grant_command(alloc)?)?;
    let command = with_command(command, token_end_command(alloc)?)?;
    let command = with_command(command, network_add_command(alloc)?)?;
    let command = with_command(command, network_end_command(alloc)?)?;
    let command = with_command(command, orders_command(alloc)?)?;
    let command = with_command(command, show_command(alloc)?)?;
    let command = with_command(command, batch_command(alloc)?)?;
    let command = with_command(command, serve_command(alloc)?)?;
    let command = with_command(command, send_command(alloc)?)?;
    Ok(command)
}

// `wgr` without a command.
fn bare_command<'a>(alloc: Global) -> Result<Command<'a>, Error>
    ensures app { IfOk result (λ command. app_of command ≡ wgr_alone) }
    ensures memory { IfErr result (λ error. kind_of error ≡ ErrorKind.OutOfMemory) }
{
    let command = Command::new(alloc, "wgr")
        .version("0.8.2")
        .about("A register of WireGuard peers and their tunnel addresses")
        .no_binary_name(true)
        .subcommand_required(true)
        .bin_name("wgr")?;
    Ok(command)
}

fn with_command<'a>(command: Command<'a>, further: Command<'a>) -> Result<Command<'a>, Error>
    requires { (app_of further).top.is_plain ≡ true }
    ensures app { IfOk result (λ both. app_of both ≡ with_subcommand (app_of command.entry) (app_of further.entry).top) }
    ensures memory { IfErr result (λ error. kind_of error ≡ ErrorKind.OutOfMemory) }
{
    Ok(command.subcommand(further)?)
}

fn plan_command<'a>(alloc: Global) -> Result<Command<'a>, Error>
    ensures app { IfOk result (λ command. app_of command ≡ plan_app) }
    ensures memory { IfErr result (λ error. kind_of error ≡ ErrorKind.OutOfMemory) }
{
    let pool = value(
        alloc,
        "pool",
        "POOL",
        "The network's addresses, such as 10.8.0.0/24 or fd00::/64",
    );
    let command = Command::new(alloc, "plan")
        .about("Assigns each public key an address from a pool")
        .after_help(help::PLAN);
    Ok(command.arg(pool)?)
}

// A command on the register in a file.
fn db_command<'a>(
    alloc: Global,
    name: &'a str,
    about: &'a str,
    after: &'a str,
) -> Result<Command<'a>, Error>
    ensures app { IfOk result (λ command. app_of command ≡ db_app name.now) }
    ensures memory { IfErr result (λ error. kind_of error ≡ ErrorKind.OutOfMemory) }
{
    let command = Command::new(alloc, name).about(about).after_help(after);
    Ok(command.arg(value(alloc, "db", "DB", "The register's file"))?)
}

// A command on a tenant's network.
fn network_command<'a>(
    alloc: Global,
    name: &'a str,
    about: &'a str,
    after: &'a str,
) -> Result<Command<'a>, Error>
    ensures app { IfOk result (λ command. app_of command ≡ network_app name.now) }
    ensures memory { IfErr result (λ error. kind_of error ≡ ErrorKind.OutOfMemory) }
{
    let command = db_command(alloc, name, about, after)?;
    let command = command.arg(value(alloc, "tenant", "TENANT", "The tenant's name"))?;
    Ok(command.arg(value(alloc, "name", "NAME", "The network's name"))?)
}

fn init_command<'a>(alloc: Global) -> Result<Command<'a>, Error>
    ensures app { IfOk result (λ command. app_of command ≡ init_app) }
    ensures memory { IfErr result (λ error. kind_of error ≡ ErrorKind.OutOfMemory) }
{
    db_command(alloc, "init", "Creates a register in a file", help::INIT)
}

fn migrate_command<'a>(alloc: Global) -> Result<Command<'a>, Error>
    ensures app { IfOk result (λ command. app_of command ≡ migrate_app) }
    ensures memory { IfErr result (λ error. kind_of error ≡ ErrorKind.OutOfMemory) }
{
    db_command(
        alloc,
        "migrate",
        "Takes a register of an earlier version to this one",
        help::MIGRATE,
    )
}

fn tenant_add_command<'a>(alloc: Global) -> Result<Command<'a>, Error>
    ensures app { IfOk result (λ command. app_of command ≡ tenant_add_app) }
    ensures memory { IfErr result (λ error. kind_of error ≡ ErrorKind.OutOfMemory) }
{
    let command = db_command(alloc, "tenant-add", "Adds a tenant", help::TENANT_ADD)?;
    Ok(command.arg(value(alloc, "name", "NAME", "The tenant's name"))?)
}

fn token_grant_command<'a>(alloc: Global) -> Result<Command<'a>, Error>
    ensures app { IfOk result (λ command. app_of command ≡ token_grant_app) }
    ensures memory { IfErr result (λ error. kind_of error ≡ ErrorKind.OutOfMemory) }
{
    let command = db_command(
        alloc,
        "token-grant",
        "Grants a tenant a token",
        help::TOKEN_GRANT,
    )?;
    let command = command.arg(value(alloc, "tenant", "TENANT", "The tenant's name"))?;
    let right = choice(
        alloc,
        "right",
        "R",
        "What the token allows: `full`, the default, or `read`",
    );
    Ok(command.arg(right)?)
}

fn token_end_command<'a>(alloc: Global) -> Result<Command<'a>, Error>
    ensures app { IfOk result (λ command. app_of command ≡ token_end_app) }
    ensures memory { IfErr result (λ error. kind_of error ≡ ErrorKind.OutOfMemory) }
{
    let command = db_command(alloc, "token-end", "Ends a token", help::TOKEN_END)?;
    let digest = choice(
        alloc,
        "digest",
        "HEX",
        "The token's SHA-256, instead of the token on standard input",
    );
    Ok(command.arg(digest)?)
}

fn network_add_command<'a>(alloc: Global) -> Result<Command<'a>, Error>
    ensures app { IfOk result (λ command. app_of command ≡ network_add_app) }
    ensures memory { IfErr result (λ error. kind_of error ≡ ErrorKind.OutOfMemory) }
{
    let command = network_command(
        alloc,
        "network-add",
        "Adds a network to a tenant",
        help::NETWORK_ADD,
    )?;
    let pool = option(
        alloc,
        "pool",
        "P",
        "Its addresses, such as 10.8.0.0/24 or fd00::/64",
    );
    let host = option(
        alloc,
        "host",
        "H",
        "The host at which peers reach the server",
    );
    let port = option(alloc, "port", "N", "The server's UDP port, 1 to 65535");
    let key = option(alloc, "key", "K", "The server's public key");
    let capacity = option(
        alloc,
        "capacity",
        "N",
        "How many peers it may have, 1 to 4096",
    );
    let command = command.arg(pool)?.arg(host)?.arg(port)?;
    Ok(command.arg(key)?.arg(capacity)?)
}

fn network_end_command<'a>(alloc: Global) -> Result<Command<'a>, Error>
    ensures app { IfOk result (λ command. app_of command ≡ network_end_app) }
    ensures memory { IfErr result (λ error. kind_of error ≡ ErrorKind.OutOfMemory) }
{
    network_command(
        alloc,
        "network-end",
        "Ends a network, with its peers and routes",
        help::NETWORK_END,
    )
}

fn orders_command<'a>(alloc: Global) -> Result<Command<'a>, Error>
    ensures app { IfOk result (λ command. app_of command ≡ orders_app) }
    ensures memory { IfErr result (λ error. kind_of error ≡ ErrorKind.OutOfMemory) }
{
    let command = db_command(
        alloc,
        "orders",
        "Carries out the orders in a file, one per line",
        help::ORDERS,
    )?;
    let file = optional(
        alloc,
        "file",
        "FILE",
        "The orders; standard input by default",
    );
    Ok(command.arg(file)?)
}

fn show_command<'a>(alloc: Global) -> Result<Command<'a>, Error>
    ensures app { IfOk result (λ command. app_of command ≡ show_app) }
    ensures memory { IfErr result (λ error. kind_of error ≡ ErrorKind.OutOfMemory) }
{
    let command = db_command(
        alloc,
        "show",
        "Shows tenants, networks and digests of tokens",
        help::SHOW,
    )?;
    let tenant = optional(alloc, "tenant", "TENANT", "This tenant alone");
    let json = flag(alloc, "json", "Prints JSON instead of a table");
    Ok(command.arg(tenant)?.arg(json)?)
}

fn batch_command<'a>(alloc: Global) -> Result<Command<'a>, Error>
    ensures app { IfOk result (λ command. app_of command ≡ batch_app) }
    ensures memory { IfErr result (λ error. kind_of error ≡ ErrorKind.OutOfMemory) }
{
    let command = db_command(alloc, "batch", "Answers requests from files", help::BATCH)?;
    let now = option(
        alloc,
        "now",
        "N",
        "The time of all requests, in seconds since 1970-01-01",
    );
    let file = values(alloc, "file", "FILE", "A request, as a client sends it");
    Ok(command.arg(now)?.arg(file)?)
}

fn serve_command<'a>(alloc: Global) -> Result<Command<'a>, Error>
    ensures app { IfOk result (λ command. app_of command ≡ serve_app) }
    ensures memory { IfErr result (λ error. kind_of error ≡ ErrorKind.OutOfMemory) }
{
    let command = db_command(alloc, "serve", "Answers requests over HTTP", help::SERVE)?;
    let place = value(
        alloc,
        "place",
        "HOST:PORT",
        "The address to listen on, such as 127.0.0.1:8080 or [::1]:8080",
    );
    let count = option(alloc, "count", "N", "How many connections to answer");
    let now = choice(
        alloc,
        "now",
        "N",
        "The time of requests, in seconds since 1970-01-01; by default the clock's",
    );
    let orders = choice(
        alloc,
        "orders",
        "PATH",
        "The Unix socket for orders from `wgr send`",
    );
    let command = command.arg(place)?.arg(count)?;
    Ok(command.arg(now)?.arg(orders)?)
}

// `send` to the service at a socket, without what is sent.
fn socket_command<'a>(alloc: Global) -> Result<Command<'a>, Error>
    ensures app { IfOk result (λ command. app_of command ≡ socket_app) }
    ensures memory { IfErr result (λ error. kind_of error ≡ ErrorKind.OutOfMemory) }
{
    let path = value(
        alloc,
        "path",
        "PATH",
        "The service's socket, the PATH of its option --orders",
    );
    let command = Command::new(alloc, "send")
        .about("Sends an order to a running service, or asks it for a reading")
        .after_help(help::SEND);
    Ok(command.arg(path)?)
}

// A field of an order that is an option of the command on a file, or may be among the words.
fn field<'a>(alloc: Global, shown: &'a str, id: &'a str) -> Arg<'a>
    ensures rule { rule_of result ≡ choice_rule id.now }
    ensures local { result.global ≡ false }
{
    choice(
        alloc,
        id,
        shown,
        "As the order's command on a file takes it",
    )
}

// `send` with the options of `token-grant` and of `network-add`, of which it requires none.
fn field_command<'a>(alloc: Global) -> Result<Command<'a>, Error>
    ensures app { IfOk result (λ command. app_of command ≡ field_app) }
    ensures memory { IfErr result (λ error. kind_of error ≡ ErrorKind.OutOfMemory) }
{
    let command = socket_command(alloc)?;
    let right = field(alloc, "R", "right");
    let pool = field(alloc, "P", "pool");
    let host = field(alloc, "H", "host");
    let port = field(alloc, "N", "port");
    let key = field(alloc, "K", "key");
    let capacity = field(alloc, "N", "capacity");
    let command = command.arg(right)?.arg(pool)?.arg(host)?;
    Ok(command.arg(port)?.arg(key)?.arg(capacity)?)
}

fn send_command<'a>(alloc: Global) -> Result<Command<'a>, Error>
    ensures app { IfOk result (λ command. app_of command ≡ send_app) }
    ensures memory { IfErr result (λ error. kind_of error ≡ ErrorKind.OutOfMemory) }
{
    let command = field_command(alloc)?;
    let digest = choice(
        alloc,
        "digest",
        "HEX",
        "The token's SHA-256, for `token-end` without the token on standard input",
    );
    let json = flag(alloc, "json", "For `show`: JSON instead of a table");
    let word = values(
        alloc,
        "word",
        "WORD",
        "The order's or reading's name, then its fields",
    );
    Ok(command.arg(digest)?.arg(json)?.arg(word)?)
}
