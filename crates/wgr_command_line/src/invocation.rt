//! What the command-line arguments ask for.
//!
//! The first check of a command takes long, so this crate has nothing else, and is proved in parallel with
//! those of networks. A new command needs a function in `commands.rt`, called in [`wgr_command`], with its
//! help in `help.rt`; a variant of [`Invocation`] or of [`OrderWords`]; a function in `values.rt`; and an
//! arm in [`invocation_of`].
ghost use Rattle.std.specs.Prelude.{◌≡◌, true, Some, IfErr, IfOk, is_some, map, option_and_then, option_map};
ghost use Rattle.clap.specs.Words.{HasKind, kind_of, subcommand_rows_of};
ghost use Rattle.wgr_command_line.specs.Words.{asked_by, asked_in, asked_of, wrong_with};

use crate::commands::wgr_command;
use crate::{sending, values};
use clap::error::ErrorKind;
use clap::{ArgMatches, Error};
use std::alloc::{AllocError, Global};
use std::convert::AsStr;
use wgr_words::OrderWords;

/// What a command line asks for.
#[derive(Drop)]
pub enum Invocation<'a> {
    /// A plan of a pool.
    Plan {
        pool: &'a str,
    },
    /// A new register in a file.
    Init {
        db: &'a str,
    },
    /// The register in a file, taken to the present version of its tables.
    Migrate {
        db: &'a str,
    },
    /// An order on the register in a file.
    Operate {
        db: &'a str,
        order: OrderWords<'a>,
    },
    /// Orders on the register in a file: the lines of another file, or of standard input.
    Orders {
        db: &'a str,
        file: Option<&'a str>,
    },
    /// What the register in a file has, of all tenants or of one, as a table or as JSON.
    Show {
        db: &'a str,
        tenant: Option<&'a str>,
        is_json: bool,
    },
    /// The answers to the requests in files, at a moment.
    Batch {
        db: &'a str,
        now: &'a str,
        files: Vec<&'a str>,
    },
    /// The answers to a number of connections, at a moment or by the clock. Orders are taken at a socket, if
    /// there is one.
    Serve {
        db: &'a str,
        place: &'a str,
        count: &'a str,
        now: Option<&'a str>,
        orders: Option<&'a str>,
    },
    /// An order or a reading by its words, sent to the service that listens at a socket. There are no words
    /// if an option belongs to another order.
    Send {
        path: &'a str,
        words: Vec<&'a str>,
        digest: Option<&'a str>,
        is_json: bool,
    },
}

fn invocation_of<'a>(
    alloc: Global,
    matches: &ArgMatches<'a>,
) -> Result<Option<Invocation<'a>>, AllocError>
    ensures { IfOk result (λ invocation. option_map asked_of invocation ≡ option_and_then asked_in (subcommand_rows_of matches.now)) }
{
    let Some(given) = matches.subcommand() else {
        return Ok(None);
    };
    match given {
        ("batch", found) => values::batch(alloc, found),
        ("send", found) => sending::send(alloc, found),
        ("plan", found) => Ok(values::plan(found)),
        ("init", found) => Ok(values::init(found)),
        ("migrate", found) => Ok(values::migrate(found)),
        ("tenant-add", found) => Ok(values::tenant_add(found)),
        ("token-grant", found) => Ok(values::token_grant(found)),
        ("token-end", found) => Ok(values::token_end(found)),
        ("network-add", found) => Ok(values::network_add(found)),
        ("network-end", found) => Ok(values::network_end(found)),
        ("orders", found) => Ok(values::orders(found)),
        ("show", found) => Ok(values::show(found)),
        ("serve", found) => Ok(values::serve(found)),
        _ => Ok(None),
    }
}

/// What the words ask for. The text of `--help` or of `--version` is also returned as an error.
///
/// Words that ask for something are refused only for lack of memory.
pub fn read_words<'a, S: AsStr>(alloc: Global, words: &'a [S]) -> Result<Invocation<'a>, Error>
    ensures ok { IfOk result (λ invocation. asked_by (map S.text words.now) ≡ Some (asked_of invocation)) }
    ensures err { IfErr result (λ error. is_some (asked_by (map S.text words.now)) ≡ true → kind_of error ≡ ErrorKind.OutOfMemory) }
    ensures kinds { IfErr result (HasKind (wrong_with (map S.text words.now))) }
{
    let mut command = wgr_command(alloc)?;
    let matches = command.try_get_matches_from_mut(words)?;
    let asked = invocation_of(alloc, &matches)?;
    match asked {
        Some(invocation) => Ok(invocation),
        None => Err(command.error(ErrorKind::MissingSubcommand, "a command is missing")?),
    }
}
