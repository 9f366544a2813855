//! The words that `send` sends. What is an option of the command on a file is a field of the line, so the values of
//! these options come behind the words.
ghost use Rattle.std.specs.Prelude.{◌≡◌, ◌++◌, IfOk, codes, map, option_map};
ghost use Rattle.clap.specs.Words.{found_of, rows_of};
ghost use Rattle.wgr_command_line.specs.Words.{asked_of, setting_words, has_setting, is_grant, is_new_network, send_in, given_settings, texts_of, with_fields, with_given_right, with_settings};

use crate::invocation::Invocation;
use crate::values::{all, first, is_set};
use clap::ArgMatches;
use std::alloc::{AllocError, Global};

// The settings of a new network.
#[derive(Clone, Copy)]
struct SettingWords<'a> {
    pool: &'a str,
    host: &'a str,
    port: &'a str,
    key: &'a str,
    capacity: &'a str,
}

// Whether the words are those of a grant, but for its right.
fn is_grant(words: &[&str]) -> bool
    ensures { result ≡ is_grant (map (λ word. word.now) words.now) }
{
    match words {
        [word, _] => *word == "token-grant",
        _ => false,
    }
}

// Whether the words are those of a new network, but for its settings.
fn is_new_network(words: &[&str]) -> bool
    ensures { result ≡ is_new_network (map (λ word. word.now) words.now) }
{
    match words {
        [word, _, _] => *word == "network-add",
        _ => false,
    }
}

fn with_right<'a>(
    alloc: Global,
    mut words: Vec<&'a str>,
    right: &'a str,
) -> Result<Vec<&'a str>, AllocError>
    ensures { IfOk result (λ whole. texts_of whole.items ≡ with_given_right right.now (texts_of words.entry.items)) }
{
    if !is_grant(&words) {
        return Ok(Vec::new(alloc));
    }
    words.extend_from_slice(&[right])?;
    Ok(words)
}

fn with_settings<'a>(
    alloc: Global,
    mut words: Vec<&'a str>,
    settings: SettingWords<'a>,
) -> Result<Vec<&'a str>, AllocError>
    ensures { IfOk result (λ whole. texts_of whole.items ≡ with_settings (setting_words settings.entry) (texts_of words.entry.items)) }
{
    if !is_new_network(&words) {
        return Ok(Vec::new(alloc));
    }
    let SettingWords {
        pool,
        host,
        port,
        key,
        capacity,
    } = settings;
    words.extend_from_slice(&[pool, host, port, key, capacity])?;
    Ok(words)
}

// The settings of a network, if all are given.
fn settings<'a>(found: &ArgMatches<'a>) -> Option<SettingWords<'a>>
    ensures { option_map setting_words result ≡ given_settings (rows_of (found_of found.now)) }
{
    let pool = first(found, "pool")?;
    let host = first(found, "host")?;
    let port = first(found, "port")?;
    let key = first(found, "key")?;
    let capacity = first(found, "capacity")?;
    Some(SettingWords {
        pool,
        host,
        port,
        key,
        capacity,
    })
}

fn has_setting(found: &ArgMatches<'_>) -> bool
    ensures { result ≡ has_setting (rows_of (found_of found.now)) }
{
    first(found, "pool").is_some()
        || first(found, "host").is_some()
        || first(found, "port").is_some()
        || first(found, "key").is_some()
        || first(found, "capacity").is_some()
}

// No words are left if an option belongs to another order: they spell none, so nothing is sent.
fn with_fields<'a>(
    alloc: Global,
    found: &ArgMatches<'a>,
    words: Vec<&'a str>,
) -> Result<Vec<&'a str>, AllocError>
    ensures { IfOk result (λ whole. texts_of whole.items ≡ with_fields (rows_of (found_of found.now)) (texts_of words.entry.items)) }
{
    match (first(found, "right"), settings(found), has_setting(found)) {
        (None, None, false) => Ok(words),
        (None, Some(settings), _) => with_settings(alloc, words, settings),
        (Some(right), _, false) => with_right(alloc, words, right),
        _ => Ok(Vec::new(alloc)),
    }
}

pub(crate) fn send<'a>(
    alloc: Global,
    found: &ArgMatches<'a>,
) -> Result<Option<Invocation<'a>>, AllocError>
    ensures { IfOk result (λ invocation. option_map asked_of invocation ≡ send_in (rows_of (found_of found.now))) }
{
    let Some(path) = first(found, "path") else {
        return Ok(None);
    };
    let Some(words) = all(alloc, found, "word")? else {
        return Ok(None);
    };
    let words = with_fields(alloc, found, words)?;
    let digest = first(found, "digest");
    let is_json = is_set(found, "json");
    Ok(Some(Invocation::Send {
        path,
        words,
        digest,
        is_json,
    }))
}
