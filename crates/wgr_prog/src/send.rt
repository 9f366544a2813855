//! `send`: an order or a reading, sent to a running service.
ghost use Rattle.std.specs.Prelude.{◌≡◌, ◌||◌, ◌∷◌, ◌++◌, ℕ, Result, [], false, map, option_map, true, IfErr, IfNone, IfOk, IfSome, OnErr, OnOk};
ghost use Rattle.std.specs.declared.vec.Vec.{Vec};
ghost use Rattle.std.specs.declared.alloc.Global.{Global};
ghost use Rattle.std.specs.Io.KnownBytes.{Appends};
ghost use Rattle.wgr_io.specs.Device.{IsCut};
ghost use Rattle.wgr_prog.specs.Reply.{reply_in};
ghost use Rattle.wgr_prog.specs.Sending.{IsNoWord, MayBreak, Sends, SendsLine, SendsToken, SendsWhole, ReportsReply, ReportsSent, send_status};
ghost use Rattle.wgr_prog.specs.declared.send.SendFault.{SendFault as Failed};
ghost use Rattle.wgr_words.specs.Line.{is_line, line_text};
ghost use Rattle.wgr_words.specs.Order.{input_of};
ghost use Rattle.wgr_words.specs.Sent.{asks_token, line_words, option_words};
ghost use Rattle.wgr_words.specs.Words.{without_newline};

use crate::messages::{self, FAULT, REFUSED, device, no_memory, refusal};
use crate::reply::{Reply, read_reply};
use std::alloc::{AllocError, Global};
use std::str;
use wgr_io::{Read, ReadFault, Write, read_to_end, write_all};
use wgr_service::Network;
use wgr_words::{is_line, may_be_sent, write_line};

/// Why no reply came.
#[derive(Clone, Copy, Debug, PartialEq, Eq)]
pub(crate) enum SendFault {
    /// The words ask for no order and no reading, or make no line.
    BadOrder,
    /// The token makes no word of a line.
    BadToken,
    /// Memory was refused.
    NoMemory,
    /// Standard input failed, no service takes orders at the path, or the connection broke.
    Device,
}

impl From<AllocError> for SendFault {
    ghost use Rattle.std.specs.Prelude.{◌≡◌};
    ghost use Rattle.wgr_prog.specs.declared.send.SendFault.TheVariants.{NoMemory};

    ghost from_gives = { λ _ r. r ≡ NoMemory };

    fn from(_: AllocError) -> SendFault {
        SendFault::NoMemory
    }
}

/// Sends an order or a reading to the service that takes them at this path, and returns the exit status.
pub(crate) fn run_send<N: Network, R: Read, W: Write, E: Write>(
    alloc: Global,
    path: &str,
    words: &[&str],
    digest: Option<&str>,
    is_json: bool,
    network: &mut N,
    input: &mut R,
    out: &mut W,
    err: &mut E,
) -> u8
    ensures { (answer : Result (Vec ℕ Global) Failed) × Sends path.now (map (λ word. word.now) words.now) (option_map (λ text. text.now) digest.entry) is_json (N.log network.old) (N.log network.new) (input_of R.remaining R.failed input.old) (input_of R.remaining R.failed input.new) answer
        × ReportsSent (W.contents out.old) (W.contents out.new) (W.failed out.old) (W.failed out.new) answer result }
{
    let answer = send(alloc, path, words, digest, is_json, network, input);
    report(&answer, out, err)
}

// Prints what the service answered, or why it didn't.
fn report<W: Write, E: Write>(answer: &Result<Vec<u8>, SendFault>, out: &mut W, err: &mut E) -> u8
    ensures { ReportsSent (W.contents out.old) (W.contents out.new) (W.failed out.old) (W.failed out.new) answer.now result }
{
    match answer {
        Ok(reply) => report_reply(reply, out, err),
        Err(why) => send_fault(*why, err),
    }
}

fn send_fault<E: Write>(why: SendFault, err: &mut E) -> u8
    ensures { result ≡ send_status why }
{
    match why {
        SendFault::BadOrder => refusal(err, b"wgr: bad_order\n"),
        SendFault::BadToken => refusal(err, b"wgr: bad_field token\n"),
        SendFault::NoMemory => no_memory(err),
        SendFault::Device => device(err),
    }
}

// Prints what a reply says, and returns its status.
fn report_reply<W: Write, E: Write>(reply: &[u8], out: &mut W, err: &mut E) -> u8
    ensures { ReportsReply (W.contents out.old) (W.contents out.new) (W.failed out.old) (W.failed out.new) (reply_in reply.now) result }
{
    match read_reply(reply) {
        Reply::Done => messages::done(out, err),
        Reply::Shown(text) => messages::print(text, out, err),
        Reply::Refused(text) => {
            report_text(text, err);
            REFUSED
        }
        Reply::Failed(text) => {
            report_text(text, err);
            FAULT
        }
        Reply::Broken => device(err),
    }
}

fn report_text<E: Write>(text: &[u8], err: &mut E) {
    for part in [b"wgr: ".as_slice(), text, b"\n"] {
        if write_all(err, part).is_err() {
            return;
        }
    }
}

// Sends the words of an order or of a reading, and returns all of the reply.
fn send<N: Network, R: Read>(
    alloc: Global,
    path: &str,
    words: &[&str],
    digest: Option<&str>,
    is_json: bool,
    network: &mut N,
    input: &mut R,
) -> Result<Vec<u8>, SendFault>
    ensures { Sends path.now (map (λ word. word.now) words.now) (option_map (λ text. text.now) digest.entry) is_json (N.log network.old) (N.log network.new) (input_of R.remaining R.failed input.old) (input_of R.remaining R.failed input.new) result }
{
    if !may_be_sent(words, digest, is_json) {
        return Err(SendFault::BadOrder);
    }
    send_whole(alloc, path, words, digest, is_json, network, input)
}

// Sends the words, with the token that they ask for.
fn send_whole<N: Network, R: Read>(
    alloc: Global,
    path: &str,
    words: &[&str],
    digest: Option<&str>,
    is_json: bool,
    network: &mut N,
    input: &mut R,
) -> Result<Vec<u8>, SendFault>
    ensures { SendsWhole path.now (map (λ word. word.now) words.now) (option_map (λ text. text.now) digest.entry) is_json (N.log network.old) (N.log network.new) (input_of R.remaining R.failed input.old) (input_of R.remaining R.failed input.new) result }
{
    if asks_token(words, digest) {
        send_with_token(alloc, path, words, is_json, network, input)
    } else {
        send_words(alloc, path, words, digest, is_json, network)
    }
}

// Whether the order has a token that isn't among the words.
fn asks_token(words: &[&str], digest: Option<&str>) -> bool
    ensures { result ≡ asks_token (map (λ word. word.now) words.now) (option_map (λ text. text.now) digest.entry) }
{
    if digest.is_some() {
        return false;
    }
    match words {
        [word] => *word == "token-end",
        [word, _] | [word, _, _] => *word == "token-grant",
        _ => false,
    }
}

// Sends the words, with the digest and the option after them.
fn send_words<N: Network>(
    alloc: Global,
    path: &str,
    words: &[&str],
    digest: Option<&str>,
    is_json: bool,
    network: &mut N,
) -> Result<Vec<u8>, SendFault>
    ensures { SendsLine path.now (line_words (map (λ word. word.now) words.now) (option_map (λ text. text.now) digest.entry) is_json) (N.log network.old) (N.log network.new) result }
{
    let mut line = Vec::new(alloc);
    line.extend_from_slice(words)?;
    if let Some(digest) = digest {
        line.extend_from_slice(&["--digest", digest])?;
    }
    line.extend_from_slice(option_words(is_json))?;
    exchange(alloc, path, &line, network)
}

// The option that is a line's last word, if it is given.
fn option_words(is_json: bool) -> &'static [&'static str]
    ensures { map (λ word. word.now) result.now ≡ option_words is_json }
{
    if is_json { &["--json"] } else { &[] }
}

// Sends the words, with the token after them that is all of the input.
fn send_with_token<N: Network, R: Read>(
    alloc: Global,
    path: &str,
    words: &[&str],
    is_json: bool,
    network: &mut N,
    input: &mut R,
) -> Result<Vec<u8>, SendFault>
    ensures { SendsToken path.now (map (λ word. word.now) words.now) is_json (N.log network.old) (N.log network.new) (input_of R.remaining R.failed input.old) (input_of R.remaining R.failed input.new) result }
{
    let typed = match read_to_end(alloc, input) {
        Ok(typed) => typed,
        Err(ReadFault::NoMemory) => return Err(SendFault::NoMemory),
        Err(ReadFault::Device) => return Err(SendFault::Device),
    };
    let Some(token) = token_word(&typed) else {
        return Err(SendFault::BadToken);
    };
    send_token(alloc, path, words, token, is_json, network)
}

// Sends the words, with this token after them.
fn send_token<N: Network>(
    alloc: Global,
    path: &str,
    words: &[&str],
    token: &str,
    is_json: bool,
    network: &mut N,
) -> Result<Vec<u8>, SendFault>
    ensures { SendsLine path.now (map (λ word. word.now) words.now ++ token.now ∷ option_words is_json) (N.log network.old) (N.log network.new) result }
{
    let mut line = Vec::new(alloc);
    line.extend_from_slice(words)?;
    line.extend_from_slice(&[token])?;
    line.extend_from_slice(option_words(is_json))?;
    exchange(alloc, path, &line, network)
}

// The text without a newline at its end, if that makes a word of a line.
fn token_word(typed: &[u8]) -> Option<&str>
    ensures some { IfSome result (λ token. (token.now ≡ without_newline typed.now) × (is_line (token.now ∷ []) ≡ true)) }
    ensures none { IfNone result (IsNoWord (without_newline typed.now)) }
{
    let line = match typed.strip_suffix(b"\n".as_slice()) {
        Some(line) => line,
        None => typed,
    };
    let text = str::from_utf8(line).ok()?;
    if !is_line(&[text]) {
        return None;
    }
    Some(text)
}

// Writes the line of these words to the service, and reads its reply.
fn exchange<N: Network>(
    alloc: Global,
    path: &str,
    line: &[&str],
    network: &mut N,
) -> Result<Vec<u8>, SendFault>
    ensures { SendsLine path.now (map (λ word. word.now) line.now) (N.log network.old) (N.log network.new) result }
{
    if !is_line(line) {
        return Err(SendFault::BadOrder);
    }
    let Ok((mut reader, mut writer)) = network.call(path) else {
        return Err(SendFault::Device);
    };
    let reply = ask(alloc, line, &mut reader, &mut writer);
    network.end(reader, writer);
    reply
}

// Writes the line of these words, and reads all that comes back.
fn ask<R: Read, W: Write>(
    alloc: Global,
    line: &[&str],
    input: &mut R,
    out: &mut W,
) -> Result<Vec<u8>, SendFault>
    requires sound { (R.failed input.old ≡ false) × (W.failed out.old ≡ false) }
    ensures ok { IfOk result (λ reply. Appends (W.contents out.old) (W.contents out.new) (line_text (map (λ word. word.now) line.now)) × IfSome (R.remaining input.old) (λ all. reply.items ≡ all)) }
    ensures cut { OnErr result (IsCut (W.contents out.old) (W.contents out.new) (line_text (map (λ word. word.now) line.now))) }
    ensures err { IfErr result (λ why. MayBreak why (R.failed input.new || W.failed out.new)) }
    ensures sound { OnOk result ((R.failed input.new || W.failed out.new) ≡ false) }
{
    if write_line(out, line).is_err() {
        return Err(SendFault::Device);
    }
    match read_to_end(alloc, input) {
        Ok(reply) => Ok(reply),
        Err(ReadFault::NoMemory) => Err(SendFault::NoMemory),
        Err(ReadFault::Device) => Err(SendFault::Device),
    }
}
