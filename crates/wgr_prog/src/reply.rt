//! The reply of a running service to an order or a reading.
ghost use Rattle.std.specs.Prelude.{◌≡◌, ◌++◌, codes, decimal, option_map, IfSome};
ghost use Rattle.std.specs.Str.{bytes_eq};
ghost use Rattle.wgr_prog.specs.Reply.{alone, behind_newline, meant_reply, reply_in, reply_of};
ghost use Rattle.wgr_words.specs.Line.{before_newline};

use itoa::Buffer;
use wgr_text::newline;

/// What a service answered.
#[derive(Clone, Copy)]
pub(crate) enum Reply<'a> {
    /// The order is done, or the copy made.
    Done,
    /// The text of a reading.
    Shown(&'a [u8]),
    /// Why the register or the service refused it.
    Refused(&'a [u8]),
    /// What failed.
    Failed(&'a [u8]),
    /// It isn't whole, or isn't a service's.
    Broken,
}

/// What all bytes that came back mean.
pub(crate) fn read_reply(all: &[u8]) -> Reply<'_>
    ensures { meant_reply result ≡ reply_in all.now }
{
    match split_line(all) {
        Some((line, rest)) => reply_of(line, rest),
        None => Reply::Broken,
    }
}

// The first line without its newline, and what follows it.
fn split_line(all: &[u8]) -> Option<(&[u8], &[u8])>
    ensures line { option_map (λ parts. parts.0.now) result ≡ before_newline all.now }
    ensures rest { IfSome result (λ parts. parts.1.now ≡ behind_newline all.now) }
{
    match newline(all) {
        Some(end) => Some((&all[..end], &all[end + 1..])),
        None => None,
    }
}

fn reply_of<'a>(line: &'a [u8], rest: &'a [u8]) -> Reply<'a>
    ensures { meant_reply result ≡ reply_of line.now rest.now }
{
    if is_length(line, rest.len()) {
        return Reply::Shown(rest);
    }
    if !rest.is_empty() {
        return Reply::Broken;
    }
    alone(line)
}

// Whether the line is `0` and this number.
fn is_length(line: &[u8], length: usize) -> bool
    ensures { result ≡ bytes_eq line.now (codes "0 " ++ decimal length) }
{
    let mut buffer = Buffer::new();
    match line.strip_prefix(b"0 ".as_slice()) {
        Some(digits) => digits == buffer.format(length).as_bytes(),
        None => false,
    }
}

// A reply of one line.
fn alone(line: &[u8]) -> Reply<'_>
    ensures { meant_reply result ≡ alone line.now }
{
    if line == b"0 done".as_slice() {
        return Reply::Done;
    }
    match line {
        [b'1', b' ', text @ ..] => Reply::Failed(text),
        [b'2', b' ', text @ ..] => Reply::Refused(text),
        _ => Reply::Broken,
    }
}
