//! Whether bytes that aren't a whole head may still become one.
ghost use Rattle.std.specs.Prelude.{◌≡◌, length, take, true, false, option_map, OnSome, IfSome, IsSomeAnd};
ghost use Rattle.wgr_http.specs.Head.{IsRefused, MayBecomeHead};
ghost use Rattle.wgr_http.specs.Text.{MayBecomeText, NeverBecomesText};
ghost use Rattle.wgr_http.specs.Unfinished.{after_space, begun_lines, open_target};

use crate::head::{MAX_HEADERS, front_of};
use crate::text::may_become_text;
use httparse::Status;
use httparse::spans::{EMPTY_HEADER_SPAN, parse_request};

/// Whether bytes can follow that make the first 8,192 of these a head of at most 32 fields, whatever
/// its length.
///
/// `httparse` says so but for two cases: it counts a field when its line ends, and it looks at a
/// target's UTF-8 when the target ends.
pub(crate) fn may_become_head(bytes: &[u8]) -> bool
    ensures may { result ≡ true → MayBecomeHead (take 8192 bytes.now) }
    ensures never { result ≡ false → IsRefused bytes.now }
{
    let front = front_of(bytes);
    let mut headers = [EMPTY_HEADER_SPAN; MAX_HEADERS];
    match parse_request(front, &mut headers) {
        Ok(Status::Complete(_)) => true,
        Ok(Status::Partial) => lines_begun(front) <= MAX_HEADERS + 1 && target_may_end(front),
        Err(_) => false,
    }
}

// How many lines have begun, that of the request among them; not those that are empty.
fn lines_begun(front: &[u8]) -> usize
    ensures { result ≡ begun_lines true front.now }
{
    let mut count = 0;
    let mut fresh = true;
    for byte in front {
        match *byte {
            b'\n' => fresh = true,
            b'\r' => {}
            _ => {
                count += usize::from(fresh);
                fresh = false;
            }
        }
    }
    count
}

// Whether a target that hasn't ended may become UTF-8.
fn target_may_end(front: &[u8]) -> bool
    ensures may { result ≡ true → IfSome (open_target front.now) MayBecomeText }
    ensures never { result ≡ false → IsSomeAnd (open_target front.now) NeverBecomesText }
{
    match open_target(front) {
        Some(target) => may_become_text(target),
        None => true,
    }
}

// The target so far, where no space has ended it.
fn open_target(front: &[u8]) -> Option<&[u8]>
    ensures { option_map (λ target. target.now) result ≡ open_target front.now }
{
    let target = after_space(front)?;
    match after_space(target) {
        Some(_) => None,
        None => Some(target),
    }
}

// What comes after the first space.
fn after_space(bytes: &[u8]) -> Option<&[u8]>
    ensures { option_map (λ rest. rest.now) result ≡ after_space bytes.now }
{
    let mut rest = bytes;
    while let Some((first, more)) = rest.split_first() {
        if *first == b' ' {
            return Some(more);
        }
        rest = more;
    }
    None
}
