//! The first line of an input.
ghost use Rattle.std.specs.Prelude.{◌≡◌, IfOk, IfSome, List, OnOk, Vec, option_map, true, ℕ};
ghost use Rattle.std.specs.List.{concat};
ghost use Rattle.wgr_io.specs.Device.{AddsPieces};
ghost use Rattle.wgr_words.specs.Line.{EndAtNewline, before_newline, first_line};

use crate::line::LINE_MOST;
use std::alloc::Global;
use wgr_io::{Read, ReadFault};
use wgr_text::newline;

/// The first line without its newline, if the first 4,096 bytes have one.
///
/// What follows the line is lost where a read took it too.
pub fn read_first_line<R: Read>(alloc: Global, input: &mut R) -> Result<Option<Vec<u8>>, ReadFault>
    ensures line { IfOk result (λ line. IfSome (R.remaining input.old) (λ all. option_map (λ l. l.items) line ≡ first_line all)) }
    // No read is made after one that returned nothing or a newline.
    ensures pieces { (pieces : List (List ℕ)) × AddsPieces (R.pieces input.old) (R.pieces input.new) pieces × EndAtNewline pieces
        × IfOk result (λ line. option_map (λ l. l.items) line ≡ first_line (concat pieces)) }
    ensures sound { OnOk result (R.failed input.new ≡ R.failed input.old) }

    ensures no_memory { result ≡ Err ReadFault.NoMemory → R.failed input.new ≡ R.failed input.old }
    ensures device { result ≡ Err ReadFault.Device → R.failed input.new ≡ true }
{
    let mut front = [0; LINE_MOST];
    let mut len = 0;
    while len < LINE_MOST {
        match input.read(&mut front[len..]) {
            Ok(0) => return Ok(None),
            Ok(count) => len += count,
            Err(_) => return Err(ReadFault::Device),
        }
        if let Some(line) = before_newline(&front[..len]) {
            return match line.to_vec(alloc) {
                Ok(line) => Ok(Some(line)),
                Err(_) => Err(ReadFault::NoMemory),
            };
        }
    }
    Ok(None)
}

// What stands before the first newline.
fn before_newline(text: &[u8]) -> Option<&[u8]>
    ensures { option_map (λ line. line.now) result ≡ before_newline text.now }
{
    match newline(text) {
        Some(end) => Some(&text[..end]),
        None => None,
    }
}
