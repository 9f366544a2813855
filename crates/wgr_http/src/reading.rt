//! A message from a reader.
ghost use Rattle.std.specs.Prelude.{◌≡◌, ◌<◌, ◌≤◌, ◌+◌, ◌⊎◌, ◌++◌, ℕ, List, Option, true, length, IfOk, IfSome, IfNone, OnOk, OnErr, OnSome};
ghost use Rattle.std.specs.Io.KnownBytes.{Consumes, IsAtEnd};
ghost use Rattle.wgr_io.specs.declared.whole.ReadFault.TheVariants as faults;
ghost use Rattle.wgr_http.specs.Extent.{HasExtent};
ghost use Rattle.wgr_http.specs.Head.{HasNoHead};
ghost use Rattle.wgr_http.specs.Reading.{AnswersAs, IsDecided, IsNoMore, IsReadInTime, IsReadOn};

use crate::head::{MAX_HEAD, extent_of};
use crate::unfinished::may_become_head;
use wgr_io::{Read, ReadFault};

/// How many bytes are requested from a reader at once.
const CHUNK: usize = 16384;

/// Reads bytes into `message`, which is emptied first, until they decide what the message is.
///
/// Afterwards it has a beginning of the reader's bytes, also where a fault is returned. The end of a
/// head isn't known before it is read, so a read may take bytes after the message. A connection has
/// one request, so none of a next one is lost. The head is parsed again after each read: at most 8,193
/// times, for a client that sends single bytes. Bytes that can't become a head aren't read on.
pub fn read_message<R: Read>(input: &mut R, message: &mut Vec<u8>) -> Result<(), ReadFault>
    ensures bytes { Consumes (R.remaining input.old) (R.remaining input.new) message.new.items }
    ensures whole { OnOk result (AnswersAs message.new.items (R.remaining input.old)) }
    ensures no_more { IsNoMore message.new.items }
    // No read is made once the bytes so far decide the answer: a client may keep its side open.
    ensures in_time { IsReadInTime (R.pieces input.old) (R.pieces input.new) message.new.items }
    ensures sound { OnOk result (R.failed input.new ≡ R.failed input.old) }

    ensures no_memory { result ≡ Err faults.NoMemory → R.failed input.new ≡ R.failed input.old }
    ensures device { result ≡ Err faults.Device → R.failed input.new ≡ true }
{
    message.clear();
    let mut chunk = [0; CHUNK];
    match read_head(input, &mut chunk, message)? {
        Some(extent) => read_body(input, &mut chunk, message, extent),
        None => Ok(()),
    }
}

// Reads until there is a head, or none can come. Returns how many bytes the head wants.
fn read_head<R: Read>(
    input: &mut R,
    chunk: &mut [u8],
    message: &mut Vec<u8>,
) -> Result<Option<usize>, ReadFault>
    requires room { 0 < length chunk.old }
    requires short { length message.old.items ≤ 8193 }
    ensures bytes { (start : Option (List ℕ)) → Consumes start (R.remaining input.old) message.old.items
        → Consumes start (R.remaining input.new) message.new.items }
    ensures on { IfOk result (λ found. OnSome found ((start : Option (List (List ℕ))) → IsReadOn start (R.pieces input.old) message.old.items
        → IsReadOn start (R.pieces input.new) message.new.items)) }
    ensures in_time { (start : Option (List (List ℕ))) → IsReadOn start (R.pieces input.old) message.old.items
        → IsReadInTime start (R.pieces input.new) message.new.items }
    ensures some { IfOk result (λ found. IfSome found (HasExtent message.new.items)) }
    ensures none { IfOk result (λ found. IfNone found (HasNoHead message.new.items
        × (IsDecided message.new.items ⊎ IsAtEnd (R.remaining input.new)))) }
    ensures short { length message.new.items ≤ 8193 }
    ensures sound { OnOk result (R.failed input.new ≡ R.failed input.old) }

    ensures no_memory { result ≡ Err faults.NoMemory → R.failed input.new ≡ R.failed input.old }
    ensures device { result ≡ Err faults.Device → R.failed input.new ≡ true }
{
    while message.len() <= MAX_HEAD {
        let extent = extent_of(message);
        if extent.is_some() {
            return Ok(extent);
        }
        if !may_become_head(message) {
            return Ok(None);
        }
        let room = MAX_HEAD + 1 - message.len();
        if read_some(input, chunk, message, room)? == 0 {
            return Ok(None);
        }
    }
    Ok(extent_of(message))
}

// Reads until the message has `extent` bytes, or the input ends.
fn read_body<R: Read>(
    input: &mut R,
    chunk: &mut [u8],
    message: &mut Vec<u8>,
    extent: usize,
) -> Result<(), ReadFault>
    requires room { 0 < length chunk.old }
    requires head { HasExtent message.old.items extent }
    ensures bytes { (start : Option (List ℕ)) → Consumes start (R.remaining input.old) message.old.items
        → Consumes start (R.remaining input.new) message.new.items }
    ensures in_time { (start : Option (List (List ℕ))) → IsReadOn start (R.pieces input.old) message.old.items
        → IsReadInTime start (R.pieces input.new) message.new.items }
    ensures grown { (more : List ℕ) × (message.new.items ≡ message.old.items ++ more) }
    ensures most { length message.old.items < length message.new.items → length message.new.items ≤ extent }
    ensures whole { OnOk result ((extent ≤ length message.new.items) ⊎ IsAtEnd (R.remaining input.new)) }
    ensures sound { OnOk result (R.failed input.new ≡ R.failed input.old) }

    ensures no_memory { result ≡ Err faults.NoMemory → R.failed input.new ≡ R.failed input.old }
    ensures device { result ≡ Err faults.Device → R.failed input.new ≡ true }
{
    while message.len() < extent {
        let room = extent - message.len();
        if read_some(input, chunk, message, room)? == 0 {
            return Ok(());
        }
    }
    Ok(())
}

// Reads at most `most` bytes after those of the message; none only at the end.
//
// Room for them is made before the read, so no byte is lost where memory is refused.
fn read_some<R: Read>(
    input: &mut R,
    chunk: &mut [u8],
    message: &mut Vec<u8>,
    most: usize,
) -> Result<usize, ReadFault>
    requires room { 0 < length chunk.old }
    requires some { 0 < most }
    ensures bytes { (start : Option (List ℕ)) → Consumes start (R.remaining input.old) message.old.items
        → Consumes start (R.remaining input.new) message.new.items }
    ensures in_time { (start : Option (List (List ℕ))) → IsReadOn start (R.pieces input.old) message.old.items → ¬ (IsDecided message.old.items)
        → IsReadInTime start (R.pieces input.new) message.new.items }
    ensures on { IfOk result (λ n. 0 < n → (start : Option (List (List ℕ))) → IsReadOn start (R.pieces input.old) message.old.items → ¬ (IsDecided message.old.items)
        → IsReadOn start (R.pieces input.new) message.new.items) }
    ensures grown { (more : List ℕ) × (message.new.items ≡ message.old.items ++ more) }
    ensures count { IfOk result (λ n. (n ≤ most) × (length message.new.items ≡ length message.old.items + n)) }
    ensures end { IfOk result (λ n. n ≡ 0 → IsAtEnd (R.remaining input.new) × (message.new.items ≡ message.old.items)) }
    ensures kept { OnErr result (message.new.items ≡ message.old.items) }
    ensures chunk { length chunk.new ≡ length chunk.old }
    ensures sound { OnOk result (R.failed input.new ≡ R.failed input.old) }

    ensures no_memory { result ≡ Err faults.NoMemory → R.failed input.new ≡ R.failed input.old }
    ensures device { result ≡ Err faults.Device → R.failed input.new ≡ true }
{
    let room = most.min(chunk.len());
    if message.reserve(room).is_err() {
        return Err(ReadFault::NoMemory);
    }
    match input.read(&mut chunk[..room]) {
        Ok(count) => {
            if message.extend_from_slice(&chunk[..count]).is_err() {
                return Err(ReadFault::NoMemory);
            }
            Ok(count)
        }
        Err(_) => Err(ReadFault::Device),
    }
}
