//! Reading to the end, and writing all.
ghost use Rattle.std.specs.Prelude.{◌≡◌, ◌<◌, ℕ, List, true, length, take, IfOk, IfErr, OnOk, OnErr};
ghost use Rattle.std.specs.Io.KnownBytes.{Appends, Consumes, IsAtEnd};
ghost use Rattle.std.specs.List.{concat};
ghost use Rattle.wgr_io.specs.Device.{AddsPieces, EndAtNothing};

use super::{Read, Write};
use std::alloc::Global;

/// How many bytes are requested from a reader at once.
const CHUNK: usize = 32768;

/// Why not all was read.
#[derive(Clone, Copy, Debug, PartialEq, Eq)]
pub enum ReadFault {
    NoMemory,
    Device,
}

/// Why not all was written: the device failed after the first `sent` bytes.
#[derive(Clone, Copy, Debug, PartialEq, Eq)]
pub struct WriteFault {
    pub sent: usize,
}

/// All the remaining bytes.
pub fn read_to_end<R: Read>(alloc: Global, input: &mut R) -> Result<Vec<u8>, ReadFault>
    // At the end nothing is left, so these are all the bytes of a reader that knows them.
    ensures bytes { IfOk result (λ v. Consumes (R.remaining input.old) (R.remaining input.new) v.items) }
    ensures end { OnOk result (IsAtEnd (R.remaining input.new)) }
    // No read is made after one that returned nothing.
    ensures pieces { (pieces : List (List ℕ)) × AddsPieces (R.pieces input.old) (R.pieces input.new) pieces × EndAtNothing pieces × IfOk result (λ v. v.items ≡ concat pieces) }
    ensures sound { OnOk result (R.failed input.new ≡ R.failed input.old) }

    ensures no_memory { result ≡ Err ReadFault.NoMemory → R.failed input.new ≡ R.failed input.old }
    ensures device { result ≡ Err ReadFault.Device → R.failed input.new ≡ true }
{
    let mut all = Vec::new(alloc);
    let mut chunk = [0; CHUNK];
    for _ in 0..u64::MAX {
        match input.read(&mut chunk) {
            Ok(0) => return Ok(all),
            Ok(count) => {
                if all.extend_from_slice(&chunk[..count]).is_err() {
                    return Err(ReadFault::NoMemory);
                }
            }
            Err(_) => return Err(ReadFault::Device),
        }
    }
    // Each iteration took a byte, and no vector holds so many.
    unreachable!()
}

/// Writes all of `bytes`, or as many of the first ones as the error reports.
pub fn write_all<W: Write>(out: &mut W, bytes: &[u8]) -> Result<(), WriteFault>
    ensures ok { OnOk result (Appends (W.contents out.old) (W.contents out.new) bytes.now) }
    ensures sound { OnOk result (W.failed out.new ≡ W.failed out.old) }

    ensures sent { IfErr result (λ fault.
        Appends (W.contents out.old) (W.contents out.new) (take fault.sent bytes.now)) }
    ensures within { IfErr result (λ fault. fault.sent < length bytes.now) }
    ensures failed { OnErr result (W.failed out.new ≡ true) }
{
    let mut sent = 0;
    while sent < bytes.len() {
        match out.write(&bytes[sent..]) {
            Ok(count) => sent += count,
            Err(_) => return Err(WriteFault { sent }),
        }
    }
    Ok(())
}
