//! The two traits, and their implementation for std's readers and writers.
ghost use Rattle.std.specs.Prelude.{List, [], ◌∷◌, Option, None, Bool, length, false, ℕ, ◌≡◌};
ghost use Rattle.std.specs.Io.{ReadsAtMost};
ghost use Rattle.std.specs.Io.KnownBytes.{ReadConsumes, WriteAppends};
ghost use Rattle.wgr_io.specs.Device.{AddsPieces, MarksError, TakesSome, piece_of};

use std::io;

/// A read or a write failed.
#[derive(Clone, Copy, Debug, PartialEq, Eq)]
pub struct DeviceError;

/// A source of bytes that records whether a read has failed.
pub trait Read {
    /// The remaining bytes, where they are known.
    ghost remaining: { Self → Option (List ℕ) };
    /// What each call so far returned, the newest last, where it is known: nothing, if it failed.
    ghost pieces: { Self → Option (List (List ℕ)) };
    /// Whether a read has failed.
    ghost failed: { Self → Bool };

    /// Reads the next bytes to the front of `buf`. It returns none only at the end, or if `buf` is empty.
    fn read(&mut self, buf: &mut [u8]) -> Result<usize, DeviceError>
        ensures within { ReadsAtMost result buf.new }
        ensures bytes { ReadConsumes (remaining self.old) (remaining self.new) result buf.new }
        ensures piece { AddsPieces (pieces self.old) (pieces self.new) (piece_of result buf.new ∷ []) }
        ensures marked { MarksError (failed self.old) (failed self.new) result };
}

/// A sink of bytes that records whether a write has failed.
pub trait Write {
    /// The bytes that were written, where they are known.
    ghost contents: { Self → Option (List ℕ) };
    /// Whether a write has failed.
    ghost failed: { Self → Bool };

    /// Writes bytes from the front of `buf`. Taking none of a non-empty `buf` is a failure.
    fn write(&mut self, buf: &[u8]) -> Result<usize, DeviceError>
        ensures within { TakesSome result (length buf.now) }
        ensures bytes { WriteAppends (contents self.old) (contents self.new) result buf.now }
        ensures marked { MarksError (failed self.old) (failed self.new) result };
}

/// A reader or a writer of std, and whether it has failed.
///
/// A call that a signal interrupted is retried, and is not a failure.
#[derive(Drop)]
pub struct Device<D> {
    pub inner: D,
    pub failed: bool,
}

impl<D> Device<D> {
    /// A device that has not failed.
    pub fn new(inner: D) -> Device<D>
        ensures inner { result.inner ≡ inner }
        ensures sound { result.failed ≡ false }
    {
        Device {
            inner,
            failed: false,
        }
    }
}

impl<R: io::Read> Read for Device<R> {
    ghost remaining = { λ d. R.remaining d.inner };

    // Std keeps no record of its calls.
    ghost pieces = { λ d. None };

    ghost failed = { λ d. d.failed };

    fn read(&mut self, buf: &mut [u8]) -> Result<usize, DeviceError> {
        for _ in 0..u64::MAX {
            match self.inner.read(buf) {
                Ok(count) => return Ok(count),
                Err(error) => {
                    if error.kind() != io::ErrorKind::Interrupted {
                        break;
                    }
                }
            }
        }
        self.failed = true;
        Err(DeviceError)
    }
}

impl<W: io::Write> Write for Device<W> {
    ghost contents = { λ d. W.contents d.inner };

    ghost failed = { λ d. d.failed };

    fn write(&mut self, buf: &[u8]) -> Result<usize, DeviceError> {
        for _ in 0..u64::MAX {
            match self.inner.write(buf) {
                Ok(0) if !buf.is_empty() => break,
                Ok(count) => return Ok(count),
                Err(error) => {
                    if error.kind() != io::ErrorKind::Interrupted {
                        break;
                    }
                }
            }
        }
        self.failed = true;
        Err(DeviceError)
    }
}
