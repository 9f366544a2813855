//! Readers and writers of std that are slow, are interrupted, or fail in mid-stream.
use crate::{Device, Read, ReadFault, Write, read_to_end, write_all};
use std::io;

/// How many calls one byte takes: two are interrupted.
const CALLS: usize = 3;

/// Gives its bytes one at a time, each after two interruptions; the call of number `fails_at` fails.
#[derive(Drop)]
struct Slow<'a> {
    bytes: &'a [u8],
    calls: usize,
    fails_at: usize,
    kind: io::ErrorKind,
}

impl<'a> io::Read for Slow<'a> {
    fn read(&mut self, buf: &mut [u8]) -> io::Result<usize> {
        self.calls = self.calls.saturating_add(1);
        if self.calls == self.fails_at {
            return Err(io::Error::from(self.kind));
        }
        if self.calls % CALLS != 0 {
            return Err(io::Error::from(io::ErrorKind::Interrupted));
        }
        let Some((first, rest)) = self.bytes.split_first() else {
            return Ok(0);
        };
        if buf.is_empty() {
            return Ok(0);
        }
        buf[0] = *first;
        self.bytes = rest;
        Ok(1)
    }
}

/// What a sink does at its call of number `fails_at`.
#[derive(Clone, Copy)]
enum Trouble {
    Fails(io::ErrorKind),
    TakesNone,
}

/// Takes one byte at a time, each after two interruptions, until its fault.
#[derive(Drop)]
struct Narrow {
    taken: Vec<u8>,
    calls: usize,
    fails_at: usize,
    trouble: Trouble,
}

impl io::Write for Narrow {
    fn write(&mut self, buf: &[u8]) -> io::Result<usize> {
        self.calls = self.calls.saturating_add(1);
        if self.calls == self.fails_at {
            return match self.trouble {
                Trouble::Fails(kind) => Err(io::Error::from(kind)),
                Trouble::TakesNone => Ok(0),
            };
        }
        if self.calls % CALLS != 0 {
            return Err(io::Error::from(io::ErrorKind::Interrupted));
        }
        let Some(first) = buf.first() else {
            return Ok(0);
        };
        self.taken.push(*first)?;
        Ok(1)
    }

    fn flush(&mut self) -> io::Result<()> {
        Ok(())
    }
}

const TEXT: &[u8] = b"10.8.0.2/32\n";

/// Errors that are failures; an interruption is not one.
const FAILURES: [io::ErrorKind; 2] = [io::ErrorKind::Other, io::ErrorKind::WouldBlock];

#[test]
fn all_is_read_or_the_failure_is_told(rt: HostRuntime) -> io::Result<()> {
    for kind in FAILURES {
        for fails_at in 0..42usize {
            let mut input = Device::new(Slow {
                bytes: TEXT,
                calls: 0,
                fails_at,
                kind,
            });
            match read_to_end(rt.alloc(), &mut input) {
                Ok(all) => {
                    assert!(rt; fails_at == 0 || fails_at > 39, "{fails_at}");
                    assert_eq!(rt; all.as_slice(), TEXT);
                    assert!(rt; !input.failed);
                }
                Err(fault) => {
                    assert_eq!(rt; fault, ReadFault::Device);
                    assert!(rt; fails_at != 0 && fails_at <= 39, "{fails_at}");
                    assert!(rt; input.failed);
                }
            }
        }
    }
    Ok(())
}

#[test]
fn many_bytes_are_read(rt: HostRuntime) -> io::Result<()> {
    let text = vec![in rt.alloc(); b'x'; 5_242_880]?;
    let mut input = Device::new(text.as_slice());
    match read_to_end(rt.alloc(), &mut input) {
        Ok(all) => assert!(rt; all == text),
        Err(fault) => assert!(rt; false, "{fault:?}"),
    }
    Ok(())
}

#[test]
fn all_is_written_or_the_beginning_is_told(rt: HostRuntime) -> io::Result<()> {
    let troubles = [
        Trouble::Fails(io::ErrorKind::Other),
        Trouble::Fails(io::ErrorKind::WouldBlock),
        Trouble::TakesNone,
    ];
    for trouble in troubles {
        for fails_at in 0..39usize {
            let mut out = Device::new(Narrow {
                taken: Vec::new(rt.alloc()),
                calls: 0,
                fails_at,
                trouble,
            });
            match write_all(&mut out, TEXT) {
                Ok(()) => {
                    assert!(rt; fails_at == 0 || fails_at > 36, "{fails_at}");
                    assert_eq!(rt; out.inner.taken.as_slice(), TEXT);
                    assert!(rt; !out.failed);
                }
                Err(fault) => {
                    assert_eq!(rt; fault.sent, fails_at.saturating_sub(1) / CALLS);
                    assert_eq!(rt; out.inner.taken.as_slice(), &TEXT[..fault.sent]);
                    assert!(rt; out.failed);
                }
            }
        }
    }
    Ok(())
}
