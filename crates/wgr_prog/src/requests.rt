//! Requests in files.
ghost use Rattle.std.specs.Prelude.{IfErr, IfOk, length};
ghost use Rattle.wgr_prog.specs.Answering.{AreAskedAt, IsNoField};

use std::fs::File;
use wgr_io::{Device, ReadFault, read_to_end};
use wgr_office::Event;
use wgr_words::WordFault;

/// The request in each of these files, all at this moment.
pub(crate) fn read_requests(
    rt: &HostRuntime,
    now: u64,
    files: &[&str],
) -> Result<Vec<Event>, WordFault>
    ensures ok { IfOk result (λ events. AreAskedAt now (length files.now) events.items) }
    ensures err { IfErr result IsNoField }
{
    let mut requests = Vec::with_capacity(rt.alloc(), files.len())?;
    for file in files {
        let bytes = read_file(rt, file)?;
        if requests.push(Event::Ask { now, bytes }).is_err() {
            return Err(WordFault::NoMemory);
        }
    }
    Ok(requests)
}

/// All bytes of a file.
pub(crate) fn read_file(rt: &HostRuntime, path: &str) -> Result<Vec<u8>, WordFault>
    ensures err { IfErr result IsNoField }
{
    let Ok(file) = File::open(rt, path) else {
        return Err(WordFault::Device);
    };
    match read_to_end(rt.alloc(), &mut Device::new(file)) {
        Ok(bytes) => Ok(bytes),
        Err(ReadFault::NoMemory) => Err(WordFault::NoMemory),
        Err(ReadFault::Device) => Err(WordFault::Device),
    }
}
