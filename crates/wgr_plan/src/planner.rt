//! The planner: keys in, addresses out.
ghost use Rattle.std.specs.Prelude.{◌≡◌, ◌++◌, Ok, IfOk, IfErr, OnOk};
ghost use Rattle.wgr_core.specs.Outcome.{outcome_of};
ghost use Rattle.wgr_core.specs.declared.reply.Reply.TheVariants as reply;
ghost use Rattle.wgr_plan.specs.Plan.{AddsLine, IsPlanOf, RefusesKey, joining, plan_network, row_text};
ghost use Rattle.wgr_plan.specs.PlanFault.{HasPlanned};

use crate::row_fault::RowFault;
use std::alloc::{AllocError, Global};
use wgr_core::{
    ActFault, Capacity, Command, Host, Label, LeaseEnd, Network, Peer, PeerView, Pool, Port, Reply,
};
use wgr_io::{Read, ReadFault, Write, read_to_end, write_all};
use wgr_text::{Key, Prefix, TextLines, write_key, write_prefix};

/// Why a plan ended early.
#[derive(Clone, Copy, Debug, PartialEq, Eq)]
pub enum PlanFault {
    /// This line gets no row; the lines before it are written.
    Refused { line: u32, why: RowFault },
    /// Memory ran out, and nothing is written.
    NoMemory,
    /// A read failed, and nothing is written.
    Read,
    /// A write failed, or took no byte, after this many bytes of the output.
    Write { sent: usize },
}

/// Reads one key a line to the end of the input, gives each the lowest free address of the pool,
/// and writes a line for each: its number, the key and its address, separated by tabs.
///
/// All is read before anything is written, so a reader that fails leaves no partial output. The
/// capacity is 4,096 keys.
pub fn plan<R: Read, W: Write>(
    alloc: Global,
    pool: &Pool,
    input: &mut R,
    out: &mut W,
) -> Result<(), PlanFault>
    ensures { HasPlanned pool.now (record { input = R.remaining input.old; read_failed = R.failed input.old; written = W.contents out.old; write_failed = W.failed out.old }) (record { input = R.remaining input.new; read_failed = R.failed input.new; written = W.contents out.new; write_failed = W.failed out.new }) result }
{
    let text = match read_to_end(alloc, input) {
        Ok(text) => text,
        Err(ReadFault::NoMemory) => return Err(PlanFault::NoMemory),
        Err(ReadFault::Device) => return Err(PlanFault::Read),
    };
    let output = match plan_text(alloc, pool, &text) {
        Ok(output) => output,
        Err(_) => return Err(PlanFault::NoMemory),
    };
    if let Err(fault) = write_all(out, &output.printed) {
        return Err(PlanFault::Write { sent: fault.sent });
    }
    match output.refused {
        None => Ok(()),
        Some((line, why)) => Err(PlanFault::Refused { line, why }),
    }
}

/// The lines that are printed, and the number of the first refused line and why it is refused.
#[derive(Drop)]
struct Output {
    printed: Vec<u8>,
    refused: Option<(u32, RowFault)>,
}

// The plan of a text.
fn plan_text(alloc: Global, pool: &Pool, text: &[u8]) -> Result<Output, AllocError>
    ensures { IfOk result (λ p. IsPlanOf pool.now text.now (record { printed = p.printed.items; refused = p.refused })) }
{
    let mut network = empty_network(alloc, *pool)?;
    let mut printed = Vec::new(alloc);
    for line in TextLines::new(text) {
        if let Some(refusal) = add_line(alloc, &mut network, line, &mut printed)? {
            // Each line before has made a peer, so the next number is this line's.
            let refused = Some((network.next(), refusal));
            return Ok(Output { printed, refused });
        }
    }
    Ok(Output {
        printed,
        refused: None,
    })
}

// The network that a plan begins with. Its endpoint has no effect on what is printed. Its server key is
// one that no computation of a public key gives (RFC 7748 section 5); a line with it is refused.
fn empty_network(alloc: Global, pool: Pool) -> Result<Network, AllocError>
    ensures { IfOk result (λ n. n ≡ plan_network pool) }
{
    let Some(host) = Host::read(alloc, b"localhost")? else {
        unreachable!();
    };
    let (Some(port), Some(capacity)) = (Port::new(51820), Capacity::new(4096)) else {
        unreachable!();
    };
    Ok(Network::new(alloc, pool, host, port, Key([0xff; 32]), capacity))
}

// The peer of a line's key joins, and its row is printed; or the line is refused.
fn add_line(
    alloc: Global,
    network: &mut Network,
    line: &[u8],
    printed: &mut Vec<u8>,
) -> Result<Option<RowFault>, AllocError>
    ensures { IfOk result (AddsLine network.old line.now printed.old.items network.new printed.new.items) }
{
    let Some(key) = Key::read(line) else {
        return Ok(Some(RowFault::NoKey));
    };
    match join(alloc, network, key) {
        Ok(view) => {
            write_row(&view.peer, printed)?;
            Ok(None)
        }
        Err(ActFault::Refused(why)) => Ok(Some(RowFault::Refused(why))),
        Err(ActFault::NoMemory) => Err(AllocError),
    }
}

// A peer with this key joins at the lowest free address.
fn join(alloc: Global, network: &mut Network, key: Key) -> Result<PeerView, ActFault>
    ensures joined { IfOk result (λ view. outcome_of network.old 0 (joining key) ≡ Ok (reply.Peer view, network.new)) }
    ensures refused { IfErr result (RefusesKey network.old key network.new) }
{
    let command = Command::Add {
        key,
        label: Label::empty(alloc),
        address: None,
        until: LeaseEnd::never(),
        keepalive: 0,
    };
    let (reply, change) = network.act(alloc, 0, &command)?;
    if let Some(change) = change {
        network.apply(alloc, change)?;
    }
    match reply {
        Reply::Peer(view) => Ok(view),
        _ => unreachable!(),
    }
}

// Appends the peer's number, key and address.
fn write_row(peer: &Peer, out: &mut Vec<u8>) -> Result<(), AllocError>
    ensures { OnOk result (out.new.items ≡ out.old.items ++ row_text peer.now) }
{
    let number = peer.number.to_string(*out.allocator())?;
    out.extend_from_slice(number.as_bytes())?;
    out.extend_from_slice(b"\t")?;
    write_key(&peer.key, out)?;
    out.extend_from_slice(b"\t")?;
    write_prefix(&Prefix::full(peer.address), out)?;
    out.extend_from_slice(b"\n")
}
