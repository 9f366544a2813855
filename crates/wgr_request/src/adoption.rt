//! A dump as the command that adopts it.
ghost use Rattle.std.specs.Prelude.{◌≡◌, IfOk};
ghost use Rattle.wgr_request.specs.Adopting.{adoption_asked, seen_peer};

use std::alloc::{AllocError, Global};
use wgr_core::{Command, Items, SeenPeer, Status};
use wgr_dump::{Dump, PeerLine};

/// The command by which a network takes over the peers that the dump shows.
pub fn adoption_of(alloc: Global, dump: &Dump<'_>) -> Result<Command, AllocError>
    ensures { IfOk result (λ command. command ≡ adoption_asked dump.now) }
{
    let mut lines = Vec::new(alloc);
    for line in dump.lines() {
        lines.push(seen_peer(alloc, &line)?)?;
    }
    Ok(Command::Adopt {
        server: dump.interface().public_key(),
        lines: Items::of(lines),
    })
}

// The peer of a line.
fn seen_peer(alloc: Global, line: &PeerLine<'_>) -> Result<SeenPeer, AllocError>
    ensures { IfOk result (λ peer. peer ≡ seen_peer line.now) }
{
    Ok(SeenPeer {
        key: line.key(),
        allowed: Items::of(line.allowed().collect(alloc)?),
        status: Status {
            handshake: line.handshake().value(),
            received: line.received().value(),
            sent: line.sent().value(),
        },
        keepalive: line.keepalive(),
    })
}
