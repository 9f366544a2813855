//! What a message asks of the register, by its bytes alone.
ghost use Rattle.std.specs.Prelude.{◌≡◌, IfOk, bytes_eq, codes, option_and_then, option_map};
ghost use Rattle.wgr_request.specs.Bodies.{ReadsAs};
ghost use Rattle.wgr_request.specs.Commands.{IsPeers};
ghost use Rattle.wgr_request.specs.Digest.{digest_of};
ghost use Rattle.wgr_request.specs.Request.{Asks, IsOn, MessageAsks, Requests, message_view, request_view};
ghost use Rattle.wgr_request.specs.Target.{target_view};

use crate::bodies::{BodyFault, read_add, read_move, read_renew, read_route, read_unroute};
use crate::commands::{read_adoption, read_owner};
use crate::digest::token_digest;
use crate::fault::RequestFault;
use crate::paths::Paths;
use crate::target::Target;
use std::alloc::{AllocError, Global};
use wgr_core::Command;
use wgr_http::Message;

/// What a message asks.
#[derive(Drop)]
pub enum Request<'a> {
    /// Its bytes alone refuse it. The digest is its token's, where it is a message and has one.
    Refused {
        why: RequestFault,
        digest: Option<[u8; 32]>,
    },
    /// The networks of the tenant that has the token of this digest.
    Networks {
        digest: [u8; 32],
    },
    /// A command on the network of this name, which is any text without `/`, of that tenant.
    Ask {
        digest: [u8; 32],
        name: &'a [u8],
        command: Command,
    },
}

/// What the message at the front of the bytes asks. The first check that fails decides why it is
/// refused: those of the message, its path, its method, its token, and then its address or body.
pub fn request_of<'a>(
    alloc: Global,
    paths: &Paths,
    bytes: &'a [u8],
) -> Result<Request<'a>, AllocError>
    ensures { IfOk result (λ r. Requests bytes.now (request_view r)) }
{
    match Message::read(bytes) {
        Ok(message) => of_message(alloc, paths, message),
        Err(fault) => Ok(Request::Refused {
            why: RequestFault::Message(fault),
            digest: None,
        }),
    }
}

// What a message asks: its path and its method are checked before its token.
fn of_message<'a>(
    alloc: Global,
    paths: &Paths,
    message: Message<'a>,
) -> Result<Request<'a>, AllocError>
    ensures { IfOk result (λ r. MessageAsks (message_view message.entry) (request_view r)) }
{
    let digest = digest_given(message.token);
    let target = match paths.resolve(message.method, message.target) {
        Ok(target) => target,
        Err(why) => return Ok(Request::Refused { why, digest }),
    };
    match digest {
        Some(digest) => asked(alloc, target, message, digest),
        None => Ok(Request::Refused {
            why: RequestFault::UnknownToken,
            digest: None,
        }),
    }
}

// The digest of the token that a message has.
fn digest_given(token: Option<&[u8]>) -> Option<[u8; 32]>
    ensures { result ≡ option_and_then digest_of (option_map (λ t. t.now) token.entry) }
{
    token_digest(token?)
}

// What is asked with a token, by the target, the method and the body.
fn asked<'a>(
    alloc: Global,
    target: Target<'a>,
    message: Message<'a>,
    digest: [u8; 32],
) -> Result<Request<'a>, AllocError>
    ensures { IfOk result (λ r. Asks digest (target_view target.entry) (message_view message.entry) (request_view r)) }
{
    let body = message.body;
    match target {
        Target::Networks => Ok(Request::Networks { digest }),
        Target::Peers(name) => on_network(digest, name, read_peers(alloc, message.method, body)),
        Target::Peer(name, number) => on_network(digest, name, Ok(Command::Revoke { number })),
        Target::Address(name, number) => on_network(digest, name, read_move(alloc, number, body)),
        Target::Routes(name, number) => on_network(digest, name, read_route(alloc, number, body)),
        Target::Lease(name, number) => on_network(digest, name, read_renew(alloc, number, body)),
        Target::PeerFile(name, number, form) => {
            on_network(digest, name, Ok(Command::PeerFile { number, form }))
        }
        Target::Unroute(name) => on_network(digest, name, read_unroute(alloc, body)),
        Target::Dump(name) => on_network(digest, name, read_adoption(alloc, body)),
        Target::Owner(name, address) => on_network(digest, name, read_owner(address.as_bytes())),
        Target::ServerFile(name, form) => {
            on_network(digest, name, Ok(Command::ServerFile { form }))
        }
    }
}

// The command on the peers of a network: POST adds the one of the body, GET lists all.
fn read_peers(alloc: Global, method: &[u8], body: &[u8]) -> Result<Command, BodyFault>
    ensures { ReadsAs (IsPeers (bytes_eq method.now (codes "POST")) body.now) result }
{
    if method == b"POST".as_slice() {
        read_add(alloc, body)
    } else {
        Ok(Command::List)
    }
}

// The request of a command, or of why there is none.
fn on_network<'a>(
    digest: [u8; 32],
    name: &'a str,
    command: Result<Command, BodyFault>,
) -> Result<Request<'a>, AllocError>
    ensures { IfOk result (λ r. IsOn digest name.now command (request_view r)) }
{
    match command {
        Ok(command) => Ok(Request::Ask {
            digest,
            name: name.as_bytes(),
            command,
        }),
        Err(BodyFault::Refused(why)) => Ok(Request::Refused {
            why,
            digest: Some(digest),
        }),
        Err(BodyFault::NoMemory) => Err(AllocError),
    }
}
