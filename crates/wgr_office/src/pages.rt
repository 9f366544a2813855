//! Replies to accepted requests.
ghost use Rattle.std.specs.Prelude.{◌≡◌, IfOk};
ghost use Rattle.wgr_office.specs.Pages.{page};
ghost use Rattle.wgr_register.specs.Given.{OfReply};
ghost use Rattle.wgr_reply.specs.Response.{response_bytes};

use std::alloc::{AllocError, Global};
use wgr_core::Reply;
use wgr_register::{Given, Render};
use wgr_reply::{HttpReply, Response, write_response};

/// Makes the whole reply to an accepted request.
pub(crate) struct Pages;

impl Render for Pages {
    ghost shown = { λ given. page given };

    fn given(&self, alloc: Global, given: Given<'_>) -> Result<Vec<u8>, AllocError> {
        match given {
            Given::Reply(reply) => write_page(alloc, reply),
            Given::File(file) => write_bytes(alloc, Response::File(file)),
            Given::Networks(networks) => write_bytes(alloc, Response::Networks(networks)),
        }
    }
}

// The reply to a command. If the command's answer allows a file, the reply is that file.
fn write_page(alloc: Global, reply: &Reply) -> Result<Vec<u8>, AllocError>
    ensures { IfOk result (λ bytes. bytes.items ≡ page (OfReply reply.now)) }
{
    match reply {
        Reply::Peer(peer) => write_bytes(alloc, Response::Peer(peer)),
        Reply::Revoked(number) => write_bytes(alloc, Response::Revoked(*number)),
        Reply::List(peers) => write_bytes(alloc, Response::Peers(peers.as_slice())),
        Reply::Owner(number) => write_bytes(alloc, Response::Owner(*number)),
        Reply::Adopted { added, known } => write_bytes(
            alloc,
            Response::Adopted {
                added: added.as_slice(),
                known: *known,
            },
        ),
        Reply::Server(_) | Reply::File { .. } => write_bytes(alloc, Response::File(b"")),
    }
}

// The bytes of a reply.
fn write_bytes(alloc: Global, response: Response<'_>) -> Result<Vec<u8>, AllocError>
    ensures { IfOk result (λ bytes. bytes.items ≡ response_bytes response.entry) }
{
    let HttpReply { bytes, .. } = write_response(alloc, response)?;
    Ok(bytes)
}
