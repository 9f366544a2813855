//! What is rendered of an answer before it is committed.
ghost use Rattle.std.specs.Prelude.{◌≡◌, List, ℕ, true, is_some, option_map, Some, IfOk};
ghost use Rattle.wgr_core.specs.Network.{NetworkValue};
ghost use Rattle.wgr_rows.specs.Act.{is_plain};
ghost use Rattle.wgr_register.specs.Given.{GivenValue, given_view, reply_given};

use std::alloc::{AllocError, Global};
use wgr_conf::{peer_file, server_file};
use wgr_core::{Name, Network, Reply};

/// What an accepted request gives.
#[derive(Clone, Copy)]
pub enum Given<'a> {
    /// What a command replies. Where it allows a file, the file is given.
    Reply(&'a Reply),
    /// The text of a configuration file.
    File(&'a [u8]),
    /// A tenant's networks in the order of their names, as they were added: without peers, and with
    /// the first number next.
    Networks(&'a [(Name, Network)]),
}

/// Makes the text of what is given. It is called before the commit, so lack of memory for it changes no row.
pub trait Render {
    ghost shown: { GivenValue → List ℕ };

    /// The text.
    fn given(&self, alloc: Global, given: Given<'_>) -> Result<Vec<u8>, AllocError>
        ensures { IfOk result (λ text. text.items ≡ shown (given_view given.entry)) };
}

// The text of a reply that allows no file.
pub(crate) fn render_plain<R: Render>(
    alloc: Global,
    render: &R,
    reply: &Reply,
) -> Result<Vec<u8>, AllocError>
    requires { is_plain reply.now ≡ true }
    ensures { IfOk result (λ text. (now : ℕ) (n : NetworkValue) → option_map R.shown (reply_given now n reply.now) ≡ Some text.items) }
{
    render.given(alloc, Given::Reply(reply))
}

// The text of a command's reply on a network.
pub(crate) fn render_reply<R: Render>(
    alloc: Global,
    render: &R,
    network: &Network,
    now: u64,
    reply: &Reply,
) -> Result<Vec<u8>, AllocError>
    requires { is_some (reply_given now network.now reply.now) ≡ true }
    ensures { IfOk result (λ text. option_map R.shown (reply_given now network.now reply.now) ≡ Some text.items) }
{
    match reply {
        Reply::Server(form) => {
            let file = server_file(alloc, network, now, *form)?;
            render.given(alloc, Given::File(&file))
        }
        Reply::File { number, form } => {
            let Some(file) = peer_file(alloc, network, now, *number, *form)? else {
                unreachable!();
            };
            render.given(alloc, Given::File(&file))
        }
        _ => render.given(alloc, Given::Reply(reply)),
    }
}
