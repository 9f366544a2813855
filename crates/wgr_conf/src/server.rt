//! The server's file.
ghost use Rattle.std.specs.Prelude.{◌≡◌, ◌++◌, flat_map, IfOk, OnOk};
ghost use Rattle.wgr_conf.specs.Files.{live_section, peer_section, server_address_line, server_config, server_interface};

use crate::lines::{
    write_address, write_allowed, write_keepalive, write_line, write_port, write_section_head,
};
use std::alloc::{AllocError, Global};
use wgr_core::{Form, Network, PeerView, Pool};
use wgr_text::Prefix;

/// The server's file at this moment: its interface, which listens at the endpoint's port, and a
/// section for each live peer, by number. The form [`Form::Wg`] is what `wg setconf` reads (wg(8)),
/// [`Form::Quick`] what `wg-quick up` reads (wg-quick(8)), which also has the server's address with the
/// pool's length.
///
/// It takes time in proportion to the file's bytes and the network's peers.
#[tactic(auto, using(crate::proofs::Live::sections_live))]
pub fn server_file(
    alloc: Global,
    network: &Network,
    now: u64,
    form: Form,
) -> Result<Vec<u8>, AllocError>
    ensures { IfOk result (λ file. file.items ≡ server_config network.now now form) }
{
    // The peers are in the order of their numbers.
    network.rules_hold();
    let mut out = Vec::new(alloc);
    write_interface(network, form, &mut out)?;
    let views = network.views(alloc)?;
    write_live(views.as_slice(), now, &mut out)?;
    Ok(out)
}

// Appends the server's interface.
fn write_interface(network: &Network, form: Form, out: &mut Vec<u8>) -> Result<(), AllocError>
    ensures { OnOk result (out.new.items ≡ out.old.items ++ server_interface network.now form) }
{
    write_line(b"[Interface]", out)?;
    write_server_address(form, &network.pool(), out)?;
    write_port(network.port().number(), out)?;
    Ok(())
}

// Appends the server's address, where the form has it.
#[tactic(auto, unfolding(crate::specs::Files::server_address_line))]
fn write_server_address(form: Form, pool: &Pool, out: &mut Vec<u8>) -> Result<(), AllocError>
    ensures { OnOk result (out.new.items ≡ out.old.items ++ server_address_line form pool.now) }
{
    write_address(form, &pool.server(), pool.prefix().length(), out)
}

// Appends the sections of the live peers.
fn write_live(views: &[PeerView], now: u64, out: &mut Vec<u8>) -> Result<(), AllocError>
    ensures { OnOk result (out.new.items ≡ out.old.items ++ flat_map (live_section now) views.now) }
{
    for view in views {
        write_if_live(view, now, out)?;
    }
    Ok(())
}

// Appends the section of a peer, if it is live.
fn write_if_live(view: &PeerView, now: u64, out: &mut Vec<u8>) -> Result<(), AllocError>
    ensures { OnOk result (out.new.items ≡ out.old.items ++ live_section now view.now) }
{
    if !view.peer.is_live(now) {
        return Ok(());
    }
    write_peer(view, out)
}

// Appends the section of a peer.
fn write_peer(view: &PeerView, out: &mut Vec<u8>) -> Result<(), AllocError>
    ensures { OnOk result (out.new.items ≡ out.old.items ++ peer_section view.now.peer view.now.routes) }
{
    write_section_head(&view.peer.key, out)?;
    let own = Prefix::full(view.peer.address);
    write_allowed(&own, view.routes.as_slice(), out)?;
    write_keepalive(view.peer.keepalive, out)
}
