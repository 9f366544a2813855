//! What is read of the row of an allowed prefix.
ghost use Rattle.std.specs.Prelude.{◌≡◌, ◌≤◌, ◌↔◌, IsTrue, IfSome, IfNone, true};
ghost use Rattle.wgr_text.specs.Prefix.{rank};
ghost use Rattle.wgr_pool.specs.Spans.{reached_after};
ghost use Rattle.wgr_columns.specs.Decode.{allowed_in};
ghost use Rattle.wgr_columns.specs.Fields.{IsPeerIdAt, IsPrefixAt};
ghost use Rattle.wgr_columns.specs.declared.columns.allowed.TheConstants as allowed;
ghost use Rattle.wgr_rows.specs.HeldRows.{brief};

use sqlite::Row;
use wgr_columns::{allowed, peer_number_at, prefix_in};
use wgr_text::{Addr, Span};

/// The addresses of a row's prefix, and the number of the network's peer to which it leads, if the row
/// shows it.
pub(crate) fn hold_in(row: &Row, network: u32, shows_peer: bool) -> Option<(Span, Option<u32>)>
    ensures some { IfSome result (λ hold. hold ≡ brief shows_peer network (allowed_in row.now)) }
    ensures none { IfNone result (IsPrefixAt row.now allowed.FAMILY → (shows_peer ≡ true → IsPeerIdAt row.now allowed.PEER network) → ⊥) }
{
    let prefix = prefix_in(row)?;
    if !shows_peer {
        return Some((prefix.span(), None));
    }
    let number = peer_number_at(row, allowed::PEER, network)?;
    Some((prefix.span(), Some(number)))
}

/// Whether the address isn't below the one before it, if there is one.
pub(crate) fn is_from(last: Option<Addr>, address: &Addr) -> bool
    ensures { IsTrue result ↔ (reached_after last ≤ rank address.now) }
{
    match last {
        Some(last) => last.is_at_most(address),
        None => true,
    }
}
