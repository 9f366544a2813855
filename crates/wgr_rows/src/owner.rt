//! The live peer that owns an address, by the prefix of each length that has it, the longest first.
ghost use Rattle.std.specs.Prelude.{◌≡◌, ◌≤◌, false, IfErr, IfOk};
ghost use Rattle.sqlite.specs.State.{HasCleanDisk};
ghost use Rattle.sqlite.specs.Held.{state};
ghost use Rattle.wgr_text.specs.Prefix.{mask, width};
ghost use Rattle.wgr_core.specs.Network.{live_at};
ghost use Rattle.wgr_core.specs.Owner.{owner_of};
ghost use Rattle.wgr_sql.specs.Causes.{HasCause};
ghost use Rattle.wgr_tables.specs.Standing.{OnlyReads};
ghost use Rattle.wgr_rows.specs.Directed.{OnNetwork};
ghost use Rattle.wgr_rows.specs.Holder.{prefix_holder};

use crate::allowed::allowed_row;
use sqlite::{Alter, Connection};
use wgr_sql::Fault;
use wgr_text::{Addr, Prefix};

// The number of the network's live peer to which the prefix of this length with the address leads.
fn masked_row<S: Alter>(
    conn: &mut Connection<S>,
    network: u32,
    now: u64,
    address: &Addr,
    length: u8,
) -> Result<Option<u32>, Fault>
    requires idle { conn.old.in_transaction ≡ false }
    ensures reads { OnlyReads S.Store conn.old conn.new }
    ensures found { length ≤ width address.now.family → OnNetwork S.Store conn.old network (λ n. HasCleanDisk (state S.Store conn.new) → IfOk result (λ found. found ≡ prefix_holder (live_at n now) (mask address.now length))) }
    ensures cause { OnNetwork S.Store conn.old network (λ n. IfErr result (HasCause (state S.Store conn.old) (state S.Store conn.new))) }
{
    let Some(prefix) = Prefix::masked(*address, length) else {
        return Ok(None);
    };
    allowed_row(conn, network, now, &prefix)
}

/// The number of the network's live peer that owns the address.
pub fn owner_row<S: Alter>(
    conn: &mut Connection<S>,
    network: u32,
    now: u64,
    address: &Addr,
) -> Result<Option<u32>, Fault>
    requires idle { conn.old.in_transaction ≡ false }
    ensures reads { OnlyReads S.Store conn.old conn.new }
    ensures found { OnNetwork S.Store conn.old network (λ n. HasCleanDisk (state S.Store conn.new) → IfOk result (λ found. found ≡ owner_of (live_at n now) address.now)) }
    ensures cause { OnNetwork S.Store conn.old network (λ n. IfErr result (HasCause (state S.Store conn.old) (state S.Store conn.new))) }
{
    let width = address.family().width();
    for length in (0..width + 1).rev() {
        if let Some(number) = masked_row(conn, network, now, address, length)? {
            return Ok(Some(number));
        }
    }
    Ok(None)
}
