//! What is settled of a network, by its row.
ghost use Rattle.std.specs.Prelude.{◌≡◌, IfErr, IfOk, false};
ghost use Rattle.sqlite.specs.State.{HasCleanDisk};
ghost use Rattle.sqlite.specs.Held.{state};
ghost use Rattle.wgr_sql.specs.Causes.{HasCause};
ghost use Rattle.wgr_tables.specs.Standing.{OnlyReads};
ghost use Rattle.wgr_rows.specs.Directed.{OnNetwork};
ghost use Rattle.wgr_rows.specs.Settings.{AreSettingsOf};

use sqlite::{Alter, Connection};
use std::alloc::Global;
use wgr_columns::{NetworkSettings, read_settings};
use wgr_sql::Fault;
use wgr_tables::network_row;

/// What is settled of the network of this id. Where no row has the id, it is a fault of the store.
pub fn head_row<S: Alter>(
    alloc: Global,
    conn: &mut Connection<S>,
    network: u32,
) -> Result<NetworkSettings, Fault>
    requires idle { conn.old.in_transaction ≡ false }
    ensures reads { OnlyReads S.Store conn.old conn.new }
    ensures found { OnNetwork S.Store conn.old network (λ n. HasCleanDisk (state S.Store conn.new) → IfOk result (λ head. AreSettingsOf n head)) }
    ensures cause { OnNetwork S.Store conn.old network (λ n. IfErr result (HasCause (state S.Store conn.old) (state S.Store conn.new))) }
{
    let Some(row) = network_row(conn, network)? else {
        return Err(Fault::DAMAGED);
    };
    read_settings(alloc, &row)
}
