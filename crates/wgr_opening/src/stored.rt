//! The networks that rows form.
ghost use Rattle.std.specs.Prelude.{◌≡◌, ◌↔◌, false, IfErr, IfOk, IfSome, IsSome, List, map, nat_eq};
ghost use Rattle.std.specs.List.{AllByRecursion, IsDistinct};
ghost use Rattle.sqlite.specs.Effect.{Database};
ghost use Rattle.sqlite.specs.State.{HasCleanDisk};
ghost use Rattle.sqlite.specs.Held.{state};
ghost use Rattle.wgr_sql.specs.Causes.{HasCause};
ghost use Rattle.wgr_columns.specs.Decode.{tables_of};
ghost use Rattle.wgr_tables.specs.Standing.{OnlyReads, Stands};
ghost use Rattle.wgr_tables.specs.Writes.{Written};
ghost use Rattle.wgr_opening.specs.Good.{StoresNetwork};
ghost use Rattle.wgr_opening.specs.Outlines.{AreStoredOutlines, outline_in};

use crate::outlines::Outlines;
use sqlite::{Alter, Connection};
use std::alloc::Global;
use wgr_outline::Outline;
use wgr_sql::Fault;
use wgr_tables::network_if_stored;

/// The outlines of the networks of these ids, if the rows of each form one that keeps the rules.
pub(crate) fn stored_outlines<S: Alter>(
    alloc: Global,
    conn: &mut Connection<S>,
    networks: &[u32],
) -> Result<Option<Outlines>, Fault>
    requires idle { conn.old.in_transaction ≡ false }
    ensures reads { OnlyReads S.Store conn.old conn.new }
    ensures answer { (db : Database) (pending : List Written) → Stands S.Store conn.old db pending → HasCleanDisk (state S.Store conn.new)
        → IfOk result (λ found. IsSome found ↔ AllByRecursion (StoresNetwork (tables_of db)) networks.now) }
    ensures outlines { (db : Database) (pending : List Written) → Stands S.Store conn.old db pending → HasCleanDisk (state S.Store conn.new)
        → IfOk result (λ found. IfSome found (λ outlines. AreStoredOutlines (outline_in outlines) (tables_of db))) }
    ensures cause { (db : Database) (pending : List Written) → Stands S.Store conn.old db pending → IsDistinct nat_eq (map (λ w. w.id) (tables_of db).networks) → IfErr result (HasCause (state S.Store conn.old) (state S.Store conn.new)) }
{
    let mut outlines = Outlines::new(alloc);
    for network in networks {
        let Some(stored) = network_if_stored(alloc, conn, *network)? else {
            return Ok(None);
        };
        let Ok(()) = outlines.put(*network, Outline::of(alloc, &stored)) else {
            return Err(Fault::NoMemory);
        };
    }
    Ok(Some(outlines))
}
