//! All entries, for an operator to look at.
ghost use Rattle.std.specs.Prelude.{◌≡◌, ◌++◌, ◌∷◌, [], List, map, false, IfErr, IfOk, IsTrue, OnOk};
ghost use Rattle.std.specs.List.Sorted.{IsSorted};
ghost use Rattle.std.specs.Ordering.{nat_cmp};
ghost use Rattle.std.specs.Cmp.Lexicographic.{slice_cmp};
ghost use Rattle.sqlite.specs.Effect.{Database};
ghost use Rattle.sqlite.specs.State.{HasCleanDisk};
ghost use Rattle.sqlite.specs.Held.{state};
ghost use Rattle.wgr_model.specs.Register.{right_of};
ghost use Rattle.wgr_model.specs.RowLaws.{AreConsistent};
ghost use Rattle.wgr_sql.specs.Causes.{HasCause};
ghost use Rattle.wgr_sql.specs.declared.fault.Fault.TheVariants.{NoMemory};
ghost use Rattle.wgr_columns.specs.Decode.{tables_of};
ghost use Rattle.wgr_entries.specs.ThirdVersion.{IsThird, OnlyReadsThird};
ghost use Rattle.wgr_tables.specs.Standing.{OnlyReads, Stands};
ghost use Rattle.wgr_tables.specs.Writes.{Written};
ghost use Rattle.wgr_register.specs.Census.{AreGranted, IsCensus, with_counts, with_right};

use sqlite::{Alter, Connection};
use std::alloc::Global;
use wgr_entries::{count_peers, count_routes, readers, settled_networks, tenants, tokens};
use wgr_orders::{Census, Counted, Granted, NetworkEntry, Right, Token};
use wgr_tables::Fault;

// The network, with how many peers and routes its rows have.
fn counted<S: Alter>(
    conn: &mut Connection<S>,
    network_entry: NetworkEntry,
) -> Result<Counted, Fault>
    requires idle { conn.old.in_transaction ≡ false }
    ensures reads { OnlyReads S.Store conn.old conn.new }
    ensures counted { (db : Database) (pending : List Written) → Stands S.Store conn.old db pending → HasCleanDisk (state S.Store conn.new)
        → IfOk result (λ network. network ≡ with_counts (tables_of db) network_entry) }
    ensures cause { (db : Database) (pending : List Written) → Stands S.Store conn.old db pending → IfErr result (HasCause (state S.Store conn.old) (state S.Store conn.new)) }
{
    let peers = count_peers(conn, network_entry.id)?;
    let routes = count_routes(conn, network_entry.id)?;
    Ok(Counted {
        network_entry,
        peers,
        routes,
    })
}

// Appends a network.
fn keep(networks: &mut Vec<Counted>, network: Counted) -> Result<(), Fault>
    ensures kept { OnOk result (networks.new.items ≡ networks.old.items ++ network ∷ []) }
    ensures memory { IfErr result (λ why. why ≡ NoMemory) }
{
    match networks.push(network) {
        Ok(()) => Ok(()),
        Err(_) => Err(Fault::NoMemory),
    }
}

// The networks, each with its counts.
fn all_counted<S: Alter>(
    alloc: Global,
    conn: &mut Connection<S>,
    network_entries: Vec<NetworkEntry>,
) -> Result<Vec<Counted>, Fault>
    requires idle { conn.old.in_transaction ≡ false }
    ensures reads { OnlyReads S.Store conn.old conn.new }
    ensures counted { (db : Database) (pending : List Written) → Stands S.Store conn.old db pending → HasCleanDisk (state S.Store conn.new)
        → IfOk result (λ networks. networks.items ≡ map (with_counts (tables_of db)) network_entries.items) }
    ensures cause { (db : Database) (pending : List Written) → Stands S.Store conn.old db pending → IfErr result (HasCause (state S.Store conn.old) (state S.Store conn.new)) }
{
    let mut networks = Vec::new(alloc);
    for network_entry in network_entries {
        let network = counted(conn, network_entry)?;
        keep(&mut networks, network)?;
    }
    Ok(networks)
}

// The right of the token of this digest, where `readers` has those of the tokens that only read, in order.
fn right_in(readers: &[[u8; 32]], digest: &[u8; 32]) -> Right
    ensures { IsSorted (slice_cmp nat_cmp) readers.now → result ≡ right_of readers.now digest.now }
{
    match readers.binary_search(digest) {
        Ok(_) => Right::Read,
        Err(_) => Right::Full,
    }
}

// The token, with its right.
fn granted(readers: &[[u8; 32]], token: Token) -> Granted
    ensures { IsSorted (slice_cmp nat_cmp) readers.now → result ≡ with_right readers.now token }
{
    let right = right_in(readers, &token.digest);
    Granted { token, right }
}

// Appends a token.
fn keep_token(tokens: &mut Vec<Granted>, token: Granted) -> Result<(), Fault>
    ensures kept { OnOk result (tokens.new.items ≡ tokens.old.items ++ token ∷ []) }
    ensures memory { IfErr result (λ why. why ≡ NoMemory) }
{
    match tokens.push(token) {
        Ok(()) => Ok(()),
        Err(_) => Err(Fault::NoMemory),
    }
}

// The tokens, each with its right.
fn all_granted(
    alloc: Global,
    tokens: Vec<Token>,
    readers: &[[u8; 32]],
) -> Result<Vec<Granted>, Fault>
    ensures granted { IsSorted (slice_cmp nat_cmp) readers.now → IfOk result (λ all. all.items ≡ map (with_right readers.now) tokens.items) }
    ensures memory { IfErr result (λ why. why ≡ NoMemory) }
{
    let mut all = Vec::new(alloc);
    for token in tokens {
        keep_token(&mut all, granted(readers, token))?;
    }
    Ok(all)
}

// All tokens, each with its right.
fn granted_tokens<S: Alter>(alloc: Global, conn: &mut Connection<S>) -> Result<Vec<Granted>, Fault>
    requires idle { conn.old.in_transaction ≡ false }
    ensures reads { OnlyReadsThird S.Store conn.old conn.new }
    ensures listed { (db : Database) (pending : List Written) → Stands S.Store conn.old db pending → IsThird (tables_of db) → HasCleanDisk (state S.Store conn.new)
        → IfOk result (λ tokens. AreGranted (tables_of db) tokens.items) }
    ensures cause { (db : Database) (pending : List Written) → Stands S.Store conn.old db pending → AreConsistent (tables_of db) → IfErr result (HasCause (state S.Store conn.old) (state S.Store conn.new)) }
{
    let tokens = tokens(alloc, conn)?;
    let readers = readers(alloc, conn)?;
    all_granted(alloc, tokens, readers.as_slice())
}

/// All entries, as their rows have them.
pub(crate) fn census<S: Alter>(alloc: Global, conn: &mut Connection<S>) -> Result<Census, Fault>
    requires idle { conn.old.in_transaction ≡ false }
    ensures reads { OnlyReadsThird S.Store conn.old conn.new }
    ensures open { HasCleanDisk (state S.Store conn.new) → OnOk result (IsTrue (state S.Store conn.old).is_open) }
    ensures listed { (db : Database) (pending : List Written) → Stands S.Store conn.old db pending → IsThird (tables_of db) → HasCleanDisk (state S.Store conn.new)
        → IfOk result (IsCensus (tables_of db)) }
    ensures cause { (db : Database) (pending : List Written) → Stands S.Store conn.old db pending → AreConsistent (tables_of db) → IfErr result (HasCause (state S.Store conn.old) (state S.Store conn.new)) }
{
    let tenants = tenants(alloc, conn)?;
    let tokens = granted_tokens(alloc, conn)?;
    let network_entries = settled_networks(alloc, conn)?;
    let networks = all_counted(alloc, conn, network_entries)?;
    Ok(Census {
        tenants,
        tokens,
        networks,
    })
}
