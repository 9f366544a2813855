//! Requests of tenants.
ghost use Rattle.std.specs.Prelude.{◌≡◌, ℕ, List, true, false, None, IfErr, IfOk, IfSome, IfNone, OnErr, OnOk, is_some, nat_eq};
ghost use Rattle.sqlite.specs.Effect.{Database};
ghost use Rattle.sqlite.specs.State.{HasCleanDisk};
ghost use Rattle.sqlite.specs.Held.{state};
ghost use Rattle.wgr_core.specs.Outcome.{is_reading};
ghost use Rattle.wgr_model.specs.Laws.{Has};
ghost use Rattle.wgr_model.specs.Register.{Bytes, right_of};
ghost use Rattle.wgr_model.specs.RowLaws.{AreConsistent};
ghost use Rattle.wgr_model.specs.Rows.{IsFormed, NetworkRow, Tables, network_entry_of, register_of};
ghost use Rattle.wgr_model.specs.Steps.{Ask, Event, allows, network_at};
ghost use Rattle.wgr_sql.specs.Causes.{HasCause, HasCauseOr};
ghost use Rattle.wgr_sql.specs.declared.fault.Fault.TheVariants.{NoMemory};
ghost use Rattle.wgr_columns.specs.Decode.{tables_of};
ghost use Rattle.wgr_entries.specs.Lookups.{IsSlotOf};
ghost use Rattle.wgr_entries.specs.ThirdVersion.{IsThird, OnlyReadsThird};
ghost use Rattle.wgr_tables.specs.Standing.{MayWrite, OnlyReads, Stands};
ghost use Rattle.wgr_tables.specs.Writes.{Written};
ghost use Rattle.wgr_conf.specs.Files.{server_config};
ghost use Rattle.wgr_core.specs.Network.{NetworkValue};
ghost use Rattle.wgr_rows.specs.Act.{is_directed};
ghost use Rattle.wgr_register.specs.Given.{OfFile};
ghost use Rattle.wgr_register.specs.Causes.{AskStops, IfFault, StopsIf};
ghost use Rattle.wgr_register.specs.Ends.{AskEnds, CommitsIf, FailsIf, IsFound};
ghost use Rattle.wgr_register.specs.Loaded.{Shows, UnlessFault};
ghost use Rattle.wgr_register.specs.Memory.{IsMemoryOf};
ghost use Rattle.wgr_register.specs.Standing.{StandsAt};

use crate::fault::AskFault;
use crate::given::{Render, render_plain, render_reply};
use crate::memory::Memory;
use sqlite::{Alter, Connection};
use std::alloc::Global;
use wgr_core::{Change, Command, Form, Name, Network};
use wgr_entries::{is_reader, network_id, tenant_of_token};
use wgr_model::Right;
use wgr_rows::row_act;
use wgr_tables::{Fault, NetworkChange, commit, load_network};

// The network whose row has this id: the kept one, which is taken out, or else the one that its rows form.
fn take_network<S: Alter>(
    alloc: Global,
    conn: &mut Connection<S>,
    memory: &mut Memory,
    id: u32,
) -> Result<Network, Fault>
    requires idle { conn.old.in_transaction ≡ false }
    ensures reads { OnlyReads S.Store conn.old conn.new }
    ensures rest { (t : Tables) → IsMemoryOf memory.old t → IsMemoryOf memory.new t }
    ensures formed { (db : Database) (pending : List Written) → Stands S.Store conn.old db pending → AreConsistent (tables_of db) → IsMemoryOf memory.old (tables_of db) → HasCleanDisk (state S.Store conn.new)
        → IfOk result (λ n. IsFormed (tables_of db) id n) }
    ensures cause { (db : Database) (pending : List Written) → Stands S.Store conn.old db pending → AreConsistent (tables_of db) → (HasCleanDisk (state S.Store conn.new) → (w : NetworkRow) × Has (tables_of db).networks w × (w.id ≡ id)) → IfErr result (HasCause (state S.Store conn.old) (state S.Store conn.new)) }
{
    if let Some(network) = memory.take(id) {
        return Ok(network);
    }
    match load_network(alloc, conn, id)? {
        Some(network) => Ok(network),
        None => Err(Fault::DAMAGED),
    }
}

// Whether the token of this digest may ask the command. Of one that only reads, no row is looked up.
fn may_ask<S: Alter>(
    conn: &mut Connection<S>,
    digest: &[u8; 32],
    command: &Command,
) -> Result<bool, Fault>
    requires idle { conn.old.in_transaction ≡ false }
    ensures reads { OnlyReadsThird S.Store conn.old conn.new }
    ensures told { (db : Database) (pending : List Written) → Stands S.Store conn.old db pending → IsThird (tables_of db) → HasCleanDisk (state S.Store conn.new)
        → IfOk result (λ may. may ≡ allows (right_of (tables_of db).readers digest.now) command.now) }
    ensures cause { (db : Database) (pending : List Written) → Stands S.Store conn.old db pending → IsThird (tables_of db) → IfErr result (HasCause (state S.Store conn.old) (state S.Store conn.new)) }
{
    if Right::Read.allows(command) {
        return Ok(true);
    }
    let reader = is_reader(conn, digest)?;
    Ok(!reader)
}

// The id of the row of the network of this name that the tenant of this id has.
fn find_id<S: Alter>(
    alloc: Global,
    conn: &mut Connection<S>,
    tenant: u32,
    name: &[u8],
) -> Result<Option<u32>, Fault>
    requires idle { conn.old.in_transaction ≡ false }
    ensures reads { OnlyReads S.Store conn.old conn.new }
    ensures some { (db : Database) (pending : List Written) → Stands S.Store conn.old db pending → HasCleanDisk (state S.Store conn.new)
        → IfOk result (λ found. IfSome found (λ id. (w : NetworkRow) × Has (tables_of db).networks w × IsSlotOf w tenant name.now × (w.id ≡ id))) }
    ensures none { (db : Database) (pending : List Written) → Stands S.Store conn.old db pending → AreConsistent (tables_of db) → HasCleanDisk (state S.Store conn.new)
        → IfOk result (λ found. IfNone found (network_at (register_of (tables_of db)).networks tenant name.now ≡ None)) }
    ensures cause { (db : Database) (pending : List Written) → Stands S.Store conn.old db pending → AreConsistent (tables_of db) → IfErr result (HasCause (state S.Store conn.old) (state S.Store conn.new)) }
{
    let Ok(read) = Name::read(alloc, name) else {
        return Err(Fault::NoMemory);
    };
    let Some(name) = read else {
        return Ok(None);
    };
    network_id(conn, tenant, &name)
}

// Commits the change of the network whose row has this id, if there is one.
fn commit_if<S: Alter>(
    conn: &mut Connection<S>,
    network: u32,
    change: &Option<Change>,
) -> Result<(), Fault>
    requires idle { conn.old.in_transaction ≡ false }
    ensures keeps { MayWrite S.Store conn.old conn.new }
    ensures done { (db : Database) (pending : List Written) (w : NetworkRow) → Stands S.Store conn.old db pending → AreConsistent (tables_of db) → Has (tables_of db).networks w → w.id ≡ network → HasCleanDisk (state S.Store conn.new)
        → OnOk result (CommitsIf S.Store conn.new db pending network (network_entry_of (tables_of db) w).network change.now) }
    ensures fault { (db : Database) (pending : List Written) (w : NetworkRow) → Stands S.Store conn.old db pending → AreConsistent (tables_of db) → Has (tables_of db).networks w → w.id ≡ network
        → OnErr result (FailsIf S.Store conn.new db pending network (network_entry_of (tables_of db) w).network change.now) }
    ensures changes { OnErr result (is_some change.now ≡ true) }
    ensures cause { (db : Database) (pending : List Written) → Stands S.Store conn.old db pending → IfErr result (HasCauseOr (StopsIf network change.now (tables_of db)) (state S.Store conn.old) (state S.Store conn.new)) }
{
    match change {
        Some(change) => commit(conn, &NetworkChange { network, change }),
        None => Ok(()),
    }
}

// The text of the command's answer on the network whose row has this id. What it changes is
// committed once the text is made; then the network is kept as it is after that.
fn act_on<S: Alter, R: Render>(
    alloc: Global,
    conn: &mut Connection<S>,
    memory: &mut Memory,
    id: u32,
    network: Network,
    now: u64,
    command: &Command,
    render: &R,
) -> Result<Vec<u8>, AskFault>
    requires idle { conn.old.in_transaction ≡ false }
    ensures keeps { MayWrite S.Store conn.old conn.new }
    ensures ends { (db : Database) (late : List Event) (digest name : Bytes) → StandsAt S.Store conn.old db late → IsFound (tables_of db) digest name command.now id network
        → AskEnds S.Store R.shown conn.new db late (Ask digest name now command.now) now result }
    ensures memory { (db : Database) (late : List Event) (digest name : Bytes) → StandsAt S.Store conn.old db late → IsFound (tables_of db) digest name command.now id network → IsMemoryOf memory.old (tables_of db)
        → UnlessFault result (Shows S.Store conn.new (IsMemoryOf memory.new)) }
    ensures reading { is_reading command.now ≡ true → IfFault (λ why. why ≡ NoMemory) result }
    ensures stops { (db : Database) (late : List Event) (digest name : Bytes) → StandsAt S.Store conn.old db late → IsFound (tables_of db) digest name command.now id network → IfFault (HasCauseOr (AskStops (tables_of db) digest name now command.now) (state S.Store conn.old) (state S.Store conn.new)) result }
{
    command.forms_hold();
    let (reply, change) = match network.act(alloc, now, command) {
        Ok(done) => done,
        Err(why) => {
            memory.keep(alloc, id, network);
            return Err(AskFault::from(why));
        }
    };
    let text = render_reply(alloc, render, &network, now, &reply)?;
    commit_if(conn, id, &change)?;
    let before = memory.outline_with(id, &network);
    let outline = before.after(now, command, &reply, &change);
    memory.after(alloc, id, outline, &change);
    memory.keep_changed(alloc, id, network, change);
    Ok(text)
}

// The text of the answer of Add or Owner on the network whose row has this id, which is not in memory:
// only the rows that decide are read. What it changes is committed once the text is made.
fn act_on_rows<S: Alter, R: Render>(
    alloc: Global,
    conn: &mut Connection<S>,
    memory: &mut Memory,
    id: u32,
    now: u64,
    command: &Command,
    render: &R,
) -> Result<Vec<u8>, AskFault>
    requires idle { conn.old.in_transaction ≡ false }
    requires directed { is_directed command.now ≡ true }
    ensures keeps { MayWrite S.Store conn.old conn.new }
    ensures ends { (db : Database) (late : List Event) (digest name : Bytes) (n : NetworkValue) → StandsAt S.Store conn.old db late → IsFound (tables_of db) digest name command.now id n → IsMemoryOf memory.old (tables_of db)
        → AskEnds S.Store R.shown conn.new db late (Ask digest name now command.now) now result }
    ensures memory { (db : Database) (late : List Event) (digest name : Bytes) (n : NetworkValue) → StandsAt S.Store conn.old db late → IsFound (tables_of db) digest name command.now id n → IsMemoryOf memory.old (tables_of db)
        → UnlessFault result (Shows S.Store conn.new (IsMemoryOf memory.new)) }
    ensures cause { (db : Database) (late : List Event) (digest name : Bytes) (n : NetworkValue) → StandsAt S.Store conn.old db late → IsFound (tables_of db) digest name command.now id n → is_reading command.now ≡ true → IfFault (HasCause (state S.Store conn.old) (state S.Store conn.new)) result }
    ensures stops { (db : Database) (late : List Event) (digest name : Bytes) (n : NetworkValue) → StandsAt S.Store conn.old db late → IsFound (tables_of db) digest name command.now id n → IsMemoryOf memory.old (tables_of db) → IfFault (HasCauseOr (AskStops (tables_of db) digest name now command.now) (state S.Store conn.old) (state S.Store conn.new)) result }
{
    command.forms_hold();
    let before = memory.outline(id);
    let (reply, changes) = row_act(alloc, conn, id, now, &before, command)?;
    let text = render_plain(alloc, render, &reply)?;
    commit_if(conn, id, &changes)?;
    let outline = before.after(now, command, &reply, &changes);
    memory.after(alloc, id, outline, &changes);
    Ok(text)
}

// The text of the server's file of the network whose row has this id: from the file that is kept, or from
// one that is made.
fn file_at<S: Alter, R: Render>(
    alloc: Global,
    conn: &mut Connection<S>,
    memory: &mut Memory,
    id: u32,
    form: Form,
    now: u64,
    render: &R,
) -> Result<Vec<u8>, Fault>
    requires idle { conn.old.in_transaction ≡ false }
    ensures reads { OnlyReads S.Store conn.old conn.new }
    ensures text { (db : Database) (pending : List Written) → Stands S.Store conn.old db pending → AreConsistent (tables_of db) → IsMemoryOf memory.old (tables_of db) → HasCleanDisk (state S.Store conn.new)
        → IfOk result (λ text. (n : NetworkValue) × IsFormed (tables_of db) id n × (R.shown (OfFile (server_config n now form)) ≡ text.items)) }
    ensures memory { (db : Database) (pending : List Written) → Stands S.Store conn.old db pending → AreConsistent (tables_of db) → IsMemoryOf memory.old (tables_of db) → HasCleanDisk (state S.Store conn.new)
        → OnOk result (IsMemoryOf memory.new (tables_of db)) }
    ensures cause { (db : Database) (pending : List Written) → Stands S.Store conn.old db pending → AreConsistent (tables_of db) → (HasCleanDisk (state S.Store conn.new) → (w : NetworkRow) × Has (tables_of db).networks w × (w.id ≡ id)) → IfErr result (HasCause (state S.Store conn.old) (state S.Store conn.new)) }
{
    let Ok(kept) = memory.kept_text(alloc, id, form, now, render) else {
        return Err(Fault::NoMemory);
    };
    if let Some(text) = kept {
        return Ok(text);
    }
    let network = take_network(alloc, conn, memory, id)?;
    let Ok(text) = memory.made_text(alloc, id, &network, form, now, render) else {
        return Err(Fault::NoMemory);
    };
    memory.keep(alloc, id, network);
    Ok(text)
}

// The text of the command's answer on the network of this name that the tenant of the token has.
pub(crate) fn ask<S: Alter, R: Render>(
    alloc: Global,
    conn: &mut Connection<S>,
    memory: &mut Memory,
    digest: &[u8; 32],
    name: &[u8],
    now: u64,
    command: &Command,
    render: &R,
) -> Result<Vec<u8>, AskFault>
    requires idle { conn.old.in_transaction ≡ false }
    requires memory { Shows S.Store conn.old (IsMemoryOf memory.old) }
    ensures idle { conn.new.in_transaction ≡ false }
    ensures clean { HasCleanDisk (state S.Store conn.new) → HasCleanDisk (state S.Store conn.old) }
    ensures ends { (db : Database) (late : List Event) → StandsAt S.Store conn.old db late → AskEnds S.Store R.shown conn.new db late (Ask digest.now name.now now command.now) now result }
    ensures memory { (db : Database) (late : List Event) → StandsAt S.Store conn.old db late → UnlessFault result (Shows S.Store conn.new (IsMemoryOf memory.new)) }
    ensures cause { (db : Database) (late : List Event) → StandsAt S.Store conn.old db late → is_reading command.now ≡ true → IfFault (HasCause (state S.Store conn.old) (state S.Store conn.new)) result }
    ensures stops { (db : Database) (late : List Event) → StandsAt S.Store conn.old db late → IfFault (HasCauseOr (AskStops (tables_of db) digest.now name.now now command.now) (state S.Store conn.old) (state S.Store conn.new)) result }
{
    let Some(tenant) = tenant_of_token(conn, digest)? else {
        return Err(AskFault::UnknownToken);
    };
    let may = may_ask(conn, digest, command)?;
    if !may {
        return Err(AskFault::ReadOnly);
    }
    let Some(id) = find_id(alloc, conn, tenant, name)? else {
        return Err(AskFault::NoSuchNetwork);
    };
    if let Command::ServerFile { form } = command {
        let text = file_at(alloc, conn, memory, id, *form, now, render)?;
        return Ok(text);
    }
    if memory.answers_by_rows(alloc, id, command) {
        return act_on_rows(alloc, conn, memory, id, now, command, render);
    }
    let network = take_network(alloc, conn, memory, id)?;
    act_on(alloc, conn, memory, id, network, now, command, render)
}
