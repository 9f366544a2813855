//! The register.
ghost use Rattle.std.specs.Prelude.{◌≡◌, ◌↔◌, ◌≤◌, ℕ, List, [], true, false, IfErr, IsErrAnd, IfOk, OnOk};
ghost use Rattle.sqlite.specs.Effect.{Database};
ghost use Rattle.sqlite.specs.State.{HasCleanDisk, Survives};
ghost use Rattle.sqlite.specs.Held.{state};
ghost use Rattle.wgr_orders.specs.Orders.{order_event};
ghost use Rattle.wgr_model.specs.Steps.{Ask, Event, Networks};
ghost use Rattle.wgr_core.specs.Outcome.{is_reading};
ghost use Rattle.wgr_register.specs.Census.{IsCensus};
ghost use Rattle.wgr_register.specs.Causes.{AskStops, IfFault, IfOrderFault, OrderStops};
ghost use Rattle.wgr_register.specs.Ends.{AskEnds, OrderEnds};
ghost use Rattle.wgr_register.specs.Left.{LeavesGood};
ghost use Rattle.wgr_register.specs.Recent.{max_recent};
ghost use Rattle.wgr_register.specs.Standing.{IsAtRest, StandsAt};
ghost use Rattle.wgr_sql.specs.Calls.{IsKept};
ghost use Rattle.wgr_sql.specs.Causes.{HasCause, HasCauseOr};
ghost use Rattle.wgr_sql.specs.Faults.{IsStore};
ghost use Rattle.wgr_sql.specs.declared.fault.Cause.TheVariants.{Other};
ghost use Rattle.wgr_sql.specs.declared.fault.Fault.TheVariants.{Store};
ghost use Rattle.wgr_schema.specs.Faults.{IfStatementFails};
ghost use Rattle.wgr_schema.specs.Fresh.{IsFresh, LeavesFresh, is_any_taken, no_schema};
ghost use Rattle.wgr_schema.specs.Upgrade.{StopsUpgrade};
ghost use Rattle.wgr_schema.specs.Versions.{IsOfEarlierVersion, IsOfVersion};
ghost use Rattle.wgr_schema.specs.declared.version.Version.{Version};
ghost use Rattle.wgr_schema.specs.declared.version.Version.TheVariants.{Three};
ghost use Rattle.wgr_schema.specs.declared.fault.RegisterFault.TheVariants.{EarlierVersion, NotARegister, NotEmpty, NotGood};
ghost use Rattle.wgr_columns.specs.Decode.{tables_of};
ghost use Rattle.wgr_opening.specs.Good.{IsGood, IsReady, HasSoundRows};
ghost use Rattle.wgr_opening.specs.Migrated.{IsMigrated, LeavesMigrated, MayMigrate};

use crate::fault::{AskFault, Done, OpenFault, OrderFault};
use crate::given::Render;
use crate::memory::Memory;
use crate::{ask, census, list, order};
use sqlite::{Alter, Connection};
use std::alloc::Global;
use std::marker::Model;
use wgr_core::Command;
use wgr_entries::tenant_of_token;
use wgr_opening::{check_register, migrate_tables};
use wgr_orders::{Census, Order};
use wgr_schema::make;
use wgr_tables::Fault;

/// The networks of many tenants, in a database whose rows are consistent at all times.
///
/// The [`NETWORKS_IN_MEMORY`](crate::NETWORKS_IN_MEMORY) most recently used networks stay in
/// memory as their rows form them, so a request loads a network only where it isn't one of them. So do the
/// [`FILES_IN_MEMORY`](crate::FILES_IN_MEMORY) most recently used servers' files. The first Add or Owner on a
/// network that isn't in memory reads only the rows that it needs, and loads nothing. Of every network stay in
/// memory a moment before which no lease ends, so that Add needn't search for expired peers, and an address
/// below which none is free, so that it needn't read the addresses that are held.
///
/// Every contract names the database that the register is in, and the events that a stop at
/// this moment may leave done: those that were answered by a fault since the last acknowledged change.
pub struct Register<S: Alter> {
    conn: Connection<S>,
    memory: Memory,
}

impl<S: Alter> Model for Register<S> {
    ghost use Rattle.sqlite.specs.Held.{Held, held_code};
    ghost use Rattle.wgr_register.specs.Loaded.{Shows};
    ghost use Rattle.wgr_register.specs.Memory.{IsMemoryOf};
    ghost use Rattle.wgr_register.specs.Standing.{IsAtRest};

    ghost Value = { Held S };

    ghost coded = { held_code S.code };

    ghost view = { λ r. r.conn };

    ghost invariant = { λ r. IsAtRest S.Store r.conn × Shows S.Store r.conn (IsMemoryOf r.memory) };
}

impl<S: Alter> Register<S> {
    /// Makes the tables of a register without entries, in one commit.
    ///
    /// `NotEmpty` where one of them is there already, and `NotARegister` where the database has any
    /// other table, index or view; the database is as before. `Store` only where the disk had a fault,
    /// the store was shut before, or a limit on steps was set.
    pub fn create(mut conn: Connection<S>) -> Result<Register<S>, OpenFault<S>>
        requires idle { conn.in_transaction ≡ false }
        ensures free { OnOk result ((state S.Store conn).now.schema ≡ no_schema) }
        ensures done { IfOk result (λ register. HasCleanDisk (state S.Store register) → (db : Database) × IsFresh db × StandsAt S.Store register db []) }
        ensures taken { IfErr result (λ e. e.fault ≡ NotEmpty ↔ is_any_taken (state S.Store conn).now.schema ≡ true) }
        ensures foreign { IfErr result (λ e. e.fault ≡ NotARegister ↔ ((is_any_taken (state S.Store conn).now.schema ≡ false) × ((state S.Store conn).now.schema ≡ no_schema → ⊥))) }
        ensures good { IfErr result (λ e. e.fault ≡ NotGood → ⊥) }
        ensures earlier { IfErr result (λ e. e.fault ≡ EarlierVersion → ⊥) }
        ensures clean { IfOk result (λ register. HasCleanDisk (state S.Store register) → HasCleanDisk (state S.Store conn)) }
        ensures crash { IfErr result (λ e. Survives (state S.Store conn) (state S.Store e.connection) LeavesFresh) }
        ensures cause { IfErr result (λ e. IfStatementFails (HasCause (state S.Store conn) (state S.Store e.connection)) e.fault) }
        ensures kept { IfErr result (λ e. IsKept (state S.Store conn) (state S.Store e.connection)) }
        ensures idle { IfErr result (λ e. e.connection.in_transaction ≡ false) }
    {
        match make(&mut conn) {
            Ok(()) => Ok(Register {
                conn,
                memory: Memory::new(),
            }),
            Err(fault) => Err(OpenFault {
                fault,
                connection: conn,
            }),
        }
    }

    /// Opens the register that the database holds. Anything else in the database is left unchanged.
    ///
    /// `NotARegister` where the register's tables are missing or of no version that is known,
    /// `EarlierVersion` where they are of an earlier one, and `NotGood` where they are of the third and
    /// the rows aren't those of a consistent register, and there alone. `Store` only where the disk had a fault, the store was shut before, or a limit on
    /// steps was set. The database is as before.
    pub fn open(alloc: Global, mut conn: Connection<S>) -> Result<Register<S>, OpenFault<S>>
        requires idle { conn.in_transaction ≡ false }
        ensures good { IfOk result (λ register. HasCleanDisk (state S.Store register) → IsGood (state S.Store conn).now × StandsAt S.Store register (state S.Store conn).now []) }
        ensures foreign { IfErr result (λ e. HasCleanDisk (state S.Store e.connection) → e.fault ≡ NotARegister → (version : Version) → IsOfVersion version (state S.Store conn).now → ⊥) }
        ensures earlier { IfErr result (λ e. HasCleanDisk (state S.Store e.connection) → e.fault ≡ EarlierVersion → IsOfEarlierVersion (state S.Store conn).now) }
        ensures bad { IfErr result (λ e. HasCleanDisk (state S.Store e.connection) → e.fault ≡ NotGood → IsGood (state S.Store conn).now → ⊥) }
        ensures version { IfErr result (λ e. HasCleanDisk (state S.Store e.connection) → e.fault ≡ NotGood → IsOfVersion Three (state S.Store conn).now) }
        ensures taken { IfErr result (λ e. e.fault ≡ NotEmpty → ⊥) }
        ensures clean { IfOk result (λ register. HasCleanDisk (state S.Store register) → HasCleanDisk (state S.Store conn)) }
        ensures unharmed { IfErr result (λ e. HasCleanDisk (state S.Store e.connection) → HasCleanDisk (state S.Store conn)) }
        ensures crash { IfErr result (λ e. Survives (state S.Store conn) (state S.Store e.connection) (λ _. ⊥)) }
        ensures cause { IfErr result (λ e. IfStatementFails (HasCause (state S.Store conn) (state S.Store e.connection)) e.fault) }
        ensures kept { IfErr result (λ e. IsKept (state S.Store conn) (state S.Store e.connection)) }
        ensures idle { IfErr result (λ e. e.connection.in_transaction ≡ false) }
    {
        match check_register(alloc, &mut conn) {
            Ok(outlines) => Ok(Register {
                conn,
                memory: Memory::of(outlines),
            }),
            Err(fault) => Err(OpenFault {
                fault,
                connection: conn,
            }),
        }
    }

    /// Takes the register that the database holds to the third version of its tables, in one commit, and
    /// opens it. One of the third version is opened as it is. Anything else in the database is left unchanged.
    ///
    /// `NotARegister` where the register's tables are missing or of no version that is known, or where a
    /// table of somebody's own counts its rowids while SQLite's table of the counters is missing; `NotEmpty`
    /// where something has the name of a table that the version lacks; `NotGood` where the rows aren't
    /// those of a consistent register. `Store` only where the disk had a fault, the store was shut before, a limit
    /// on steps was set, or the database refuses a statement. The database is as before.
    pub fn migrate(alloc: Global, mut conn: Connection<S>) -> Result<Register<S>, OpenFault<S>>
        requires idle { conn.in_transaction ≡ false }
        ensures done { IfOk result (λ register. HasCleanDisk (state S.Store register) → (db : Database) × IsMigrated (state S.Store conn).now db × StandsAt S.Store register db []) }
        ensures foreign { IfErr result (λ e. HasCleanDisk (state S.Store e.connection) → e.fault ≡ NotARegister → (version : Version) → MayMigrate version (state S.Store conn).now → ⊥) }
        ensures taken { IfErr result (λ e. HasCleanDisk (state S.Store e.connection) → e.fault ≡ NotEmpty → (version : Version) → IsReady version (state S.Store conn).now → ⊥) }
        ensures bad { IfErr result (λ e. HasCleanDisk (state S.Store e.connection) → e.fault ≡ NotGood → HasSoundRows (state S.Store conn).now → ⊥) }
        ensures earlier { IfErr result (λ e. e.fault ≡ EarlierVersion → ⊥) }
        ensures clean { IfOk result (λ register. HasCleanDisk (state S.Store register) → HasCleanDisk (state S.Store conn)) }
        ensures unharmed { IfErr result (λ e. HasCleanDisk (state S.Store e.connection) → HasCleanDisk (state S.Store conn)) }
        ensures crash { IfOk result (λ register. Survives (state S.Store conn) (state S.Store register) (LeavesMigrated (state S.Store conn).now)) }
        ensures undone { IfErr result (λ e. Survives (state S.Store conn) (state S.Store e.connection) (LeavesMigrated (state S.Store conn).now)) }
        ensures cause { IfErr result (λ e. IfStatementFails (HasCauseOr (StopsUpgrade (state S.Store conn).now) (state S.Store conn) (state S.Store e.connection)) e.fault) }
        ensures kept { IfErr result (λ e. IsKept (state S.Store conn) (state S.Store e.connection)) }
        ensures idle { IfErr result (λ e. e.connection.in_transaction ≡ false) }
    {
        match migrate_tables(alloc, &mut conn) {
            Ok(outlines) => Ok(Register {
                conn,
                memory: Memory::of(outlines),
            }),
            Err(fault) => Err(OpenFault {
                fault,
                connection: conn,
            }),
        }
    }

    /// Does nothing. Every register is at rest: while its disk is clean, it has consistent rows.
    pub fn rules_hold(&self)
        ensures { IsAtRest S.Store self.now }
    {
        let _rest = &self.conn;
    }

    /// Does nothing. Whatever a stop at this moment leaves is a good register: with the rows that this
    /// one has, or with those after one event that was answered by a fault since the last acknowledged change.
    pub fn stops_leave_good(&self)
        ensures { (db : Database) (late : List Event) → LeavesGood S.Store self.now db late }
    {
        let _rest = &self.conn;
    }

    /// How many networks stay in memory now, of all tenants together: at most
    /// [`NETWORKS_IN_MEMORY`](crate::NETWORKS_IN_MEMORY). As of files, no clause says which there are.
    pub fn loaded(&self) -> usize
        ensures at_most { result ≤ max_recent }
    {
        self.memory.networks()
    }

    /// How many servers' files stay in memory now, of all tenants together: at most
    /// [`FILES_IN_MEMORY`](crate::FILES_IN_MEMORY), one for each network and form. Files are no part of a
    /// register's value, so no clause says which there are.
    pub fn cached(&self) -> usize
        ensures at_most { result ≤ max_recent }
    {
        self.memory.files()
    }

    /// Whether the store has failed for good: a query that reads one token fails for another reason than want
    /// of memory. A store that a fault has shut, as a failed sync does, fails each query from then on, and only
    /// a register that is opened anew answers again. What is in memory is loaded anew afterwards.
    pub fn is_shut(&mut self) -> bool
        ensures clean { HasCleanDisk (state S.Store self.new) → HasCleanDisk (state S.Store self.old) }
        ensures stands { (db : Database) (late : List Event) → StandsAt S.Store self.old db late → StandsAt S.Store self.new db late }
        ensures cause { (db : Database) (late : List Event) → StandsAt S.Store self.old db late → result ≡ true → HasCause (state S.Store self.old) (state S.Store self.new) (Store Other) }
    {
        self.memory.forget_all();
        let found = tenant_of_token(&mut self.conn, &[0; 32]);
        is_fault_of_store(&found)
    }

    /// The connection, as it is.
    pub fn into_connection(self) -> Connection<S>
        ensures { result ≡ self }
    {
        let Register {
            conn,
            memory: _memory,
        } = self;
        conn
    }

    /// Does an order of the operator, in one commit, or refuses it. A refusal and a fault leave the rows
    /// as they are. A fault is lack of memory, or it has a cause, or the database refuses a statement of
    /// the order.
    pub fn operate(&mut self, alloc: Global, order: &Order) -> Result<Done, OrderFault>
        ensures clean { HasCleanDisk (state S.Store self.new) → HasCleanDisk (state S.Store self.old) }
        ensures ends { (db : Database) (late : List Event) → StandsAt S.Store self.old db late → OrderEnds S.Store self.new db late (order_event order.now) result }
        ensures stops { (db : Database) (late : List Event) → StandsAt S.Store self.old db late → IfOrderFault (HasCauseOr (OrderStops (tables_of db) (order_event order.now)) (state S.Store self.old) (state S.Store self.new)) result }
    {
        let ended = order::operate(alloc, &mut self.conn, &mut self.memory, order);
        self.memory.after_order(&ended);
        ended
    }

    /// The text of the command's answer at this moment, on the network of this name that the
    /// tenant of the token with this digest (SHA-256) has.
    ///
    /// What the command changes is committed once the text is made; a read-only command or a refusal writes
    /// nothing. A fault leaves the rows as they are; it is lack of memory, or it has a cause:
    /// that of a change may also be a statement that the database refuses.
    pub fn ask<R: Render>(
        &mut self,
        alloc: Global,
        digest: &[u8; 32],
        name: &[u8],
        now: u64,
        command: &Command,
        render: &R,
    ) -> Result<Vec<u8>, AskFault>
        ensures clean { HasCleanDisk (state S.Store self.new) → HasCleanDisk (state S.Store self.old) }
        ensures ends { (db : Database) (late : List Event) → StandsAt S.Store self.old db late → AskEnds S.Store R.shown self.new db late (Ask digest.now name.now now command.now) now result }
        ensures cause { is_reading command.now ≡ true → IfFault (HasCause (state S.Store self.old) (state S.Store self.new)) result }
        ensures stops { (db : Database) (late : List Event) → StandsAt S.Store self.old db late → IfFault (HasCauseOr (AskStops (tables_of db) digest.now name.now now command.now) (state S.Store self.old) (state S.Store self.new)) result }
    {
        let answered = ask::ask(
            alloc,
            &mut self.conn,
            &mut self.memory,
            digest,
            name,
            now,
            command,
            render,
        );
        self.memory.after_request(&answered);
        answered
    }

    /// The text of the list of the networks that the tenant of the token with this digest (SHA-256)
    /// has, in the byte order of their names. The moment doesn't matter.
    ///
    /// It writes nothing. A fault is lack of memory, or it has a cause.
    pub fn networks<R: Render>(
        &mut self,
        alloc: Global,
        digest: &[u8; 32],
        render: &R,
    ) -> Result<Vec<u8>, AskFault>
        ensures clean { HasCleanDisk (state S.Store self.new) → HasCleanDisk (state S.Store self.old) }
        ensures ends { (db : Database) (late : List Event) (now : ℕ) → StandsAt S.Store self.old db late → AskEnds S.Store R.shown self.new db late (Networks digest.now) now result }
        ensures cause { IfFault (HasCause (state S.Store self.old) (state S.Store self.new)) result }
    {
        let answered = list::networks(alloc, &mut self.conn, digest, render);
        self.memory.after_request(&answered);
        answered
    }

    /// All tenants, tokens and networks, each in any order, and how many peers and routes each network has.
    /// The networks in memory aren't used.
    ///
    /// It writes nothing. A fault is lack of memory, or it has a cause.
    pub fn census(&mut self, alloc: Global) -> Result<Census, Fault>
        ensures clean { HasCleanDisk (state S.Store self.new) → HasCleanDisk (state S.Store self.old) }
        ensures stands { (db : Database) (late : List Event) → StandsAt S.Store self.old db late → StandsAt S.Store self.new db late }
        ensures listed { (db : Database) (late : List Event) → StandsAt S.Store self.old db late → HasCleanDisk (state S.Store self.new) → IfOk result (IsCensus (tables_of db)) }
        ensures cause { IfErr result (HasCause (state S.Store self.old) (state S.Store self.new)) }
    {
        let read = census::census(alloc, &mut self.conn);
        self.memory.after_census(&read);
        read
    }
}

fn is_fault_of_store(found: &Result<Option<u32>, Fault>) -> bool
    ensures { result ≡ true → IsErrAnd found.now IsStore }
{
    matches!(found, Err(Fault::Store(_)))
}
