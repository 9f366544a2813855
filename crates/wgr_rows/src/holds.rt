//! The spans of a network's held addresses, read row by row from a floor on.
ghost use Rattle.std.specs.Prelude.{◌≡◌, ◌≤◌, ◌<◌, ◌+◌, ◌-◌, nat_eq, length, option_to_list, false, IfOk, IfErr, IfNone, IfSome, MatchOption, None, OnOk};
ghost use Rattle.std.specs.HashSet.{contains};
ghost use Rattle.std.proofs.Common.{refl, ◌∙◌};
ghost use Rattle.wgr_text.specs.Prefix.{rank};
ghost use Rattle.wgr_pool.specs.Spans.{IsFilledBy, IsFull, IsLowestFree, StopsAt, reached_after};
ghost use Rattle.sqlite.specs.State.{HasCleanDisk};
ghost use Rattle.sqlite.specs.Held.{state};
ghost use Rattle.wgr_sql.specs.Causes.{HasCause};
ghost use Rattle.wgr_sql.specs.declared.fault.Fault.{Fault};
ghost use Rattle.wgr_columns.specs.Decode.{tables_of};
ghost use Rattle.wgr_rows.specs.declared.progress.Progress.TheVariants.{Running, Stopped};
ghost use Rattle.wgr_rows.specs.HeldRows.{TakesFirst, below, coming, is_passed_over, max_holds, rest, rows_to_come};
ghost use Rattle.wgr_rows.specs.Rising.{next_from, told_rise};
ghost use Rattle.wgr_rows.specs.Staying.{Stays};
ghost use Rattle.wgr_rows.specs.Stopping.{Blames, IsSound, Leaves, StopsAs, stop_of};
ghost use Rattle.wgr_rows.specs.Left.{leaves_itself, leaves_on};
ghost use Rattle.wgr_rows.specs.Telling.{ShowsGoodRows, Tells};

use crate::progress::Progress;
use crate::row::{hold_in, is_from};
use sqlite::{Alter, Rows};
use std::collections::HashSet;
use wgr_peers::{Capacity, MAX_ROUTES};
use wgr_pool::{Holds, Pool, Stop, lowest_free};
use wgr_sql::{Fault, fault_of};
use wgr_text::{Addr, Prefix, Span};

/// How many prefixes a network may have: an address of each peer, and the routes.
const MAX_HOLDS: usize = Capacity::MOST as usize + MAX_ROUTES;

/// What a source says of this fault.
fn stop_of(fault: Fault) -> Stop
    ensures { result ≡ stop_of fault }
{
    match fault {
        Fault::NoMemory => Stop::NoMemory,
        Fault::Store(_) => Stop::Source,
    }
}

/// The spans of the addresses that a network holds: one of those below its floor, and then those of its
/// rows from there on, read row by row. Rows that lead to the peers of the numbers in `expired` are passed
/// over, if the rows show their peers.
#[derive(Drop)]
pub struct HoldRows<'r, 'conn, 'a, S: Alter> {
    rows: &'r mut Rows<'conn, S>,
    shows_peers: bool,
    network: u32,
    pool: Prefix,
    // From which address on the rows are read.
    start: Addr,
    // What is held below it, until that is taken.
    first: Option<Span>,
    expired: &'a HashSet<u32>,
    // How many rows were taken.
    taken: usize,
    // Where the span that was taken last begins: what is to come begins no lower.
    last: Option<Addr>,
    at: Progress,
    ghost in_range: { taken ≤ max_holds + 1 },
    ghost told: { ∥ Tells S.Store rows.now.conn.now shows_peers network pool start.number taken first last at ∥₁ },
}

impl<'r, 'conn, 'a, S: Alter> HoldRows<'r, 'conn, 'a, S> {
    /// The span of the next row, and the number of the peer to which it leads, if the row shows it.
    fn next_row(&mut self) -> Result<Option<(Span, Option<u32>)>, Stop>
        ensures same_rows { self.new.rows.ghost_name ≡ self.old.rows.ghost_name }
        ensures same_reference { self.new.rows.now.conn.ghost_name ≡ self.old.rows.now.conn.ghost_name }
        ensures stays { Stays S.Store self.old.rows.now.conn.now self.new.rows.now.conn.now }
        ensures settings { (self.new.network ≡ self.old.network) × (self.new.pool ≡ self.old.pool) × (self.new.start ≡ self.old.start) × (self.new.first ≡ self.old.first) × (self.new.expired.now ≡ self.old.expired.now) }
        ensures falls { IfOk result (λ given. IfSome given (λ _. self.old.taken < self.new.taken)) }
        ensures reached { reached_after self.old.last ≤ reached_after self.new.last }
        ensures rises { IfOk result (λ given. IfSome given (λ h. (reached_after self.old.last ≤ rank h.0.lo) × (reached_after self.new.last ≡ rank h.0.lo))) }
        ensures first { ShowsGoodRows (state S.Store self.new.rows.now.conn.now) → IfOk result (λ given. TakesFirst (rows_to_come self.old.shows_peers self.old.at (tables_of (state S.Store self.old.rows.now.conn.now).now) self.old.network self.old.pool self.old.start.number self.old.taken) given (rows_to_come self.new.shows_peers self.new.at (tables_of (state S.Store self.new.rows.now.conn.now).now) self.new.network self.new.pool self.new.start.number self.new.taken)) }
        ensures stops { IfErr result (λ why. StopsAs self.new.at why) }
        ensures was_good { ShowsGoodRows (state S.Store self.new.rows.now.conn.now) → OnOk result (ShowsGoodRows (state S.Store self.old.rows.now.conn.now)) }
        ensures blames { Blames self.old.network self.old.pool (state S.Store self.old.rows.now.conn.now) self.old.at (state S.Store self.new.rows.now.conn.now) self.new.at }
    {
        match self.at {
            Progress::Running => {}
            Progress::Done => return Ok(None),
            Progress::Stopped(fault) => return Err(stop_of(fault)),
        }
        self.pool.rules_hold();
        self.start.rules_hold();
        // Until the row is at hand, nothing is known of what comes after it.
        self.at = Progress::Stopped(Fault::DAMAGED);
        if self.taken > MAX_HOLDS {
            return Err(Stop::Source);
        }
        if let Err(error) = self.rows.advance() {
            let fault = fault_of(error);
            self.at = Progress::Stopped(fault);
            return Err(stop_of(fault));
        }
        let Some(row) = self.rows.get() else {
            self.at = Progress::Done;
            return Ok(None);
        };
        let Some((span, number)) = hold_in(row, self.network, self.shows_peers) else {
            return Err(Stop::Source);
        };
        if !is_from(self.last, &span.lo) {
            return Err(Stop::Source);
        }
        self.taken += 1;
        self.last = Some(span.lo);
        self.at = Progress::Running;
        Ok(Some((span, number)))
    }

    /// Whether a row leads to an expired peer, by its peer's number.
    fn is_passed_over(&self, number: Option<u32>) -> bool
        ensures { result ≡ is_passed_over (contains nat_eq self.now.expired.now) number }
    {
        match number {
            Some(number) => self.expired.contains(&number),
            None => false,
        }
    }
}

impl<S: Alter> Holds for HoldRows<'_, '_, '_, S> {
    ghost rest = { λ s. rest s.first (contains nat_eq s.expired.now) s.shows_peers s.at (tables_of (state S.Store s.rows.now.conn.now).now) s.network s.pool s.start.number s.taken };

    ghost honest = { λ s. ShowsGoodRows (state S.Store s.rows.now.conn.now) };

    ghost reached = { λ s. next_from s.first s.last };

    ghost left = { λ s. max_holds + 1 - s.taken + length (option_to_list s.first) };

    ghost stopped = { λ s why. StopsAs s.at why };

    ghost keeps = { λ a b. (b.rows.ghost_name ≡ a.rows.ghost_name) × (b.rows.now.conn.ghost_name ≡ a.rows.now.conn.ghost_name) × Leaves S.Store a.rows.now.conn.now a.network a.pool a.at b.rows.now.conn.now b.network b.pool b.at };

    fn next_hold(&mut self) -> Result<Option<Span>, Stop> {
        if let Some(first) = self.first {
            self.first = None;
            self.last = Some(first.lo);
            return Ok(Some(first));
        }
        while let Some((span, number)) = self.next_row()? {
            if !self.is_passed_over(number) {
                return Ok(Some(span));
            }
        }
        Ok(None)
    }

    ghost in_order = { λ s good. told_rise S.Store.own s.rows.now.conn.now s.shows_peers s.network s.pool s.start.number s.taken s.first s.last s.at (contains nat_eq s.expired.now) s.told good };

    ghost keeps_itself = { λ s. (refl, refl, leaves_itself S.Store.own s.rows.now.conn.now s.network s.pool s.at) };

    ghost keeps_on = { λ a b c one other. (other.0 ∙ one.0, other.1 ∙ one.1, leaves_on S.Store.own a.rows.now.conn.now b.rows.now.conn.now c.rows.now.conn.now a.network a.pool a.at b.network b.pool b.at c.network c.pool c.at one.2 other.2) };
}

/// The fault for which a reading has stopped.
fn fault_at(at: Progress) -> Fault
    ensures { (fault : Fault) → at ≡ Stopped fault → result ≡ fault }
{
    match at {
        Progress::Stopped(fault) => fault,
        Progress::Running | Progress::Done => Fault::DAMAGED,
    }
}

// The pool's addresses below this one, if there are any.
fn below(pool: &Prefix, start: &Addr) -> Option<Span>
    ensures { result ≡ below pool.now start.now }
{
    let lo = pool.address();
    if lo.number() >= start.number() {
        return None;
    }
    let hi = Addr::new(start.family(), start.number() - 1)?;
    Some(Span { lo, hi })
}

/// The lowest address of the pool that may be given, isn't below `start`, and that none of the spans has
/// which these rows are about to show.
pub(crate) fn lowest_in<S: Alter>(
    rows: &mut Rows<'_, S>,
    shows_peers: bool,
    network: u32,
    pool: &Pool,
    start: Addr,
    expired: &HashSet<u32>,
) -> Result<Option<Addr>, Fault>
    requires told { Tells S.Store rows.old.conn.now shows_peers network pool.now start.number 0 (below pool.now start) None Running }
    ensures same_reference { rows.new.conn.ghost_name ≡ rows.old.conn.ghost_name }
    ensures stays { Stays S.Store rows.old.conn.now rows.new.conn.now }
    ensures lowest { ShowsGoodRows (state S.Store rows.new.conn.now)
        → IfOk result (λ found. MatchOption found (IsFull pool.now (coming shows_peers (contains nat_eq expired.now) (tables_of (state S.Store rows.old.conn.now).now) network pool.now start))
        (IsLowestFree pool.now (coming shows_peers (contains nat_eq expired.now) (tables_of (state S.Store rows.old.conn.now).now) network pool.now start))) }
    ensures cause { (HasCleanDisk (state S.Store rows.new.conn.now) → IsSound network pool.now (state S.Store rows.old.conn.now)) → IfErr result (HasCause (state S.Store rows.old.conn.now) (state S.Store rows.new.conn.now)) }
{
    let prefix = pool.prefix();
    let mut holds = HoldRows {
        rows,
        shows_peers,
        network,
        pool: prefix,
        start,
        first: below(&prefix, &start),
        expired,
        taken: 0,
        last: None,
        at: Progress::Running,
    };
    lowest_held(pool, &mut holds)
}

/// The lowest address of the pool that may be given and that none of the spans to come has.
///
/// What the rows end as a caller learns only where the name of the reference is told in plain words,
/// and not through `Holds`.
fn lowest_held<S: Alter>(
    pool: &Pool,
    holds: &mut HoldRows<'_, '_, '_, S>,
) -> Result<Option<Addr>, Fault>
    ensures same_rows { holds.new.rows.ghost_name ≡ holds.old.rows.ghost_name }
    ensures same_reference { holds.new.rows.now.conn.ghost_name ≡ holds.old.rows.now.conn.ghost_name }
    ensures stays { Stays S.Store holds.old.rows.now.conn.now holds.new.rows.now.conn.now }
    ensures lowest { ShowsGoodRows (state S.Store holds.new.rows.now.conn.now)
        → IfOk result (λ found. MatchOption found (IsFull pool.now (rest holds.old.first (contains nat_eq holds.old.expired.now) holds.old.shows_peers holds.old.at (tables_of (state S.Store holds.old.rows.now.conn.now).now) holds.old.network holds.old.pool holds.old.start.number holds.old.taken))
        (IsLowestFree pool.now (rest holds.old.first (contains nat_eq holds.old.expired.now) holds.old.shows_peers holds.old.at (tables_of (state S.Store holds.old.rows.now.conn.now).now) holds.old.network holds.old.pool holds.old.start.number holds.old.taken))) }
    ensures taken { ShowsGoodRows (state S.Store holds.new.rows.now.conn.now)
        → IfOk result (λ found. IfSome found (StopsAt (rest holds.old.first (contains nat_eq holds.old.expired.now) holds.old.shows_peers holds.old.at (tables_of (state S.Store holds.old.rows.now.conn.now).now) holds.old.network holds.old.pool holds.old.start.number holds.old.taken) (rest holds.new.first (contains nat_eq holds.new.expired.now) holds.new.shows_peers holds.new.at (tables_of (state S.Store holds.new.rows.now.conn.now).now) holds.new.network holds.new.pool holds.new.start.number holds.new.taken))) }
    ensures filled { ShowsGoodRows (state S.Store holds.new.rows.now.conn.now)
        → IfOk result (λ found. IfNone found (IsFilledBy pool.now (rest holds.old.first (contains nat_eq holds.old.expired.now) holds.old.shows_peers holds.old.at (tables_of (state S.Store holds.old.rows.now.conn.now).now) holds.old.network holds.old.pool holds.old.start.number holds.old.taken) (rest holds.new.first (contains nat_eq holds.new.expired.now) holds.new.shows_peers holds.new.at (tables_of (state S.Store holds.new.rows.now.conn.now).now) holds.new.network holds.new.pool holds.new.start.number holds.new.taken))) }
    ensures cause { holds.old.at ≡ Running → (HasCleanDisk (state S.Store holds.new.rows.now.conn.now) → IsSound holds.old.network holds.old.pool (state S.Store holds.old.rows.now.conn.now)) → IfErr result (HasCause (state S.Store holds.old.rows.now.conn.now) (state S.Store holds.new.rows.now.conn.now)) }
{
    match lowest_free(pool, holds) {
        Ok(found) => Ok(found),
        Err(_) => Err(fault_at(holds.at)),
    }
}
