//! A network's held spans: its addresses and its routes in one order.
ghost use Rattle.std.specs.Prelude.{◌≡◌, ℕ, ◌+◌, ◌<◌, ◌≤◌, ◌↔◌, ◌⊎◌, Bool, true, List, length, [], ◌∷◌, nat_eq, IsTrue, MatchOption};
ghost use Rattle.std.specs.HashSet.{contains};
ghost use Rattle.std.specs.List.{All, AllPairs};
ghost use Rattle.wgr_text.specs.Prefix.{AddrValue, PrefixValue, IsAddr, IsPrefix, rank};
ghost use Rattle.wgr_text.specs.declared.prefix.Span.{Span, Span as SpanValue};
ghost use Rattle.wgr_pool.specs.PrefixTests.{is_before, covers};
ghost use Rattle.wgr_pool.specs.Allot.{lowest_where};
ghost use Rattle.wgr_pool.specs.Pool.{IsPool};
ghost use Rattle.wgr_pool.specs.Spans.{IsHeld, RisesFrom, Takes, reached_after};
ghost use Rattle.wgr_pool.specs.Rising.{RisesFrom-prop};
ghost use Rattle.wgr_pool.specs.HeldSpans.{span_of, is_routed, routes_in, standing, standing_spans, merged};
ghost use Rattle.wgr_pool.specs.Waiting.{BeginLater, to_come, waiting};

use crate::address_set::AddressSet;
use crate::allot::{Holds, Stop, lowest_free};
use crate::pool::{Pool, covers};
use std::collections::HashSet;
use wgr_text::{Addr, Prefix, Span};

/// The spans of the routes that lie wholly in a pool, except for those to expired peers.
#[derive(Drop)]
struct RouteSpans<'a> {
    pool: Prefix,
    expired: &'a HashSet<u32>,
    routes: &'a [(Prefix, u32)],
}

impl RouteSpans<'_> {
    // The span of the next route in the pool.
    fn next(&mut self) -> Option<Span>
        ensures next { Takes (to_come self.old) result (to_come self.new) }
        ensures pool { self.new.pool ≡ self.old.pool }
    {
        while let Some((route, later)) = self.routes.split_first() {
            self.routes = later;
            if covers(&self.pool, &route.0) && !self.expired.contains(&route.1) {
                return Some(whole(&route.0));
            }
        }
        None
    }
}

/// The spans of a network's held addresses, in the order in which they begin.
#[derive(Drop)]
pub struct HeldSpans<'a> {
    runs: &'a [Span],
    // The next route's span, which waits while runs begin before it.
    route: Option<Span>,
    routes: RouteSpans<'a>,
    // Where the span that was returned last begins: later ones begin no lower.
    last: Option<Addr>,
    ghost runs_rise: { RisesFrom (reached_after last) runs.now } by { RisesFrom-prop (reached_after last) runs.now },
    ghost routes_rise: { RisesFrom (reached_after last) (waiting route routes) } by { RisesFrom-prop (reached_after last) (waiting route routes) },
    ghost all_rise: { RisesFrom (reached_after last) (merged runs.now (waiting route routes)) } by { RisesFrom-prop (reached_after last) (merged runs.now (waiting route routes)) },
}

impl<'a> HeldSpans<'a> {
    /// The source of the runs and of the routes that lie wholly in the pool, except for those to the
    /// peers with these numbers.
    pub fn new(
        pool: &Pool,
        runs: &'a [Span],
        routes: &'a [(Prefix, u32)],
        expired: &'a HashSet<u32>,
    ) -> HeldSpans<'a>
        requires runs_rise { RisesFrom 0 runs.now }
        requires routes_rise { AllPairs (λ r s. is_before r.0 s.0 ≡ true) routes.now }
        ensures runs { result.runs.now ≡ runs.now }
        ensures routes { waiting result.route result.routes ≡ standing_spans pool.now (contains nat_eq expired.now) routes.now }
        ensures is_pool { IsPool pool.now }
    {
        let mut routes = RouteSpans {
            pool: pool.prefix(),
            expired,
            routes,
        };
        let route = routes.next();
        HeldSpans {
            runs,
            route,
            routes,
            last: None,
        }
    }

    // The next run and those after it, unless the next route begins before it.
    fn next_run(&self) -> Option<(Span, &'a [Span])>
        ensures { MatchOption result (BeginLater self.now.route self.now.runs.now) (λ p. (self.now.runs.now ≡ p.0 ∷ p.1.now) × RisesFrom (rank p.0.lo) (waiting self.now.route self.now.routes)) }
    {
        let (run, later) = self.runs.split_first()?;
        match self.route {
            Some(route) if !run.lo.is_at_most(&route.lo) => None,
            _ => Some((*run, later)),
        }
    }
}

impl Holds for HeldSpans<'_> {
    ghost rest = { λ s. merged s.runs.now (waiting s.route s.routes) };

    ghost honest = { λ s. Unit {0} };

    ghost reached = { λ s. reached_after s.last };

    ghost left = { λ s. length (merged s.runs.now (waiting s.route s.routes)) };

    ghost stopped = { λ s why. ⊥ };

    ghost keeps = { λ a b. Unit {0} };

    fn next_hold(&mut self) -> Result<Option<Span>, Stop> {
        match (self.next_run(), self.route) {
            (Some((run, later)), _) => {
                self.runs = later;
                self.last = Some(run.lo);
                Ok(Some(run))
            }
            (None, Some(route)) => {
                self.route = self.routes.next();
                self.last = Some(route.lo);
                Ok(Some(route))
            }
            (None, None) => Ok(None),
        }
    }

    ghost in_order = { λ s h. s.all_rise };

    ghost keeps_itself = { λ s. tt };

    ghost keeps_on = { λ a b c one other. tt };
}

// The prefix's span.
fn whole(prefix: &Prefix) -> Span
    ensures { result ≡ span_of prefix.now }
{
    prefix.span()
}

// The routes that begin in the pool.
fn routes_in<'a>(pool: &Pool, routes: &'a [(Prefix, u32)]) -> &'a [(Prefix, u32)]
    requires { AllPairs (λ r s. is_before r.0 s.0 ≡ true) routes.now }
    ensures { result.now ≡ routes_in pool.now routes.now }
{
    let Span { lo, hi } = whole(&pool.prefix());
    let start = routes.partition_point(|route| !lo.is_at_most(&route.0.address()));
    let rest = &routes[start..];
    let count = rest.partition_point(|route| route.0.address().is_at_most(&hi));
    &rest[..count]
}

/// The lowest address of the pool that may be given and that neither the set has nor a route that
/// lies wholly in the pool. Routes to the peers with the numbers in `expired` don't count.
pub fn lowest_address(
    pool: &Pool,
    addresses: &AddressSet,
    routes: &[(Prefix, u32)],
    expired: &HashSet<u32>,
) -> Option<Addr>
    requires in_order { AllPairs (λ r s. is_before r.0 s.0 ≡ true) routes.now }
    requires prefixes { All (λ r. IsPrefix r.0) routes.now }
    ensures { (taken : AddrValue → Bool) → ((b : AddrValue) → IsAddr b → (taken b ≡ true) ↔ (IsHeld addresses.now b ⊎ (is_routed pool.now (standing (contains nat_eq expired.now) routes.now) b ≡ true))) → result ≡ lowest_where pool.now taken }
{
    let runs = addresses.spans_from(&pool.prefix().address());
    let mut holds = HeldSpans::new(pool, runs, routes_in(pool, routes), expired);
    match lowest_free(pool, &mut holds) {
        Ok(found) => found,
        // A source in memory never stops.
        Err(_) => None,
    }
}
