//! The lowest address that is free.
ghost use Rattle.std.specs.Prelude.{◌≡◌, ℕ, ◌+◌, ◌^◌, ◌<◌, ◌≤◌, ◌↔◌, List, IsTrue, IfOk, IfErr, IfSome, IfNone, MatchOption, OnOk};
ghost use Rattle.wgr_text.specs.Prefix.{rank, width};
ghost use Rattle.wgr_text.specs.declared.prefix.Span.{Span};
ghost use Rattle.wgr_pool.specs.Spans.{RisesFrom, Takes, IsLowestFree, IsFull, IsFilledBy, StopsAt};

use crate::pool::Pool;
use wgr_text::{Addr, Span};

/// Why a source of spans returned none.
#[derive(Clone, Copy, Debug, PartialEq, Eq)]
pub enum Stop {
    /// Memory ran out.
    NoMemory,
    /// What the spans are read from failed.
    Source,
}

/// A source of spans of held addresses, in the order in which they begin.
pub trait Holds {
    ghost use Rattle.wgr_pool.specs.declared.allot.Stop.{Stop};

    /// The spans that it has yet to return.
    ghost rest: { Self → List Span };

    /// Whether it returns exactly these.
    ghost honest: { Self → Type 0 };

    /// No span that it returns from now on begins below this place, which never decreases.
    ghost reached: { Self → ℕ };

    /// How many more spans it can return at most.
    ghost left: { Self → ℕ };

    /// Whether it has stopped, and why.
    ghost stopped: { Self → Stop → Type 0 };

    /// What a call leaves as it was.
    ghost keeps: { Self → Self → Type 0 };

    fn next_hold(&mut self) -> Result<Option<Span>, Stop>
        ensures falls { IfOk result (λ given. IfSome given (λ _. left self.new < left self.old)) }
        ensures reached { reached self.old ≤ reached self.new }
        ensures rises { IfOk result (λ given. IfSome given (λ s. (reached self.old ≤ rank s.lo) × (reached self.new ≡ rank s.lo))) }
        ensures first { honest self.new → IfOk result (λ given. Takes (rest self.old) given (rest self.new)) }
        ensures stops { IfErr result (λ why. stopped self.new why) }
        ensures was_honest { honest self.new → OnOk result (honest self.old) }
        ensures keeps { keeps self.old self.new };

    ghost in_order: { (s : Self) → honest s → RisesFrom (reached s) (rest s) };

    ghost keeps_itself: { (s : Self) → keeps s s };

    ghost keeps_on: { (a b c : Self) → keeps a b → keeps b c → keeps a c };
}

/// The lowest address that the pool may give and that no span of the source has. From the source it
/// takes no span after the first that decides: the one that begins above the address, or the one that
/// fills the pool.
pub fn lowest_free<H: Holds>(pool: &Pool, holds: &mut H) -> Result<Option<Addr>, Stop>
    ensures lowest { H.honest holds.new → IfOk result (λ found. MatchOption found (IsFull pool.now (H.rest holds.old)) (IsLowestFree pool.now (H.rest holds.old))) }
    ensures stop { IfErr result (λ why. H.stopped holds.new why) }
    ensures keeps { H.keeps holds.old holds.new }
    ensures taken { H.honest holds.new → IfOk result (λ found. IfSome found (StopsAt (H.rest holds.old) (H.rest holds.new))) }
    ensures filled { H.honest holds.new → IfOk result (λ found. IfNone found (IsFilledBy pool.now (H.rest holds.old) (H.rest holds.new))) }
{
    let Span { lo, hi: last } = pool.assignable();
    let mut candidate = lo;
    while let Some(span) = holds.next_hold()? {
        if !span.lo.is_at_most(&candidate) {
            return Ok(Some(candidate));
        }
        if last.is_at_most(&span.hi) {
            return Ok(None);
        }
        if candidate.is_at_most(&span.hi) {
            candidate = sibling(&last, span.hi.number() + 1);
        }
    }
    Ok(Some(candidate))
}

// The address with this number, of the same family.
pub(crate) fn sibling(of: &Addr, number: u128) -> Addr
    requires { number < 2 ^ width of.now.family }
    ensures { result ≡ record { family = of.now.family; number = number } }
{
    match Addr::new(of.family(), number) {
        Some(sibling) => sibling,
        None => *of,
    }
}
