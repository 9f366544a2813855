//! Sets of addresses, as runs.
ghost use Rattle.std.specs.Prelude.{◌≡◌, ℕ, ◌+◌, ◌-◌, ◌<◌, ◌≤◌, ◌↔◌, ◌⊎◌, true, false, List, [], length, slice_index_or, IsTrue, IsOk, IfOk, OnOk, OnErr};
ghost use Rattle.std.specs.List.{list_any};
ghost use Rattle.wgr_text.specs.Prefix.{AddrValue, IsAddr, rank};
ghost use Rattle.wgr_text.specs.declared.prefix.Span.{Span, Span as SpanValue};
ghost use Rattle.wgr_pool.specs.PrefixTests.{same_address};
ghost use Rattle.wgr_pool.specs.Spans.{IsWithin, IsHeld, RisesFrom, spans_from};
ghost use Rattle.std.specs.Vec.{vec_len, vec_capacity};
ghost use Rattle.wgr_pool.specs.Runs.{AreRunsFrom, IsGapAt, IsJoined, IsParted, IsPartBelow, IsPartAbove, places};

use std::alloc::{AllocError, Global};
use std::marker::Model;
use wgr_text::{Addr, Family, Span};

/// A set of addresses, kept as its runs of consecutive addresses.
///
/// Consecutive addresses take one span, however many they are, so the first gap after
/// them is found at once. There is room for a span for each address, so that removing one
/// needs no memory, even if it splits a run.
#[derive(Drop)]
pub struct AddressSet {
    runs: Vec<Span>,
    // How many addresses there are.
    size: usize,
}

impl Model for AddressSet {
    ghost Value = { List Span };

    ghost view = { λ s. s.runs.items };

    ghost invariant = { λ s. AreRunsFrom 0 s.runs.items × (places s.runs.items ≤ s.size) × (s.size ≤ vec_capacity s.runs) };
}

impl AddressSet {
    /// The empty set.
    pub fn new(alloc: Global) -> AddressSet
        ensures { result ≡ [] }
    {
        AddressSet {
            runs: Vec::new(alloc),
            size: 0,
        }
    }

    /// The set of these addresses. They are sorted first, so that each is inserted at the end
    /// and moves no other.
    pub fn collect(alloc: Global, mut addresses: Vec<Addr>) -> Result<AddressSet, AllocError>
        ensures { IfOk result (λ set. (b : AddrValue) → IsAddr b → IsHeld set b ↔ (list_any (λ a. same_address a b) addresses.items ≡ true)) }
    {
        addresses.sort_unstable();
        let mut set = AddressSet::new(alloc);
        for address in &addresses {
            set.insert(*address)?;
        }
        Ok(set)
    }

    /// The set's runs, in the order of their addresses.
    pub fn spans(&self) -> &[Span]
        ensures value { result.now ≡ self.now }
        ensures in_order { RisesFrom 0 self.now }
    {
        self.runs.as_slice()
    }

    /// The runs that end no lower than the address, in the order of their addresses.
    pub fn spans_from(&self, address: &Addr) -> &[Span]
        ensures value { result.now ≡ spans_from address.now self.now }
        ensures in_order { RisesFrom 0 result.now }
    {
        let runs = self.runs.as_slice();
        let below = runs.partition_point(|run| !address.is_at_most(&run.hi));
        &runs[below..]
    }

    /// Whether the set has the address.
    pub fn contains(&self, address: &Addr) -> bool
        ensures { IsTrue result ↔ IsHeld self.now address.now }
    {
        let runs = self.runs.as_slice();
        let place = place_above(runs, address);
        is_in_last(runs, place, address)
    }

    /// Inserts the address into the set, joining the runs that it touches. An address that the
    /// set already has needs no memory.
    pub fn insert(&mut self, address: Addr) -> Result<(), AllocError>
        ensures held { OnOk result ((b : AddrValue) → IsAddr b → IsHeld self.new b ↔ ((same_address address b ≡ true) ⊎ IsHeld self.old b)) }
        ensures unchanged { OnErr result (self.new ≡ self.old) }
        ensures succeeds { IsHeld self.old address → IsOk result }
    {
        let place = place_above(&self.runs, &address);
        if is_in_last(&self.runs, place, &address) {
            return Ok(());
        }
        self.runs.reserve(self.size - self.runs.len() + 1)?;
        join(&mut self.runs, place, address);
        self.size += 1;
        Ok(())
    }

    /// A copy of the set.
    pub fn copy(&self) -> Result<AddressSet, AllocError>
        ensures { IfOk result (λ copy. copy ≡ self.now) }
    {
        let mut runs = Vec::with_capacity(*self.runs.allocator(), self.size)?;
        runs.extend_from_slice(&self.runs)?;
        Ok(AddressSet {
            runs,
            size: self.size,
        })
    }

    /// Removes the address from the set; the run that has it becomes shorter or is split in
    /// two.
    pub fn remove(&mut self, address: &Addr)
        ensures { (b : AddrValue) → IsAddr b → IsHeld self.new b ↔ ((same_address address.now b ≡ false) × IsHeld self.old b) }
    {
        address.rules_hold();
        let place = place_above(&self.runs, address);
        if is_in_last(&self.runs, place, address) {
            part(&mut self.runs, place - 1, address);
            self.size -= 1;
        }
    }

    /// Removes an address that the set has, and inserts the other instead.
    pub fn replace(&mut self, address: &Addr, by: Addr)
        requires { IsHeld self.old address.now }
        ensures { (b : AddrValue) → IsAddr b → IsHeld self.new b ↔ ((same_address by b ≡ true) ⊎ ((same_address address.now b ≡ false) × IsHeld self.old b)) }
    {
        address.rules_hold();
        let place = place_above(&self.runs, address);
        if !is_in_last(&self.runs, place, address) {
            unreachable!();
        }
        part(&mut self.runs, place - 1, address);
        let place = place_above(&self.runs, &by);
        if is_in_last(&self.runs, place, &by) {
            self.size -= 1;
            return;
        }
        join(&mut self.runs, place, by);
    }
}

// Inserts an address into the gap before the run at the place, joining the runs that it touches.
// There is room for one more.
fn join(runs: &mut Vec<Span>, place: usize, address: Addr)
    requires in_order { AreRunsFrom 0 runs.old.items }
    requires gap { IsGapAt runs.old.items place address }
    requires room { vec_len runs.old < vec_capacity runs.old }
    ensures joined { IsJoined runs.old.items runs.new.items address }
    ensures room { vec_capacity runs.old ≤ vec_capacity runs.new }
{
    let follows = follows_last(runs, place, &address);
    let leads = leads_next(runs, place, &address);
    match (follows, leads) {
        (true, true) => {
            runs[place - 1].hi = runs[place].hi;
            runs.remove(place);
        }
        (true, false) => runs[place - 1].hi = address,
        (false, true) => runs[place].lo = address,
        (false, false) => {
            let run = Span {
                lo: address,
                hi: address,
            };
            let Ok(()) = runs.insert(place, run) else {
                unreachable!();
            };
        }
    }
}

// Removes an address from the run at this place, which has it. There is room for a run for each
// address.
fn part(runs: &mut Vec<Span>, at: usize, address: &Addr)
    requires in_order { AreRunsFrom 0 runs.old.items }
    requires fits { IsAddr address.now }
    requires within { at < length runs.old.items }
    requires has { (d : SpanValue) → IsWithin (slice_index_or runs.old.items at d) address.now }
    requires room { places runs.old.items ≤ vec_capacity runs.old }
    ensures parted { IsParted runs.old.items runs.new.items address.now }
    ensures room { vec_capacity runs.old ≤ vec_capacity runs.new }
{
    let run = runs[at];
    match (part_below(&run, address), part_above(&run, address)) {
        (None, None) => {
            runs.remove(at);
        }
        (Some(below), None) => runs[at] = below,
        (None, Some(above)) => runs[at] = above,
        (Some(below), Some(above)) => {
            let Ok(()) = runs.insert(at + 1, above) else {
                unreachable!();
            };
            runs[at] = below;
        }
    }
}

// What the run has below the address.
fn part_below(run: &Span, address: &Addr) -> Option<Span>
    requires { IsWithin run.now address.now }
    ensures { IsPartBelow run.now address.now result }
{
    if address.is_at_most(&run.lo) {
        return None;
    }
    Some(Span {
        lo: run.lo,
        hi: before(address, &run.lo),
    })
}

// What the run has above the address.
fn part_above(run: &Span, address: &Addr) -> Option<Span>
    requires { IsWithin run.now address.now }
    ensures { IsPartAbove run.now address.now result }
{
    if run.hi.is_at_most(address) {
        return None;
    }
    Some(Span {
        lo: after(address, &run.hi),
        hi: run.hi,
    })
}

// The last address below this one, where another is below it.
fn before(address: &Addr, other: &Addr) -> Addr
    requires { rank other.now < rank address.now }
    ensures from { rank other.now ≤ rank result }
    ensures below { rank result < rank address.now }
    ensures last { (b : AddrValue) → IsAddr b → rank b < rank address.now → rank b ≤ rank result }
{
    other.rules_hold();
    let number = address.number();
    let (family, last) = if number == 0 {
        (Family::V4, u128::from(u32::MAX))
    } else {
        (address.family(), number - 1)
    };
    let Some(before) = Addr::new(family, last) else {
        unreachable!();
    };
    before
}

// The first address above this one, where another is above it.
fn after(address: &Addr, other: &Addr) -> Addr
    requires { rank address.now < rank other.now }
    ensures above { rank address.now < rank result }
    ensures to { rank result ≤ rank other.now }
    ensures first { (b : AddrValue) → IsAddr b → rank address.now < rank b → rank result ≤ rank b }
{
    other.rules_hold();
    let number = address.number();
    let (family, first) = if address.family() == Family::V4 && number == u128::from(u32::MAX) {
        (Family::V6, 0)
    } else {
        (address.family(), number + 1)
    };
    let Some(after) = Addr::new(family, first) else {
        unreachable!();
    };
    after
}

// The place of the first run that begins above the address, or the end.
fn place_above(runs: &[Span], address: &Addr) -> usize
    requires { AreRunsFrom 0 runs.now }
    ensures within { result ≤ length runs.now }
    ensures below { (k : ℕ) (d : SpanValue) → k < result → rank (slice_index_or runs.now k d).lo ≤ rank address.now }
    ensures above { (k : ℕ) (d : SpanValue) → result ≤ k → k < length runs.now → rank address.now < rank (slice_index_or runs.now k d).lo }
{
    runs.partition_point(|run| run.lo.is_at_most(address))
}

// Whether `after` is the address that follows `before`.
fn is_next(before: &Addr, after: &Addr) -> bool
    ensures next { IsTrue result → rank after.now ≡ rank before.now + 1 }
    ensures fits { IsAddr after.now }
{
    before.family() == after.family()
        && before.number() < after.number()
        && after.number() - before.number() == 1
}

// Whether the last run before the place ends no lower than the address.
fn is_in_last(runs: &[Span], place: usize, address: &Addr) -> bool
    requires { place ≤ length runs.now }
    ensures has { IsTrue result → (0 < place) × ((d : SpanValue) → rank address.now ≤ rank (slice_index_or runs.now (place - 1) d).hi) }
    ensures past { result ≡ false → 0 < place → (d : SpanValue) → rank (slice_index_or runs.now (place - 1) d).hi < rank address.now }
{
    place > 0 && address.is_at_most(&runs[place - 1].hi)
}

// Whether the address follows the last run before the place.
fn follows_last(runs: &[Span], place: usize, address: &Addr) -> bool
    requires { place ≤ length runs.now }
    ensures next { IsTrue result → (0 < place) × ((d : SpanValue) → rank address.now ≡ rank (slice_index_or runs.now (place - 1) d).hi + 1) }
    ensures fits { IsAddr address.now }
{
    address.rules_hold();
    place > 0 && is_next(&runs[place - 1].hi, address)
}

// Whether the run at the place follows the address.
fn leads_next(runs: &[Span], place: usize, address: &Addr) -> bool
    ensures next { IsTrue result → (place < length runs.now) × ((d : SpanValue) → rank (slice_index_or runs.now place d).lo ≡ rank address.now + 1) }
{
    place < runs.len() && is_next(address, &runs[place].lo)
}
