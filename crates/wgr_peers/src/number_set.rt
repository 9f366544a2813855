//! Sets of numbers.
ghost use Rattle.std.specs.Prelude.{◌≡◌, ℕ, Bool, true, cond, nat_eq, IsTrue, OnOk, OnErr};
ghost use Rattle.std.specs.List.{list_any};

use std::alloc::AllocError;
use std::marker::Model;

/// Numbers of peers, sorted, so that a lookup is a binary search. It is made from a
/// vector without allocating memory.
#[derive(Debug, Drop)]
pub struct NumberSet {
    numbers: Vec<u32>,
}

impl Model for NumberSet {
    ghost use Rattle.std.specs.Prelude.{ℕ, List};
    ghost use Rattle.std.specs.List.Sorted.{IsNonDecreasing};

    ghost Value = { List ℕ };

    ghost view = { λ s. s.numbers.items };

    ghost invariant = { λ s. IsNonDecreasing s.numbers.items };
}

impl NumberSet {
    /// The set of these numbers, which may be in any order.
    pub fn of(mut numbers: Vec<u32>) -> NumberSet
        ensures { (n : ℕ) → list_any (nat_eq n) result ≡ list_any (nat_eq n) numbers.items }
    {
        numbers.sort_unstable();
        NumberSet { numbers }
    }

    /// The numbers, in order.
    pub fn as_slice(&self) -> &[u32]
        ensures { result.now ≡ self.now }
    {
        &self.numbers
    }

    /// Whether the number is one of them.
    pub fn contains(&self, number: u32) -> bool
        ensures { result ≡ list_any (nat_eq number) self.now }
    {
        self.numbers.binary_search(&number).is_ok()
    }

    /// Inserts a number into the set; if memory runs out, the set is unchanged.
    pub fn insert(&mut self, number: u32) -> Result<(), AllocError>
        ensures ok { OnOk result ((n : ℕ) → list_any (nat_eq n) self.new ≡ cond (nat_eq number n) true (list_any (nat_eq n) self.old)) }
        ensures err { OnErr result (self.new ≡ self.old) }
    {
        self.numbers.push(number)?;
        self.numbers.sort_unstable();
        Ok(())
    }
}
