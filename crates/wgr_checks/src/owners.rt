//! Whether owners exist: for all rows, by a walk over the ids that they name and the ids that owners
//! have, and for one row, by a search.
ghost use Rattle.std.specs.Prelude.{◌≡◌, ◌<◌, ◌↔◌, true, nat_eq, IsTrue, length, slice_index_or};
ghost use Rattle.std.specs.List.{list_any};
ghost use Rattle.std.specs.List.Sorted.{IsSorted};
ghost use Rattle.std.specs.Ordering.{nat_cmp};
ghost use Rattle.wgr_columns.specs.Decode.{IsNumberAt, number_at};
ghost use Rattle.wgr_checks.specs.Sorted.{AreAmong};

use sqlite::Row;
use wgr_columns::word_at;

// Whether an id below the owner's is at the place.
fn has_less(ids: &[u32], at: usize, owner: u32) -> bool
    ensures { IsTrue result ↔ ((at < length ids.now) × (slice_index_or ids.now at 0 < owner)) }
{
    at < ids.len() && ids[at] < owner
}

/// Whether each owner is one of the ids.
pub fn are_among(owners: &[u32], ids: &[u32]) -> bool
    ensures is { IsTrue result → AreAmong owners.now ids.now }
    ensures only { IsSorted nat_cmp owners.now → IsSorted nat_cmp ids.now → AreAmong owners.now ids.now → IsTrue result }
{
    let mut next = 0;
    for owner in owners {
        while has_less(ids, next, *owner) {
            next += 1;
        }
        if next >= ids.len() {
            return false;
        }
        if ids[next] != *owner {
            return false;
        }
    }
    true
}

// Whether the number is one of these, which ascend.
fn is_among(number: u32, numbers: &[u32]) -> bool
    ensures { IsSorted nat_cmp numbers.now → IsTrue result ↔ (list_any (λ id. nat_eq number id) numbers.now ≡ true) }
{
    numbers.binary_search(&number).is_ok()
}

/// Whether one of these numbers, which ascend, is at this place.
pub(crate) fn is_among_at(row: &Row, at: usize, numbers: &[u32]) -> bool
    ensures { IsSorted nat_cmp numbers.now → IsTrue result ↔ (IsNumberAt row.now at × (list_any (λ id. nat_eq (number_at row.now at) id) numbers.now ≡ true)) }
{
    match word_at(row, at) {
        Some(number) => is_among(number, numbers),
        None => false,
    }
}
