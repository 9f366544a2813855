//! Pools that share no address: each ends before the next begins.
ghost use Rattle.std.specs.Prelude.{◌≡◌, ◌<◌, ◌↔◌, IsTrue};
ghost use Rattle.std.specs.List.{IsDistinct};
ghost use Rattle.std.specs.List.Sorted.{IsSorted};
ghost use Rattle.wgr_text.specs.Prefix.{IsAddr, IsPrefix, rank};
ghost use Rattle.wgr_model.specs.Consistent.{overlaps};
ghost use Rattle.wgr_model.specs.Rows.{last_of};
ghost use Rattle.wgr_checks.specs.Sorted.{pool_cmp};

use wgr_pool::Pool;
use wgr_text::Family;

// Whether each address of a pool comes before each of another. IPv4 comes before IPv6.
fn ends_before(one: &Pool, next: &Pool) -> bool
    ensures is { IsTrue result ↔ (rank (last_of one.now) < rank next.now.address) }
    ensures one { IsPrefix one.now × IsAddr one.now.address }
    ensures next { IsPrefix next.now × IsAddr next.now.address }
{
    let one = one.prefix().span();
    let next = next.prefix().span();
    match (one.hi.family(), next.lo.family()) {
        (Family::V4, Family::V6) => true,
        (Family::V6, Family::V4) => false,
        _ => one.hi.number() < next.lo.number(),
    }
}

/// Whether no two pools share an address.
pub fn pools_are_apart(pools: &[Pool]) -> bool
    ensures is { IsTrue result → IsDistinct overlaps pools.now }
    ensures only { IsSorted pool_cmp pools.now → IsDistinct overlaps pools.now → IsTrue result }
{
    for at in 1..pools.len() {
        if !ends_before(&pools[at - 1], &pools[at]) {
            return false;
        }
    }
    true
}
