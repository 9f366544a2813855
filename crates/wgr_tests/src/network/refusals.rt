//! The texts of refusals.
use std::alloc::AllocGlobal;
use std::process::Abort;
use wgr_core::{CommandRefusal, Refusal};

// The text is that of the refusal, whether of a command or of a line.
fn check(rt: &(impl Abort + AllocGlobal), why: Refusal, text: &str) {
    let printed = why.to_string(rt.alloc()).expect(rt, "memory");
    assert_eq!(rt; printed.as_str(), text);
    for line in [None, Some(2)] {
        let refused = CommandRefusal { why, line };
        let printed = refused.to_string(rt.alloc()).expect(rt, "memory");
        assert_eq!(rt; printed.as_str(), text);
    }
}

#[test]
fn prints_refusals(rt: HostRuntime) {
    for (refusal, text) in [
        (Refusal::NoSuchPeer, "no_such_peer"),
        (Refusal::KeyHeld { number: 1 }, "key_held 1"),
        (Refusal::KeyHeld { number: 1_000_000 }, "key_held 1000000"),
        (Refusal::AddressHeld, "address_held"),
        (Refusal::OutsidePool, "outside_pool"),
        (Refusal::PoolFull, "pool_full"),
        (Refusal::CapacityReached, "capacity_reached"),
        (Refusal::NumbersSpent, "numbers_spent"),
        (Refusal::IsAddress, "is_address"),
        (Refusal::NoSuchRoute, "no_such_route"),
        (Refusal::RoutesFull, "routes_full"),
        (Refusal::NobodysAddress, "nobodys_address"),
        (Refusal::LeaseOver, "lease_over"),
        (Refusal::ServerKey, "server_key"),
        (Refusal::WrongServer, "wrong_server"),
    ] {
        check(&rt, refusal, text);
    }
}
