//! Orders and their refusals, of the plain register and of those in memory and in files.
use super::stored::check;

#[test]
fn orders_are_checked(rt: HostRuntime) {
    check(
        &rt,
        &[&[
            (0, "tenant acme", "done"),
            (0, "tenant acme", "name_held"),
            (0, "grant nobody 1", "no_such_tenant"),
            (0, "grant acme 1", "done"),
            (0, "tenant bolt", "done"),
            (0, "grant bolt 1", "digest_held"),
            (0, "grant nobody 1", "no_such_tenant"),
            (0, "grant bolt 2", "done"),
            (0, "end-token 3", "no_such_token"),
            (
                0,
                "network nobody office 10.8.0.0/24 vpn.example.net 51820",
                "no_such_tenant",
            ),
            (
                0,
                "network acme office 10.8.0.0/24 vpn.example.net 51820",
                "done",
            ),
            (
                0,
                "network acme lab 10.9.0.0/24 VPN.example.net 51820",
                "port_held",
            ),
            (
                0,
                "network acme office 10.8.0.1/24 vpn.example.net 51821",
                "name_held",
            ),
            (
                0,
                "network acme lab 10.8.0.1/24 vpn.example.net 51821",
                "bad_pool",
            ),
            (
                0,
                "network nobody office 10.8.0.1/24 vpn.example.net 51820",
                "no_such_tenant",
            ),
            (
                0,
                "network acme lab 10.8.0.1/24 vpn.example.net 51820",
                "bad_pool",
            ),
            (
                0,
                "network acme lab 10.8.0.0/25 vpn.example.net 51820",
                "pool_overlaps acme office",
            ),
            (
                0,
                "network bolt office 10.9.0.0/24 vpn.example.net 51821",
                "done",
            ),
            (
                0,
                "network bolt lab 10.10.0.0/24 lab.example.net 51820",
                "done",
            ),
            (0, "networks 1", "office"),
            (0, "end-network acme lab", "no_network"),
            (0, "end-network nobody lab", "no_such_tenant"),
            (0, "end-token 1", "done"),
            (0, "networks 1", "unknown_token"),
            (0, "networks 2", "lab office"),
            (0, "grant bolt 1", "done"),
            (0, "networks 1", "lab office"),
        ]],
    );
}

#[test]
fn pools_are_disjoint(rt: HostRuntime) {
    check(
        &rt,
        &[&[
            (0, "tenant cato", "done"),
            (0, "tenant bolt", "done"),
            (0, "tenant acme", "done"),
            (0, "network bolt a 10.8.0.128/25 h 1", "done"),
            (0, "network cato a 10.8.0.0/24 h 2", "pool_overlaps bolt a"),
            (0, "network cato b 10.8.1.0/24 h 3", "done"),
            (0, "network cato c 10.8.0.1/24 h 4", "bad_pool"),
            (0, "network cato d 10.8.1.0/31 h 5", "bad_pool"),
            (0, "network acme lab 10.8.0.0/25 h 6", "done"),
            (
                0,
                "network cato a 10.8.0.0/24 h 7",
                "pool_overlaps acme lab",
            ),
            (0, "network acme kit 10.7.0.0/24 h 8", "done"),
            (0, "network cato a 10.0.0.0/8 h 9", "pool_overlaps acme kit"),
            (0, "network cato a fd00::/64 h 10", "done"),
            (0, "network cato e fd00::/112 h 11", "pool_overlaps cato a"),
        ]],
    );
}

#[test]
fn a_network_goes_with_its_peers(rt: HostRuntime) {
    check(
        &rt,
        &[&[
            (0, "tenant acme", "done"),
            (0, "grant acme 1", "done"),
            (0, "network acme office 10.8.0.0/24 h 1", "done"),
            (0, "network acme lab 10.9.0.0/24 h 2", "done"),
            (0, "add 1 office 1", "1 10.8.0.2/32"),
            (
                0,
                "route 1 office 1 192.168.4.0/24",
                "1 10.8.0.2/32 192.168.4.0/24",
            ),
            (0, "add 1 office 2", "2 10.8.0.3/32"),
            (0, "add 1 lab 1", "1 10.9.0.2/32"),
            (0, "networks 1", "lab office"),
            (0, "end-network acme office", "done"),
            (0, "networks 1", "lab"),
            (0, "list 1 office", "no_such_network"),
            (0, "network acme office 10.8.0.0/24 h 1", "done"),
            (0, "list 1 office", ""),
            (0, "add 1 office 2", "1 10.8.0.2/32"),
            (0, "list 1 lab", "1 10.9.0.2/32"),
        ]],
    );
}

#[test]
fn a_network_has_its_settings(rt: HostRuntime) {
    check(
        &rt,
        &[&[
            (0, "tenant acme", "done"),
            (0, "grant acme 1", "done"),
            (0, "network acme kit 10.7.0.0/24 h 1 1", "done"),
            (0, "add 1 kit 9", "server_key"),
            (0, "add 1 kit 1", "1 10.7.0.2/32"),
            (0, "add 1 kit 2", "capacity_reached"),
        ]],
    );
}
