//! Orders and commands on a register in memory and on one in files.
use super::stored::{NETWORKS, check, created, empty};
use crate::disks::{in_memory, in_new_files};
use sqlite::{Alter, Connection};
use std::process::Abort;
use wgr_register::RegisterFault;

// Why no register is made from the connection of another.
fn refused<S: Alter + Drop>(rt: &impl Abort, conn: Connection<S>) -> RegisterFault {
    match created(rt, empty(rt, conn).into_connection()) {
        Ok(register) => {
            let _conn = register.into_connection();
            panic!(rt; "a register")
        }
        Err(fault) => fault,
    }
}

#[test]
fn a_register_is_created_once(rt: HostRuntime) {
    assert!(rt; refused(&rt, in_memory(&rt)) == RegisterFault::NotEmpty);
    assert!(rt; refused(&rt, in_new_files(&rt)) == RegisterFault::NotEmpty);
}

#[test]
fn orders_are_answered(rt: HostRuntime) {
    check(
        &rt,
        &[&[
            (0, "grant acme 1", "no_such_tenant"),
            (0, "tenant acme", "done"),
            (0, "tenant acme", "name_held"),
            (0, "tenant bolt", "done"),
            (0, "grant acme 1", "done"),
            (0, "grant bolt 1", "digest_held"),
            (0, "grant bolt 2", "done"),
            (0, "end-token 3", "no_such_token"),
            (0, "network nobody a 10.8.0.0/24 h 1", "no_such_tenant"),
            (0, "network bolt a 10.8.0.128/25 h 1", "done"),
            (0, "network acme a 10.8.0.0/24 h 2", "pool_overlaps bolt a"),
            (0, "network acme a 10.8.1.0/24 h 2", "done"),
            (0, "network acme a 10.8.0.1/24 h 1", "name_held"),
            (0, "network acme b 10.8.0.1/24 h 3", "bad_pool"),
            (0, "network acme b 10.8.1.0/31 h 3", "bad_pool"),
            (0, "network acme b 10.0.0.0/8 h 1", "pool_overlaps acme a"),
            (0, "network acme b 10.9.0.0/24 H 1", "port_held"),
            (0, "network acme b 10.9.0.0/24 i 1", "done"),
            (0, "network acme c fd00::/64 h 3", "done"),
            (0, "network bolt c fd00::/112 h 4", "pool_overlaps acme c"),
            (0, "end-network acme d", "no_network"),
            (0, "end-network cato a", "no_such_tenant"),
            (0, "networks 1", "a b c"),
            (0, "end-network acme a", "done"),
            (0, "networks 1", "b c"),
            (0, "end-network acme a", "no_network"),
            (0, "network bolt b 10.0.0.0/8 h 2", "pool_overlaps acme b"),
            (0, "network bolt b 10.8.1.0/24 h 2", "done"),
            (0, "end-token 1", "done"),
            (0, "list 1 b", "unknown_token"),
            (0, "networks 1", "unknown_token"),
            (0, "grant bolt 1", "done"),
            (0, "list 1 b", ""),
            (0, "tenant cato", "done"),
        ]],
    );
}

#[test]
fn commands_are_answered(rt: HostRuntime) {
    // another tenant's network is reported as unknown, and keys are held within one network
    check(
        &rt,
        &[
            &NETWORKS,
            &[
                (0, "list 3 office", "unknown_token"),
                (0, "list 1 lab", "no_such_network"),
                (0, "list 1 none", "no_such_network"),
                (0, "list 2 kit", "no_such_network"),
                (0, "list 2 lab", ""),
                (0, "add 1 office 1", "1 10.8.0.2/32"),
                (0, "add 1 office 1", "key_held 1"),
                (0, "add 1 office 9", "server_key"),
                (0, "add 2 office 2", "1 10.9.0.2/32"),
                (0, "add 2 office 1", "2 10.9.0.3/32"),
                (0, "add 2 office 1", "key_held 2"),
                (0, "add 1 kit 1", "1 10.11.0.2/32"),
                (0, "owner 1 office 10.8.0.2", "1"),
                (0, "owner 1 office 10.9.0.2", "nobodys_address"),
                (
                    0,
                    "route 1 office 1 10.9.0.0/24",
                    "1 10.8.0.2/32 10.9.0.0/24",
                ),
                (0, "owner 1 office 10.9.0.2", "1"),
                (0, "owner 1 kit 10.9.0.2", "nobodys_address"),
                (0, "file 1 office 2 wg", "no_such_peer"),
                (0, "file 1 office 1 wg", "1 wg"),
                (0, "server 2 office quick", "server quick"),
            ],
        ],
    );
}

#[test]
fn networks_begin_anew(rt: HostRuntime) {
    check(
        &rt,
        &[
            &NETWORKS,
            &[
                (0, "add 1 office 1", "1 10.8.0.2/32"),
                (0, "add 1 office 2", "2 10.8.0.3/32"),
                (
                    0,
                    "route 1 office 1 192.168.4.0/24",
                    "1 10.8.0.2/32 192.168.4.0/24",
                ),
                (0, "add 1 kit 7", "1 10.11.0.2/32"),
                (0, "end-network acme office", "done"),
                (0, "list 1 office", "no_such_network"),
                (0, "network acme office 10.8.0.0/24 h 1", "done"),
                (0, "file 1 office 1 wg", "no_such_peer"),
                (0, "owner 1 office 192.168.4.1", "nobodys_address"),
                (0, "add 1 office 2", "1 10.8.0.2/32"),
                (0, "add 1 office 2", "key_held 1"),
                (0, "add 1 kit 7", "key_held 1"),
            ],
        ],
    );
}

#[test]
fn expired_peers_stand_until_the_next_change(rt: HostRuntime) {
    check(
        &rt,
        &[
            &NETWORKS,
            &[
                (10, "add 1 office 1 - 100", "1 10.8.0.2/32"),
                (20, "add 2 office 1 - 100", "1 10.9.0.2/32"),
                (99, "file 1 office 1 wg", "1 wg"),
                (100, "file 1 office 1 wg", "no_such_peer"),
                (100, "list 1 office", ""),
                (100, "revoke 1 office 1", "no_such_peer"),
                (99, "add 1 office 1", "key_held 1"),
                (100, "add 1 office 2", "2 10.8.0.2/32"),
                (99, "file 1 office 1 wg", "no_such_peer"),
                (99, "add 1 office 1", "3 10.8.0.3/32"),
                (99, "add 1 office 1", "key_held 3"),
                (99, "add 2 office 1", "key_held 1"),
            ],
        ],
    );
}
