//! Tokens that only read: what they may ask, and what a change by one is answered.
use super::stored::check;
use super::worlds::{BOLT, OFFICE};

#[test]
fn a_token_that_only_reads_changes_nothing(rt: HostRuntime) {
    check(
        &rt,
        &[
            &OFFICE,
            &BOLT,
            &[
                (0, "grant acme 3 read", "done"),
                (0, "grant acme 3 full", "digest_held"),
                (0, "grant cato 4 read", "no_such_tenant"),
                (0, "grant cato 3 read", "no_such_tenant"),
                (0, "add 1 office 1", "1 10.8.0.2/32"),
                (0, "renew 1 office 1 100", "1 10.8.0.2/32"),
                (0, "list 3 office", "1 10.8.0.2/32"),
                (0, "owner 3 office 10.8.0.2", "1"),
                (0, "file 3 office 1 wg", "1 wg"),
                (0, "add 3 office 2", "read_only"),
                (0, "move 3 office 1 10.8.0.9", "read_only"),
                (0, "route 3 office 1 192.168.4.0/24", "read_only"),
                (0, "unroute 3 office 192.168.4.0/24", "read_only"),
                (0, "revoke 3 office 9", "read_only"),
                (0, "add 3 lab 2", "read_only"),
                (0, "list 3 lab", "no_such_network"),
                (0, "add 5 office 2", "unknown_token"),
                (100, "renew 3 office 1 0", "read_only"),
                (0, "list 1 office", "1 10.8.0.2/32"),
                (0, "list 2 office", ""),
                (0, "end-token 3", "done"),
                (0, "list 3 office", "unknown_token"),
                (0, "grant acme 3", "done"),
                (0, "add 3 office 2", "2 10.8.0.3/32"),
            ],
        ],
    );
}
