//! Lists of orders and requests, run in turn over a register in memory.
use super::lines::{Row, check, empty, end, office};
use super::{BAD, CONFLICT, FORBIDDEN, FOUND, NOBODY, NOT_FOUND};

const UNKNOWN: &str = r#"{"error":"unknown_token"}"#;

const NOWHERE: &str = r#"{"error":"no_such_network"}"#;

const READ_ONLY: &str = r#"{"error":"read_only"}"#;

const PEER: &str =
    r#"{"address":"10.8.0.2/32","end":0,"keepalive":0,"key":"@","label":"","number":1,"routes":[],"status":null}"#;

const PEERS: &str =
    r#"{"peers":[{"address":"10.8.0.2/32","end":0,"keepalive":0,"key":"@","label":"","number":1,"routes":[],"status":null}]}"#;

/// The list after the dump is adopted.
const ADOPTED: &str =
    r#"{"peers":[{"address":"10.8.0.2/32","end":0,"keepalive":25,"key":"&","label":"","number":1,"routes":["192.168.4.0/24"],"status":{"handshake":1700000000,"received":1024,"sent":2048}},{"address":"10.8.0.3/32","end":0,"keepalive":0,"key":"@","label":"","number":2,"routes":[],"status":{"handshake":0,"received":0,"sent":0}},{"address":"10.8.0.4/32","end":0,"keepalive":0,"key":"~","label":"","number":3,"routes":["fd00:9::/64"],"status":{"handshake":0,"received":0,"sent":0}}]}"#;

/// Orders and requests of two tenants, from a register without entries.
const FROM_NOTHING: &[Row<'static>] = &[
    ("tenant acme", "", "done"),
    ("tenant acme", "", "name_held"),
    ("grant cato abc", "", "no_such_tenant"),
    ("7 GET abc /networks", NOBODY, UNKNOWN),
    ("grant acme abc", "", "done"),
    ("tenant bolt", "", "done"),
    ("grant bolt abc", "", "digest_held"),
    ("grant bolt def", "", "done"),
    (
        "network acme office 10.8.0.0/24 vpn.example.net",
        "",
        "done",
    ),
    (
        "network bolt lab 10.8.0.0/25 lab",
        "",
        "pool_overlaps acme office",
    ),
    (
        "7 GET abc /networks",
        FOUND,
        r#"{"networks":[{"capacity":4096,"endpoint":"vpn.example.net:51820","name":"office","pool":"10.8.0.0/24","server":"$"}]}"#,
    ),
    ("7 GET def /networks", FOUND, r#"{"networks":[]}"#),
    (
        "7 POST abc /networks/office/peers {\"key\":\"@\"}",
        FOUND,
        PEER,
    ),
    ("7 GET def /networks/office/peers", NOT_FOUND, NOWHERE),
    ("7 GET abc /networks/office/peers", FOUND, PEERS),
    ("end-network acme office", "", "done"),
    ("7 GET abc /networks/office/peers", NOT_FOUND, NOWHERE),
];

/// Ending one token doesn't end another.
const ENDED_TOKEN: &[Row<'static>] = &[
    ("tenant bolt", "", "done"),
    ("grant bolt def", "", "done"),
    ("7 GET abc /networks/office/peers", FOUND, r#"{"peers":[]}"#),
    ("end-token abc", "", "done"),
    ("7 GET abc /networks/office/peers", NOBODY, UNKNOWN),
    ("7 GET def /networks", FOUND, r#"{"networks":[]}"#),
    ("end-token abc", "", "no_such_token"),
];

/// A token that only reads: its right is asked after the bytes and the token, and before the network.
const READER: &[Row<'static>] = &[
    ("grant-read acme ghi", "", "done"),
    (
        "7 POST ghi /networks/office/peers {\"key\":\"@\"}",
        FORBIDDEN,
        READ_ONLY,
    ),
    ("7 GET ghi /networks/office/peers", FOUND, r#"{"peers":[]}"#),
    (
        "7 POST abc /networks/office/peers {\"key\":\"@\"}",
        FOUND,
        PEER,
    ),
    ("7 GET ghi /networks/office/peers", FOUND, PEERS),
    (
        "7 DELETE ghi /networks/office/peers/9",
        FORBIDDEN,
        READ_ONLY,
    ),
    ("7 DELETE ghi /networks/lab/peers/9", FORBIDDEN, READ_ONLY),
    ("7 GET ghi /networks/lab/peers", NOT_FOUND, NOWHERE),
    (
        "7 POST zzz /networks/office/peers {\"key\":\"&\"}",
        NOBODY,
        UNKNOWN,
    ),
    (
        "7 POST ghi /networks/office/peers {\"key\":\"&\",\"extra\":0}",
        BAD,
        r#"{"error":"bad_field","field":"body"}"#,
    ),
    ("grant acme ghi", "", "digest_held"),
    ("end-token ghi", "", "done"),
    ("grant acme ghi", "", "done"),
    (
        "7 POST ghi /networks/office/peers {\"key\":\"@\"}",
        CONFLICT,
        r#"{"error":"key_held","number":1}"#,
    ),
];

/// An unknown name, and one that another tenant has.
const NAMES: &[Row<'static>] = &[
    ("7 GET abc /networks/lab/peers", NOT_FOUND, NOWHERE),
    ("tenant bolt", "", "done"),
    ("grant bolt def", "", "done"),
    ("network bolt lab 10.9.0.0/24 lab", "", "done"),
    ("7 GET abc /networks/lab/peers", NOT_FOUND, NOWHERE),
    ("7 GET def /networks/lab/peers", FOUND, r#"{"peers":[]}"#),
    ("7 GET abc /networks/Office/peers", NOT_FOUND, NOWHERE),
];

/// Requests refused for their bytes, whatever the token, and requests that a network refuses.
const REFUSED: &[Row<'static>] = &[
    (
        "7 POST abc /networks/office/peers {\"key\":\"@\",\"extra\":0}",
        BAD,
        r#"{"error":"bad_field","field":"body"}"#,
    ),
    (
        "7 POST zzz /networks/office/peers {\"key\":\"@\",\"extra\":0}",
        BAD,
        r#"{"error":"bad_field","field":"body"}"#,
    ),
    (
        "7 GET abc /networks/office/peers/01",
        NOT_FOUND,
        r#"{"error":"no_such_path"}"#,
    ),
    (
        "7 GET abc /networks/",
        NOT_FOUND,
        r#"{"error":"no_such_path"}"#,
    ),
    (
        "7 GET abc /networks/office/server/ini",
        NOT_FOUND,
        r#"{"error":"no_such_path"}"#,
    ),
    (
        "7 POST abc /networks/office/peers {\"key\":\"@\"}",
        FOUND,
        PEER,
    ),
    (
        "7 POST abc /networks/office/peers {\"key\":\"@\"}",
        CONFLICT,
        r#"{"error":"key_held","number":1}"#,
    ),
    (
        "7 POST abc /networks/office/peers {\"key\":\"$\"}",
        CONFLICT,
        r#"{"error":"server_key"}"#,
    ),
    (
        "100 POST abc /networks/office/peers {\"key\":\"&\",\"end\":100}",
        CONFLICT,
        r#"{"error":"lease_over"}"#,
    ),
    (
        "7 POST abc /networks/office/peers {\"key\":\"&\",\"address\":\"10.8.0.255\"}",
        CONFLICT,
        r#"{"error":"outside_pool"}"#,
    ),
    ("7 GET abc /networks/office/peers", FOUND, PEERS),
];

/// Each request is answered at its own moment.
const LEASE: &[Row<'static>] = &[
    (
        "7 POST abc /networks/office/peers {\"key\":\"@\",\"end\":100}",
        FOUND,
        r#"{"address":"10.8.0.2/32","end":100,"keepalive":0,"key":"@","label":"","number":1,"routes":[],"status":null}"#,
    ),
    (
        "99 GET abc /networks/office/peers",
        FOUND,
        r#"{"peers":[{"address":"10.8.0.2/32","end":100,"keepalive":0,"key":"@","label":"","number":1,"routes":[],"status":null}]}"#,
    ),
    (
        "100 GET abc /networks/office/peers",
        FOUND,
        r#"{"peers":[]}"#,
    ),
    (
        "99 GET abc /networks/office/peers",
        FOUND,
        r#"{"peers":[{"address":"10.8.0.2/32","end":100,"keepalive":0,"key":"@","label":"","number":1,"routes":[],"status":null}]}"#,
    ),
    (
        "100 POST abc /networks/office/peers {\"key\":\"&\"}",
        FOUND,
        r#"{"address":"10.8.0.2/32","end":0,"keepalive":0,"key":"&","label":"","number":2,"routes":[],"status":null}"#,
    ),
    (
        "99 GET abc /networks/office/peers",
        FOUND,
        r#"{"peers":[{"address":"10.8.0.2/32","end":0,"keepalive":0,"key":"&","label":"","number":2,"routes":[],"status":null}]}"#,
    ),
];

/// Malformed dumps, and one that is adopted twice; then the same without its last newline.
const DUMPS: &[Row<'static>] = &[
    (
        "7 POST abc /networks/office/dump",
        BAD,
        r#"{"error":"bad_dump","field":1,"line":1}"#,
    ),
    (
        "7 POST abc /networks/office/dump (none)\t$\t51820\toff\n@\t(none)\t(none)\t(none)\t0\t0\t0\toff\n&\t(none)\t198.51.100.7:40000\t10.8.0.2/32,192.168.4.0/24\t1700000000\t1024\t2048\t25\n~\t^\t[2001:db8::1]:51820\tfd00:9::/64\t0",
        BAD,
        r#"{"error":"bad_dump","field":6,"line":4}"#,
    ),
    (
        "7 POST abc /networks/office/dump (none)\t$\t51820\toff\n@\t(none)\t(none)\t(none)\t0\t0\t0\toff\n&\t(none)\t198.51.100.7:40000\t10.8.0.2/32,192.168.4.0/24\t1700000000\t1024\t2048\t25\n~\t^\t[2001:db8::1]:51820\tfd00:9::/64\t0\t0\t0\toff\n",
        FOUND,
        r#"{"added":[1,2,3],"known":0}"#,
    ),
    ("7 GET abc /networks/office/peers", FOUND, ADOPTED),
    (
        "7 POST abc /networks/office/dump (none)\t$\t51820\toff\n@\t(none)\t(none)\t(none)\t0\t0\t0\toff\n&\t(none)\t198.51.100.7:40000\t10.8.0.2/32,192.168.4.0/24\t1700000000\t1024\t2048\t25\n~\t^\t[2001:db8::1]:51820\tfd00:9::/64\t0\t0\t0\toff\n",
        FOUND,
        r#"{"added":[],"known":3}"#,
    ),
    ("7 GET abc /networks/office/peers", FOUND, ADOPTED),
    ("end-network acme office", "", "done"),
    (
        "network acme office 10.8.0.0/24 vpn.example.net",
        "",
        "done",
    ),
    (
        "7 POST abc /networks/office/dump (none)\t$\t51820\toff\n@\t(none)\t(none)\t(none)\t0\t0\t0\toff\n&\t(none)\t198.51.100.7:40000\t10.8.0.2/32,192.168.4.0/24\t1700000000\t1024\t2048\t25\n~\t^\t[2001:db8::1]:51820\tfd00:9::/64\t0\t0\t0\toff",
        FOUND,
        r#"{"added":[1,2,3],"known":0}"#,
    ),
    ("7 GET abc /networks/office/peers", FOUND, ADOPTED),
    (
        "7 POST abc /networks/office/dump (none)\t$\t51820\toff\n@\t(none)\t(none)\t(none)\t0\t0\t0\toff\n&\t(none)\t198.51.100.7:40000\t10.8.0.2/32,192.168.4.0/24\t1700000000\t1024\t2048\t25\n~\t^\t[2001:db8::1]:51820\tfd00:9::/64\t0\t0\t0\toff",
        FOUND,
        r#"{"added":[],"known":3}"#,
    ),
];

/// Each is run where the tenant `acme` has the network `office`.
const LISTS: &[&[Row<'static>]] = &[ENDED_TOKEN, READER, NAMES, REFUSED, LEASE, DUMPS];

#[test]
fn lists_of_events(rt: HostRuntime) {
    for rows in LISTS {
        let mut office = office(&rt);
        check(&rt, &mut office, rows);
        end(office);
    }
}

#[test]
fn a_list_from_nothing(rt: HostRuntime) {
    let mut office = empty(&rt);
    check(&rt, &mut office, &[]);
    check(&rt, &mut office, FROM_NOTHING);
    check(&rt, &mut office, &[]);
    end(office);
}
