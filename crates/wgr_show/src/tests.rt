//! What is shown, in tables.
use crate::{Figures, figures_of, metrics_text, show_text};
use std::alloc::AllocGlobal;
use std::process::Abort;
use wgr_core::{Capacity, Host, Name, Network, Pool, Port};
use wgr_orders::{Census, Counted, Granted, NetworkEntry, Right, Tenant, Token};
use wgr_text::{Key, read_loose};

fn name(rt: &(impl Abort + AllocGlobal), text: &str) -> Name {
    Name::read(rt.alloc(), text.as_bytes())
        .expect(rt, "memory")
        .expect(rt, "a name")
}

fn network(rt: &(impl Abort + AllocGlobal), pool: &str, host: &str, port: u16) -> Network {
    let (address, length) = read_loose(pool.as_bytes()).expect(rt, "a prefix");
    let host = Host::read(rt.alloc(), host.as_bytes()).expect(rt, "memory");
    Network::new(
        rt.alloc(),
        Pool::new(address, length).expect(rt, "a pool"),
        host.expect(rt, "a host"),
        Port::new(port).expect(rt, "a port"),
        Key([9; 32]),
        Capacity::new(250).expect(rt, "a capacity"),
    )
}

fn add_tenant(rt: &(impl Abort + AllocGlobal), census: &mut Census, id: u32, text: &str) {
    let tenant = Tenant {
        id,
        name: name(rt, text),
    };
    census.tenants.push(tenant).expect(rt, "memory");
}

fn add_network(
    rt: &(impl Abort + AllocGlobal),
    census: &mut Census,
    tenant: u32,
    text: &str,
    network: Network,
    peers: usize,
    routes: usize,
) {
    let counted = Counted {
        network_entry: NetworkEntry {
            id: 1,
            tenant,
            name: name(rt, text),
            network,
        },
        peers,
        routes,
    };
    census.networks.push(counted).expect(rt, "memory");
}

fn add_token(
    rt: &(impl Abort + AllocGlobal),
    census: &mut Census,
    byte: u8,
    tenant: u32,
    right: Right,
) {
    let token = Token {
        digest: [byte; 32],
        tenant,
    };
    census
        .tokens
        .push(Granted { token, right })
        .expect(rt, "memory");
}

fn empty(rt: &impl AllocGlobal) -> Census {
    Census {
        tenants: Vec::new(rt.alloc()),
        tokens: Vec::new(rt.alloc()),
        networks: Vec::new(rt.alloc()),
    }
}

/// Three tenants. The ids of tenants, and the order of rows, are other than those of names.
fn census(rt: &(impl Abort + AllocGlobal)) -> Census {
    let mut census = empty(rt);
    for (id, text) in [(1, "globex"), (3, "acme"), (2, "hooli")] {
        add_tenant(rt, &mut census, id, text);
    }
    for (byte, tenant) in [(0xff, 3), (0x0a, 2), (0x1b, 3)] {
        add_token(rt, &mut census, byte, tenant, Right::Full);
    }
    let office = network(rt, "10.66.0.0/24", "vpn.example.net", 51820);
    let far = network(rt, "10.0.0.0/8", "2001:DB8::1", 1);
    let lab = network(rt, "fd00:1::/64", "vpn.example.net", 51821);
    add_network(rt, &mut census, 3, "office", office, 1, 2);
    add_network(rt, &mut census, 2, "far", far, 2, 4);
    add_network(rt, &mut census, 3, "lab", lab, 3, 6);
    census
}

#[test]
fn lines_of_metrics(rt: HostRuntime) {
    let metrics = [
        ("wgr_service_peers", 0),
        ("wgr_service_requests_total{status=\"200\"}", u64::MAX),
    ];
    let text = metrics_text(rt.alloc(), &metrics).expect(&rt, "memory");
    assert_eq!(rt;
        text.as_slice(),
        b"wgr_service_peers 0\nwgr_service_requests_total{status=\"200\"} 18446744073709551615\n".as_slice()
    );
    let none = metrics_text(rt.alloc(), &[]).expect(&rt, "memory");
    assert_eq!(rt; none.as_slice(), b"".as_slice());
}

#[test]
fn figures(rt: HostRuntime) {
    let mut census = census(&rt);
    let mut wanted = Figures {
        tenants: 3,
        tokens: 3,
        networks: 3,
        peers: 6,
        routes: 12,
    };
    assert_eq!(rt; figures_of(&census), wanted);
    let more = network(&rt, "10.9.0.0/24", "vpn.example.net", 2);
    add_network(&rt, &mut census, 1, "more", more, usize::MAX, 1);
    wanted.networks = 4;
    wanted.peers = u64::MAX;
    wanted.routes = 13;
    assert_eq!(rt; figures_of(&census), wanted);
}

/// Compares what is shown of all tenants or of one.
fn check(
    rt: &(impl Abort + AllocGlobal),
    census: &Census,
    tenant: Option<&str>,
    is_json: bool,
    wanted: &str,
) {
    let text = show_text(rt.alloc(), census, tenant, is_json)
        .expect(rt, "memory")
        .expect(rt, "a tenant of the name");
    assert_eq!(rt; text.as_slice(), wanted.as_bytes());
}

#[test]
fn tables(rt: HostRuntime) {
    let header = "TENANT  NETWORK  POOL  ENDPOINT  CAPACITY  PEERS  ROUTES\n";
    check(&rt, &empty(&rt), None, false, header);
    let rows = [
        (
            None,
            "TENANT  NETWORK  POOL          ENDPOINT               CAPACITY  PEERS  ROUTES
acme    lab      fd00:1::/64   vpn.example.net:51821  250       3      6
acme    office   10.66.0.0/24  vpn.example.net:51820  250       1      2
globex  -        -             -                      -         -      -
hooli   far      10.0.0.0/8    [2001:db8::1]:1        250       2      4

TENANT  TOKEN
acme    1b1b1b1b1b1b1b1b1b1b1b1b1b1b1b1b1b1b1b1b1b1b1b1b1b1b1b1b1b1b1b1b
acme    ffffffffffffffffffffffffffffffffffffffffffffffffffffffffffffffff
hooli   0a0a0a0a0a0a0a0a0a0a0a0a0a0a0a0a0a0a0a0a0a0a0a0a0a0a0a0a0a0a0a0a
",
        ),
        (
            Some("hooli"),
            "TENANT  NETWORK  POOL        ENDPOINT         CAPACITY  PEERS  ROUTES
hooli   far      10.0.0.0/8  [2001:db8::1]:1  250       2      4

TENANT  TOKEN
hooli   0a0a0a0a0a0a0a0a0a0a0a0a0a0a0a0a0a0a0a0a0a0a0a0a0a0a0a0a0a0a0a0a
",
        ),
        (
            Some("globex"),
            "TENANT  NETWORK  POOL  ENDPOINT  CAPACITY  PEERS  ROUTES
globex  -        -     -         -         -      -
",
        ),
    ];
    let census = census(&rt);
    for (tenant, wanted) in rows {
        check(&rt, &census, tenant, false, wanted);
    }
}

#[test]
fn json(rt: HostRuntime) {
    check(&rt, &empty(&rt), None, true, "{\"tenants\":[]}\n");
    let rows = [
        (
            Some("globex"),
            "{\"tenants\":[{\"name\":\"globex\",\"tokens\":[],\"networks\":[]}]}\n",
        ),
        (
            Some("acme"),
            concat!(
                r#"{"tenants":[{"name":"acme","tokens":["1b1b1b1b1b1b1b1b1b1b1b1b1b1b1b1b1b1b1b1b1b1b1b1b1b1b1b1b1b1b1b1b","ffffffffffffffffffffffffffffffffffffffffffffffffffffffffffffffff"],"networks":["#,
                r#"{"name":"lab","pool":"fd00:1::/64","host":"vpn.example.net","port":51821,"server":"CQkJCQkJCQkJCQkJCQkJCQkJCQkJCQkJCQkJCQkJCQk=","capacity":250,"peers":3,"routes":6},"#,
                r#"{"name":"office","pool":"10.66.0.0/24","host":"vpn.example.net","port":51820,"server":"CQkJCQkJCQkJCQkJCQkJCQkJCQkJCQkJCQkJCQkJCQk=","capacity":250,"peers":1,"routes":2}]}]}"#,
                "\n"
            ),
        ),
        (
            None,
            concat!(
                r#"{"tenants":[{"name":"acme","tokens":["1b1b1b1b1b1b1b1b1b1b1b1b1b1b1b1b1b1b1b1b1b1b1b1b1b1b1b1b1b1b1b1b","ffffffffffffffffffffffffffffffffffffffffffffffffffffffffffffffff"],"networks":["#,
                r#"{"name":"lab","pool":"fd00:1::/64","host":"vpn.example.net","port":51821,"server":"CQkJCQkJCQkJCQkJCQkJCQkJCQkJCQkJCQkJCQkJCQk=","capacity":250,"peers":3,"routes":6},"#,
                r#"{"name":"office","pool":"10.66.0.0/24","host":"vpn.example.net","port":51820,"server":"CQkJCQkJCQkJCQkJCQkJCQkJCQkJCQkJCQkJCQkJCQk=","capacity":250,"peers":1,"routes":2}]},"#,
                r#"{"name":"globex","tokens":[],"networks":[]},"#,
                r#"{"name":"hooli","tokens":["0a0a0a0a0a0a0a0a0a0a0a0a0a0a0a0a0a0a0a0a0a0a0a0a0a0a0a0a0a0a0a0a"],"networks":["#,
                r#"{"name":"far","pool":"10.0.0.0/8","host":"2001:db8::1","port":1,"server":"CQkJCQkJCQkJCQkJCQkJCQkJCQkJCQkJCQkJCQkJCQk=","capacity":250,"peers":2,"routes":4}]}]}"#,
                "\n"
            ),
        ),
    ];
    let census = census(&rt);
    for (tenant, wanted) in rows {
        check(&rt, &census, tenant, true, wanted);
    }
}

/// Rights are shown where a token that is shown only reads, and nowhere else.
#[test]
fn rights(rt: HostRuntime) {
    let mut census = empty(&rt);
    for (id, text) in [(1, "acme"), (2, "bolt")] {
        add_tenant(&rt, &mut census, id, text);
    }
    add_token(&rt, &mut census, 0xcc, 1, Right::Read);
    add_token(&rt, &mut census, 0xbb, 1, Right::Full);
    add_token(&rt, &mut census, 0xaa, 1, Right::Read);
    add_token(&rt, &mut census, 0xdd, 2, Right::Full);
    let rows = [
        (
            None,
            "TENANT  NETWORK  POOL  ENDPOINT  CAPACITY  PEERS  ROUTES
acme    -        -     -         -         -      -
bolt    -        -     -         -         -      -

TENANT  TOKEN                                                             RIGHT
acme    aaaaaaaaaaaaaaaaaaaaaaaaaaaaaaaaaaaaaaaaaaaaaaaaaaaaaaaaaaaaaaaa  read
acme    bbbbbbbbbbbbbbbbbbbbbbbbbbbbbbbbbbbbbbbbbbbbbbbbbbbbbbbbbbbbbbbb  full
acme    cccccccccccccccccccccccccccccccccccccccccccccccccccccccccccccccc  read
bolt    dddddddddddddddddddddddddddddddddddddddddddddddddddddddddddddddd  full
",
            concat!(
                r#"{"tenants":[{"name":"acme","tokens":["aaaaaaaaaaaaaaaaaaaaaaaaaaaaaaaaaaaaaaaaaaaaaaaaaaaaaaaaaaaaaaaa","bbbbbbbbbbbbbbbbbbbbbbbbbbbbbbbbbbbbbbbbbbbbbbbbbbbbbbbbbbbbbbbb","cccccccccccccccccccccccccccccccccccccccccccccccccccccccccccccccc"],"#,
                r#""readers":["aaaaaaaaaaaaaaaaaaaaaaaaaaaaaaaaaaaaaaaaaaaaaaaaaaaaaaaaaaaaaaaa","cccccccccccccccccccccccccccccccccccccccccccccccccccccccccccccccc"],"networks":[]},"#,
                r#"{"name":"bolt","tokens":["dddddddddddddddddddddddddddddddddddddddddddddddddddddddddddddddd"],"networks":[]}]}"#,
                "\n"
            ),
        ),
        (
            Some("bolt"),
            "TENANT  NETWORK  POOL  ENDPOINT  CAPACITY  PEERS  ROUTES
bolt    -        -     -         -         -      -

TENANT  TOKEN
bolt    dddddddddddddddddddddddddddddddddddddddddddddddddddddddddddddddd
",
            concat!(
                r#"{"tenants":[{"name":"bolt","tokens":["dddddddddddddddddddddddddddddddddddddddddddddddddddddddddddddddd"],"networks":[]}]}"#,
                "\n"
            ),
        ),
    ];
    for (tenant, table, json) in rows {
        check(&rt, &census, tenant, false, table);
        check(&rt, &census, tenant, true, json);
    }
}

#[test]
fn no_tenant_of_the_name(rt: HostRuntime) {
    let census = census(&rt);
    for tenant in ["acm", "acmes", "office", ""] {
        for is_json in [false, true] {
            let shown = show_text(rt.alloc(), &census, Some(tenant), is_json).expect(&rt, "memory");
            assert!(rt; shown.is_none());
        }
    }
}
