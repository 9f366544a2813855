//! Replies in tables.
use crate::{Response, unavailable, write_response};
use std::alloc::AllocGlobal;
use std::process::Abort;
use wgr_core::{
    Capacity, CommandRefusal, Count, Host, Items, Label, LeaseEnd, Name, Network, Peer, PeerView,
    Pool, Port, Refusal, Status,
};
use wgr_http::MessageFault;
use wgr_request::{Methods, RequestFault, RequestField};
use wgr_text::{Addr, Key, Prefix, read_loose};

const BAD: &str = "400 Bad Request";

const NOBODY: &str = "401 Unauthorized";

const NOT_FOUND: &str = "404 Not Found";

const NO_METHOD: &str = "405 Method Not Allowed";

const CONFLICT: &str = "409 Conflict";

fn address(rt: &(impl Abort + AllocGlobal), text: &str) -> Addr {
    Addr::read(text.as_bytes()).expect(rt, "an address")
}

fn label(rt: &(impl Abort + AllocGlobal), text: &str) -> Label {
    Label::read(rt.alloc(), text.as_bytes())
        .expect(rt, "memory")
        .expect(rt, "a label")
}

/// A peer without lease, keepalive, status and routes.
fn bare(rt: &(impl Abort + AllocGlobal), number: u32, text: &str, note: &str) -> PeerView {
    PeerView {
        peer: Peer {
            number,
            key: Key([1; 32]),
            label: label(rt, note),
            address: address(rt, text),
            second: None,
            until: LeaseEnd::never(),
            keepalive: 0,
            status: None,
        },
        routes: Items::new(rt.alloc()),
    }
}

/// A peer that has all.
fn full(rt: &(impl Abort + AllocGlobal)) -> PeerView {
    let mut routes = Vec::new(rt.alloc());
    for text in ["192.168.4.0/24", "fd00:4::/64"] {
        let (address, length) = read_loose(text.as_bytes()).expect(rt, "a prefix");
        let route = Prefix::masked(address, length).expect(rt, "a mask");
        routes.push(route).expect(rt, "memory");
    }
    let mut view = bare(rt, 2, "fd00::3", "a \"b\" \\");
    view.peer.until = LeaseEnd::new(9_007_199_254_740_991).expect(rt, "an end");
    view.peer.keepalive = 25;
    view.peer.status = Some(Status {
        handshake: Count::new(1_700_000_000),
        received: Count::new(1024),
        sent: Count::new(2048),
    });
    view.routes = Items::of(routes);
    view
}

/// A network without peers under its name.
fn network(rt: &(impl Abort + AllocGlobal), name: &str, host: &str, pool: &str) -> (Name, Network) {
    let (address, length) = read_loose(pool.as_bytes()).expect(rt, "a prefix");
    let name = Name::read(rt.alloc(), name.as_bytes()).expect(rt, "memory");
    let host = Host::read(rt.alloc(), host.as_bytes()).expect(rt, "memory");
    let network = Network::new(
        rt.alloc(),
        Pool::new(address, length).expect(rt, "a pool"),
        host.expect(rt, "a host"),
        Port::new(51820).expect(rt, "a port"),
        Key([1; 32]),
        Capacity::new(4096).expect(rt, "a capacity"),
    );
    (name.expect(rt, "a name"), network)
}

/// Compares the whole reply, in which `lines` are between those of the length and of the connection.
fn check(
    rt: &(impl Abort + AllocGlobal),
    response: Response<'_>,
    status: &str,
    lines: &str,
    body: &str,
) {
    let reply = write_response(rt.alloc(), response).expect(rt, "memory");
    let length = body.len();
    let wanted = format!(in rt.alloc();
        "HTTP/1.1 {status}\r\nContent-Type: application/json\r\nContent-Length: {length}\r\n{lines}Connection: close\r\n\r\n{body}"
    ).expect(rt, "memory");
    assert_eq!(rt; reply.bytes.as_slice(), wanted.as_bytes());
    let number = reply.status.number();
    let beginning = format!(in rt.alloc(); "{number} ").expect(rt, "memory");
    assert!(rt; status.starts_with(beginning.as_str()));
}

#[test]
fn answers(rt: HostRuntime) {
    let bare_view = bare(&rt, 1, "10.8.0.2", "");
    check(
        &rt,
        Response::Peer(&bare_view),
        "200 OK",
        "",
        r#"{"address":"10.8.0.2/32","end":0,"keepalive":0,"key":"AQEBAQEBAQEBAQEBAQEBAQEBAQEBAQEBAQEBAQEBAQE=","label":"","number":1,"routes":[],"status":null}"#,
    );
    let views = [full(&rt)];
    check(
        &rt,
        Response::Peers(&views),
        "200 OK",
        "",
        r#"{"peers":[{"address":"fd00::3/128","end":9007199254740991,"keepalive":25,"key":"AQEBAQEBAQEBAQEBAQEBAQEBAQEBAQEBAQEBAQEBAQE=","label":"a \"b\" \\","number":2,"routes":["192.168.4.0/24","fd00:4::/64"],"status":{"handshake":1700000000,"received":1024,"sent":2048}}]}"#,
    );
    let networks = [
        network(&rt, "lab", "2001:DB8::1", "fd00:8::/64"),
        network(&rt, "office", "vpn.example.net", "10.8.0.0/24"),
    ];
    check(
        &rt,
        Response::Networks(&networks),
        "200 OK",
        "",
        r#"{"networks":[{"capacity":4096,"endpoint":"[2001:db8::1]:51820","name":"lab","pool":"fd00:8::/64","server":"AQEBAQEBAQEBAQEBAQEBAQEBAQEBAQEBAQEBAQEBAQE="},{"capacity":4096,"endpoint":"vpn.example.net:51820","name":"office","pool":"10.8.0.0/24","server":"AQEBAQEBAQEBAQEBAQEBAQEBAQEBAQEBAQEBAQEBAQE="}]}"#,
    );
}

#[test]
fn small_answers(rt: HostRuntime) {
    let rows: [(Response<'_>, &str); 6] = [
        (Response::Revoked(2), r#"{"revoked":2}"#),
        (Response::Owner(2), r#"{"number":2}"#),
        (Response::Peers(&[]), r#"{"peers":[]}"#),
        (Response::Networks(&[]), r#"{"networks":[]}"#),
        (
            Response::Adopted {
                added: &[1, 1_000_000],
                known: 3,
            },
            r#"{"added":[1,1000000],"known":3}"#,
        ),
        (
            Response::Adopted {
                added: &[],
                known: 0,
            },
            r#"{"added":[],"known":0}"#,
        ),
    ];
    for (response, body) in rows {
        check(&rt, response, "200 OK", "", body);
    }
}

#[test]
fn refusals(rt: HostRuntime) {
    let rows = [
        (Refusal::NoSuchPeer, NOT_FOUND, "no_such_peer"),
        (Refusal::AddressHeld, CONFLICT, "address_held"),
        (Refusal::OutsidePool, CONFLICT, "outside_pool"),
        (Refusal::PoolFull, CONFLICT, "pool_full"),
        (Refusal::CapacityReached, CONFLICT, "capacity_reached"),
        (Refusal::NumbersSpent, CONFLICT, "numbers_spent"),
        (Refusal::IsAddress, CONFLICT, "is_address"),
        (Refusal::NoSuchRoute, NOT_FOUND, "no_such_route"),
        (Refusal::RoutesFull, CONFLICT, "routes_full"),
        (Refusal::NobodysAddress, NOT_FOUND, "nobodys_address"),
        (Refusal::LeaseOver, CONFLICT, "lease_over"),
        (Refusal::ServerKey, CONFLICT, "server_key"),
        (Refusal::WrongServer, CONFLICT, "wrong_server"),
    ];
    for (why, status, name) in rows {
        let body = format!(in rt.alloc(); "{{\"error\":\"{name}\"}}").expect(&rt, "memory");
        check(
            &rt,
            Response::Refused(CommandRefusal::from(why)),
            status,
            "",
            &body,
        );
    }
    let rows = [
        (
            Refusal::KeyHeld { number: 7 },
            None,
            r#"{"error":"key_held","number":7}"#,
        ),
        (
            Refusal::AddressHeld,
            Some(3),
            r#"{"error":"address_held","line":3}"#,
        ),
    ];
    for (why, line, body) in rows {
        let refused = CommandRefusal { why, line };
        check(&rt, Response::Refused(refused), CONFLICT, "", body);
    }
}

#[test]
fn faults(rt: HostRuntime) {
    let rows: [(RequestFault, &str, &str, &str); 12] = [
        (
            RequestFault::UnknownToken,
            NOBODY,
            "WWW-Authenticate: Bearer\r\n",
            r#"{"error":"unknown_token"}"#,
        ),
        (
            RequestFault::NoSuchPath,
            NOT_FOUND,
            "",
            r#"{"error":"no_such_path"}"#,
        ),
        (
            RequestFault::WrongMethod(Methods::Get),
            NO_METHOD,
            "Allow: GET\r\n",
            r#"{"error":"wrong_method"}"#,
        ),
        (
            RequestFault::WrongMethod(Methods::Post),
            NO_METHOD,
            "Allow: POST\r\n",
            r#"{"error":"wrong_method"}"#,
        ),
        (
            RequestFault::WrongMethod(Methods::Delete),
            NO_METHOD,
            "Allow: DELETE\r\n",
            r#"{"error":"wrong_method"}"#,
        ),
        (
            RequestFault::BadField(RequestField::Keepalive),
            BAD,
            "",
            r#"{"error":"bad_field","field":"keepalive"}"#,
        ),
        (
            RequestFault::BadDump { line: 3, field: 8 },
            BAD,
            "",
            r#"{"error":"bad_dump","field":8,"line":3}"#,
        ),
        (
            RequestFault::Message(MessageFault::BadHead),
            BAD,
            "",
            r#"{"error":"bad_head"}"#,
        ),
        (
            RequestFault::Message(MessageFault::BadFields),
            BAD,
            "",
            r#"{"error":"bad_head"}"#,
        ),
        (
            RequestFault::Message(MessageFault::TooLarge),
            "413 Content Too Large",
            "",
            r#"{"error":"too_large"}"#,
        ),
        (
            RequestFault::Message(MessageFault::LengthRequired),
            "411 Length Required",
            "",
            r#"{"error":"length_required"}"#,
        ),
        (
            RequestFault::Message(MessageFault::Truncated),
            BAD,
            "",
            r#"{"error":"truncated"}"#,
        ),
    ];
    for (why, status, lines, body) in rows {
        check(&rt, Response::Fault(why), status, lines, body);
    }
}

#[test]
fn whole_replies(rt: HostRuntime) {
    let rows: [(Response<'_>, &[u8]); 5] = [
        (
            Response::ReadOnly,
            b"HTTP/1.1 403 Forbidden\r\nContent-Type: application/json\r\nContent-Length: 21\r\nConnection: close\r\n\r\n{\"error\":\"read_only\"}",
        ),
        (
            Response::NoSuchNetwork,
            b"HTTP/1.1 404 Not Found\r\nContent-Type: application/json\r\nContent-Length: 27\r\nConnection: close\r\n\r\n{\"error\":\"no_such_network\"}",
        ),
        (
            Response::Fault(RequestFault::WrongMethod(Methods::GetOrPost)),
            b"HTTP/1.1 405 Method Not Allowed\r\nContent-Type: application/json\r\nContent-Length: 24\r\nAllow: GET, POST\r\nConnection: close\r\n\r\n{\"error\":\"wrong_method\"}",
        ),
        (
            Response::Fault(RequestFault::BadField(RequestField::Body)),
            b"HTTP/1.1 400 Bad Request\r\nContent-Type: application/json\r\nContent-Length: 36\r\nConnection: close\r\n\r\n{\"error\":\"bad_field\",\"field\":\"body\"}",
        ),
        (
            Response::File(b"[Interface]\nListenPort = 51820\n"),
            b"HTTP/1.1 200 OK\r\nContent-Type: text/plain\r\nContent-Length: 31\r\nConnection: close\r\n\r\n[Interface]\nListenPort = 51820\n",
        ),
    ];
    for (response, wanted) in rows {
        let reply = write_response(rt.alloc(), response).expect(&rt, "memory");
        assert_eq!(rt; reply.bytes.as_slice(), wanted);
    }
    assert_eq!(rt;
        unavailable(),
        b"HTTP/1.1 503 Service Unavailable\r\nContent-Type: application/json\r\nContent-Length: 23\r\nConnection: close\r\n\r\n{\"error\":\"unavailable\"}".as_slice()
    );
}
