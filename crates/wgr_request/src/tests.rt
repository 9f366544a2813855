//! Digests, paths and bodies in tables. The expected values are those of FIPS 180-2, and follow from
//! RFC 8259 and the formats of requests and replies; no row is copied from this crate's answers.
use crate::{
    BodyFault, Paths, RequestFault, Target, read_add, read_move, read_renew, read_route,
    read_unroute, token_digest,
};
use std::alloc::AllocGlobal;
use std::process::Abort;
use wgr_core::{Command, Form};
use wgr_text::{Addr, Prefix, write_addr, write_key, write_prefix};

mod messages;

#[test]
fn digests(rt: HostRuntime) {
    let abc = token_digest(b"abc").expect(&rt, "a token");
    let wanted =
        b"\xba\x78\x16\xbf\x8f\x01\xcf\xea\x41\x41\x40\xde\x5d\xae\x22\x23\xb0\x03\x61\xa3\x96\x17\x7a\x9c\xb4\x10\xff\x61\xf2\x00\x15\xad";
    assert_eq!(rt; abc, *wanted);
    let two_blocks = b"abcdbcdecdefdefgefghfghighijhijkijkljklmklmnlmnomnopnopq";
    let of_two = token_digest(two_blocks).expect(&rt, "a token");
    let wanted =
        b"\x24\x8d\x6a\x61\xd2\x06\x38\xb8\xe5\xc0\x26\x93\x0c\x3e\x60\x39\xa3\x3c\xe4\x59\x64\xff\x21\x67\xf6\xec\xed\xd4\x19\xdb\x06\xc1";
    assert_eq!(rt; of_two, *wanted);
    assert!(rt; token_digest(b"").is_none() && token_digest(b"a b").is_none());
    assert!(rt; token_digest(&[b'a'; 128]).is_some() && token_digest(&[b'a'; 129]).is_none());
}

/// The text of a table: in it `@` is the key of 32 bytes 0x01.
fn text_of(rt: &(impl Abort + AllocGlobal), row: &[u8]) -> Vec<u8> {
    let mut text = Vec::new(rt.alloc());
    for &byte in row {
        let one = [byte];
        let part = if byte == b'@' {
            b"AQEBAQEBAQEBAQEBAQEBAQEBAQEBAQEBAQEBAQEBAQE=".as_slice()
        } else {
            one.as_slice()
        };
        text.extend_from_slice(part).expect(rt, "memory");
    }
    text
}

/// Puts a word after the others, unless it is empty.
fn put(rt: &(impl Abort + AllocGlobal), out: &mut Vec<u8>, word: &[u8]) {
    if !out.is_empty() && !word.is_empty() {
        out.push(b' ').expect(rt, "memory");
    }
    out.extend_from_slice(word).expect(rt, "memory");
}

fn put_number(rt: &(impl Abort + AllocGlobal), out: &mut Vec<u8>, number: u64) {
    let text = number.to_string(rt.alloc()).expect(rt, "memory");
    put(rt, out, text.as_bytes());
}

/// What a target names: the last part of its path, the name, the number and what else it has.
type Named<'t> = (&'static str, &'t str, u32, &'t str);

fn form_name(form: Form) -> &'static str {
    match form {
        Form::Wg => "wg",
        Form::Quick => "quick",
    }
}

fn named<'t>(target: Target<'t>) -> Named<'t> {
    match target {
        Target::Networks => ("networks", "", 0, ""),
        Target::Peers(name) => ("peers", name, 0, ""),
        Target::Peer(name, number) => ("peer", name, number, ""),
        Target::Address(name, number) => ("address", name, number, ""),
        Target::Routes(name, number) => ("routes", name, number, ""),
        Target::Lease(name, number) => ("lease", name, number, ""),
        Target::PeerFile(name, number, form) => ("file", name, number, form_name(form)),
        Target::Unroute(name) => ("unroute", name, 0, ""),
        Target::Dump(name) => ("dump", name, 0, ""),
        Target::Owner(name, address) => ("owner", name, 0, address),
        Target::ServerFile(name, form) => ("server", name, 0, form_name(form)),
    }
}

/// The words of what is named, or of why nothing is; for a wrong method, the methods of the path.
fn told(rt: &(impl Abort + AllocGlobal), answer: Result<Target<'_>, RequestFault>) -> Vec<u8> {
    let (place, name, number, other) = match answer {
        Ok(target) => named(target),
        Err(RequestFault::NoSuchPath) => ("no path", "", 0, ""),
        Err(RequestFault::WrongMethod(methods)) => ("wrong method", "", 0, methods.text()),
        Err(_) => ("another fault", "", 0, ""),
    };
    let mut out = Vec::new(rt.alloc());
    put(rt, &mut out, place.as_bytes());
    put(rt, &mut out, name.as_bytes());
    if number != 0 {
        put_number(rt, &mut out, u64::from(number));
    }
    put(rt, &mut out, other.as_bytes());
    out
}

#[test]
fn targets(rt: HostRuntime) {
    let paths = Paths::new(rt.alloc()).expect(&rt, "memory");
    let rows = [
        ("GET /networks", "networks"),
        ("GET /networks/a/peers", "peers a"),
        ("POST /networks/office/peers", "peers office"),
        ("DELETE /networks/a/peers/2", "peer a 2"),
        ("POST /networks/a/peers/10/address", "address a 10"),
        ("POST /networks/a/peers/3/routes", "routes a 3"),
        ("POST /networks/a/peers/4/lease", "lease a 4"),
        ("GET /networks/a/peers/5/file/wg", "file a 5 wg"),
        ("GET /networks/a/peers/5/file/quick", "file a 5 quick"),
        ("POST /networks/a/unroute", "unroute a"),
        ("POST /networks/a/dump", "dump a"),
        ("GET /networks/a/owner/fd00::1", "owner a fd00::1"),
        ("GET /networks/A%20/owner/?", "owner A%20 ?"),
        ("GET /networks/a/server/wg", "server a wg"),
        ("GET /networks/a/server/quick", "server a quick"),
        ("DELETE /networks/a/peers/1", "peer a 1"),
        ("DELETE /networks/a/peers/1000000", "peer a 1000000"),
        ("DELETE /networks/a/peers/1000001", "no path"),
        ("DELETE /networks/a/peers/4294967297", "no path"),
        ("DELETE /networks/a/peers/0", "no path"),
        ("DELETE /networks/a/peers/01", "no path"),
        ("DELETE /networks/a/peers/+1", "no path"),
        ("DELETE /networks/a/peers/1a", "no path"),
        ("GET /", "no path"),
        ("GET /networks/", "no path"),
        ("GET /networks?", "no path"),
        ("GET /networks//peers", "no path"),
        ("GET /networks/ä/peers", "no path"),
        ("GET /networks/a/server/ini", "no path"),
        ("PUT /networks/a/peers/01", "no path"),
        ("get /networks", "wrong method GET"),
        ("PUT /networks/office/peers", "wrong method GET, POST"),
        ("GET /networks/office/peers/2", "wrong method DELETE"),
        ("GET /networks/a/peers/2/lease", "wrong method POST"),
        ("GET /networks/a/dump", "wrong method POST"),
        ("POST /networks/a/peers/2/file/wg", "wrong method GET"),
        ("POST /networks/a/owner/10.8.0.2", "wrong method GET"),
    ];
    for (request, wanted) in rows {
        let (method, target) = request.split_once(' ').expect(&rt, "a method");
        let answer = paths.resolve(method.as_bytes(), target.as_bytes());
        assert_eq!(rt; told(&rt, answer).as_slice(), wanted.as_bytes());
    }
}

fn put_address(rt: &(impl Abort + AllocGlobal), out: &mut Vec<u8>, address: Option<Addr>) {
    let mut text = Vec::new(rt.alloc());
    match address {
        Some(address) => write_addr(&address, &mut text).expect(rt, "memory"),
        None => put(rt, &mut text, b"-"),
    }
    put(rt, out, &text);
}

fn put_prefix(rt: &(impl Abort + AllocGlobal), out: &mut Vec<u8>, prefix: &Prefix) {
    let mut text = Vec::new(rt.alloc());
    write_prefix(prefix, &mut text).expect(rt, "memory");
    put(rt, out, &text);
}

/// The fields of a command in their order; a label in brackets. Of a dump it shows nothing.
fn shown(rt: &(impl Abort + AllocGlobal), command: &Command) -> Vec<u8> {
    let mut out = Vec::new(rt.alloc());
    match command {
        Command::Add {
            key,
            label,
            address,
            until,
            keepalive,
        } => {
            write_key(key, &mut out).expect(rt, "memory");
            let note = label.as_str();
            let note = format!(in rt.alloc(); "[{note}]").expect(rt, "memory");
            put(rt, &mut out, note.as_bytes());
            put_address(rt, &mut out, *address);
            put_number(rt, &mut out, until.seconds());
            put_number(rt, &mut out, u64::from(*keepalive));
        }
        Command::Move { number, address } => {
            put_number(rt, &mut out, u64::from(*number));
            put_address(rt, &mut out, *address);
        }
        Command::Route { number, prefix } => {
            put_number(rt, &mut out, u64::from(*number));
            put_prefix(rt, &mut out, prefix);
        }
        Command::Unroute { prefix } => put_prefix(rt, &mut out, prefix),
        Command::Renew { number, until } => {
            put_number(rt, &mut out, u64::from(*number));
            put_number(rt, &mut out, until.seconds());
        }
        Command::Revoke { number } => put_number(rt, &mut out, u64::from(*number)),
        Command::Owner { address } => put_address(rt, &mut out, Some(*address)),
        Command::ServerFile { form } => put(rt, &mut out, form_name(*form).as_bytes()),
        Command::PeerFile { number, form } => {
            put_number(rt, &mut out, u64::from(*number));
            put(rt, &mut out, form_name(*form).as_bytes());
        }
        Command::List | Command::Adopt { .. } => {}
    }
    out
}

/// What is read of a body for this command, of peer 7 where it has a number: the command's fields,
/// or the field that is reported.
fn read(rt: &(impl Abort + AllocGlobal), command: &str, body: &[u8]) -> Vec<u8> {
    let found = match command {
        "add" => read_add(rt.alloc(), body),
        "move" => read_move(rt.alloc(), 7, body),
        "route" => read_route(rt.alloc(), 7, body),
        "unroute" => read_unroute(rt.alloc(), body),
        _ => read_renew(rt.alloc(), 7, body),
    };
    match found {
        Ok(command) => shown(rt, &command),
        Err(BodyFault::Refused(RequestFault::BadField(field))) => text_of(
            rt,
            field.name().as_bytes(),
        ),
        Err(_) => text_of(rt, b"another fault"),
    }
}

const BODIES: &[(&str, &[u8], &[u8])] = &[
    ("add", br#"{"key":"@"}"#, b"@ [] - 0 0"),
    (
        "add",
        br#"{"key":"@","label":"a \"b\" \\","address":"10.8.0.2","end":9007199254740991,"keepalive":65535}"#,
        br#"@ [a "b" \] 10.8.0.2 9007199254740991 65535"#,
    ),
    (
        "add",
        b" {\"keepalive\":25,\n\"end\":1,\t\"address\":\"FD00:0::2/128\",\"label\":\"\\u0041~\",\"key\":\"@\"}\r\n",
        b"@ [A~] fd00::2 1 25",
    ),
    ("add", br#"{"key":0,"key":"@"}"#, b"@ [] - 0 0"),
    ("add", b"", b"body"),
    ("add", b"null", b"body"),
    ("add", br#"["key"]"#, b"body"),
    ("add", br#"{"key":"@""#, b"body"),
    ("add", br#"{"key":"@"}}"#, b"body"),
    ("add", b"{\"key\":\"@\",\"label\":\"\xC3\"}", b"body"),
    ("add", br#"{"key":"@","extra":0}"#, b"body"),
    ("add", br#"{"key":"@","Label":""}"#, b"body"),
    ("add", br#"{"key":"@","number":1}"#, b"body"),
    ("add", br#"{"prefix":"10.8.0.9","key":0}"#, b"body"),
    ("add", b"{}", b"key"),
    ("add", br#"{"key":null}"#, b"key"),
    ("add", br#"{"key":"@="}"#, b"key"),
    (
        "add",
        br#"{"keepalive":"0","end":"0","address":0,"label":0,"key":0}"#,
        b"key",
    ),
    (
        "add",
        br#"{"keepalive":"0","end":"0","address":0,"label":0,"key":"@"}"#,
        b"label",
    ),
    (
        "add",
        br#"{"keepalive":"0","end":"0","address":0,"key":"@"}"#,
        b"address",
    ),
    ("add", br#"{"keepalive":"0","end":"0","key":"@"}"#, b"end"),
    ("add", br#"{"keepalive":"0","key":"@"}"#, b"keepalive"),
    ("add", br#"{"key":"@","label":"\n"}"#, b"label"),
    ("add", b"{\"key\":\"@\",\"label\":\"\xC3\xA4\"}", b"label"),
    ("add", br#"{"key":"@","address":null}"#, b"address"),
    ("add", br#"{"key":"@","address":"10.8.0.2/24"}"#, b"address"),
    ("add", br#"{"key":"@","end":9007199254740992}"#, b"end"),
    ("add", br#"{"key":"@","end":-1}"#, b"end"),
    ("add", br#"{"key":"@","end":1.0}"#, b"end"),
    ("add", br#"{"key":"@","keepalive":65536}"#, b"keepalive"),
    ("move", b"{}", b"7 -"),
    ("move", br#"{"address":"10.8.0.5/32"}"#, b"7 10.8.0.5"),
    ("move", br#"{"address":""}"#, b"address"),
    ("move", br#"{"address":"10.8.0.5","key":"@"}"#, b"body"),
    (
        "route",
        br#"{"prefix":"192.168.4.7/24"}"#,
        b"7 192.168.4.0/24",
    ),
    ("route", b"{}", b"prefix"),
    ("route", br#"{"prefix":"10.8.0.0/33"}"#, b"prefix"),
    ("route", br#"{"prefix":"10.8.0.9","end":0}"#, b"body"),
    ("unroute", br#"{"prefix":"FD00:4::1/64"}"#, b"fd00:4::/64"),
    ("unroute", br#"{"prefix":0}"#, b"prefix"),
    ("unroute", br#"{"prefix":"::","address":"::"}"#, b"body"),
    ("renew", br#"{"end":0}"#, b"7 0"),
    (
        "renew",
        br#"{"end":9007199254740991}"#,
        b"7 9007199254740991",
    ),
    ("renew", b"{}", b"end"),
    ("renew", br#"{"end":9007199254740992}"#, b"end"),
    ("renew", br#"{"end":1,"keepalive":1}"#, b"body"),
];

#[test]
fn bodies(rt: HostRuntime) {
    for &(command, body, wanted) in BODIES {
        let found = read(&rt, command, &text_of(&rt, body));
        assert_eq!(rt; found.as_slice(), text_of(&rt, wanted).as_slice());
    }
    assert_eq!(rt;
        read(&rt, "add", &[b'['; 1000]).as_slice(),
        b"body".as_slice()
    );
}
