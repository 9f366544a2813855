//! Random events on the register in a database and on a plain one in parallel: at each step the answers
//! are the same, and so is all to which each token gives access.
ghost use Rattle.std.specs.Prelude.{◌<◌};

use super::digest;
use super::stored::{NETWORKS, empty, opened, run, take};
use crate::disks::{in_memory, in_new_files};
use crate::network::is_same;
use crate::rows::rows;
use crate::shown::Shown;
use sqlite::{Alter, Connection};
use std::alloc::AllocGlobal;
use std::process::Abort;
use wgr_core::{Name, Network};
use wgr_entries::{network_id, tenant_of_token};
use wgr_plain::{Answer, Event, Register};
use wgr_tables::load_network;

// Events, in which a capital denotes one of its choices. Events that should be more frequent are listed
// more often.
const LINES: [&str; 35] = [
    "tenant T",
    "grant T D",
    "grant T D",
    "end-token D",
    "network T N L H P C",
    "network T N L H P C",
    "network T N L H P C",
    "end-network T N",
    "networks D",
    "list D N",
    "owner D N A",
    "owner D N A",
    "owner D N A",
    "server D N F",
    "file D N I F",
    "add D N K - E",
    "add D N K - E",
    "add D N K - E",
    "add D N K - E",
    "add D N K A E",
    "add D N K A E",
    "move D N I",
    "move D N I A",
    "revoke D N I",
    "route D N I R",
    "route D N I R",
    "route D N I R",
    "route D N I R",
    "unroute D N R",
    "renew D N I E",
    "renew D N I E",
    "adopt D N S",
    "adopt D N S",
    "add 1 office K - E",
    "add 2 office K - E",
];

// Pools, and prefixes that are not valid pools.
const POOLS: [&str; 9] = [
    "10.8.0.0/24",
    "10.8.0.0/29",
    "10.8.0.8/29",
    "10.12.0.0/28",
    "10.0.0.0/8",
    "10.8.0.1/24",
    "10.8.1.0/31",
    "fd00::/64",
    "fd00::/126",
];

// Prefixes of routes.
const PREFIXES: [&str; 7] = [
    "192.168.4.0/24",
    "192.168.4.7/24",
    "10.8.0.2/31",
    "10.8.0.3/32",
    "10.9.0.0/24",
    "fd00:9::/64",
    "0.0.0.0/0",
];

// What interfaces show.
const DUMPS: [&str; 5] = [
    "9",
    "-|1 7 25 10.8.0.2/32",
    "9|2 8 0|3 9 25 192.168.4.0/24 10.9.0.4/32",
    "-|4 1 0 10.9.0.5/32 10.8.0.5/32|5 2 0 fd00:9::/64",
    "7|1 7 25",
];

// What a capital of a line denotes; another word denotes itself.
fn choices(word: &str) -> &'static [&'static str] {
    match word {
        "T" => &["acme", "acme", "bolt", "bolt", "cato", "nobody"],
        "D" => &["1", "1", "2", "2", "3"],
        "N" => &["office", "office", "office", "lab", "none"],
        "L" => &POOLS,
        "H" => &["h", "H", "vpn.example.net", "2001:DB8::1"],
        "P" => &["1", "2", "3", "4", "5", "51820"],
        "C" => &["1", "3", "4096"],
        "K" => &["1", "2", "3", "4", "5", "6", "9"],
        "A" => &["10.8.0.2", "10.8.0.3", "10.9.0.4", "10.9.0.255", "fd00::2"],
        "E" => &["0", "0", "50", "100", "150", "200"],
        "I" => &["1", "1", "2", "2", "3", "4", "9"],
        "R" => &PREFIXES,
        "F" => &["wg", "quick"],
        "S" => &DUMPS,
        _ => &[],
    }
}

// Random numbers, from a linear congruential generator.
#[derive(Drop)]
struct Dice {
    state: u64,
}

impl Dice {
    // A number below this one, which is not 0.
    fn below(&mut self, bound: u64) -> u64
        requires { 0 < bound }
    {
        self.state = self
            .state
            .wrapping_mul(6_364_136_223_846_793_005)
            .wrapping_add(1_442_695_040_888_963_407);
        (self.state >> 33) % bound
    }

    // One of the texts, or an empty one where there is none.
    fn choose<'a>(&mut self, texts: &[&'a str]) -> &'a str {
        if texts.is_empty() {
            return "";
        }
        let at = self.below(texts.len() as u64);
        texts.get(at as usize).copied().unwrap_or("")
    }

    // The text of an event.
    fn line(&mut self, rt: &(impl Abort + AllocGlobal)) -> Vec<u8> {
        let mut text = Shown::new(rt);
        for part in self.choose(&LINES).split(' ') {
            text.separate(" ");
            let choices = choices(part);
            text.put(if choices.is_empty() {
                part
            } else {
                self.choose(choices)
            });
        }
        text.into_text()
    }
}

// Whether the tenant has this network, with these peers, routes and numbers.
fn has_network<S: Alter + Drop>(
    rt: &(impl Abort + AllocGlobal),
    conn: &mut Connection<S>,
    tenant: u32,
    name: &Name,
    network: &Network,
) -> bool {
    assert!(rt; conn.is_autocommit());
    let id = network_id(conn, tenant, name)
        .expect(rt, "rows")
        .expect(rt, "a network");
    assert!(rt; conn.is_autocommit());
    let loaded = load_network(rt.alloc(), conn, id)
        .expect(rt, "rows")
        .expect(rt, "a network");
    is_same(&loaded, network)
}

// The networks of the tenant of a token are these.
fn check_networks<S: Alter + Drop>(
    rt: &(impl Abort + AllocGlobal),
    conn: &mut Connection<S>,
    tenant: u32,
    networks: &[(Name, Network)],
) {
    for entry in networks {
        assert!(rt; has_network(rt, conn, tenant, &entry.0, &entry.1));
    }
}

// What a token gives access to is the same in the rows as in the plain register. The names of its networks are
// put into the text, as the query `NAMES` shows them.
fn check_view<S: Alter + Drop>(
    rt: &(impl Abort + AllocGlobal),
    conn: &mut Connection<S>,
    plain: &mut Register,
    token: &str,
    text: &mut Shown<'_, impl Abort + AllocGlobal>,
) {
    let digest = digest(rt, token);
    assert!(rt; conn.is_autocommit());
    let tenant = tenant_of_token(conn, &digest).expect(rt, "rows");
    let answer = plain.answer(rt.alloc(), &Event::Networks { digest });
    match answer.expect(rt, "memory") {
        Answer::Listed(networks) => {
            check_networks(rt, conn, tenant.expect(rt, "a tenant"), networks.as_slice());
            put_names(token, networks.as_slice(), text);
        }
        _ => assert!(rt; tenant.is_none()),
    }
}

fn put_names(
    token: &str,
    networks: &[(Name, Network)],
    text: &mut Shown<'_, impl Abort + AllocGlobal>,
) {
    for entry in networks {
        text.separate("; ");
        text.put("32*");
        text.put(token);
        text.put(" ");
        text.put(entry.0.as_str());
    }
}

const NAMES: &str =
    "SELECT digest, name FROM token JOIN network ON network.tenant = token.tenant ORDER BY digest, name";

// All that tokens give access to is the same in the rows as in the plain register.
fn check_views<S: Alter + Drop>(
    rt: &(impl Abort + AllocGlobal),
    conn: &mut Connection<S>,
    plain: &mut Register,
) {
    let mut text = Shown::new(rt);
    for token in ["1", "2", "3"] {
        check_view(rt, conn, plain, token, &mut text);
    }
    assert_eq!(rt;
        rows(rt, conn, NAMES).as_slice(),
        text.into_text().as_slice()
    );
}

// What is asked before and after each event, so that networks are in memory.
const FILES: [&str; 3] = [
    "server 1 office wg",
    "server 2 office wg",
    "server 2 office quick",
];

// Asks both registers for these files, each at a random moment.
fn take_files<S: Alter + Drop>(
    rt: &(impl Abort + AllocGlobal),
    register: &mut wgr_register::Register<S>,
    plain: &mut Register,
    dice: &mut Dice,
    files: &[&str],
) {
    for line in files {
        take(rt, register, plain, dice.below(200), line);
    }
}

// Applies a random event to both registers, and asks for these files before and after it; compares all
// views, and opens the register anew.
fn check_next<S: Alter + Drop>(
    rt: &(impl Abort + AllocGlobal),
    mut register: wgr_register::Register<S>,
    plain: &mut Register,
    dice: &mut Dice,
    files: &[&str],
) -> wgr_register::Register<S> {
    let line = dice.line(rt);
    let now = dice.below(200);
    let line = str::from_utf8(line.as_slice()).expect(rt, "a text");
    take_files(rt, &mut register, plain, dice, files);
    take(rt, &mut register, plain, now, line);
    take_files(rt, &mut register, plain, dice, files);
    let mut conn = register.into_connection();
    check_views(rt, &mut conn, plain);
    opened(rt, conn).expect(rt, "a register")
}

fn check_random<S: Alter + Drop>(
    rt: &(impl Abort + AllocGlobal),
    conn: Connection<S>,
    seed: u64,
    files: &[&str],
) {
    let mut plain = Register::new(rt.alloc());
    let mut register = empty(rt, conn);
    run(rt, &mut register, &mut plain, &NETWORKS);
    let mut dice = Dice { state: seed };
    for _ in 0..60u32 {
        register = check_next(rt, register, &mut plain, &mut dice, files);
    }
    let _conn = register.into_connection();
}

#[test]
fn random_events(rt: HostRuntime) {
    check_random(&rt, in_memory(&rt), 1, &FILES);
}

#[test]
fn other_random_events(rt: HostRuntime) {
    check_random(&rt, in_memory(&rt), 2, &FILES);
}

#[test]
fn more_random_events(rt: HostRuntime) {
    check_random(&rt, in_memory(&rt), 3, &FILES);
}

#[test]
fn even_more_random_events(rt: HostRuntime) {
    check_random(&rt, in_memory(&rt), 4, &FILES);
}

#[test]
fn random_events_in_files(rt: HostRuntime) {
    check_random(&rt, in_new_files(&rt), 5, &FILES);
}

// No network is in memory at an event, so new peers and owners are answered by rows.
#[test]
fn random_events_by_rows(rt: HostRuntime) {
    check_random(&rt, in_memory(&rt), 6, &[]);
}

#[test]
fn more_random_events_by_rows(rt: HostRuntime) {
    check_random(&rt, in_new_files(&rt), 7, &[]);
}
