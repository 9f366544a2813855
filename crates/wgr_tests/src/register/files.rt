//! Servers' files that are cached between requests: each is the network's at the moment at which it
//! is requested, and at most 64 are kept.
ghost use Rattle.std.specs.Prelude.{[]};

use super::stored::{Meant, empty, opened, run, take, told};
use super::worlds::{BOLT, OFFICE};
use super::{digest, event};
use crate::disks::in_memory;
use crate::shown::Shown;
use sqlite::MemStore;
use std::alloc::{AllocError, AllocGlobal, Global};
use std::process::Abort;
use wgr_plain::Register;
use wgr_register::{Given, Render};

type Stored = wgr_register::Register<MemStore>;

// The file of a server without peers.
const ALONE: &str = "[Interface]\nListenPort = 51820\n";

// The file of the same server with one peer.
const WITH_PEER: &str = "[Interface]\nListenPort = 51820\n\
                         \n\
                         [Peer]\n\
                         PublicKey = AQEBAQEBAQEBAQEBAQEBAQEBAQEBAQEBAQEBAQEBAQE=\n\
                         AllowedIPs = 10.8.0.2/32\n";

// The file of `office` is this at this moment.
fn check_file(rt: &(impl Abort + AllocGlobal), register: &mut Stored, now: u64, want: &str) {
    let event = event(rt, now, "server 1 office wg");
    let told = told(rt, register, &event, &Meant::giving(rt, want));
    assert_eq!(rt; told.as_slice(), b"done".as_slice());
}

#[test]
fn leases_end_in_kept_files(rt: HostRuntime) {
    let mut register = empty(&rt, in_memory(&rt));
    let mut plain = Register::new(rt.alloc());
    run(&rt, &mut register, &mut plain, &OFFICE);
    take(&rt, &mut register, &mut plain, 0, "add 1 office 1 - 100");
    for (now, want) in [
        (50, WITH_PEER),
        (99, WITH_PEER),
        (100, ALONE),
        (99, WITH_PEER),
    ] {
        check_file(&rt, &mut register, now, want);
    }
    let _conn = register.into_connection();
}

#[test]
fn changes_reach_kept_files(rt: HostRuntime) {
    let mut register = empty(&rt, in_memory(&rt));
    let mut plain = Register::new(rt.alloc());
    run(&rt, &mut register, &mut plain, &OFFICE);
    check_file(&rt, &mut register, 0, ALONE);
    take(&rt, &mut register, &mut plain, 0, "add 1 office 1");
    check_file(&rt, &mut register, 0, WITH_PEER);
    take(&rt, &mut register, &mut plain, 0, "end-network acme office");
    run(&rt, &mut register, &mut plain, &OFFICE[2..]);
    check_file(&rt, &mut register, 0, ALONE);
    let _conn = register.into_connection();
}

// After each line this many files are kept.
const COUNTS: [(&str, usize); 12] = [
    ("server 1 office wg", 1),
    ("server 1 office quick", 2),
    ("server 3 office wg", 2),
    ("server 1 lab wg", 2),
    ("add 1 office 9", 2),
    ("add 2 office 1", 2),
    ("tenant cato", 2),
    ("end-network bolt office", 2),
    ("add 1 office 1", 0),
    ("server 1 office quick", 1),
    ("end-network acme lab", 1),
    ("end-network acme office", 0),
];

#[test]
fn files_are_kept_until_a_change(rt: HostRuntime) {
    let mut register = empty(&rt, in_memory(&rt));
    let mut plain = Register::new(rt.alloc());
    run(&rt, &mut register, &mut plain, &OFFICE);
    run(&rt, &mut register, &mut plain, &BOLT);
    assert_eq!(rt; register.cached(), 0);
    for (line, want) in COUNTS {
        take(&rt, &mut register, &mut plain, 0, line);
        assert_eq!(rt; register.cached(), want, "{line}");
    }
    let _conn = register.into_connection();
}

// Fails for lack of memory.
#[derive(Drop)]
struct Full;

impl Render for Full {
    ghost shown = { λ _. [] };

    fn given(&self, _: Global, _: Given<'_>) -> Result<Vec<u8>, AllocError> {
        Err(AllocError)
    }
}

#[test]
fn no_file_is_kept_after_a_fault(rt: HostRuntime) {
    let mut register = empty(&rt, in_memory(&rt));
    let mut plain = Register::new(rt.alloc());
    run(&rt, &mut register, &mut plain, &OFFICE);
    check_file(&rt, &mut register, 0, ALONE);
    assert!(rt;
        register
            .networks(rt.alloc(), &digest(&rt, "1"), &Full)
            .is_err()
    );
    assert_eq!(rt; register.cached(), 0);
    let _conn = register.into_connection();
}

// Takes the lines with each number from 1 to 17, and then back to 1, in place of each `#`.
fn take_each(
    rt: &(impl Abort + AllocGlobal),
    register: &mut Stored,
    plain: &mut Register,
    lines: &[&str],
) {
    for count in 1..=34u64 {
        for line in lines {
            take_numbered(
                rt,
                register,
                plain,
                line,
                count.min(35u64.saturating_sub(count)),
            );
        }
    }
}

fn take_numbered(
    rt: &(impl Abort + AllocGlobal),
    register: &mut Stored,
    plain: &mut Register,
    line: &str,
    number: u64,
) {
    let number = number.to_string(rt.alloc()).expect(rt, "memory");
    let mut text = Shown::new(rt);
    for part in line.split('#') {
        text.separate(&number);
        text.put(part);
    }
    let line = text.into_text();
    let line = str::from_utf8(line.as_slice()).expect(rt, "a text");
    take(rt, register, plain, 0, line);
}

// Networks of both tenants. What is added again is refused.
const ADDED: [&str; 2] = [
    "network acme n# 10.1#.0.0/24 a #",
    "network bolt n# 10.2#.0.0/24 b 9#",
];

const ASKED: [&str; 4] = [
    "server 1 n# wg",
    "server 2 n# wg",
    "server 1 n# quick",
    "server 2 n# quick",
];

#[test]
fn no_more_than_64_files_are_kept(rt: HostRuntime) {
    let mut register = empty(&rt, in_memory(&rt));
    let mut plain = Register::new(rt.alloc());
    run(&rt, &mut register, &mut plain, &OFFICE);
    run(&rt, &mut register, &mut plain, &BOLT);
    take_each(&rt, &mut register, &mut plain, &ADDED);
    take_each(&rt, &mut register, &mut plain, &ASKED);
    assert_eq!(rt; register.cached(), 64);
    register = opened(&rt, register.into_connection()).expect(&rt, "a register");
    assert_eq!(rt; register.cached(), 0);
    take_each(&rt, &mut register, &mut plain, &ASKED);
    assert_eq!(rt; register.cached(), 64);
    let _conn = register.into_connection();
}
