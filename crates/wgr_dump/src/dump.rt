//! A dump as a whole.
ghost use Rattle.std.specs.Prelude.{◌≡◌, ◌<◌, ◌+◌, ℕ, List, length, IfOk, IfErr, MatchOption};
ghost use Rattle.wgr_dump.specs.Fields.{OneByOne};
ghost use Rattle.wgr_dump.specs.Dump.{LineValue, IsPeerLine, IsDump};
ghost use Rattle.wgr_text.specs.Lines.{lines_of};
ghost use Rattle.wgr_dump.specs.Fault.{IsBadPeer, IsFirstBad};
ghost use Rattle.wgr_dump.specs.MeantLines.{MeantLines, MeantLines-prop};

use crate::interface::InterfaceLine;
use crate::lines::Lines;
use crate::peer_line::PeerLine;
use std::marker::Model;
use wgr_text::first_line;

/// Where a text stops being a dump: its first bad line, and in it the least field that is absent,
/// not of its form, or one too many.
#[derive(Clone, Copy, Debug, PartialEq, Eq)]
pub struct BadDump {
    /// The line, counted from 1.
    pub line: usize,
    /// The field, counted from 1: at most 5 on the first line, and 9 on the others.
    pub field: u8,
}

/// What `wg show <interface> dump` prints (wg(8)): a line of the interface, and a line of each peer.
#[derive(Drop)]
pub struct Dump<'a> {
    interface: InterfaceLine<'a>,
    peers: &'a [u8],
    ghost known: { MeantLines (lines_of peers.now) } by { MeantLines-prop (lines_of peers.now) },
}

impl<'a> Model for Dump<'a> {
    ghost use Rattle.wgr_dump.specs.Dump.{DumpValue, IsPeerLine};
    ghost use Rattle.wgr_text.specs.Lines.{lines_of};
    ghost use Rattle.wgr_dump.specs.Meant.{meant};

    ghost Value = { DumpValue };

    ghost view = { λ d. record { interface = d.interface; lines = meant IsPeerLine (lines_of d.peers.now) d.known } };
}

impl<'a> Dump<'a> {
    /// The dump that the whole text is. It reads the text once, and allocates no memory.
    pub fn open(text: &'a [u8]) -> Result<Dump<'a>, BadDump>
        ensures ok { IfOk result (λ d. IsDump text.entry.now d.interface d.lines) }
        ensures err { IfErr result (λ bad. IsFirstBad text.entry.now bad.line bad.field) }
    {
        let (first, peers) = first_line(text);
        let interface = match InterfaceLine::read(first) {
            Ok(interface) => interface,
            Err(field) => return Err(BadDump { line: 1, field }),
        };
        if let Some(bad) = first_bad_peer(peers) {
            return Err(bad);
        }
        Ok(Dump { interface, peers })
    }

    /// The interface's line.
    pub fn interface(&self) -> InterfaceLine<'a>
        ensures { result ≡ self.now.interface }
    {
        self.interface.again()
    }

    /// The lines of the peers, in order.
    pub fn lines(&self) -> Lines<'a>
        ensures { result ≡ self.now.lines }
    {
        Lines { rest: self.peers }
    }
}

// The first bad line of peers, after the line of the interface, if there is one.
fn first_bad_peer(peers: &[u8]) -> Option<BadDump>
    requires { length peers.now < usize.MAX }
    ensures { MatchOption result ((lines : List LineValue) × OneByOne IsPeerLine (lines_of peers.now) lines) (λ bad. (line : ℕ) × (n : ℕ) × (bad.line ≡ line + 2) × (bad.field ≡ n + 1) × IsBadPeer (lines_of peers.now) line n) }
{
    let mut rest = peers;
    let mut good: usize = 0;
    while !rest.is_empty() {
        let (line, others) = first_line(rest);
        if let Err(field) = PeerLine::read(line) {
            return Some(BadDump {
                line: good + 2,
                field,
            });
        }
        rest = others;
        good += 1;
    }
    None
}
